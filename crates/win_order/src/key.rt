// By what updates of one file are ordered.
ghost use Rattle.std.specs.Prelude.{◌≡◌};

use frs_base::Gvsn;

/// By what updates of one file or directory are ordered, the most telling field first.
#[derive(Clone, Copy, Debug, PartialEq, Eq, PartialOrd, Ord)]
pub struct Key {
    /// Whose first contents the folder takes.
    pub fence: u64,
    /// When the update was made, as a moment or one past the clock that it replaced.
    pub clock: u64,
    /// When the file was made.
    pub created: u64,
    /// The version that made the update, which decides where all else is equal.
    pub gvsn: Gvsn,
}

impl Key {
    ghost use Rattle.win_order.specs.Order.{key_lt};

    /// This key is the lower.
    pub(crate) fn is_below(&self, other: &Key) -> bool
        ensures { result ≡ key_lt self.now other.now }
    {
        self < other
    }
}
