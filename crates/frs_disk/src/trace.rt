// The states that a disk in memory went through, the newest first. They exist in proofs alone, and
// take no memory.
ghost use Rattle.std.specs.Prelude.{◌≡◌, ◌∷◌, [], List};
ghost use Rattle.std.specs.Borrow.{ftrue};
ghost use Rattle.frs_disk.specs.Crashes.{Crash, still};
ghost use Rattle.frs_disk.specs.Traces.{states_code};

use std::marker::Model;

/// The states of a disk in memory, which contracts alone see.
#[derive(Drop)]
pub struct Trace {
    pub ghost states: { List Crash } by { states_code },
}

impl Model for Trace {
    ghost also_owns = { λ _. ftrue };
}

/// A call on a disk in memory. It is lost where the disk stopped without what was done since the
/// last sync.
#[derive(Clone, Copy, Drop)]
pub enum Change<'a> {
    Write {
        at: usize,
        bytes: &'a [u8],
        lost: bool,
    },
    Cut {
        length: usize,
        lost: bool,
    },
    Sync {
        lost: bool,
    },
    /// The disk begins anew with what a read gives, all of it made sure of.
    Restart,
}

impl Trace {
    ghost use Rattle.frs_disk.specs.Changes.{changed};

    /// A disk with no bytes.
    pub fn new() -> Trace
        ensures { result.states ≡ still [] ∷ [] }
    {
        Trace {}
    }

    /// One call more.
    #[inline(always)]
    pub fn then(&self, _change: &Change<'_>) -> Trace
        ensures { result.states ≡ changed _change.now self.now.states }
    {
        Trace {}
    }
}

// It has no bytes and owns nothing.
unsafe impl Send for Trace {}
