ghost use Rattle.std.specs.Prelude.{◌≡◌, ◌<◌, List, ℕ, take, length, IfOk, MatchResult};
ghost use Rattle.std.specs.declared.option.Option.{Option};
ghost use Rattle.std.specs.Io.{ReadsAtMost};
ghost use Rattle.std.specs.Io.KnownBytes.{IsAtEnd};
ghost use Rattle.frs_io.specs.Told.{Gives};
ghost use Rattle.frs_io.specs.Causes.{HasCause};

use std::error::Error;
use std::fmt;

/// A call failed, and its object counted it.
#[derive(Clone, Copy, Debug, PartialEq, Eq)]
pub struct Failed;

impl fmt::Display for Failed {
    fn fmt<W: fmt::Write>(&self, f: &mut fmt::Formatter<W>) -> fmt::Result {
        write!(f, "the call failed")
    }
}

impl Error for Failed {}

/// Where bytes are read.
pub trait Source {
    /// The bytes left to read, where the source tells them.
    ghost left: { Self → Option (List ℕ) };

    /// How many calls on it failed.
    ghost faults: { Self → ℕ };

    /// Reads into the buffer and answers how many bytes it put there, at its front. 0 for a buffer
    /// that isn't empty is the end.
    fn read(&mut self, buf: &mut [u8]) -> Result<usize, Failed>
        ensures bound { ReadsAtMost result buf.new }
        ensures given { MatchResult result
            (λ n. Gives (left self.old) (left self.new) (take n buf.new))
            (λ _. left self.new ≡ left self.old) }
        ensures end { IfOk result (λ n. n ≡ 0 → 0 < length buf.new → IsAtEnd (left self.new)) }
        ensures cause { HasCause (faults self.old) (faults self.new) result };
}
