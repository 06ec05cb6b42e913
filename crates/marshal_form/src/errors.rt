// Why bytes are no form.
ghost use Rattle.std.specs.Prelude.{Some};
ghost use Rattle.marshal_form.specs.Refusals.{bad_text};

use std::error::Error;
use std::fmt;

/// Bytes are no form of a file.
#[derive(Clone, Copy, Debug, PartialEq, Eq)]
pub struct MarshalBad {
    /// The place of the first field that is missing, wrong or cut off, or of the first byte that is
    /// left over.
    pub at: usize,
}

impl fmt::Display for MarshalBad {
    ghost output = { λ e. Some (bad_text e) };

    fn fmt<W: fmt::Write>(&self, f: &mut fmt::Formatter<W>) -> fmt::Result {
        write!(f, "no marshalled form at byte {}", self.at)
    }
}

impl Error for MarshalBad {}
