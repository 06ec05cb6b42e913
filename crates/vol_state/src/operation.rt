// What may be done by path, and why it is refused.
ghost use Rattle.std.specs.Prelude.{Some};
ghost use Rattle.vol_state.specs.Refusals.{refusal_text};

use frs_base::{Bytes, List, Name};
use std::error::Error;
use std::fmt;

/// A local operation. A path is resolved from the root, component by component, by names that
/// match.
#[derive(Debug, Drop, PartialEq, Eq)]
pub enum LocalOp {
    /// Overwrites the file there, which keeps its name, or makes one.
    Put { path: List<Name>, bytes: Bytes },
    /// Makes a directory.
    Mkdir { path: List<Name> },
    /// Gives an object a new place.
    Move { from: List<Name>, to: List<Name> },
    /// Removes a file or an empty directory.
    Remove { path: List<Name> },
}

/// Why a local operation is refused.
#[derive(Clone, Copy, Debug, PartialEq, Eq)]
pub enum Refused {
    /// The contents have this many bytes, more than 1,048,576.
    TooLarge { length: u64 },
    /// Nothing stands at a component of the path, or it has none.
    NoPath,
    /// A component that should be a directory is a file.
    NotDirectory,
    /// The new place is the object itself or beneath it.
    Looped,
    /// Something stands there already.
    NameTaken,
    /// Something stands in the directory.
    NotEmpty,
}

impl fmt::Display for Refused {
    ghost output = { λ why. Some (refusal_text why) };

    fn fmt<W: fmt::Write>(&self, f: &mut fmt::Formatter<W>) -> fmt::Result {
        match self {
            Refused::TooLarge { length } => write!(f, "{length} bytes are too many for a file"),
            Refused::NoPath => write!(f, "no such path"),
            Refused::NotDirectory => write!(f, "a file in place of a directory"),
            Refused::Looped => write!(f, "a directory can't be moved into itself"),
            Refused::NameTaken => write!(f, "the name is taken"),
            Refused::NotEmpty => write!(f, "the directory isn't empty"),
        }
    }
}

impl Error for Refused {}
