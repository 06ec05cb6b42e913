// Updates that a member refuses to take.
ghost use Rattle.std.specs.Prelude.{◌≡◌};
ghost use Rattle.std.specs.Result.{result_err};
ghost use Rattle.win_order.specs.Refusals.{is_skewed, unfit_of};

use crate::Update;
use frs_base::{Guid, Uid};
use std::error::Error;
use std::fmt;

/// The lowest fence or clock that is too far ahead.
const SKEWED: u64 = 1 << 62;

/// The lowest version that a journal gives.
const FIRST_VERSION: u64 = 9;

/// The flag of a compressed stream.
const COMPRESSED: u32 = 1;

/// The version in the root's UID.
const ROOT_VERSION: u64 = 1;

/// Why an update is not taken.
#[derive(Clone, Copy, Debug, PartialEq, Eq)]
pub enum Unfit {
    /// It belongs to another content set.
    WrongSet,
    /// Its stream is compressed.
    Compressed,
    /// Its fence or clock is 2^62 or more.
    Skewed,
    /// Its version is below 9, which no journal gives, or 2^64 − 1, past which no version comes.
    Version,
    /// It is of the folder's root, which no update names.
    Root,
}

impl fmt::Display for Unfit {
    ghost use Rattle.std.specs.Prelude.{Some};
    ghost use Rattle.win_order.specs.Texts.{unfit_text};

    ghost output = { λ why. Some (unfit_text why) };

    fn fmt<W: fmt::Write>(&self, f: &mut fmt::Formatter<W>) -> fmt::Result {
        match self {
            Unfit::WrongSet => write!(f, "of another content set"),
            Unfit::Compressed => write!(f, "a compressed stream"),
            Unfit::Skewed => write!(f, "a fence or clock too far ahead"),
            Unfit::Version => write!(f, "a version that no journal gives"),
            Unfit::Root => write!(f, "of the root"),
        }
    }
}

impl Error for Unfit {}

/// The update's fence or clock is too far ahead.
fn is_skewed(update: &Update) -> bool
    ensures { result ≡ is_skewed update.now }
{
    update.fence >= SKEWED || update.clock >= SKEWED
}

/// Whether a member of this content set takes the update: the error is the first reason against
/// it, in the order of [`Unfit`].
pub fn admit(update: &Update, set: Guid) -> Result<(), Unfit>
    ensures { result_err result ≡ unfit_of update.now set }
{
    let root = Uid {
        db: set,
        version: ROOT_VERSION,
    };
    let version = update.gvsn.version;
    if update.set != set {
        Err(Unfit::WrongSet)
    } else if update.flags & COMPRESSED == COMPRESSED {
        Err(Unfit::Compressed)
    } else if is_skewed(update) {
        Err(Unfit::Skewed)
    } else if version < FIRST_VERSION || version == u64::MAX {
        Err(Unfit::Version)
    } else if update.uid == root {
        Err(Unfit::Root)
    } else {
        Ok(())
    }
}
