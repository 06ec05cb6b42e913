// Why an event changes nothing.
use frs_base::{Gvsn, Kind, Sum, Uid};
use std::error::Error;
use std::fmt;
use vol_state::Refused;
use win_order::{Key, Unfit};

/// Why an event changes nothing. The refusals of one event are looked at in this order.
#[derive(Clone, Copy, Debug, PartialEq, Eq)]
pub enum Refusal {
    /// A local operation isn't possible.
    Local(Refused),
    /// The clock of the update that a journal record makes would be 2^62 or more.
    Skewed { clock: u64 },
    /// The local journal record with this USN is to be consumed before anything is installed.
    NotYet { usn: u64 },
    /// An update isn't one that a member takes.
    Unfit(Unfit),
    /// An update, its file or a vector has a version of the member's own database that the member
    /// hasn't consumed.
    OwnAhead { version: u64 },
    /// An update is of a directory where the member has a file, or the other way round.
    KindDiffers { held: Kind },
    /// The member's record of the file, with this key, stands against the update.
    Beaten { held: Key },
    /// The member covers the version of an update that isn't its record.
    Doubled { gvsn: Gvsn },
    /// The form of a present file is none of a local file, from this place on. Without a form it is
    /// this at 0.
    MarshalBad { at: u64 },
    /// The form of a present file has another sum than its update says.
    HashDiffers { want: Sum, got: Sum },
    /// An update of the round's pages, of this file, is neither held nor beaten.
    Unheld { uid: Uid },
    /// The vector would have this many intervals, more than 65,536.
    VectorFull { count: u64 },
}

impl fmt::Display for Refusal {
    ghost use Rattle.std.specs.Prelude.{Some};
    ghost use Rattle.folder_core.specs.Texts.{refusal_text};

    ghost output = { λ why. Some (refusal_text why) };

    fn fmt<W: fmt::Write>(&self, f: &mut fmt::Formatter<W>) -> fmt::Result {
        match self {
            Refusal::Local(why) => write!(f, "{why}"),
            Refusal::Skewed { clock } => write!(f, "the clock {clock} is too far ahead"),
            Refusal::NotYet { usn } => write!(
                f,
                "the journal record {usn} is to be consumed first"
            ),
            Refusal::Unfit(why) => write!(f, "{why}"),
            Refusal::OwnAhead { version } => write!(f, "the own version {version} isn't made yet"),
            Refusal::KindDiffers { held } => match held {
                Kind::File => write!(f, "a directory in place of a file"),
                Kind::Directory => write!(f, "a file in place of a directory"),
            },
            Refusal::Beaten { held: _ } => write!(f, "the record that is held stands"),
            Refusal::Doubled { gvsn } => write!(f, "version {} is covered", gvsn.version),
            Refusal::MarshalBad { at } => write!(f, "no form of a file at byte {at}"),
            Refusal::HashDiffers { want: _, got: _ } => write!(f, "the form has another sum"),
            Refusal::Unheld { uid } => write!(f, "the file {} isn't held", uid.version),
            Refusal::VectorFull { count } => write!(f, "a vector of {count} intervals"),
        }
    }
}

impl Error for Refusal {}
