// The lines of a script.
use frs_base::{Bytes, List, MemberKind, Name};

/// A line of a script that says something.
///
/// `name` is a member's, of 1 to 8 letters a to z. A path has 1 to 64 components from the root
/// down, each of 1 to 255 characters from 0x21 to 0x7E without `/` and `\`, as UTF-16 units. A
/// moment is below 2^61, in whatever unit the script counts.
#[derive(Debug, PartialEq, Eq, Drop)]
pub enum Line {
    /// `member M primary` or `member M plain`: makes a member on fresh disks.
    Member {
        /// The new member's name.
        name: Bytes,
        /// Whether its first changes win over a plain member's.
        kind: MemberKind,
    },
    /// `put M P TEXT`: makes a file, or gives it new contents.
    Put {
        /// The member that does it.
        name: Bytes,
        /// The file.
        path: List<Name>,
        /// The contents: UTF-8 within one row, which may be empty and have blanks at its ends.
        text: Bytes,
    },
    /// `fill M P L`: as `put`, with contents of a pattern.
    Fill {
        /// The member that does it.
        name: Bytes,
        /// The file.
        path: List<Name>,
        /// How many bytes the contents have, below 2^32; byte i is i mod 251.
        length: u64,
    },
    /// `mkdir M P`: makes a directory.
    Mkdir {
        /// The member that does it.
        name: Bytes,
        /// The directory.
        path: List<Name>,
    },
    /// `move M P Q`: gives a file or directory another place or name.
    Move {
        /// The member that does it.
        name: Bytes,
        /// Where it is.
        from: List<Name>,
        /// Where it is then.
        to: List<Name>,
    },
    /// `remove M P`: removes a file or an empty directory.
    Remove {
        /// The member that does it.
        name: Bytes,
        /// What is removed.
        path: List<Name>,
    },
    /// `consume M T`: consumes one record of the journal.
    Consume {
        /// The member whose journal it is.
        name: Bytes,
        /// The moment of it.
        moment: u64,
    },
    /// `change M P T`: puts empty contents and consumes what is left of the journal.
    Change {
        /// The member that does it.
        name: Bytes,
        /// The file.
        path: List<Name>,
        /// The moment of consuming.
        moment: u64,
    },
    /// `pull M N`: brings a member what another one has.
    Pull {
        /// The member that pulls.
        name: Bytes,
        /// The member that it pulls from.
        other: Bytes,
    },
    /// `install M`: does the next step that brings a member's volume nearer its records.
    Install {
        /// The member.
        name: Bytes,
    },
    /// `drain M`: does such steps until none is left.
    Drain {
        /// The member.
        name: Bytes,
    },
    /// `show M`: prints what a member covers, and its records.
    Show {
        /// The member.
        name: Bytes,
    },
    /// `tree M`: prints a member's volume from its root.
    Tree {
        /// The member.
        name: Bytes,
    },
    /// `sums M`: prints the sums of the files of a member's volume.
    Sums {
        /// The member.
        name: Bytes,
    },
    /// `count M`: prints how much a member has.
    Count {
        /// The member.
        name: Bytes,
    },
}
