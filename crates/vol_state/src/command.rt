// What is done to a volume, its paths and UIDs resolved.
ghost use Rattle.std.specs.Prelude.{◌≡◌, [], MatchOption};
ghost use Rattle.vol_state.specs.Sums.{IsBrought};

use frs_base::{Bytes, Kind, Name, Sum, Uid};
use std::marker::Model;

/// A change of a volume. Objects go by their numbers.
#[derive(Debug, Drop, PartialEq, Eq)]
pub enum VolCmd {
    /// A local put where nothing stands.
    PutNew {
        parent: u64,
        name: Name,
        bytes: Bytes,
    },
    /// A local put over a file.
    PutOver {
        fid: u64,
        bytes: Bytes,
    },
    /// A local new directory.
    Mkdir {
        parent: u64,
        name: Name,
    },
    /// A local move.
    Move {
        fid: u64,
        parent: u64,
        name: Name,
    },
    /// A local removal.
    Remove {
        fid: u64,
    },
    /// The installer moves an object to limbo; what stands beneath it stays beneath it.
    Park {
        fid: u64,
    },
    /// The installer removes an object in limbo.
    Erase {
        fid: u64,
    },
    /// The installer makes an object in limbo.
    Make {
        uid: Uid,
        kind: Kind,
        bytes: Bytes,
    },
    /// The installer gives a file new contents.
    Rewrite {
        fid: u64,
        bytes: Bytes,
    },
    /// The installer moves an object from limbo to a place.
    Place {
        fid: u64,
        parent: u64,
        name: Name,
    },
}

/// A command for which a volume has reserved memory.
///
/// A contract sees the command.
#[derive(Debug, Drop)]
pub struct Ready {
    cmd: VolCmd,
    empty: Bytes,
    // The sum of the contents that the command brings, where it is known.
    known: Option<Sum>,
}

impl Model for Ready {
    ghost use Rattle.std.specs.Prelude.{◌≡◌, [], MatchOption};
    ghost use Rattle.vol_state.specs.Sums.{IsBrought};
    ghost use Rattle.vol_state.specs.declared.command.VolCmd.{VolCmd};

    ghost Value = { VolCmd };

    ghost view = { λ ready. ready.cmd };

    ghost invariant = { λ ready. (ready.empty ≡ []) × MatchOption ready.known (Unit {0}) (IsBrought ready.cmd) };
}

impl Ready {
    /// A command beside a list of no bytes, the contents of a directory that it may make, and the
    /// sum of the contents that it brings, where it is known.
    pub(crate) fn of(cmd: VolCmd, empty: Bytes, known: Option<Sum>) -> Ready
        requires empty { empty ≡ [] }
        requires known { MatchOption known (Unit {0}) (IsBrought cmd) }
        ensures { result ≡ cmd }
    {
        Ready { cmd, empty, known }
    }

    /// The command, the list of no bytes, and the sum of the contents, where it is known.
    pub(crate) fn into_parts(self) -> (VolCmd, Bytes, Option<Sum>)
        ensures command { result.0 ≡ self }
        ensures empty { result.1 ≡ [] }
        ensures known { MatchOption result.2 (Unit {0}) (IsBrought self) }
    {
        let Ready { cmd, empty, known } = self;
        (cmd, empty, known)
    }
}
