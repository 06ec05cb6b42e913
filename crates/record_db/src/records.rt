// Records as they were at one moment.
ghost use Rattle.std.specs.Prelude.{◌≡◌, find, length, min, option_copied};
ghost use Rattle.frs_base.specs.Versions.{same_uid};
ghost use Rattle.record_db.specs.Maps.{IsFirstFrom};

use frs_base::{Gvsn, Uid};
use frs_pmap::Pmap;
use std::marker::Model;
use win_order::Update;

/// The records of a member as they were at one moment, in memory that is shared with its book: no
/// later change of the book reaches them.
///
/// A contract sees them as the list in order of their UIDs.
#[derive(Drop)]
pub struct Records {
    pub(crate) files: Pmap<Uid, Update>,
    pub(crate) versions: Pmap<Gvsn, Update>,
}

impl Model for Records {
    ghost use Rattle.std.specs.Prelude.{List};
    ghost use Rattle.std.specs.Map.{values_of};
    ghost use Rattle.win_order.specs.declared.update.Update.{Update};
    ghost use Rattle.record_db.specs.Maps.{AreFiled};

    ghost Value = { List Update };

    ghost view = { λ records. values_of records.files };

    ghost invariant = { λ records. AreFiled records.files records.versions };
}

impl Records {
    /// How many there are, or the most that a `usize` tells.
    pub fn len(&self) -> usize
        ensures { result ≡ min (length self.now) usize.MAX }
    {
        self.files.len()
    }

    /// The record of a file or directory.
    pub fn find(&self, uid: Uid) -> Option<&Update>
        ensures { option_copied result ≡ find (λ r. same_uid r.uid uid) self.now }
    {
        self.files.get(&uid)
    }

    /// The record with the lowest version at a version or above it.
    pub fn first_from(&self, g: Gvsn) -> Option<&Update>
        ensures { IsFirstFrom g self.now (option_copied result) }
    {
        match self.versions.at_or_above(&g) {
            None => None,
            Some((_, update)) => Some(update),
        }
    }
}
