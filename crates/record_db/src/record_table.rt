// Records that are changed in their place.
ghost use Rattle.std.specs.Prelude.{◌≡◌, ◌<◌, ◌≤◌, false, [], IfOk, OnOk, find, option_copied};
ghost use Rattle.std.specs.List.{AllByRecursion};
ghost use Rattle.frs_base.specs.Versions.{same_gvsn, same_uid};
ghost use Rattle.record_db.specs.Lists.{put_record};

use crate::Records;
use crate::shared_update::SharedUpdate;
use frs_base::{Gvsn, Uid};
use frs_pmap::Table;
use std::alloc::{AllocError, Global};
use std::marker::Model;
use win_order::Update;

/// The records of a book: found by file, and by version.
///
/// A contract sees them in order of their files, and for how many more there is room.
#[derive(Drop)]
pub(crate) struct RecordTable {
    files: Table<Uid, Update>,
    versions: Table<Gvsn, Update>,
}

impl Model for RecordTable {
    ghost use Rattle.std.specs.Prelude.{min};
    ghost use Rattle.std.specs.Map.{values_of};
    ghost use Rattle.frs_base.specs.Reserved.{Reserved};
    ghost use Rattle.win_order.specs.declared.update.Update.{Update};
    ghost use Rattle.record_db.specs.Maps.{AreFiled};

    ghost Value = { Reserved Update };

    ghost view = { λ t. record { items = values_of t.files.entries; room = min t.files.room t.versions.room } };

    ghost invariant = { λ t. AreFiled t.files.entries t.versions.entries };
}

impl RecordTable {
    /// No records, in no memory.
    pub(crate) fn empty() -> RecordTable
        ensures { result ≡ record { items = []; room = 0 } }
    {
        RecordTable {
            files: Table::empty(),
            versions: Table::empty(),
        }
    }

    /// Takes the memory that one record more may need. The records stay, also after an error.
    pub(crate) fn reserve(&mut self, alloc: Global) -> Result<(), AllocError>
        ensures same { self.new.items ≡ self.old.items }
        ensures room { OnOk result (0 < self.new.room) }
    {
        self.files.reserve(alloc)?;
        self.versions.reserve(alloc)?;
        Ok(())
    }

    /// The record of a file.
    pub(crate) fn get(&self, uid: &Uid) -> Option<&Update>
        ensures { option_copied result ≡ find (λ r. same_uid r.uid uid.now) self.now.items }
    {
        self.files.get(uid)
    }

    /// Puts an update of a version that no record has in the place of the record of its file, or
    /// between those of lower and higher UIDs, where there is room for it.
    pub(crate) fn put(&mut self, update: SharedUpdate)
        requires room { 0 < self.old.room }
        requires new { AllByRecursion (λ r. same_gvsn update.gvsn r.gvsn ≡ false) self.old.items }
        ensures { self.new.items ≡ put_record update self.old.items }
    {
        let SharedUpdate {
            by_file,
            by_version,
        } = update;
        let (uid, gvsn) = (by_file.uid, by_file.gvsn);
        if let Some(held) = self.files.get(&uid) {
            let old = held.gvsn;
            self.versions.cut(&old);
        }
        self.files.put(uid, by_file);
        self.versions.put(gvsn, by_version);
    }

    /// The records in memory of their own, in order of their files.
    pub(crate) fn rows(&self, alloc: Global) -> Result<Vec<Update>, AllocError>
        ensures { IfOk result (λ rows. rows.items ≡ self.now.items) }
    {
        let mut rows = Vec::new(alloc);
        let mut next = self.files.first();
        while let Some(entry) = next {
            let (uid, update) = entry;
            rows.push(update.copy()?)?;
            next = self.files.above(&uid);
        }
        Ok(rows)
    }

    /// The records as they are now, for the work of what changed since they were last shared.
    pub(crate) fn share(&mut self, alloc: Global) -> Result<Records, AllocError>
        ensures records { IfOk result (λ records. records ≡ self.old.items) }
        ensures same { self.new ≡ self.old }
    {
        let files = self.files.share(alloc)?;
        let versions = self.versions.share(alloc)?;
        Ok(Records { files, versions })
    }
}
