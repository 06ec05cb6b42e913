// The journal of a volume.
ghost use Rattle.std.specs.Prelude.{◌≡◌, ◌<◌, ◌==◌, ◌&&◌, ◌∷◌, ◌++◌, [], true, ◌+◌, length, OnOk, filter, find, nat_le, option_copied, slice_get};
ghost use Rattle.frs_base.specs.Versions.{same_uid};
ghost use Rattle.vol_state.specs.Journal.{RunsFrom, last_local, pending_local, record_at};

use crate::VolRecord;
use frs_base::{ReservedVec, Uid};
use std::alloc::{AllocError, Global};
use std::marker::Model;

/// The first USN.
pub(crate) const FIRST_USN: u64 = 9;

/// The records, oldest first.
///
/// A contract sees the records, and for how many more there is room.
#[derive(Drop)]
pub(crate) struct Journal {
    records: ReservedVec<VolRecord>,
    // Whether the USNs run from the first without a gap: then a record's place tells its USN.
    runs: bool,
}

impl Model for Journal {
    ghost use Rattle.std.specs.Prelude.{◌≡◌, true};
    ghost use Rattle.frs_base.specs.Reserved.{Reserved};
    ghost use Rattle.vol_state.specs.declared.record.VolRecord.{VolRecord};
    ghost use Rattle.vol_state.specs.Journal.{RunsFrom};

    ghost Value = { Reserved VolRecord };

    ghost view = { λ journal. journal.records };

    ghost invariant = { λ journal. journal.runs ≡ true → RunsFrom 9 journal.records.items };
}

/// The record at an index.
fn get(records: &[VolRecord], index: usize) -> Option<&VolRecord>
    ensures { option_copied result ≡ slice_get records.now index }
{
    records.get(index)
}

/// The record with a USN, where they run from the first.
fn record_by_index(records: &[VolRecord], usn: u64) -> Option<&VolRecord>
    requires { RunsFrom 9 records.now }
    ensures { option_copied result ≡ record_at records.now usn }
{
    if usn < FIRST_USN {
        return None;
    }
    get(records, (usn - FIRST_USN) as usize)
}

/// The record is a local one of this UID, at or past this USN.
fn is_pending(entry: &VolRecord, uid: &Uid, from: u64) -> bool
    ensures { result ≡ (nat_le from entry.now.usn && (entry.now.local && same_uid entry.now.uid uid.now)) }
{
    from <= entry.usn && entry.local && entry.uid == *uid
}

/// The USN of the last local record of a UID at or past a USN. The newest records are looked at
/// first.
fn last_pending(records: &[VolRecord], uid: Uid, from: u64) -> Option<u64>
    ensures { result ≡ pending_local records.now uid from }
{
    let mut left = records.len();
    while left > 0 {
        left -= 1;
        let record = &records[left];
        if is_pending(record, &uid, from) {
            return Some(record.usn);
        }
    }
    None
}

/// The records from a USN on, where they run from the first.
fn records_from(records: &[VolRecord], from: u64) -> &[VolRecord]
    requires { RunsFrom 9 records.now }
    ensures { filter (λ r. nat_le from r.usn) result.now ≡ filter (λ r. nat_le from r.usn) records.now }
{
    let before = from.saturating_sub(FIRST_USN) as usize;
    &records[before.min(records.len())..]
}

/// The USNs run, and a record with this one goes on.
fn runs_on(runs: bool, records: &[VolRecord], usn: u64) -> bool
    ensures { result ≡ (runs && usn == 9 + length records.now) }
{
    runs && usn == FIRST_USN + records.len() as u64
}

impl Journal {
    /// No records.
    pub(crate) fn empty() -> Journal
        ensures { result.items ≡ [] }
    {
        Journal {
            records: ReservedVec::empty(),
            runs: true,
        }
    }

    /// The records, lent.
    pub(crate) fn as_slice(&self) -> &[VolRecord]
        ensures { result.now ≡ self.now.items }
    {
        self.records.as_slice()
    }

    /// The first record with this USN.
    pub(crate) fn record_at(&self, usn: u64) -> Option<&VolRecord>
        ensures { option_copied result ≡ record_at self.now.items usn }
    {
        if self.runs {
            return record_by_index(self.records.as_slice(), usn);
        }
        self.as_slice().iter().find(|record| record.usn == usn)
    }

    /// The USN of the last local record of a UID.
    pub(crate) fn last_local(&self, uid: Uid) -> Option<u64>
        ensures { result ≡ last_local self.now.items uid }
    {
        last_pending(self.as_slice(), uid, 0)
    }

    /// The USN of the last local record of a UID at or past a USN.
    pub(crate) fn pending_local(&self, uid: Uid, from: u64) -> Option<u64>
        ensures { result ≡ pending_local self.now.items uid from }
    {
        if self.runs {
            let recent = records_from(self.records.as_slice(), from);
            return last_pending(recent, uid, from);
        }
        last_pending(self.as_slice(), uid, from)
    }

    /// Makes room for one more record.
    pub(crate) fn reserve(&mut self, alloc: Global) -> Result<(), AllocError>
        ensures same { self.new.items ≡ self.old.items }
        ensures room { OnOk result (0 < self.new.room) }
    {
        self.records.reserve_one(alloc)
    }

    /// Adds a record, for which there is room.
    pub(crate) fn push(&mut self, entry: VolRecord)
        requires { 0 < self.old.room }
        ensures { self.new.items ≡ self.old.items ++ entry ∷ [] }
    {
        self.runs = runs_on(self.runs, self.records.as_slice(), entry.usn);
        self.records.push(entry);
    }
}
