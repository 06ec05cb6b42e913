// The book of a member.
ghost use Rattle.std.specs.Prelude.{◌≡◌, ◌<◌, ◌≤◌, ◌^◌, IfErr, IfOk, OnErr, OnOk, Some, find, length, option_copied};
ghost use Rattle.frs_base.specs.Versions.{same_uid};
ghost use Rattle.record_db.specs.State.{IsBook, form_of, fresh_book};

mod change;

use crate::Records;
use crate::record_table::RecordTable;
use crate::staged::StagedTable;
use frs_base::{Guid, MemberKind, Phase, Uid};
use marshal_form::Form;
use std::alloc::{AllocError, Global};
use std::marker::Model;
use version_vector::GrowingVector;
use win_order::Update;

/// The USN that a fresh member consumes first.
const FIRST_USN: u64 = 9;

/// What a member knows of its folder: of each file or directory the record that it holds, the
/// versions that it covers, and the contents that it has but hasn't installed.
///
/// A contract sees its state, and for how many more records, staged forms and intervals of its
/// vector it has room.
#[derive(Drop)]
pub struct Book {
    kind: MemberKind,
    own: Guid,
    set: Guid,
    records: RecordTable,
    vector: GrowingVector,
    consumed: u64,
    phase: Phase,
    staged: StagedTable,
}

impl Model for Book {
    ghost use Rattle.record_db.specs.State.{IsBook, Seen};

    ghost Value = { Seen };

    ghost view = { λ b. record { state = record { kind = b.kind; own = b.own; set = b.set; records = b.records.items; vector = b.vector.items; consumed = b.consumed; phase = b.phase; staged = b.staged.items }; room = b.records.room; staged_room = b.staged.room; vector_room = b.vector.room } };

    ghost invariant = { λ b. IsBook (record { kind = b.kind; own = b.own; set = b.set; records = b.records.items; vector = b.vector.items; consumed = b.consumed; phase = b.phase; staged = b.staged.items }) };
}

impl Book {
    /// A fresh book of a member of this kind, with this database, of this content set: no records,
    /// no versions, the initial phase, nothing staged, and no memory taken.
    pub fn new(kind: MemberKind, own: Guid, set: Guid) -> Book
        ensures { result.state ≡ fresh_book kind own set }
    {
        Book {
            kind,
            own,
            set,
            records: RecordTable::empty(),
            vector: GrowingVector::empty(),
            consumed: FIRST_USN,
            phase: Phase::Initial,
            staged: StagedTable::empty(),
        }
    }

    /// What the member is while it has finished no round.
    pub fn kind(&self) -> MemberKind
        ensures { result ≡ self.now.state.kind }
    {
        self.kind
    }

    /// The member's own database.
    pub fn own(&self) -> Guid
        ensures { result ≡ self.now.state.own }
    {
        self.own
    }

    /// The content set of the folder.
    pub fn set(&self) -> Guid
        ensures { result ≡ self.now.state.set }
    {
        self.set
    }

    /// The versions that the member covers.
    pub fn vector(&self) -> &GrowingVector
        ensures vector { result.now.items ≡ self.now.state.vector }
        ensures book { IsBook self.now.state }
    {
        &self.vector
    }

    /// The USN of the journal record that is consumed next.
    pub fn consumed(&self) -> u64
        ensures { result ≡ self.now.state.consumed }
    {
        self.consumed
    }

    /// How far the member has come.
    pub fn phase(&self) -> Phase
        ensures { result ≡ self.now.state.phase }
    {
        self.phase
    }

    /// The record of a file or directory.
    pub fn held(&self, uid: Uid) -> Option<&Update>
        ensures { option_copied result ≡ find (λ r. same_uid r.uid uid) self.now.state.records }
    {
        self.records.get(&uid)
    }

    /// The form that is staged of a file.
    pub fn form(&self, uid: Uid) -> Option<&Form>
        ensures { option_copied result ≡ form_of self.now.state uid }
    {
        self.staged.get(&uid)
    }

    /// The records in memory of their own, in order of their UIDs.
    pub fn rows(&self, alloc: Global) -> Result<Vec<Update>, AllocError>
        ensures rows { IfOk result (λ rows. rows.items ≡ self.now.state.records) }
        ensures book { IsBook self.now.state }
    {
        self.records.rows(alloc)
    }

    /// The records as they are now: no later change reaches them. What it costs grows with what
    /// changed since they were last shared. The book stays as it is, also after an error.
    pub fn share(&mut self, alloc: Global) -> Result<Records, AllocError>
        ensures records { IfOk result (λ records. records ≡ self.old.state.records) }
        ensures same { self.new ≡ self.old }
    {
        self.records.share(alloc)
    }
}
