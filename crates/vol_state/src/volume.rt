// The volume of a member.
ghost use Rattle.std.specs.Prelude.{◌≡◌, find, option_copied};
ghost use Rattle.frs_base.specs.Versions.{same_uid};
ghost use Rattle.vol_state.specs.Paths.{check};
ghost use Rattle.vol_state.specs.Places.{object_at};
ghost use Rattle.vol_state.specs.Journal.{last_local, pending_local, record_at};
ghost use Rattle.vol_state.specs.State.{object_of, uid_of};
ghost use Rattle.vol_state.specs.Valid.{IsVolume};
ghost use Rattle.vol_state.specs.Seen.{fresh_state};

mod allowed;
mod change;

use crate::journal::{FIRST_USN, Journal};
use crate::shelf::Shelf;
use crate::{LocalOp, Object, Refused, VolRecord};
use frs_base::{Guid, Uid};
use std::marker::Model;

/// A root directory, objects and a journal.
///
/// A contract sees its state, and for how many commands it has room.
#[derive(Drop)]
pub struct Volume {
    shelf: Shelf,
    journal: Journal,
    next_fid: u64,
    next_usn: u64,
    // The greatest numbers in use.
    top_fid: u64,
    top_usn: u64,
}

impl Model for Volume {
    ghost use Rattle.std.specs.Prelude.{◌≡◌, min};
    ghost use Rattle.vol_state.specs.Seen.{Seen};
    ghost use Rattle.vol_state.specs.Valid.{IsKept};

    ghost Value = { Seen };

    ghost view = { λ s. record { state = record { own = s.shelf.own; objects = s.shelf.items; journal = s.journal.items; next_fid = s.next_fid; next_usn = s.next_usn }; room = min s.shelf.room s.journal.room } };

    ghost invariant = { λ s. IsKept (record { own = s.shelf.own; objects = s.shelf.items; journal = s.journal.items; next_fid = s.next_fid; next_usn = s.next_usn }) s.top_fid s.top_usn };
}

impl Volume {
    /// A fresh volume of the member with this database: nothing in it, and no memory taken.
    pub fn new(own: Guid) -> Volume
        ensures { result.state ≡ fresh_state own }
    {
        Volume {
            shelf: Shelf::empty(own),
            journal: Journal::empty(),
            next_fid: 1,
            next_usn: FIRST_USN,
            top_fid: 0,
            top_usn: 0,
        }
    }

    /// The member's own database.
    pub fn own(&self) -> Guid
        ensures { result ≡ self.now.state.own }
    {
        self.shelf.own()
    }

    /// The objects, in order of their numbers.
    pub fn objects(&self) -> &[Object]
        ensures objects { result.now ≡ self.now.state.objects }
        ensures valid { IsVolume self.now.state }
    {
        self.shelf.as_slice()
    }

    /// The USN that the next operation gets.
    pub fn next_usn(&self) -> u64
        ensures { result ≡ self.now.state.next_usn }
    {
        self.next_usn
    }

    /// The first refusal of a local operation.
    pub fn check(&self, op: &LocalOp) -> Result<(), Refused>
        ensures { result ≡ check self.now.state.objects op.now }
    {
        crate::paths::check(&self.shelf, op)
    }

    /// The journal record with this USN.
    pub fn record_at(&self, usn: u64) -> Option<&VolRecord>
        ensures { option_copied result ≡ record_at self.now.state.journal usn }
    {
        self.journal.record_at(usn)
    }

    /// The USN of the last local journal record of a UID.
    pub fn last_local(&self, uid: Uid) -> Option<u64>
        ensures { result ≡ last_local self.now.state.journal uid }
    {
        self.journal.last_local(uid)
    }

    /// The USN of the last local journal record of a UID at or past a USN, none exactly where there
    /// is none. While USNs run without a gap, no record before that USN is looked at.
    pub fn pending_local(&self, uid: Uid, from: u64) -> Option<u64>
        ensures { result ≡ pending_local self.now.state.journal uid from }
    {
        self.journal.pending_local(uid, from)
    }

    /// The object with this UID.
    pub fn object_of(&self, uid: Uid) -> Option<&Object>
        ensures object { option_copied result ≡ object_of self.now.state uid }
        ensures valid { IsVolume self.now.state }
    {
        self.shelf.object_of(&uid)
    }

    /// The object with this number.
    pub fn object_at(&self, fid: u64) -> Option<&Object>
        ensures object { option_copied result ≡ object_at self.now.state.objects fid }
        ensures valid { IsVolume self.now.state }
    {
        self.shelf.object_at(fid)
    }

    /// The objects, to look them up.
    pub(crate) fn shelf(&self) -> &Shelf
        ensures objects { result.now.items ≡ self.now.state.objects }
        ensures valid { IsVolume self.now.state }
    {
        &self.shelf
    }
}
