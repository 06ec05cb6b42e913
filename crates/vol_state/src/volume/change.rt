// The steps of commands.
ghost use Rattle.std.specs.Prelude.{◌≡◌, ◌<◌, ◌+◌, [], Some, true, if◌then◌else◌, IfOk, IsSome, MatchOption, option_copied};
ghost use Rattle.vol_state.specs.Places.{object_at};
ghost use Rattle.vol_state.specs.Valid.{IsVolume};
ghost use Rattle.vol_state.specs.Seen.{Fits};
ghost use Rattle.vol_state.specs.Numbers.{has_fid, has_usn, own_version};
ghost use Rattle.vol_state.specs.Effects.{added, at_place, edited, gone, new_object, uid_found, with_bytes};
ghost use Rattle.vol_state.specs.Conditions.{step};
ghost use Rattle.vol_state.specs.Sums.{IsBrought, IsKnownOf};

use crate::sums::sum_with;
use crate::{Object, Ready, VolCmd, VolRecord, Volume};
use frs_base::{Bytes, Guid, Kind, Name, Sum, Uid};
use std::alloc::{AllocError, Global};

/// The version of an object's tag of the own database.
fn own_version(own: Guid, o: &Object) -> u64
    ensures { result ≡ own_version own o.now.tag }
{
    match o.tag {
        None => 0,
        Some(tag) => { if tag.db == own { tag.version } else { 0 } }
    }
}

/// The UID of an object that is there.
fn uid_found(own: Guid, found: Option<&Object>) -> Uid
    ensures { result ≡ uid_found own (option_copied found.entry) }
{
    match found {
        None => Uid {
            db: own,
            version: 0,
        },
        Some(o) => o.uid(own),
    }
}

/// The last local USN of an object that is made.
fn first_local(local: bool, usn: u64) -> u64
    ensures { result ≡ (if local then usn else 0) }
{
    if local { usn } else { 0 }
}

impl Volume {
    /// Adds an object with the next number. The sum of its contents may be known.
    fn add(
        &mut self,
        place: Option<(u64, Name)>,
        kind: Kind,
        bytes: Bytes,
        known: Option<Sum>,
        tag: Option<Uid>,
        op: u8,
        local: bool,
    )
        requires known { IsKnownOf bytes known }
        requires room { 0 < self.old.room }
        requires usn { has_usn self.old.state ≡ true }
        requires fid { has_fid self.old.state ≡ true }
        requires valid { IsVolume (added op local (new_object self.old.state place kind bytes tag local) self.old.state) }
        ensures { self.new.state ≡ added op local (new_object self.old.state place kind bytes tag local) self.old.state }
    {
        let usn = self.next_usn;
        let fid = self.next_fid;
        let sum = sum_with(kind, &bytes, known);
        let object = Object {
            fid,
            place,
            kind,
            bytes,
            sum,
            born: usn,
            tag,
            last_local: first_local(local, usn),
        };
        let own = self.shelf.own();
        let uid = object.uid(own);
        self.top_fid = fid;
        self.top_usn = usn.max(own_version(own, &object));
        self.shelf.add(object);
        self.journal.push(VolRecord {
            usn,
            fid,
            uid,
            op,
            local,
        });
        self.next_fid = fid + 1;
        self.next_usn = usn + 1;
    }

    /// Gives an object a place, or limbo.
    fn place_object(&mut self, fid: u64, place: Option<(u64, Name)>, op: u8, local: bool)
        requires room { 0 < self.old.room }
        requires usn { has_usn self.old.state ≡ true }
        requires there { IsSome (object_at self.old.state.objects fid) }
        requires valid { IsVolume (edited op local fid (at_place place) self.old.state) }
        ensures { self.new.state ≡ edited op local fid (at_place place) self.old.state }
    {
        let usn = self.next_usn;
        let uid = uid_found(self.shelf.own(), self.shelf.object_at(fid));
        self.shelf.place(fid, place, local, usn);
        self.journal.push(VolRecord {
            usn,
            fid,
            uid,
            op,
            local,
        });
        self.top_usn = usn;
        self.next_usn += 1;
    }

    /// Gives an object contents, whose sum may be known.
    fn fill_object(&mut self, fid: u64, bytes: Bytes, known: Option<Sum>, op: u8, local: bool)
        requires known { IsKnownOf bytes known }
        requires room { 0 < self.old.room }
        requires usn { has_usn self.old.state ≡ true }
        requires there { IsSome (object_at self.old.state.objects fid) }
        requires valid { IsVolume (edited op local fid (with_bytes bytes) self.old.state) }
        ensures { self.new.state ≡ edited op local fid (with_bytes bytes) self.old.state }
    {
        let usn = self.next_usn;
        let uid = uid_found(self.shelf.own(), self.shelf.object_at(fid));
        self.shelf.fill(fid, bytes, known, local, usn);
        self.journal.push(VolRecord {
            usn,
            fid,
            uid,
            op,
            local,
        });
        self.top_usn = usn;
        self.next_usn += 1;
    }

    /// Takes an object out.
    fn take_object(&mut self, fid: u64, op: u8, local: bool)
        requires room { 0 < self.old.room }
        requires usn { has_usn self.old.state ≡ true }
        requires there { IsSome (object_at self.old.state.objects fid) }
        requires valid { IsVolume (gone op local fid self.old.state) }
        ensures { self.new.state ≡ gone op local fid self.old.state }
    {
        let usn = self.next_usn;
        let uid = uid_found(self.shelf.own(), self.shelf.object_at(fid));
        self.shelf.take_out(fid);
        self.journal.push(VolRecord {
            usn,
            fid,
            uid,
            op,
            local,
        });
        self.top_usn = usn;
        self.next_usn += 1;
    }

    /// Takes the memory that the command needs, so that [`Volume::take`] takes none.
    pub fn ready(&mut self, alloc: Global, cmd: VolCmd) -> Result<Ready, AllocError>
        ensures same { self.new.state ≡ self.old.state }
        ensures command { IfOk result (λ ready. ready ≡ cmd) }
        ensures fits { IfOk result (λ ready. Fits ready self.new) }
    {
        self.ready_with(alloc, cmd, None)
    }

    /// Does so where the sum of the contents that the command brings may be known: then
    /// [`Volume::take`] doesn't hash them again.
    pub fn ready_with(
        &mut self,
        alloc: Global,
        cmd: VolCmd,
        known: Option<Sum>,
    ) -> Result<Ready, AllocError>
        requires { MatchOption known (Unit {0}) (IsBrought cmd) }
        ensures same { self.new.state ≡ self.old.state }
        ensures command { IfOk result (λ ready. ready ≡ cmd) }
        ensures fits { IfOk result (λ ready. Fits ready self.new) }
    {
        self.shelf.reserve(alloc)?;
        self.journal.reserve(alloc)?;
        Ok(Ready::of(cmd, Bytes::of(Vec::new(alloc)), known))
    }

    /// Does a command for which there is room. A command whose condition doesn't hold, or that
    /// would give out the last number or one that is in use, changes nothing.
    pub fn take(&mut self, ready: Ready)
        requires { Fits ready self.old }
        ensures { self.new.state ≡ step ready self.old.state }
    {
        let (cmd, empty, known) = ready.into_parts();
        if !self.has_numbers(&cmd) || !self.is_allowed(&cmd) {
            return;
        }
        match cmd {
            VolCmd::PutNew {
                parent,
                name,
                bytes,
            } => self.add(
                Some((parent, name)),
                Kind::File,
                bytes,
                known,
                None,
                1,
                true,
            ),
            VolCmd::PutOver { fid, bytes } => self.fill_object(fid, bytes, known, 2, true),
            VolCmd::Mkdir { parent, name } => {
                self.add(
                    Some((parent, name)),
                    Kind::Directory,
                    empty,
                    None,
                    None,
                    3,
                    true,
                )
            }
            VolCmd::Move { fid, parent, name } => {
                self.place_object(fid, Some((parent, name)), 4, true)
            }
            VolCmd::Remove { fid } => self.take_object(fid, 5, true),
            VolCmd::Park { fid } => self.place_object(fid, None, 6, false),
            VolCmd::Erase { fid } => self.take_object(fid, 7, false),
            VolCmd::Make { uid, kind, bytes } => {
                self.add(None, kind, bytes, known, Some(uid), 8, false)
            }
            VolCmd::Rewrite { fid, bytes } => self.fill_object(fid, bytes, known, 9, false),
            VolCmd::Place { fid, parent, name } => {
                self.place_object(fid, Some((parent, name)), 10, false)
            }
        }
    }
}
