// The objects of a volume, in order of their numbers, with hints where to look for them.
ghost use Rattle.std.specs.Prelude.{◌≡◌, ◌<◌, ◌∷◌, ◌++◌, [], OnOk, option_copied, find};
ghost use Rattle.frs_base.specs.Versions.{same_uid};
ghost use Rattle.vol_state.specs.Places.{child, has_children, object_at};
ghost use Rattle.vol_state.specs.Tree.{IsTree};
ghost use Rattle.vol_state.specs.State.{IsOneEach, uid_of};
ghost use Rattle.vol_state.specs.Effects.{at_place, edit, stamp, with_bytes, without};
ghost use Rattle.vol_state.specs.Sums.{IsKnownOf};

use crate::Object;
use crate::hints::Hints;
use crate::lookups::{child_by, hint_place, hint_uid, object_by};
use crate::objects::{
    add_to, fill_in, has_children_in, object_at, objects_in, place_in, reserve_in, take_from,
};
use frs_base::{Bytes, Guid, Name, Sum, Uid};
use std::alloc::{AllocError, Global};
use std::marker::Model;

/// Objects that are a tree: each place leads to the root or to limbo, and matching names in one
/// directory are one object.
///
/// A contract sees the own database, the objects, and for how many more there is room. The hints,
/// by place and by UID, only make look-ups quick.
#[derive(Drop)]
pub(crate) struct Shelf {
    own: Guid,
    // Changed in place, which a `ReservedVec` doesn't lend.
    objects: Option<Vec<Object>>,
    places: Hints,
    uids: Hints,
}

impl Model for Shelf {
    ghost use Rattle.std.specs.Prelude.{min};
    ghost use Rattle.frs_base.specs.Reserved.{reserved_of};
    ghost use Rattle.vol_state.specs.Seen.{Shelved};
    ghost use Rattle.vol_state.specs.Hints.{IsShelf};

    ghost Value = { Shelved };

    ghost view = { λ shelf. record { own = shelf.own; items = (reserved_of shelf.objects).items; room = min (reserved_of shelf.objects).room (min shelf.places.room shelf.uids.room) } };

    ghost invariant = { λ shelf. IsShelf shelf.own shelf.places.links shelf.uids.links (reserved_of shelf.objects).items };
}

impl Shelf {
    /// No objects.
    pub(crate) fn empty(own: Guid) -> Shelf
        ensures own { result.own ≡ own }
        ensures items { result.items ≡ [] }
    {
        Shelf {
            own,
            objects: None,
            places: Hints::empty(),
            uids: Hints::empty(),
        }
    }

    /// The own database.
    pub(crate) fn own(&self) -> Guid
        ensures { result ≡ self.now.own }
    {
        self.own
    }

    /// The objects, lent.
    pub(crate) fn as_slice(&self) -> &[Object]
        ensures objects { result.now ≡ self.now.items }
        ensures tree { IsTree self.now.items }
    {
        objects_in(&self.objects)
    }

    /// The object with this number.
    pub(crate) fn object_at(&self, fid: u64) -> Option<&Object>
        ensures { option_copied result ≡ object_at self.now.items fid }
    {
        object_at(objects_in(&self.objects), fid)
    }

    /// The object in a directory under a matching name.
    pub(crate) fn child(&self, parent: u64, name: &Name) -> Option<&Object>
        ensures { option_copied result ≡ child self.now.items parent name.now }
    {
        child_by(objects_in(&self.objects), &self.places, parent, name)
    }

    /// Whether an object stands in this directory.
    pub(crate) fn has_children(&self, fid: u64) -> bool
        ensures { result ≡ has_children self.now.items fid }
    {
        has_children_in(objects_in(&self.objects), fid)
    }

    /// The object with this UID.
    pub(crate) fn object_of(&self, uid: &Uid) -> Option<&Object>
        requires { IsOneEach self.now.own self.now.items }
        ensures { option_copied result ≡ find (λ o. same_uid (uid_of self.now.own o) uid.now) self.now.items }
    {
        object_by(objects_in(&self.objects), &self.uids, self.own, uid)
    }

    /// Makes room for one more object.
    pub(crate) fn reserve(&mut self, alloc: Global) -> Result<(), AllocError>
        ensures own { self.new.own ≡ self.old.own }
        ensures same { self.new.items ≡ self.old.items }
        ensures room { OnOk result (0 < self.new.room) }
    {
        reserve_in(alloc, &mut self.objects)?;
        self.places.reserve(alloc)?;
        self.uids.reserve(alloc)
    }

    /// Adds an object, whose number is above all others.
    pub(crate) fn add(&mut self, object: Object)
        requires room { 0 < self.old.room }
        requires tree { IsTree (self.old.items ++ object ∷ []) }
        ensures own { self.new.own ≡ self.old.own }
        ensures items { self.new.items ≡ self.old.items ++ object ∷ [] }
    {
        let own = self.own;
        let uid = object.uid(own);
        let objects = objects_in(&self.objects);
        hint_place(objects, &mut self.places, object.fid, &object.place);
        hint_uid(objects, &mut self.uids, own, object.fid, uid);
        add_to(&mut self.objects, object);
    }

    /// Gives an object a place, or limbo. A local change leaves its USN.
    pub(crate) fn place(&mut self, fid: u64, place: Option<(u64, Name)>, local: bool, usn: u64)
        requires room { 0 < self.old.room }
        requires tree { IsTree (edit fid (λ o. stamp local usn (at_place place o)) self.old.items) }
        ensures own { self.new.own ≡ self.old.own }
        ensures items { self.new.items ≡ edit fid (λ o. stamp local usn (at_place place o)) self.old.items }
    {
        hint_place(objects_in(&self.objects), &mut self.places, fid, &place);
        place_in(&mut self.objects, fid, place, local, usn);
    }

    /// Gives an object contents, whose sum may be known. A local change leaves its USN.
    pub(crate) fn fill(&mut self, fid: u64, bytes: Bytes, known: Option<Sum>, local: bool, usn: u64)
        requires known { IsKnownOf bytes known }
        requires tree { IsTree (edit fid (λ o. stamp local usn (with_bytes bytes o)) self.old.items) }
        ensures own { self.new.own ≡ self.old.own }
        ensures items { self.new.items ≡ edit fid (λ o. stamp local usn (with_bytes bytes o)) self.old.items }
    {
        fill_in(&mut self.objects, fid, bytes, known, local, usn);
    }

    /// Takes an object out.
    pub(crate) fn take_out(&mut self, fid: u64)
        requires tree { IsTree (without fid self.old.items) }
        ensures own { self.new.own ≡ self.old.own }
        ensures items { self.new.items ≡ without fid self.old.items }
    {
        take_from(&mut self.objects, fid);
    }
}
