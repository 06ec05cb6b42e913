// Lists of objects in order of their numbers.
ghost use Rattle.std.specs.Prelude.{◌≡◌, ◌==◌, ◌<◌, ◌≤◌, ◌∷◌, ◌++◌, [], OnOk, true, false, nat_lt, length, option_copied, position};
ghost use Rattle.std.specs.List.Sorted.{IsPartitionPoint};
ghost use Rattle.frs_base.specs.Reserved.{reserved_of};
ghost use Rattle.vol_state.specs.Places.{has_children, is_child, object_at};
ghost use Rattle.vol_state.specs.Tree.{AreRising, IsTree};
ghost use Rattle.frs_base.specs.Options.{some_is};
ghost use Rattle.vol_state.specs.Conditions.{is_file};
ghost use Rattle.vol_state.specs.Effects.{at_place, edit, stamp, with_bytes, without};
ghost use Rattle.vol_state.specs.Sums.{IsKnownOf};

use crate::Object;
use crate::sums::sum_with;
use frs_base::{Bytes, Kind, Name, Sum};
use std::alloc::{AllocError, Global};

/// The index of the first object whose number isn't below this one.
fn first_from(objects: &[Object], fid: u64) -> usize
    requires { AreRising 0 objects.now }
    ensures within { result ≤ length objects.now }
    ensures point { IsPartitionPoint (λ o. nat_lt o.fid fid ≡ true) (λ o. nat_lt o.fid fid ≡ false) objects.now result }
{
    objects.partition_point(|o| o.fid < fid)
}

/// The index of the object with this number, by halves.
fn index_by_search(objects: &[Object], fid: u64) -> Option<usize>
    requires { AreRising 0 objects.now }
    ensures { result ≡ position (λ o. o.fid == fid) objects.now }
{
    let at = first_from(objects, fid);
    if at >= objects.len() {
        return None;
    }
    if objects[at].fid == fid {
        return Some(at);
    }
    None
}

/// The index of the object with this number. Where no object went yet, it is one less.
fn index_of(objects: &[Object], fid: u64) -> Option<usize>
    requires { AreRising 0 objects.now }
    ensures { result ≡ position (λ o. o.fid == fid) objects.now }
{
    let guess = fid.saturating_sub(1) as usize;
    if guess < objects.len() {
        if objects[guess].fid == fid {
            return Some(guess);
        }
    }
    index_by_search(objects, fid)
}

/// The object with this number.
pub(crate) fn object_at(objects: &[Object], fid: u64) -> Option<&Object>
    requires { AreRising 0 objects.now }
    ensures { option_copied result ≡ object_at objects.now fid }
{
    match index_of(objects, fid) {
        None => None,
        Some(at) => Some(&objects[at]),
    }
}

/// The object stands in this directory under a matching name.
pub(crate) fn is_child(o: &Object, parent: u64, name: &Name) -> bool
    ensures { result ≡ is_child parent name.now o.now }
{
    match &o.place {
        None => false,
        Some((at, own)) => *at == parent && own.matches(name),
    }
}

/// The object stands in this directory.
fn is_in(o: &Object, fid: u64) -> bool
    ensures { result ≡ some_is (λ p. p.0 == fid) o.now.place }
{
    match &o.place {
        None => false,
        Some((at, _)) => *at == fid,
    }
}

/// The object with this number is there, a file.
fn is_file_in(objects: &[Object], fid: u64) -> bool
    requires { AreRising 0 objects.now }
    ensures { result ≡ some_is is_file (object_at objects.now fid) }
{
    match object_at(objects, fid) {
        None => false,
        Some(o) => match o.kind {
            Kind::File => true,
            Kind::Directory => false,
        },
    }
}

/// Whether an object stands in this directory. Nothing stands in a file, so only the removal of a
/// directory looks at all objects.
pub(crate) fn has_children_in(objects: &[Object], fid: u64) -> bool
    requires { IsTree objects.now }
    ensures { result ≡ has_children objects.now fid }
{
    if fid != 0 && is_file_in(objects, fid) {
        return false;
    }
    objects.iter().any(|o| is_in(o, fid))
}

/// Gives an object a place.
fn place_at(objects: &mut [Object], fid: u64, place: Option<(u64, Name)>, local: bool, usn: u64)
    requires { AreRising 0 objects.old }
    ensures { objects.new ≡ edit fid (λ o. stamp local usn (at_place place o)) objects.old }
{
    if let Some(at) = index_of(objects, fid) {
        let o = &mut objects[at];
        o.place = place;
        if local {
            o.last_local = usn;
        }
    }
}

/// Gives an object contents.
fn fill_at(
    objects: &mut [Object],
    fid: u64,
    bytes: Bytes,
    known: Option<Sum>,
    local: bool,
    usn: u64,
)
    requires rising { AreRising 0 objects.old }
    requires known { IsKnownOf bytes known }
    ensures { objects.new ≡ edit fid (λ o. stamp local usn (with_bytes bytes o)) objects.old }
{
    if let Some(at) = index_of(objects, fid) {
        let o = &mut objects[at];
        o.sum = sum_with(o.kind, &bytes, known);
        o.bytes = bytes;
        if local {
            o.last_local = usn;
        }
    }
}

/// Takes an object out.
fn take_at(objects: &mut Vec<Object>, fid: u64)
    requires { AreRising 0 objects.old.items }
    ensures { objects.new.items ≡ without fid objects.old.items }
{
    if let Some(at) = index_of(objects.as_slice(), fid) {
        objects.remove(at);
    }
}

/// The objects, where they were begun.
pub(crate) fn objects_in(objects: &Option<Vec<Object>>) -> &[Object]
    ensures { result.now ≡ (reserved_of objects.now).items }
{
    match objects {
        None => &[],
        Some(items) => items.as_slice(),
    }
}

/// Makes room for one more object.
pub(crate) fn reserve_in(alloc: Global, objects: &mut Option<Vec<Object>>) -> Result<(), AllocError>
    ensures same { (reserved_of objects.new).items ≡ (reserved_of objects.old).items }
    ensures room { OnOk result (0 < (reserved_of objects.new).room) }
{
    if objects.is_none() {
        *objects = Some(Vec::new(alloc));
    }
    match objects {
        None => Ok(()),
        Some(items) => items.reserve(1),
    }
}

/// Adds an object, for which there is room.
pub(crate) fn add_to(objects: &mut Option<Vec<Object>>, object: Object)
    requires { 0 < (reserved_of objects.old).room }
    ensures { (reserved_of objects.new).items ≡ (reserved_of objects.old).items ++ object ∷ [] }
{
    match objects {
        None => unreachable!(),
        Some(items) => items.push_reserved(object),
    }
}

/// Gives an object a place, where objects were begun.
pub(crate) fn place_in(
    objects: &mut Option<Vec<Object>>,
    fid: u64,
    place: Option<(u64, Name)>,
    local: bool,
    usn: u64,
)
    requires { AreRising 0 (reserved_of objects.old).items }
    ensures { (reserved_of objects.new).items ≡ edit fid (λ o. stamp local usn (at_place place o)) (reserved_of objects.old).items }
{
    match objects {
        None => {}
        Some(items) => place_at(items.as_mut_slice(), fid, place, local, usn),
    }
}

/// Gives an object contents, where objects were begun.
pub(crate) fn fill_in(
    objects: &mut Option<Vec<Object>>,
    fid: u64,
    bytes: Bytes,
    known: Option<Sum>,
    local: bool,
    usn: u64,
)
    requires rising { AreRising 0 (reserved_of objects.old).items }
    requires known { IsKnownOf bytes known }
    ensures { (reserved_of objects.new).items ≡ edit fid (λ o. stamp local usn (with_bytes bytes o)) (reserved_of objects.old).items }
{
    match objects {
        None => {}
        Some(items) => fill_at(items.as_mut_slice(), fid, bytes, known, local, usn),
    }
}

/// Takes an object out, where objects were begun.
pub(crate) fn take_from(objects: &mut Option<Vec<Object>>, fid: u64)
    requires { AreRising 0 (reserved_of objects.old).items }
    ensures { (reserved_of objects.new).items ≡ without fid (reserved_of objects.old).items }
{
    match objects {
        None => {}
        Some(items) => take_at(items, fid),
    }
}
