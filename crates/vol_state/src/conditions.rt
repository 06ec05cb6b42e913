// The conditions of commands.
ghost use Rattle.std.specs.Prelude.{◌≡◌, ◌&&◌, not};
ghost use Rattle.frs_base.specs.Options.{some_is};
ghost use Rattle.vol_state.specs.Places.{has_children, is_reached, object_at};
ghost use Rattle.vol_state.specs.Conditions.{can_move, can_stand, is_file, is_free, is_in_limbo, is_open, is_open_object, is_placed, is_within, root_uid};

use crate::Object;
use crate::paths::LARGEST;
use crate::shelf::Shelf;
use crate::tree::{is_beneath, is_directory, is_directory_at};
use frs_base::{Bytes, Name, Uid, content_set};

/// The object has a place.
pub(crate) fn is_placed(o: &Object) -> bool
    ensures { result ≡ is_placed o.now }
{
    o.place.is_some()
}

/// The object is in limbo.
pub(crate) fn is_in_limbo(o: &Object) -> bool
    ensures { result ≡ is_in_limbo o.now }
{
    o.place.is_none()
}

/// The object is a file.
pub(crate) fn is_file(o: &Object) -> bool
    ensures { result ≡ is_file o.now }
{
    !is_directory(o.kind)
}

/// The object with this number is there and has a place.
pub(crate) fn is_placed_at(shelf: &Shelf, fid: u64) -> bool
    ensures { result ≡ some_is is_placed (object_at shelf.now.items fid) }
{
    match shelf.object_at(fid) {
        None => false,
        Some(o) => is_placed(o),
    }
}

/// The object with this number is there, in limbo.
pub(crate) fn is_in_limbo_at(shelf: &Shelf, fid: u64) -> bool
    ensures { result ≡ some_is is_in_limbo (object_at shelf.now.items fid) }
{
    match shelf.object_at(fid) {
        None => false,
        Some(o) => is_in_limbo(o),
    }
}

/// The object with this number is there, a file.
pub(crate) fn is_file_at(shelf: &Shelf, fid: u64) -> bool
    ensures { result ≡ some_is is_file (object_at shelf.now.items fid) }
{
    match shelf.object_at(fid) {
        None => false,
        Some(o) => is_file(o),
    }
}

/// A path leads there.
pub(crate) fn is_reached(shelf: &Shelf, fid: u64) -> bool
    ensures { result ≡ is_reached shelf.now.items fid }
{
    is_beneath(shelf, 0, fid)
}

/// A directory that a path leads to.
fn is_open(shelf: &Shelf, fid: u64) -> bool
    ensures { result ≡ is_open shelf.now.items fid }
{
    is_directory_at(shelf, fid) && is_reached(shelf, fid)
}

/// The object is there, and a path leads to it.
pub(crate) fn is_open_object(shelf: &Shelf, fid: u64) -> bool
    ensures { result ≡ is_open_object shelf.now.items fid }
{
    shelf.object_at(fid).is_some() && is_reached(shelf, fid)
}

/// Contents that a local put takes.
pub(crate) fn is_within(bytes: &Bytes) -> bool
    ensures { result ≡ is_within bytes.now }
{
    bytes.as_slice().len() <= LARGEST
}

/// A path leads to the directory, and nothing there has a matching name.
pub(crate) fn is_free(shelf: &Shelf, parent: u64, name: &Name) -> bool
    ensures { result ≡ is_free shelf.now.items parent name.now }
{
    is_open(shelf, parent) && shelf.child(parent, name).is_none()
}

/// The object can move there.
pub(crate) fn can_move(shelf: &Shelf, fid: u64, parent: u64, name: &Name) -> bool
    ensures { result ≡ can_move shelf.now.items fid parent name.now }
{
    is_open(shelf, parent)
        && !is_beneath(shelf, fid, parent)
        && match shelf.child(parent, name) {
            None => true,
            Some(o) => o.fid == fid,
        }
}

/// The object can be placed there.
pub(crate) fn can_stand(shelf: &Shelf, fid: u64, parent: u64, name: &Name) -> bool
    ensures { result ≡ can_stand shelf.now.items fid parent name.now }
{
    is_directory_at(shelf, parent)
        && !is_beneath(shelf, fid, parent)
        && shelf.child(parent, name).is_none()
}

/// The root's UID.
pub(crate) fn root_uid() -> Uid
    ensures { result ≡ root_uid }
{
    Uid {
        db: content_set(),
        version: 1,
    }
}
