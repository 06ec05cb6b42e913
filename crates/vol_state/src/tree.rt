// Where objects are.
ghost use Rattle.std.specs.Prelude.{◌≡◌, length};
ghost use Rattle.vol_state.specs.Places.{above, is_beneath, is_directory, is_directory_at, is_under};

use crate::shelf::Shelf;
use frs_base::Kind;

/// The kind of a directory.
pub(crate) fn is_directory(kind: Kind) -> bool
    ensures { result ≡ is_directory kind }
{
    match kind {
        Kind::File => false,
        Kind::Directory => true,
    }
}

/// The root, or a directory that is there.
pub(crate) fn is_directory_at(shelf: &Shelf, fid: u64) -> bool
    ensures { result ≡ is_directory_at shelf.now.items fid }
{
    fid == 0
        || match shelf.object_at(fid) {
            None => false,
            Some(o) => is_directory(o.kind),
        }
}

/// The directory in which an object stands.
fn above(shelf: &Shelf, fid: u64) -> Option<u64>
    ensures { result ≡ above shelf.now.items fid }
{
    match shelf.object_at(fid) {
        None => None,
        Some(o) => match &o.place {
            None => None,
            Some((at, _)) => Some(*at),
        },
    }
}

/// Whether fid is top or stands beneath it. One step up for each object is enough.
pub(crate) fn is_beneath(shelf: &Shelf, top: u64, fid: u64) -> bool
    ensures { result ≡ is_beneath shelf.now.items top fid }
{
    let count = shelf.as_slice().len();
    let mut at = fid;
    for _step in 0..count {
        if at == top {
            return true;
        }
        match above(shelf, at) {
            None => return false,
            Some(up) => at = up,
        }
    }
    at == top
}
