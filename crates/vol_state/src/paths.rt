// What paths lead to, and the first refusal of an operation.
ghost use Rattle.std.specs.Prelude.{◌≡◌, ◌<◌, IfOk, length, option_copied};
ghost use Rattle.vol_state.specs.Paths.{check, entered, home, last_name, present, resolve_mkdir, resolve_move, resolve_put, resolve_remove, target, walk, with_ok};

use crate::shelf::Shelf;
use crate::tree::is_beneath;
use crate::{LocalOp, Object, Refused};
use frs_base::{Kind, Name};

/// The most bytes that a local put takes.
pub(crate) const LARGEST: usize = 1_048_576;

/// The number of the directory, if it is one.
fn entered(found: Option<&Object>) -> Result<u64, Refused>
    ensures { result ≡ entered (option_copied found.entry) }
{
    match found {
        None => Err(Refused::NoPath),
        Some(o) => match o.kind {
            Kind::File => Err(Refused::NotDirectory),
            Kind::Directory => Ok(o.fid),
        },
    }
}

/// The object, if there is one.
fn present(found: Option<&Object>) -> Result<&Object, Refused>
    ensures { with_ok (λ o. o.now) result ≡ present (option_copied found.entry) }
{
    match found {
        None => Err(Refused::NoPath),
        Some(o) => Ok(o),
    }
}

/// The directory in which a path's last component stands.
pub(crate) fn home(shelf: &Shelf, path: &[Name]) -> Result<u64, Refused>
    ensures home { result ≡ home shelf.now.items path.now }
    ensures named { IfOk result (λ _. 0 < length path.now) }
{
    let Some((first, rest)) = path.split_first() else {
        return Err(Refused::NoPath);
    };
    let mut at = 0;
    let mut name = first;
    for next in rest {
        at = entered(shelf.child(at, name))?;
        name = next;
    }
    Ok(at)
}

/// The last component.
pub(crate) fn last_name(path: &[Name]) -> &Name
    requires { 0 < length path.now }
    ensures { result.now ≡ last_name path.now }
{
    &path[path.len() - 1]
}

/// The object that a path leads to.
pub(crate) fn target<'a>(shelf: &'a Shelf, path: &[Name]) -> Result<&'a Object, Refused>
    ensures { with_ok (λ o. o.now) result ≡ target shelf.now.items path.now }
{
    let at = home(shelf, path)?;
    present(shelf.child(at, last_name(path)))
}

fn check_put(shelf: &Shelf, path: &[Name], bytes: &[u8]) -> Result<(), Refused>
    ensures { result ≡ with_ok (λ _. tt) (resolve_put shelf.now.items path.now bytes.now) }
{
    if bytes.len() > LARGEST {
        return Err(Refused::TooLarge {
            length: bytes.len() as u64,
        });
    }
    let at = home(shelf, path)?;
    match shelf.child(at, last_name(path)) {
        None => Ok(()),
        Some(o) => match o.kind {
            Kind::File => Ok(()),
            Kind::Directory => Err(Refused::NameTaken),
        },
    }
}

fn check_mkdir(shelf: &Shelf, path: &[Name]) -> Result<(), Refused>
    ensures { result ≡ with_ok (λ _. tt) (resolve_mkdir shelf.now.items path.now) }
{
    let at = home(shelf, path)?;
    match shelf.child(at, last_name(path)) {
        None => Ok(()),
        Some(_) => Err(Refused::NameTaken),
    }
}

fn check_move(shelf: &Shelf, from: &[Name], to: &[Name]) -> Result<(), Refused>
    ensures { result ≡ with_ok (λ _. tt) (resolve_move shelf.now.items from.now to.now) }
{
    let o = target(shelf, from)?;
    let at = home(shelf, to)?;
    if is_beneath(shelf, o.fid, at) {
        return Err(Refused::Looped);
    }
    match shelf.child(at, last_name(to)) {
        None => Ok(()),
        Some(other) => {
            if other.fid == o.fid {
                Ok(())
            } else {
                Err(Refused::NameTaken)
            }
        }
    }
}

fn check_remove(shelf: &Shelf, path: &[Name]) -> Result<(), Refused>
    ensures { result ≡ with_ok (λ _. tt) (resolve_remove shelf.now.items path.now) }
{
    let o = target(shelf, path)?;
    if shelf.has_children(o.fid) {
        return Err(Refused::NotEmpty);
    }
    Ok(())
}

/// The first refusal of an operation.
pub(crate) fn check(shelf: &Shelf, op: &LocalOp) -> Result<(), Refused>
    ensures { result ≡ check shelf.now.items op.now }
{
    match op {
        LocalOp::Put { path, bytes } => check_put(shelf, path.as_slice(), bytes.as_slice()),
        LocalOp::Mkdir { path } => check_mkdir(shelf, path.as_slice()),
        LocalOp::Move { from, to } => check_move(shelf, from.as_slice(), to.as_slice()),
        LocalOp::Remove { path } => check_remove(shelf, path.as_slice()),
    }
}
