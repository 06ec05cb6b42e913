// Whether a kind of step is needed for a file.
ghost use Rattle.std.specs.Prelude.{◌≡◌, MatchBool};
ghost use Rattle.name_rules.specs.declared.step.Step.TheVariants.{Erase, Make, Park, Place, Rewrite, Unstage};
ghost use Rattle.name_rules.specs.Shown.{AreShown};
ghost use Rattle.record_db.specs.State.{IsBook};
ghost use Rattle.install_plan.specs.Done.{Done, Needs};

use crate::objects::{is_astray, is_awaited, is_installed, is_outdated, is_removed};
use crate::records::is_among;
use frs_base::Uid;
use record_db::Book;
use vol_state::Volume;

/// Whether its object is to leave its place.
pub(crate) fn needs_park(volume: &Volume, book: &Book, shown: &[Uid], uid: &Uid) -> bool
    requires book { IsBook book.now.state }
    requires shown { AreShown book.now.state.records shown.now }
    ensures { MatchBool result (Needs volume.now.state book.now.state (Park uid.now)) (Done volume.now.state book.now.state (Park uid.now)) }
{
    match volume.object_of(*uid) {
        None => false,
        Some(object) => is_astray(volume, book, shown, object),
    }
}

/// Whether its object is to go.
pub(crate) fn needs_erase(volume: &Volume, book: &Book, uid: &Uid) -> bool
    requires { IsBook book.now.state }
    ensures { MatchBool result (Needs volume.now.state book.now.state (Erase uid.now)) (Done volume.now.state book.now.state (Erase uid.now)) }
{
    match volume.object_of(*uid) {
        None => false,
        Some(object) => is_removed(volume, book, object),
    }
}

/// Whether it needs an object.
pub(crate) fn needs_make(volume: &Volume, book: &Book, shown: &[Uid], uid: &Uid) -> bool
    requires { AreShown book.now.state.records shown.now }
    ensures { MatchBool result (Needs volume.now.state book.now.state (Make uid.now)) (Done volume.now.state book.now.state (Make uid.now)) }
{
    match volume.object_of(*uid) {
        None => is_among(shown, uid),
        Some(_) => false,
    }
}

/// Whether it needs other contents.
pub(crate) fn needs_rewrite(volume: &Volume, book: &Book, uid: &Uid) -> bool
    requires { IsBook book.now.state }
    ensures { MatchBool result (Needs volume.now.state book.now.state (Rewrite uid.now)) (Done volume.now.state book.now.state (Rewrite uid.now)) }
{
    match volume.object_of(*uid) {
        None => false,
        Some(object) => is_outdated(volume, book, object),
    }
}

/// Whether its object is to get its place.
pub(crate) fn needs_place(volume: &Volume, book: &Book, shown: &[Uid], uid: &Uid) -> bool
    requires book { IsBook book.now.state }
    requires shown { AreShown book.now.state.records shown.now }
    ensures { MatchBool result (Needs volume.now.state book.now.state (Place uid.now)) (Done volume.now.state book.now.state (Place uid.now)) }
{
    match volume.object_of(*uid) {
        None => false,
        Some(object) => is_awaited(volume, book, shown, object),
    }
}

/// Whether its staged contents are to go.
pub(crate) fn needs_unstage(volume: &Volume, book: &Book, uid: &Uid) -> bool
    ensures { MatchBool result (Needs volume.now.state book.now.state (Unstage uid.now)) (Done volume.now.state book.now.state (Unstage uid.now)) }
{
    match volume.object_of(*uid) {
        None => false,
        Some(object) => is_installed(volume, book, object),
    }
}
