// What is to be done to an object.
ghost use Rattle.std.specs.Prelude.{◌≡◌, ◌↔◌, true, IsTrue, MatchBool};
ghost use Rattle.vol_state.specs.Conditions.{root_uid};
ghost use Rattle.vol_state.specs.Maps.{maps_of};
ghost use Rattle.name_rules.specs.Next.{IsInPlace};
ghost use Rattle.name_rules.specs.Recorded.{parent_uid};
ghost use Rattle.name_rules.specs.Shown.{AreShown, Among};
ghost use Rattle.record_db.specs.State.{IsBook};
ghost use Rattle.install_plan.specs.Objects.{IsAstray, IsAwaited, IsHome, IsInstalled, IsOutdated, IsPresent, IsRemoved, IsSettled, IsUpToDate};

use crate::records::shown_record;
use frs_base::{Name, Uid, content_set};
use name_rules::is_file;
use record_db::Book;
use vol_state::{Object, Volume};

/// The root's UID.
fn root_uid() -> Uid
    ensures { result ≡ root_uid }
{
    Uid {
        db: content_set(),
        version: 1,
    }
}

/// The UID of the directory with this number.
fn parent_uid(volume: &Volume, fid: u64) -> Uid
    ensures { result ≡ parent_uid volume.now.state.own (maps_of volume.now.state) fid }
{
    if fid == 0 {
        return root_uid();
    }
    let own = volume.own();
    match volume.object_at(fid) {
        None => Uid {
            db: own,
            version: 0,
        },
        Some(o) => o.uid(own),
    }
}

/// Whether the object's record is shown at exactly this place.
fn is_in_place(
    volume: &Volume,
    book: &Book,
    shown: &[Uid],
    object: &Object,
    place: &(u64, Name),
) -> bool
    requires book { IsBook book.now.state }
    requires shown { AreShown book.now.state.records shown.now }
    ensures { IsTrue result ↔ IsInPlace (Among book.now.state.records) volume.now.state.own (maps_of volume.now.state) object.now place.now }
{
    let (parent, name) = place;
    match shown_record(book, shown, &object.uid(volume.own())) {
        None => false,
        Some(update) => update.parent == parent_uid(volume, *parent) && update.name == *name,
    }
}

/// Whether the object is placed elsewhere than its record is shown.
pub(crate) fn is_astray(volume: &Volume, book: &Book, shown: &[Uid], object: &Object) -> bool
    requires book { IsBook book.now.state }
    requires shown { AreShown book.now.state.records shown.now }
    ensures { MatchBool result (IsAstray volume.now.state book.now.state.records object.now) (IsHome volume.now.state book.now.state.records object.now) }
{
    match &object.place {
        None => false,
        Some(place) => !is_in_place(volume, book, shown, object, place),
    }
}

/// Whether the object's record is a tombstone.
pub(crate) fn is_removed(volume: &Volume, book: &Book, object: &Object) -> bool
    requires { IsBook book.now.state }
    ensures { MatchBool result (IsRemoved volume.now.state book.now.state.records object.now) (IsPresent volume.now.state book.now.state.records object.now) }
{
    match book.held(object.uid(volume.own())) {
        None => false,
        Some(update) => !update.present,
    }
}

/// Whether the object's record is of a present file with other contents.
pub(crate) fn is_outdated(volume: &Volume, book: &Book, object: &Object) -> bool
    requires { IsBook book.now.state }
    ensures { MatchBool result (IsOutdated volume.now.state book.now.state.records object.now) (IsUpToDate volume.now.state book.now.state.records object.now) }
{
    match book.held(object.uid(volume.own())) {
        None => false,
        Some(update) => is_file(update) && object.sum != update.hash,
    }
}

/// Whether the object is in limbo, and its record is shown.
pub(crate) fn is_awaited(volume: &Volume, book: &Book, shown: &[Uid], object: &Object) -> bool
    requires book { IsBook book.now.state }
    requires shown { AreShown book.now.state.records shown.now }
    ensures { IsTrue result ↔ IsAwaited volume.now.state book.now.state.records object.now }
{
    object.place.is_none() && shown_record(book, shown, &object.uid(volume.own())).is_some()
}

/// Whether contents are staged for the object that it has already.
pub(crate) fn is_installed(volume: &Volume, book: &Book, object: &Object) -> bool
    ensures { IsTrue result ↔ IsInstalled volume.now.state book.now.state object.now }
{
    let own = volume.own();
    if book.form(object.uid(own)).is_none() {
        return false;
    }
    match book.held(object.uid(own)) {
        None => false,
        Some(update) => update.hash == object.sum,
    }
}

/// Whether no kind of step is needed for the object.
pub(crate) fn is_settled(volume: &Volume, book: &Book, shown: &[Uid], object: &Object) -> bool
    requires book { IsBook book.now.state }
    requires shown { AreShown book.now.state.records shown.now }
    ensures { result ≡ true → IsSettled volume.now.state book.now.state object.now }
{
    if is_astray(volume, book, shown, object) {
        return false;
    }
    if is_removed(volume, book, object) {
        return false;
    }
    if is_outdated(volume, book, object) {
        return false;
    }
    if is_awaited(volume, book, shown, object) {
        return false;
    }
    !is_installed(volume, book, object)
}
