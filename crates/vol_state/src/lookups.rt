// Objects found by hints.
ghost use Rattle.std.specs.Prelude.{◌≡◌, ◌<◌, Some, option_copied, find};
ghost use Rattle.frs_base.specs.Versions.{same_uid};
ghost use Rattle.frs_base.specs.Options.{kept_if, some_is};
ghost use Rattle.vol_state.specs.Places.{child, is_child, object_at};
ghost use Rattle.vol_state.specs.Tree.{IsTree};
ghost use Rattle.vol_state.specs.State.{IsOneEach, uid_of};
ghost use Rattle.vol_state.specs.Hints.{AreHinted, Leads, LeadsFrom, head_of, is_keyed, key_of, place_key, place_keys, uid_key, uid_keys};

use crate::Object;
use crate::hints::{Hints, put_hint};
use crate::keys::{place_key, uid_key};
use crate::objects::{is_child, object_at};
use frs_base::{Guid, Name, Uid};

/// The object with this number, if it stands in this directory under a matching name.
fn child_at<'a>(objects: &'a [Object], fid: u64, parent: u64, name: &Name) -> Option<&'a Object>
    requires { IsTree objects.now }
    ensures { option_copied result ≡ kept_if (is_child parent name.now) (object_at objects.now fid) }
{
    let o = object_at(objects, fid)?;
    if is_child(o, parent, name) {
        return Some(o);
    }
    None
}

/// The object with this number, if it has this UID.
fn named_at<'a>(objects: &'a [Object], fid: u64, own: Guid, uid: &Uid) -> Option<&'a Object>
    requires { IsTree objects.now }
    ensures { option_copied result ≡ kept_if (λ o. same_uid (uid_of own o) uid.now) (object_at objects.now fid) }
{
    let o = object_at(objects, fid)?;
    if o.uid(own) == *uid {
        return Some(o);
    }
    None
}

/// The object in a directory under a matching name.
pub(crate) fn child_by<'a>(
    objects: &'a [Object],
    hints: &Hints,
    parent: u64,
    name: &Name,
) -> Option<&'a Object>
    requires tree { IsTree objects.now }
    requires hinted { AreHinted place_keys hints.now.links objects.now }
    ensures { option_copied result ≡ child objects.now parent name.now }
{
    let links = hints.links();
    let mut at = hints.newest(place_key(parent, name));
    while at > 0 {
        let link = links[at - 1];
        if let Some(o) = child_at(objects, link.fid, parent, name) {
            return Some(o);
        }
        at = link.previous;
    }
    None
}

/// The object with this UID.
pub(crate) fn object_by<'a>(
    objects: &'a [Object],
    hints: &Hints,
    own: Guid,
    uid: &Uid,
) -> Option<&'a Object>
    requires tree { IsTree objects.now }
    requires apart { IsOneEach own objects.now }
    requires hinted { AreHinted (uid_keys own) hints.now.links objects.now }
    ensures { option_copied result ≡ find (λ o. same_uid (uid_of own o) uid.now) objects.now }
{
    let links = hints.links();
    let mut at = hints.newest(uid_key(*uid));
    while at > 0 {
        let link = links[at - 1];
        if let Some(o) = named_at(objects, link.fid, own, uid) {
            return Some(o);
        }
        at = link.previous;
    }
    None
}

/// The object with this number stands under a name with this key.
fn is_place_keyed(objects: &[Object], key: u64, fid: u64) -> bool
    requires { IsTree objects.now }
    ensures { result ≡ is_keyed place_keys objects.now key fid }
{
    match object_at(objects, fid) {
        None => false,
        Some(o) => match &o.place {
            None => false,
            Some((parent, name)) => place_key(*parent, name) == key,
        },
    }
}

/// The object with this number has a UID with this key.
fn is_uid_keyed(objects: &[Object], own: Guid, key: u64, fid: u64) -> bool
    requires { IsTree objects.now }
    ensures { result ≡ is_keyed (uid_keys own) objects.now key fid }
{
    match object_at(objects, fid) {
        None => false,
        Some(o) => uid_key(o.uid(own)) == key,
    }
}

/// The object that the newest hint with this key leads to stands under a name with this key.
fn is_head_placed(objects: &[Object], hints: &Hints, key: u64) -> bool
    requires { IsTree objects.now }
    ensures { result ≡ some_is (is_keyed place_keys objects.now key) (head_of key hints.now.links) }
{
    match hints.head(key) {
        None => false,
        Some(fid) => is_place_keyed(objects, key, fid),
    }
}

/// The object that the newest hint with this key leads to has a UID with this key.
fn is_head_named(objects: &[Object], hints: &Hints, own: Guid, key: u64) -> bool
    requires { IsTree objects.now }
    ensures { result ≡ some_is (is_keyed (uid_keys own) objects.now key) (head_of key hints.now.links) }
{
    match hints.head(key) {
        None => false,
        Some(fid) => is_uid_keyed(objects, own, key, fid),
    }
}

/// Adds a hint of a place.
pub(crate) fn hint_place(
    objects: &[Object],
    hints: &mut Hints,
    fid: u64,
    place: &Option<(u64, Name)>,
)
    requires tree { IsTree objects.now }
    requires room { 0 < hints.old.room }
    requires hinted { AreHinted place_keys hints.old.links objects.now }
    ensures hinted { AreHinted place_keys hints.new.links objects.now }
    ensures there { LeadsFrom hints.new.links (key_of place.now) fid }
{
    let Some((parent, name)) = place else {
        return;
    };
    let key = place_key(*parent, name);
    let keyed = is_head_placed(objects, hints, key);
    put_hint(hints, key, fid, keyed);
}

/// Adds a hint of a UID.
pub(crate) fn hint_uid(objects: &[Object], hints: &mut Hints, own: Guid, fid: u64, uid: Uid)
    requires tree { IsTree objects.now }
    requires room { 0 < hints.old.room }
    requires hinted { AreHinted (uid_keys own) hints.old.links objects.now }
    ensures hinted { AreHinted (uid_keys own) hints.new.links objects.now }
    ensures there { Leads hints.new.links (uid_key uid) fid }
{
    let key = uid_key(uid);
    let keyed = is_head_named(objects, hints, own, key);
    put_hint(hints, key, fid, keyed);
}
