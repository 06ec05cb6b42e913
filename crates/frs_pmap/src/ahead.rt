// The first entry of a table at a key or above it.
ghost use Rattle.std.specs.Prelude.{◌≡◌, ◌<◌, Some, drop, length, slice_get};
ghost use Rattle.frs_pmap.specs.Entries.{IsRising, first_beyond, lent};
ghost use Rattle.frs_pmap.specs.Nodes.{AreGroups, AreParts, IsTable, entries_in, entries_under, in_group, in_part, in_whole};

use crate::group::Group;
use crate::part::Part;
use crate::row::{place, place_below};
use crate::whole::Whole;

/// Where the first entry of a part stands that is above a key, or, unless `past`, not below it:
/// behind the others where there is none.
fn part_place<K: Ord + Copy, V: Drop>(part: &Part<K, V>, key: &K, past: bool) -> usize
    requires { IsRising K.cmp (in_part part.now) }
    ensures { slice_get (in_part part.now) result
        ≡ first_beyond K.cmp past key.now (in_part part.now) }
{
    if past {
        return place(part.items.as_slice(), key);
    }
    place_below(part.items.as_slice(), key)
}

/// The first entry of a part above a key, or, unless `past`, at the key or above it.
fn part_beyond<'a, K: Ord + Copy, V: Drop>(
    part: &'a Part<K, V>,
    key: &K,
    past: bool,
) -> Option<(K, &'a V)>
    requires { IsRising K.cmp (in_part part.now) }
    ensures { lent result ≡ first_beyond K.cmp past key.now (in_part part.now) }
{
    let at = part_place(part, key, past);
    if at >= part.items.len() {
        return None;
    }
    let item = &part.items[at];
    Some((item.0, &*item.1))
}

/// The first entry of a part.
fn part_first<'a, K: Ord + Copy, V: Drop>(part: &'a Part<K, V>) -> (K, &'a V)
    requires { 0 < length part.now.items.items }
    ensures { Some (result.0, result.1.now) ≡ slice_get (in_part part.now) 0 }
{
    let item = &part.items[0];
    (item.0, &*item.1)
}

/// The first entry of the parts from a place on.
fn group_first<'a, K: Ord + Copy, V: Drop>(group: &'a Group<K, V>, at: usize) -> Option<(K, &'a V)>
    requires { AreParts group.now.items.items }
    ensures { lent result ≡ slice_get (entries_in (drop at group.now.items.items)) 0 }
{
    if at >= group.items.len() {
        return None;
    }
    Some(part_first(&group.items[at].1))
}

/// The first entry of a group above a key, or, unless `past`, at the key or above it.
fn group_beyond<'a, K: Ord + Copy, V: Drop>(
    group: &'a Group<K, V>,
    key: &K,
    past: bool,
) -> Option<(K, &'a V)>
    requires rising { IsRising K.cmp (in_group group.now) }
    requires parts { AreParts group.now.items.items }
    requires some { 0 < length group.now.items.items }
    ensures { lent result ≡ first_beyond K.cmp past key.now (in_group group.now) }
{
    let at = group.part_of(key);
    let found = part_beyond(&group.items[at].1, key, past);
    if found.is_some() {
        return found;
    }
    group_first(group, at + 1)
}

/// The first entry of the groups from a place on.
pub(crate) fn whole_first<'a, K: Ord + Copy, V: Drop>(
    whole: &'a Whole<K, V>,
    at: usize,
) -> Option<(K, &'a V)>
    requires { AreGroups whole.now.items.items }
    ensures { lent result ≡ slice_get (entries_under (drop at whole.now.items.items)) 0 }
{
    if at >= whole.items.len() {
        return None;
    }
    group_first(&whole.items[at].1, 0)
}

/// The first entry above a key, or, unless `past`, at the key or above it.
pub(crate) fn whole_beyond<'a, K: Ord + Copy, V: Drop>(
    whole: &'a Whole<K, V>,
    key: &K,
    past: bool,
) -> Option<(K, &'a V)>
    requires { IsTable K.cmp whole.now }
    ensures { lent result ≡ first_beyond K.cmp past key.now (in_whole whole.now) }
{
    if whole.items.is_empty() {
        return None;
    }
    let at = whole.part_of(key);
    let found = group_beyond(&whole.items[at].1, key, past);
    if found.is_some() {
        return found;
    }
    whole_first(whole, at + 1)
}
