// The first entry at a key or above it.
ghost use Rattle.std.specs.Prelude.{◌≡◌, ◌<◌, drop, length, slice_get};
ghost use Rattle.frs_pmap.specs.Entries.{IsRising, first_beyond, lent};
ghost use Rattle.frs_pmap.specs.Trees.{AreHeaded, IsBranch, IsTree, entries_of, flat};

use crate::middle::part_of;
use crate::row::{Leaf, Middle, Root};

/// The first entry above a key in a row, or, unless `past`, at the key or above it.
fn leaf_beyond<'a, K: Ord + Copy, V: Drop>(
    leaf: &'a Leaf<K, V>,
    key: &K,
    past: bool,
) -> Option<(K, &'a V)>
    requires { IsRising K.cmp leaf.now }
    ensures { lent result ≡ first_beyond K.cmp past key.now leaf.now }
{
    let at = leaf.beyond(key, past);
    if at >= leaf.len() {
        return None;
    }
    Some(leaf.item(at))
}

/// The first entry of the rows from this place on.
pub(crate) fn middle_first<'a, K: Ord + Copy, V: Drop>(
    middle: &'a Middle<K, V>,
    at: usize,
) -> Option<(K, &'a V)>
    requires { AreHeaded middle.now }
    ensures { lent result ≡ slice_get (flat (drop at middle.now)) 0 }
{
    if at >= middle.len() {
        return None;
    }
    let (_, leaf) = middle.item(at);
    Some(leaf.item(0))
}

/// The first entry above a key in rows of a row, or, unless `past`, at the key or above it.
fn middle_beyond<'a, K: Ord + Copy, V: Drop>(
    middle: &'a Middle<K, V>,
    key: &K,
    past: bool,
) -> Option<(K, &'a V)>
    requires branch { IsBranch K.cmp middle.now }
    requires some { 0 < length middle.now }
    ensures { lent result ≡ first_beyond K.cmp past key.now (flat middle.now) }
{
    let _len = middle.len();
    let at = part_of(middle, key);
    let (_, leaf) = middle.item(at);
    let found = leaf_beyond(leaf, key, past);
    if found.is_some() {
        return found;
    }
    middle_first(middle, at + 1)
}

/// The first entry of the rows of rows from this place on.
pub(crate) fn root_first<'a, K: Ord + Copy, V: Drop>(
    root: &'a Root<K, V>,
    at: usize,
) -> Option<(K, &'a V)>
    requires { IsTree K.cmp root.now }
    ensures { lent result ≡ slice_get (entries_of (drop at root.now)) 0 }
{
    if at >= root.len() {
        return None;
    }
    let (_, middle) = root.item(at);
    middle_first(middle, 0)
}

/// The first entry above a key, or, unless `past`, at the key or above it.
pub(crate) fn root_beyond<'a, K: Ord + Copy, V: Drop>(
    root: &'a Root<K, V>,
    key: &K,
    past: bool,
) -> Option<(K, &'a V)>
    requires { IsTree K.cmp root.now }
    ensures { lent result ≡ first_beyond K.cmp past key.now (entries_of root.now) }
{
    if root.len() == 0 {
        return None;
    }
    let at = part_of(root, key);
    let (_, middle) = root.item(at);
    let found = middle_beyond(middle, key, past);
    if found.is_some() {
        return found;
    }
    root_first(root, at + 1)
}
