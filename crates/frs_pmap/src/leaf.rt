// Entries in one row.
ghost use Rattle.std.specs.Prelude.{◌≡◌, IfOk, option_copied};
ghost use Rattle.frs_pmap.specs.Entries.{IsRising, cut_at, put_at, value_at};

use crate::row::{Leaf, MOST, Row};
use std::alloc::{AllocError, Global};

/// The value at a key.
pub(crate) fn leaf_get<'a, K: Ord + Copy, V: Drop>(leaf: &'a Leaf<K, V>, key: &K) -> Option<&'a V>
    requires { IsRising K.cmp leaf.now }
    ensures { option_copied result ≡ value_at K.cmp key.now leaf.now }
{
    let at = leaf.place(key);
    if at > 0 {
        let (found, value) = leaf.item(at - 1);
        if key.cmp(&found).is_eq() {
            return Some(value);
        }
    }
    None
}

/// The entries with a value at a key.
pub(crate) fn leaf_with<K: Ord + Copy, V: Drop>(
    alloc: Global,
    leaf: &Leaf<K, V>,
    key: K,
    value: V,
) -> Result<Leaf<K, V>, AllocError>
    requires { IsRising K.cmp leaf.now }
    ensures { IfOk result (λ row. row ≡ put_at K.cmp key value leaf.now) }
{
    let len = leaf.len();
    let mut row = Row::with_room(alloc, MOST + 1)?;
    let at = leaf.place(&key);
    if at > 0 {
        let (found, _) = leaf.item(at - 1);
        if key.cmp(&found).is_eq() {
            row.extend(leaf, 0, at - 1)?;
            row.push(alloc, found, value)?;
            row.extend(leaf, at, len)?;
            return Ok(row);
        }
    }
    row.extend(leaf, 0, at)?;
    row.push(alloc, key, value)?;
    row.extend(leaf, at, len)?;
    Ok(row)
}

/// The entries without that of a key.
pub(crate) fn leaf_without<K: Ord + Copy, V: Drop>(
    alloc: Global,
    leaf: &Leaf<K, V>,
    key: &K,
) -> Result<Leaf<K, V>, AllocError>
    requires { IsRising K.cmp leaf.now }
    ensures { IfOk result (λ row. row ≡ cut_at K.cmp key.now leaf.now) }
{
    let len = leaf.len();
    let mut row = Row::with_room(alloc, MOST + 1)?;
    let at = leaf.place(key);
    if at > 0 {
        let (found, _) = leaf.item(at - 1);
        if key.cmp(&found).is_eq() {
            row.extend(leaf, 0, at - 1)?;
            row.extend(leaf, at, len)?;
            return Ok(row);
        }
    }
    row.extend(leaf, 0, len)?;
    Ok(row)
}
