// Entries in rows of a row.
ghost use Rattle.std.specs.Prelude.{◌≡◌, ◌<◌, ◌+◌, ◌-◌, ◌++◌, IfOk, length, take, drop, option_copied};
ghost use Rattle.std.specs.List.{prefix_len};
ghost use Rattle.frs_pmap.specs.Entries.{IsRising, cut_at, is_upto, put_at, value_at};
ghost use Rattle.frs_pmap.specs.Trees.{AreHeaded, IsBranch, IsPieces, flat};

use crate::join::joined_around;
use crate::leaf::{leaf_get, leaf_with, leaf_without};
use crate::row::{MOST, Middle, Row};
use std::alloc::{AllocError, Global};

/// A row as rows of a row: none where it is empty, and two where it has too many keys.
pub(crate) fn pieces<K: Ord + Copy, P: Drop>(
    alloc: Global,
    row: Row<K, P>,
) -> Result<Row<K, Row<K, P>>, AllocError>
    ensures { IfOk result (λ parts. IsPieces row parts) }
{
    let mut row = row;
    let len = row.len();
    let mut parts = Row::with_room(alloc, 2)?;
    if len == 0 {
        return Ok(parts);
    }
    if len <= MOST {
        let (first, _) = row.item(0);
        parts.push(alloc, first, row)?;
        return Ok(parts);
    }
    let back = row.split_off(len / 2)?;
    let (first, _) = row.item(0);
    let (second, _) = back.item(0);
    parts.push(alloc, first, row)?;
    parts.push(alloc, second, back)?;
    Ok(parts)
}

/// A row with others in the place of one.
pub(crate) fn spliced<K: Ord + Copy, P: Drop>(
    alloc: Global,
    row: &Row<K, P>,
    at: usize,
    parts: &Row<K, P>,
) -> Result<Row<K, P>, AllocError>
    requires { at < length row.now }
    ensures { IfOk result (λ out. out ≡ take at row.now ++ (parts.now ++ drop (at + 1) row.now)) }
{
    let len = row.len();
    let mut out = Row::with_room(alloc, len.saturating_add(1))?;
    out.extend(row, 0, at)?;
    out.extend(parts, 0, parts.len())?;
    out.extend(row, at + 1, len)?;
    Ok(out)
}

/// Which part of a row a key is in, or would be.
pub(crate) fn part_of<K: Ord + Copy, P: Drop>(row: &Row<K, P>, key: &K) -> usize
    requires rising { IsRising K.cmp row.now }
    requires some { 0 < length row.now }
    ensures part { result ≡ prefix_len (is_upto K.cmp key.now) row.now - 1 }
    ensures within { result < length row.now }
{
    row.place(key).saturating_sub(1)
}

/// The value at a key.
pub(crate) fn middle_get<'a, K: Ord + Copy, V: Drop>(
    middle: &'a Middle<K, V>,
    key: &K,
) -> Option<&'a V>
    requires branch { IsBranch K.cmp middle.now }
    requires some { 0 < length middle.now }
    ensures { option_copied result ≡ value_at K.cmp key.now (flat middle.now) }
{
    let (_, leaf) = middle.item(part_of(middle, key));
    leaf_get(leaf, key)
}

/// The entries with a value at a key.
pub(crate) fn middle_with<K: Ord + Copy, V: Drop>(
    alloc: Global,
    middle: &Middle<K, V>,
    key: K,
    value: V,
) -> Result<Middle<K, V>, AllocError>
    requires branch { IsBranch K.cmp middle.now }
    requires some { 0 < length middle.now }
    ensures put { IfOk result (λ row. flat row ≡ put_at K.cmp key value (flat middle.now)) }
    ensures headed { IfOk result AreHeaded }
{
    let at = part_of(middle, &key);
    let (_, leaf) = middle.item(at);
    let parts = pieces(alloc, leaf_with(alloc, leaf, key, value)?)?;
    let out = spliced(alloc, middle, at, &parts)?;
    Ok(out)
}

/// The entries without that of a key.
pub(crate) fn middle_without<K: Ord + Copy, V: Drop>(
    alloc: Global,
    middle: &Middle<K, V>,
    key: &K,
) -> Result<Middle<K, V>, AllocError>
    requires branch { IsBranch K.cmp middle.now }
    requires some { 0 < length middle.now }
    ensures cut { IfOk result (λ row. flat row ≡ cut_at K.cmp key.now (flat middle.now)) }
    ensures headed { IfOk result AreHeaded }
{
    let at = part_of(middle, key);
    let (_, leaf) = middle.item(at);
    let parts = pieces(alloc, leaf_without(alloc, leaf, key)?)?;
    let less = spliced(alloc, middle, at, &parts)?;
    let out = joined_around(alloc, less, at)?;
    Ok(out)
}
