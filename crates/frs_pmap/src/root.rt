// Entries in rows of rows of a row.
ghost use Rattle.std.specs.Prelude.{◌≡◌, [], ◌∷◌, IfOk, option_copied};
ghost use Rattle.frs_pmap.specs.Entries.{cut_at, put_at, value_at};
ghost use Rattle.frs_pmap.specs.Trees.{IsTree, entries_of};

use crate::join::joined_around;
use crate::middle::{middle_get, middle_with, middle_without, part_of, pieces, spliced};
use crate::row::{Root, Row};
use std::alloc::{AllocError, Global};

/// The value at a key.
pub(crate) fn root_get<'a, K: Ord + Copy, V: Drop>(root: &'a Root<K, V>, key: &K) -> Option<&'a V>
    requires { IsTree K.cmp root.now }
    ensures { option_copied result ≡ value_at K.cmp key.now (entries_of root.now) }
{
    if root.len() == 0 {
        return None;
    }
    let (_, middle) = root.item(part_of(root, key));
    middle_get(middle, key)
}

/// One entry.
pub(crate) fn root_of_one<K: Ord + Copy, V: Drop>(
    alloc: Global,
    key: K,
    value: V,
) -> Result<Root<K, V>, AllocError>
    ensures put { IfOk result (λ row. entries_of row ≡ (key, value) ∷ []) }
    ensures tree { IfOk result (IsTree K.cmp) }
{
    let mut leaf = Row::with_room(alloc, 1)?;
    leaf.push(alloc, key, value)?;
    let mut middle = Row::with_room(alloc, 1)?;
    middle.push(alloc, key, leaf)?;
    let mut out = Row::with_room(alloc, 1)?;
    out.push(alloc, key, middle)?;
    Ok(out)
}

/// The entries with a value at a key.
pub(crate) fn root_with<K: Ord + Copy, V: Drop>(
    alloc: Global,
    root: &Root<K, V>,
    key: K,
    value: V,
) -> Result<Root<K, V>, AllocError>
    requires { IsTree K.cmp root.now }
    ensures put { IfOk result
        (λ row. entries_of row ≡ put_at K.cmp key value (entries_of root.now)) }
    ensures tree { IfOk result (IsTree K.cmp) }
{
    if root.len() == 0 {
        let out = root_of_one(alloc, key, value)?;
        return Ok(out);
    }
    let at = part_of(root, &key);
    let (_, middle) = root.item(at);
    let parts = pieces(alloc, middle_with(alloc, middle, key, value)?)?;
    let out = spliced(alloc, root, at, &parts)?;
    Ok(out)
}

/// The entries without that of a key.
pub(crate) fn root_without<K: Ord + Copy, V: Drop>(
    alloc: Global,
    root: &Root<K, V>,
    key: &K,
) -> Result<Root<K, V>, AllocError>
    requires { IsTree K.cmp root.now }
    ensures cut { IfOk result (λ row. entries_of row ≡ cut_at K.cmp key.now (entries_of root.now)) }
    ensures tree { IfOk result (IsTree K.cmp) }
{
    if root.len() == 0 {
        return Row::with_room(alloc, 0);
    }
    let at = part_of(root, key);
    let (_, middle) = root.item(at);
    let parts = pieces(alloc, middle_without(alloc, middle, key)?)?;
    let less = spliced(alloc, root, at, &parts)?;
    let out = joined_around(alloc, less, at)?;
    Ok(out)
}
