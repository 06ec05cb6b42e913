// Entries in nodes of a node.
ghost use Rattle.std.specs.Prelude.{◌≡◌, ◌<◌, ◌≤◌, ◌+◌, ◌++◌, ◌∷◌, [], None, true, false, IfOk, OnOk, IsSome, length, option_copied, option_to_list, vec_capacity};
ghost use Rattle.std.specs.Arc.{arc_value};
ghost use Rattle.std.specs.List.{AllByRecursion};
ghost use Rattle.frs_pmap.specs.Entries.{IsRising, cut_at, put_at, value_at};
ghost use Rattle.frs_pmap.specs.Trees.{HasHead};
ghost use Rattle.frs_pmap.specs.Nodes.{AreParts, IsGroup, IsPart, IsSpare, entries_in, in_group, in_part, part_rows};

use crate::node::{Node, absorb, are_few, follow, rekey, settle};
use crate::part::{Part, part_cut, part_get, part_put, part_share};
use crate::row::{Middle, Row};
use std::alloc::{AllocError, Global};
use std::sync::Arc;

/// Entries in nodes of a node.
pub(crate) type Group<K, V> = Node<K, Part<K, V>, Middle<K, V>>;

/// Puts a value at a key in a part: what the part is to be followed by.
fn slot_put<K: Ord + Copy, V: Drop>(
    slot: &mut (K, Part<K, V>),
    key: K,
    value: Arc<V>,
    spare: &mut Option<Vec<(K, Arc<V>)>>,
) -> Option<(K, Part<K, V>)>
    requires part { IsPart slot.old.1 }
    requires rising { IsRising K.cmp (in_part slot.old.1) }
    requires given { IsSome spare.old }
    requires spare { IsSpare spare.old }
    ensures put { entries_in (slot.new ∷ option_to_list result)
        ≡ put_at K.cmp key (arc_value value) (in_part slot.old.1) }
    ensures parts { AreParts (slot.new ∷ option_to_list result) }
    ensures spare { IsSpare spare.new }
{
    part_put(&mut slot.1, key, value);
    settle(slot, spare)
}

/// Puts a value at a key, where there is room for a part.
pub(crate) fn group_put<K: Ord + Copy, V: Drop>(
    group: &mut Group<K, V>,
    key: K,
    value: Arc<V>,
    spare: &mut Option<Vec<(K, Arc<V>)>>,
)
    requires rising { IsRising K.cmp (in_group group.old) }
    requires parts { AreParts group.old.items.items }
    requires some { 0 < length group.old.items.items }
    requires room { length group.old.items.items < vec_capacity group.old.items }
    requires given { IsSome spare.old }
    requires spare { IsSpare spare.old }
    ensures put { in_group group.new ≡ put_at K.cmp key (arc_value value) (in_group group.old) }
    ensures parts { AreParts group.new.items.items }
    ensures some { 0 < length group.new.items.items }
    ensures most { length group.new.items.items ≤ length group.old.items.items + 1 }
    ensures capacity { vec_capacity group.old.items ≤ vec_capacity group.new.items }
    ensures forgot { group.new.shared ≡ None }
    ensures spare { IsSpare spare.new }
{
    group.shared = None;
    let at = group.part_of(&key);
    let next = slot_put(&mut group.items[at], key, value, spare);
    follow(&mut group.items, at, next);
}

/// Joins the part at a place with the one behind it, where both have few items.
fn group_join<K: Ord + Copy, V: Drop>(group: &mut Group<K, V>, at: usize)
    requires { AreParts group.old.items.items }
    ensures same { in_group group.new ≡ in_group group.old }
    ensures parts { AreParts group.new.items.items }
    ensures most { length group.new.items.items ≤ length group.old.items.items }
    ensures capacity { vec_capacity group.new.items ≡ vec_capacity group.old.items }
    ensures shared { group.new.shared ≡ group.old.shared }
{
    let len = group.items.len();
    if len < 2 || at > len - 2 {
        return;
    }
    if !are_few(&group.items[at].1, &group.items[at + 1].1) {
        return;
    }
    let back = group.items.remove(at + 1);
    absorb(&mut group.items[at], back.1);
}

/// Takes the entry of a key out of a part, and tells whether it has others.
fn slot_cut<K: Ord + Copy, V: Drop>(slot: &mut (K, Part<K, V>), key: &K) -> bool
    requires part { IsPart slot.old.1 }
    requires rising { IsRising K.cmp (in_part slot.old.1) }
    ensures cut { in_part slot.new.1 ≡ cut_at K.cmp key.now (in_part slot.old.1) }
    ensures part { IsPart slot.new.1 }
    ensures kept { result ≡ true → HasHead slot.new.0 (in_part slot.new.1) }
    ensures empty { result ≡ false → slot.new.1.items.items ≡ [] }
{
    part_cut(&mut slot.1, key);
    rekey(slot)
}

/// Takes the entry of a key away.
pub(crate) fn group_cut<K: Ord + Copy, V: Drop>(group: &mut Group<K, V>, key: &K)
    requires rising { IsRising K.cmp (in_group group.old) }
    requires parts { AreParts group.old.items.items }
    requires some { 0 < length group.old.items.items }
    ensures cut { in_group group.new ≡ cut_at K.cmp key.now (in_group group.old) }
    ensures parts { AreParts group.new.items.items }
    ensures most { length group.new.items.items ≤ length group.old.items.items }
    ensures capacity { vec_capacity group.new.items ≡ vec_capacity group.old.items }
    ensures forgot { group.new.shared ≡ None }
{
    group.shared = None;
    let at = group.part_of(key);
    if slot_cut(&mut group.items[at], key) {
        group_join(group, at);
        group_join(group, at.saturating_sub(1));
        return;
    }
    let _ = group.items.remove(at);
}

/// The value at a key.
pub(crate) fn group_get<'a, K: Ord + Copy, V: Drop>(
    group: &'a Group<K, V>,
    key: &K,
) -> Option<&'a V>
    requires rising { IsRising K.cmp (in_group group.now) }
    requires parts { AreParts group.now.items.items }
    requires some { 0 < length group.now.items.items }
    ensures { option_copied result ≡ value_at K.cmp key.now (in_group group.now) }
{
    part_get(&group.items[group.part_of(key)].1, key)
}

/// Adds the row of a part behind others.
fn slot_share<K: Ord + Copy, V: Drop>(
    alloc: Global,
    slot: &mut (K, Part<K, V>),
    row: &mut Middle<K, V>,
) -> Result<(), AllocError>
    requires { IsPart slot.old.1 }
    ensures key { slot.new.0 ≡ slot.old.0 }
    ensures items { slot.new.1.items ≡ slot.old.1.items }
    ensures part { IsPart slot.new.1 }
    ensures row { OnOk result (row.new ≡ row.old ++ (slot.old.0, in_part slot.old.1) ∷ []) }
{
    let part = part_share(alloc, &mut slot.1)?;
    row.push_shared(slot.0, part)
}

/// Rows of the same entries: those that are kept, or new ones, which are kept then.
pub(crate) fn group_share<K: Ord + Copy, V: Drop>(
    alloc: Global,
    group: &mut Group<K, V>,
) -> Result<Arc<Middle<K, V>>, AllocError>
    requires { IsGroup group.old }
    ensures rows { part_rows group.new.items.items ≡ part_rows group.old.items.items }
    ensures group { IsGroup group.new }
    ensures row { IfOk result (λ row. arc_value row ≡ part_rows group.old.items.items) }
{
    if let Some(row) = &group.shared {
        return Arc::try_clone(row);
    }
    let mut row = Row::with_room(alloc, group.items.len())?;
    for at in 0..group.items.len() {
        slot_share(alloc, &mut group.items[at], &mut row)?;
    }
    let row = Arc::new(alloc, row)?;
    group.shared = Some(Arc::try_clone(&row)?);
    Ok(row)
}
