// Entries in nodes of nodes of a node.
ghost use Rattle.std.specs.Prelude.{◌≡◌, ◌<◌, ◌≤◌, ◌+◌, ◌++◌, ◌∷◌, [], None, true, false, IfOk, OnOk, IsSome, length, option_copied, option_to_list, vec_capacity};
ghost use Rattle.std.specs.Arc.{arc_value};
ghost use Rattle.frs_pmap.specs.Entries.{IsRising, cut_at, put_at, value_at};
ghost use Rattle.frs_pmap.specs.Trees.{HasHead};
ghost use Rattle.frs_pmap.specs.Stocks.{HasPlace, IsKept, kept_in};
ghost use Rattle.frs_pmap.specs.Nodes.{AreGiven, AreGroups, AreSpare, IsGroup, IsTable, entries_under, group_rows, in_group, in_whole, part_rows};

use crate::group::{Group, group_cut, group_get, group_put, group_share};
use crate::node::{Node, absorb, are_few, follow, rekey, settle};
use crate::part::Part;
use crate::row::{Root, Row};
use std::alloc::{AllocError, Global};
use std::sync::Arc;

/// Entries in nodes of nodes of a node.
pub(crate) type Whole<K, V> = Node<K, Group<K, V>, Root<K, V>>;

/// Empty memory for a part and for a group, which a part and a group that come to have too much
/// are parted into.
#[derive(Drop)]
pub(crate) struct Spares<K, V> {
    pub(crate) part: Option<Vec<(K, Arc<V>)>>,
    pub(crate) group: Option<Vec<(K, Part<K, V>)>>,
}

/// Takes memory for a group more.
pub(crate) fn reserve_whole<K: Ord + Copy, V: Drop>(
    alloc: Global,
    whole: &mut Option<Whole<K, V>>,
) -> Result<(), AllocError>
    requires { IsKept K.cmp whole.old }
    ensures same { kept_in whole.new ≡ kept_in whole.old }
    ensures kept { IsKept K.cmp whole.new }
    ensures room { OnOk result (HasPlace whole.new) }
{
    match whole {
        Some(whole) => whole.items.reserve(1)?,
        None => {
            let items = Vec::with_capacity(alloc, 1)?;
            *whole = Some(Node {
                items,
                shared: None,
            });
        }
    }
    Ok(())
}

/// Puts a value at a key in a group: what the group is to be followed by.
fn slot_put<K: Ord + Copy, V: Drop>(
    slot: &mut (K, Group<K, V>),
    key: K,
    value: Arc<V>,
    spares: &mut Spares<K, V>,
) -> Option<(K, Group<K, V>)>
    requires group { IsGroup slot.old.1 }
    requires some { 0 < length slot.old.1.items.items }
    requires rising { IsRising K.cmp (in_group slot.old.1) }
    requires given { AreGiven spares.old }
    requires spare { AreSpare spares.old }
    ensures put { entries_under (slot.new ∷ option_to_list result)
        ≡ put_at K.cmp key (arc_value value) (in_group slot.old.1) }
    ensures groups { AreGroups (slot.new ∷ option_to_list result) }
    ensures spare { AreSpare spares.new }
{
    group_put(&mut slot.1, key, value, &mut spares.part);
    settle(slot, &mut spares.group)
}

/// Puts the first entry of all.
fn whole_begin<K: Ord + Copy, V: Drop>(
    whole: &mut Whole<K, V>,
    key: K,
    value: Arc<V>,
    spares: &mut Spares<K, V>,
)
    requires none { whole.old.items.items ≡ [] }
    requires room { length whole.old.items.items < vec_capacity whole.old.items }
    requires forgot { whole.old.shared ≡ None }
    requires given { AreGiven spares.old }
    requires spare { AreSpare spares.old }
    ensures put { in_whole whole.new ≡ (key, arc_value value) ∷ [] }
    ensures table { IsTable K.cmp whole.new }
    ensures spare { AreSpare spares.new }
{
    let (Some(mut entries), Some(mut parts)) = (spares.part.take(), spares.group.take()) else {
        unreachable!()
    };
    entries.push_reserved((key, value));
    let part = Node {
        items: entries,
        shared: None,
    };
    parts.push_reserved((key, part));
    let group = Node {
        items: parts,
        shared: None,
    };
    whole.items.push_reserved((key, group));
}

/// Puts a value at a key, where there is room for a group.
pub(crate) fn whole_put<K: Ord + Copy, V: Drop>(
    whole: &mut Whole<K, V>,
    key: K,
    value: Arc<V>,
    spares: &mut Spares<K, V>,
)
    requires table { IsTable K.cmp whole.old }
    requires room { length whole.old.items.items < vec_capacity whole.old.items }
    requires given { AreGiven spares.old }
    requires spare { AreSpare spares.old }
    ensures put { in_whole whole.new ≡ put_at K.cmp key (arc_value value) (in_whole whole.old) }
    ensures table { IsTable K.cmp whole.new }
    ensures spare { AreSpare spares.new }
{
    whole.shared = None;
    if whole.items.is_empty() {
        whole_begin(whole, key, value, spares);
        return;
    }
    let at = whole.part_of(&key);
    let next = slot_put(&mut whole.items[at], key, value, spares);
    follow(&mut whole.items, at, next);
}

/// Joins the group at a place with the one behind it, where both have few items.
fn whole_join<K: Ord + Copy, V: Drop>(whole: &mut Whole<K, V>, at: usize)
    requires { AreGroups whole.old.items.items }
    ensures same { in_whole whole.new ≡ in_whole whole.old }
    ensures groups { AreGroups whole.new.items.items }
    ensures most { length whole.new.items.items ≤ length whole.old.items.items }
    ensures capacity { vec_capacity whole.new.items ≡ vec_capacity whole.old.items }
    ensures shared { whole.new.shared ≡ whole.old.shared }
{
    let len = whole.items.len();
    if len < 2 || at > len - 2 {
        return;
    }
    if !are_few(&whole.items[at].1, &whole.items[at + 1].1) {
        return;
    }
    let back = whole.items.remove(at + 1);
    absorb(&mut whole.items[at], back.1);
}

/// Takes the entry of a key out of a group, and tells whether it has others.
fn slot_cut<K: Ord + Copy, V: Drop>(slot: &mut (K, Group<K, V>), key: &K) -> bool
    requires group { IsGroup slot.old.1 }
    requires some { 0 < length slot.old.1.items.items }
    requires rising { IsRising K.cmp (in_group slot.old.1) }
    ensures cut { in_group slot.new.1 ≡ cut_at K.cmp key.now (in_group slot.old.1) }
    ensures group { IsGroup slot.new.1 }
    ensures kept { result ≡ true → HasHead slot.new.0 (in_group slot.new.1) }
    ensures empty { result ≡ false → slot.new.1.items.items ≡ [] }
{
    group_cut(&mut slot.1, key);
    rekey(slot)
}

/// Takes the entry of a key away.
pub(crate) fn whole_cut<K: Ord + Copy, V: Drop>(whole: &mut Whole<K, V>, key: &K)
    requires { IsTable K.cmp whole.old }
    ensures cut { in_whole whole.new ≡ cut_at K.cmp key.now (in_whole whole.old) }
    ensures table { IsTable K.cmp whole.new }
    ensures most { length whole.new.items.items ≤ length whole.old.items.items }
    ensures capacity { vec_capacity whole.new.items ≡ vec_capacity whole.old.items }
{
    if whole.items.is_empty() {
        return;
    }
    whole.shared = None;
    let at = whole.part_of(key);
    if slot_cut(&mut whole.items[at], key) {
        whole_join(whole, at);
        whole_join(whole, at.saturating_sub(1));
        return;
    }
    let _ = whole.items.remove(at);
}

/// The value at a key.
pub(crate) fn whole_get<'a, K: Ord + Copy, V: Drop>(
    whole: &'a Whole<K, V>,
    key: &K,
) -> Option<&'a V>
    requires { IsTable K.cmp whole.now }
    ensures { option_copied result ≡ value_at K.cmp key.now (in_whole whole.now) }
{
    if whole.items.is_empty() {
        return None;
    }
    group_get(&whole.items[whole.part_of(key)].1, key)
}

/// Adds the rows of a group behind others.
fn slot_share<K: Ord + Copy, V: Drop>(
    alloc: Global,
    slot: &mut (K, Group<K, V>),
    row: &mut Root<K, V>,
) -> Result<(), AllocError>
    requires { IsGroup slot.old.1 }
    ensures key { slot.new.0 ≡ slot.old.0 }
    ensures rows { part_rows slot.new.1.items.items ≡ part_rows slot.old.1.items.items }
    ensures group { IsGroup slot.new.1 }
    ensures row { OnOk result
        (row.new ≡ row.old ++ (slot.old.0, part_rows slot.old.1.items.items) ∷ []) }
{
    let group = group_share(alloc, &mut slot.1)?;
    row.push_shared(slot.0, group)
}

/// Rows of the same entries: those that are kept, or new ones, which are kept then.
pub(crate) fn whole_share<K: Ord + Copy, V: Drop>(
    alloc: Global,
    whole: &mut Whole<K, V>,
) -> Result<Arc<Root<K, V>>, AllocError>
    requires { IsTable K.cmp whole.old }
    ensures rows { group_rows whole.new.items.items ≡ group_rows whole.old.items.items }
    ensures table { IsTable K.cmp whole.new }
    ensures capacity { vec_capacity whole.new.items ≡ vec_capacity whole.old.items }
    ensures row { IfOk result (λ row. arc_value row ≡ group_rows whole.old.items.items) }
{
    if let Some(row) = &whole.shared {
        return Arc::try_clone(row);
    }
    let mut row = Row::with_room(alloc, whole.items.len())?;
    for at in 0..whole.items.len() {
        slot_share(alloc, &mut whole.items[at], &mut row)?;
    }
    let row = Arc::new(alloc, row)?;
    whole.shared = Some(Arc::try_clone(&row)?);
    Ok(row)
}
