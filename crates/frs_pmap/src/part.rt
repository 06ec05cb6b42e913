// Entries in one node.
ghost use Rattle.std.specs.Prelude.{◌≡◌, ◌<◌, ◌≤◌, ◌+◌, None, IfOk, length, option_copied, vec_capacity};
ghost use Rattle.std.specs.Arc.{arc_value};
ghost use Rattle.frs_pmap.specs.Entries.{IsRising, cut_at, put_at, value_at};
ghost use Rattle.frs_pmap.specs.Nodes.{IsPart, in_part};

use crate::node::{Node, insert_reserved};
use crate::row::{Leaf, Row, place};
use std::alloc::{AllocError, Global};
use std::sync::Arc;

/// Entries in one node.
pub(crate) type Part<K, V> = Node<K, Arc<V>, Leaf<K, V>>;

/// Puts a value at a key, where there is room for an entry.
pub(crate) fn part_put<K: Ord + Copy, V: Drop>(part: &mut Part<K, V>, key: K, value: Arc<V>)
    requires rising { IsRising K.cmp (in_part part.old) }
    requires room { length part.old.items.items < vec_capacity part.old.items }
    ensures put { in_part part.new ≡ put_at K.cmp key (arc_value value) (in_part part.old) }
    ensures some { 0 < length part.new.items.items }
    ensures most { length part.new.items.items ≤ length part.old.items.items + 1 }
    ensures capacity { vec_capacity part.old.items ≤ vec_capacity part.new.items }
    ensures forgot { part.new.shared ≡ None }
{
    part.shared = None; // the next share makes another
    let at = place(part.items.as_slice(), &key);
    if at > 0 {
        let found = part.items[at - 1].0;
        if key.cmp(&found).is_eq() {
            part.items[at - 1].1 = value;
            return;
        }
    }
    insert_reserved(&mut part.items, at, (key, value));
}

/// Takes the entry of a key away.
pub(crate) fn part_cut<K: Ord + Copy, V: Drop>(part: &mut Part<K, V>, key: &K)
    requires { IsRising K.cmp (in_part part.old) }
    ensures cut { in_part part.new ≡ cut_at K.cmp key.now (in_part part.old) }
    ensures most { length part.new.items.items ≤ length part.old.items.items }
    ensures capacity { vec_capacity part.new.items ≡ vec_capacity part.old.items }
    ensures forgot { part.new.shared ≡ None }
{
    part.shared = None;
    let at = place(part.items.as_slice(), key);
    if at > 0 {
        let found = part.items[at - 1].0;
        if key.cmp(&found).is_eq() {
            let _ = part.items.remove(at - 1);
        }
    }
}

/// The value at a key.
pub(crate) fn part_get<'a, K: Ord + Copy, V: Drop>(part: &'a Part<K, V>, key: &K) -> Option<&'a V>
    requires { IsRising K.cmp (in_part part.now) }
    ensures { option_copied result ≡ value_at K.cmp key.now (in_part part.now) }
{
    let at = place(part.items.as_slice(), key);
    if at > 0 {
        let item = &part.items[at - 1];
        if key.cmp(&item.0).is_eq() {
            return Some(&*item.1);
        }
    }
    None
}

/// A row of the same entries: the one that is kept, or a new one, which is kept then.
pub(crate) fn part_share<K: Ord + Copy, V: Drop>(
    alloc: Global,
    part: &mut Part<K, V>,
) -> Result<Arc<Leaf<K, V>>, AllocError>
    requires { IsPart part.old }
    ensures items { part.new.items ≡ part.old.items }
    ensures part { IsPart part.new }
    ensures row { IfOk result (λ row. arc_value row ≡ in_part part.old) }
{
    if let Some(row) = &part.shared {
        return Arc::try_clone(row);
    }
    let mut row = Row::with_room(alloc, part.items.len())?;
    for at in 0..part.items.len() {
        let item = &part.items[at];
        row.push_shared(item.0, Arc::try_clone(&item.1)?)?;
    }
    let row = Arc::new(alloc, row)?;
    part.shared = Some(Arc::try_clone(&row)?);
    Ok(row)
}
