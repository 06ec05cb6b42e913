// Keys with what stands under them, changed in their place.
ghost use Rattle.std.specs.Prelude.{◌≡◌, ◌<◌, ◌≤◌, ◌+◌, ◌-◌, ◌++◌, ◌∷◌, [], None, insert, length, take, drop, option_to_list, true, false, vec_capacity, vec_len, IsSome, OnOk};
ghost use Rattle.std.specs.List.{AllByRecursion, prefix_len};
ghost use Rattle.frs_pmap.specs.Entries.{IsRising, is_upto};
ghost use Rattle.frs_pmap.specs.Nodes.{IsFresh, IsSpare, held_by};
ghost use Rattle.frs_pmap.specs.Trees.{HasHead};

use crate::row::{FEW, MOST, place};
use std::alloc::{AllocError, Global};
use std::sync::Arc;

/// Keys with what stands under each, changed in their place, and a shared row of just the same,
/// where one was made since the last change.
#[derive(Drop)]
pub(crate) struct Node<K, T, S> {
    pub(crate) items: Vec<(K, T)>,
    pub(crate) shared: Option<Arc<S>>,
}

/// Puts a value in at this place, where there is room for it.
pub(crate) fn insert_reserved<T: Drop>(items: &mut Vec<T>, at: usize, item: T)
    requires within { at ≤ vec_len items.old }
    requires room { vec_len items.old < vec_capacity items.old }
    ensures items { items.new.items ≡ insert items.old.items at item }
    ensures len { vec_len items.new ≡ vec_len items.old + 1 }
    ensures capacity { vec_capacity items.old ≤ vec_capacity items.new }
{
    let Ok(()) = items.insert(at, item) else {
        unreachable!()
    };
}

/// Moves the values from this place on into an empty vector that has room for them.
fn move_tail<T: Drop>(items: &mut Vec<T>, at: usize, room: Vec<T>) -> Vec<T>
    requires within { at ≤ vec_len items.old }
    requires empty { room.items ≡ [] }
    requires fits { vec_len items.old ≤ vec_capacity room }
    ensures front { items.new.items ≡ take at items.old.items }
    ensures back { result.items ≡ drop at items.old.items }
    ensures len { vec_len items.new ≡ at }
    ensures back_len { vec_len result + at ≡ vec_len items.old }
    ensures capacity { vec_capacity items.new ≡ vec_capacity items.old }
    ensures back_capacity { vec_capacity result ≡ vec_capacity room }
{
    let mut back = room;
    while items.len() > at {
        let Some(item) = items.pop() else {
            unreachable!()
        };
        back.push_reserved(item);
    }
    back.reverse();
    back
}

impl<K: Ord + Copy, T: Drop, S: Drop> Node<K, T, S> {
    /// Which item a key is in, or would be.
    pub(crate) fn part_of(&self, key: &K) -> usize
        requires rising { IsRising K.cmp self.now.items.items }
        requires some { 0 < length self.now.items.items }
        ensures part { result ≡ prefix_len (is_upto K.cmp key.now) self.now.items.items - 1 }
        ensures within { result < length self.now.items.items }
    {
        place(self.items.as_slice(), key).saturating_sub(1)
    }

    /// Takes the items from this place on away, into an empty vector that has room for them.
    fn split(&mut self, at: usize, room: Vec<(K, T)>) -> Node<K, T, S>
        requires within { at ≤ vec_len self.old.items }
        requires empty { room.items ≡ [] }
        requires fits { vec_len self.old.items ≤ vec_capacity room }
        ensures front { self.new.items.items ≡ take at self.old.items.items }
        ensures back { result.items.items ≡ drop at self.old.items.items }
        ensures capacity { vec_capacity self.new.items ≡ vec_capacity self.old.items }
        ensures back_capacity { vec_capacity result.items ≡ vec_capacity room }
        ensures same { self.new.shared ≡ self.old.shared }
        ensures shared { result.shared ≡ None }
    {
        let items = move_tail(&mut self.items, at, room);
        Node {
            items,
            shared: None,
        }
    }
}

/// Puts a node that was changed under its first key, and takes what is too much of it away, into
/// spare memory: what it is to be followed by.
pub(crate) fn settle<K: Ord + Copy, T: Drop, S: Drop>(
    slot: &mut (K, Node<K, T, S>),
    spare: &mut Option<Vec<(K, T)>>,
) -> Option<(K, Node<K, T, S>)>
    requires some { 0 < length slot.old.1.items.items }
    requires most { length slot.old.1.items.items ≤ 64 }
    requires capacity { 64 ≤ vec_capacity slot.old.1.items }
    requires shared { slot.old.1.shared ≡ None }
    requires given { IsSome spare.old }
    requires spare { IsSpare spare.old }
    ensures whole { held_by (slot.new ∷ option_to_list result) ≡ slot.old.1.items.items }
    ensures fresh { AllByRecursion IsFresh (slot.new ∷ option_to_list result) }
    ensures spare { IsSpare spare.new }
{
    slot.0 = slot.1.items[0].0;
    let len = slot.1.items.len();
    if len < MOST {
        return None;
    }
    let Some(room) = spare.take() else {
        unreachable!()
    };
    let back = slot.1.split(len / 2, room);
    let key = back.items[0].0;
    Some((key, back))
}

/// Takes spare memory for a whole node, where there is none.
pub(crate) fn reserve_spare<X: Drop>(
    alloc: Global,
    spare: &mut Option<Vec<X>>,
) -> Result<(), AllocError>
    requires { IsSpare spare.old }
    ensures given { OnOk result (IsSome spare.new) }
    ensures spare { IsSpare spare.new }
{
    if spare.is_none() {
        *spare = Some(Vec::with_capacity(alloc, MOST)?);
    }
    Ok(())
}

/// Puts what an item is to be followed by behind it.
pub(crate) fn follow<T: Drop>(items: &mut Vec<T>, at: usize, next: Option<T>)
    requires within { at < vec_len items.old }
    requires room { vec_len items.old < vec_capacity items.old }
    ensures items { items.new.items
        ≡ take (at + 1) items.old.items ++ (option_to_list next ++ drop (at + 1) items.old.items) }
    ensures len { vec_len items.new ≤ vec_len items.old + 1 }
    ensures capacity { vec_capacity items.old ≤ vec_capacity items.new }
{
    if let Some(next) = next {
        insert_reserved(items, at + 1, next);
    }
}

/// Whether two nodes have few items.
pub(crate) fn are_few<K, T, S>(front: &Node<K, T, S>, back: &Node<K, T, S>) -> bool
    ensures { result ≡ true → length front.now.items.items + length back.now.items.items ≤ 32 }
{
    let front_len = front.items.len();
    front_len <= FEW && back.items.len() <= FEW - front_len
}

/// Moves the items of a node behind those of another that has room for them.
pub(crate) fn absorb<K: Drop, T: Drop, S: Drop>(slot: &mut (K, Node<K, T, S>), back: Node<K, T, S>)
    requires room { length slot.old.1.items.items + length back.items.items
        ≤ vec_capacity slot.old.1.items }
    ensures key { slot.new.0 ≡ slot.old.0 }
    ensures items { slot.new.1.items.items ≡ slot.old.1.items.items ++ back.items.items }
    ensures capacity { vec_capacity slot.old.1.items ≤ vec_capacity slot.new.1.items }
    ensures forgot { slot.new.1.shared ≡ None }
{
    let mut items = back.items;
    slot.1.shared = None;
    let Ok(()) = slot.1.items.append(&mut items) else {
        unreachable!()
    };
}

/// Puts a node under its first key, and tells whether it has one.
pub(crate) fn rekey<K: Ord + Copy, T: Drop, S: Drop>(slot: &mut (K, Node<K, T, S>)) -> bool
    ensures node { slot.new.1 ≡ slot.old.1 }
    ensures kept { result ≡ true → HasHead slot.new.0 slot.new.1.items.items }
    ensures empty { result ≡ false → slot.new.1.items.items ≡ [] }
{
    if slot.1.items.is_empty() {
        return false;
    }
    slot.0 = slot.1.items[0].0;
    true
}
