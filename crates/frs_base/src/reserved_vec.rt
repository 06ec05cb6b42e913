// Values in order, with room reserved for more.
ghost use Rattle.std.specs.Prelude.{◌≡◌, ◌<◌, ◌≤◌, ◌+◌, ◌∷◌, ◌++◌, [], OnErr, OnOk, Some, insert, length, remove, slice_get, slice_index_or, slice_set};
ghost use Rattle.std.specs.Fn.{FnOnceReturnsAtMut};
ghost use Rattle.std.specs.List.{remove_range};

use std::alloc::{AllocError, Global};
use std::marker::Model;

/// Values in order, with room reserved for more, so that they can be added without taking memory.
///
/// A contract sees the values and for how many more there is room. An empty one is made without an
/// allocator and takes no memory.
#[derive(Debug, Drop)]
pub struct ReservedVec<T> {
    kept: Option<Vec<T>>,
}

impl<T> Model for ReservedVec<T> {
    ghost use Rattle.frs_base.specs.Reserved.{Reserved, reserved_code, reserved_of};

    ghost Value = { Reserved T };

    ghost coded = { reserved_code T.code };

    ghost view = { λ values. reserved_of values.kept };
}

impl<T> ReservedVec<T> {
    /// No values, in no memory.
    pub fn empty() -> ReservedVec<T>
        ensures { result ≡ record { items = []; room = 0 } }
    {
        ReservedVec { kept: None }
    }

    /// The values of a vector.
    pub fn of(items: Vec<T>) -> ReservedVec<T>
        ensures { result.items ≡ items.items }
    {
        ReservedVec { kept: Some(items) }
    }

    /// The values, lent.
    pub fn as_slice(&self) -> &[T]
        ensures { result.now ≡ self.now.items }
    {
        match &self.kept {
            None => &[],
            Some(kept) => kept.as_slice(),
        }
    }

    /// Adds a value behind the others.
    pub fn push(&mut self, item: T)
        requires { 0 < self.old.room }
        ensures items { self.new.items ≡ self.old.items ++ item ∷ [] }
        ensures room { self.new.room + 1 ≡ self.old.room }
    {
        match &mut self.kept {
            None => unreachable!(),
            Some(kept) => kept.push_reserved(item),
        }
    }

    /// Changes the value at this place where it stands, and gives what the change gives.
    pub fn change<R, F: FnOnce(&mut T) -> R>(&mut self, at: usize, by: F) -> R
        requires within { at < length self.old.items }
        requires callable { F.IsAlwaysCallable by }
        ensures changed { (old new : T) × (slice_get self.old.items at ≡ Some old) × FnOnceReturnsAtMut F.FnOnce by old result new × (self.new.items ≡ slice_set self.old.items at new) }
        ensures room { self.new.room ≡ self.old.room }
    {
        match &mut self.kept {
            None => unreachable!(),
            Some(kept) => by(&mut kept[at]),
        }
    }

    /// Takes the value at this place out; those behind it move up.
    pub fn remove(&mut self, at: usize) -> T
        requires { at < length self.old.items }
        ensures value { result ≡ slice_index_or self.old.items at result }
        ensures items { self.new.items ≡ remove self.old.items at }
        ensures room { self.new.room ≡ self.old.room + 1 }
    {
        match &mut self.kept {
            None => unreachable!(),
            Some(kept) => kept.remove(at),
        }
    }
}

impl<T: Drop> ReservedVec<T> {
    /// Makes room for one more value. The values stay, also after an error.
    pub fn reserve_one(&mut self, alloc: Global) -> Result<(), AllocError>
        ensures items { self.new.items ≡ self.old.items }
        ensures ok { OnOk result (0 < self.new.room) }
        ensures room { self.old.room ≤ self.new.room }
    {
        if self.kept.is_none() {
            self.kept = Some(Vec::new(alloc));
        }
        match &mut self.kept {
            None => unreachable!(),
            Some(kept) => kept.reserve(1),
        }
    }

    /// Puts a value in at this place, before those from there on.
    pub fn insert(&mut self, at: usize, item: T)
        requires room { 0 < self.old.room }
        requires within { at ≤ length self.old.items }
        ensures items { self.new.items ≡ insert self.old.items at item }
        ensures room { self.new.room + 1 ≡ self.old.room }
    {
        match &mut self.kept {
            None => unreachable!(),
            Some(kept) => {
                let Ok(()) = kept.insert(at, item) else {
                    unreachable!()
                };
            }
        }
    }

    /// Puts a value in the place of another.
    pub fn set(&mut self, at: usize, item: T)
        requires { at < length self.old.items }
        ensures items { self.new.items ≡ slice_set self.old.items at item }
        ensures room { self.new.room ≡ self.old.room }
    {
        if let Some(kept) = &mut self.kept {
            kept[at] = item;
        }
    }

    /// Removes the values from one place on, below another.
    pub fn remove_range(&mut self, from: usize, to: usize)
        requires ordered { from ≤ to }
        requires within { to ≤ length self.old.items }
        ensures items { self.new.items ≡ remove_range self.old.items from to }
        ensures room { self.old.room ≤ self.new.room }
    {
        if let Some(kept) = &mut self.kept {
            let _removed = kept.drain(from..to);
        }
    }
}
