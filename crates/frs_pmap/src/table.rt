// Tables that hand out maps.
ghost use Rattle.std.specs.Prelude.{◌≡◌, ◌↔◌, ◌<◌, ◌≤◌, ◌+◌, [], IfOk, IsTrue, OnOk, length, min, option_copied, slice_get, vec_capacity};
ghost use Rattle.frs_pmap.specs.Nodes.{IsTable, in_whole};
ghost use Rattle.std.specs.Arc.{arc_value};
ghost use Rattle.frs_pmap.specs.Entries.{IsRising, cut_at, first_above, first_from, lent, put_at, value_at};

use crate::Pmap;
use crate::ahead::{whole_beyond, whole_first};
use crate::lengths::whole_len;
use crate::node::reserve_spare;
use crate::whole::{Spares, Whole, reserve_whole, whole_cut, whole_get, whole_put, whole_share};
use std::alloc::{AllocError, Global};
use std::marker::Model;
use std::sync::Arc;

/// A map of the same entries.
fn whole_map<K: Ord + Copy, V: Drop>(
    alloc: Global,
    whole: &mut Whole<K, V>,
) -> Result<Pmap<K, V>, AllocError>
    requires { IsTable K.cmp whole.old }
    ensures same { in_whole whole.new ≡ in_whole whole.old }
    ensures table { IsTable K.cmp whole.new }
    ensures len { length whole.new.items.items ≡ length whole.old.items.items }
    ensures capacity { vec_capacity whole.new.items ≡ vec_capacity whole.old.items }
    ensures map { IfOk result (λ map. map ≡ in_whole whole.old) }
{
    let root = whole_share(alloc, whole)?;
    Ok(Pmap::of(root))
}

/// A finite map that is changed in its place, in memory that was reserved, and that hands out its
/// entries as a [`Pmap`] for the work of what changed since it last did.
///
/// A change is made ready first, by [`Table::reserve`] and by a value behind an [`Arc`], and then
/// done by [`Table::put`], which takes no memory and can't fail, as [`Table::cut`] can't.
///
/// A contract sees the entries as a list in order of their keys, each key once, and how many
/// values may be put before memory is reserved again.
#[derive(Drop)]
pub struct Table<K: Ord, V> {
    // Without entries there need be no node, and then no memory is taken.
    whole: Option<Whole<K, V>>,
    spares: Spares<K, V>,
    room: usize,
}

impl<K: Ord, V> Model for Table<K, V> {
    ghost use Rattle.frs_pmap.specs.Stocks.{IsStocked, Stocked, kept_in, stocked_code};

    ghost Value = { Stocked K V };

    ghost coded = { stocked_code K.code V.code };

    ghost view = { λ t. record { entries = kept_in t.whole; room = t.room } };

    ghost invariant = { λ t. IsStocked K.cmp t.whole t.spares t.room };
}

impl<K: Ord + Copy, V: Drop> Table<K, V> {
    /// No entries, in no memory.
    pub fn empty() -> Table<K, V>
        ensures { result ≡ record { entries = []; room = 0 } }
    {
        Table {
            whole: None,
            spares: Spares {
                part: None,
                group: None,
            },
            room: 0,
        }
    }

    /// Takes the memory that one value more may need. The entries stay, also after an error.
    pub fn reserve(&mut self, alloc: Global) -> Result<(), AllocError>
        ensures same { self.new.entries ≡ self.old.entries }
        ensures ok { OnOk result (self.new.room ≡ 1) }
        ensures room { self.old.room ≤ self.new.room }
    {
        if self.room > 0 {
            return Ok(());
        }
        reserve_spare(alloc, &mut self.spares.part)?;
        reserve_spare(alloc, &mut self.spares.group)?;
        reserve_whole(alloc, &mut self.whole)?;
        self.room = 1;
        Ok(())
    }

    /// Puts a value at a key: in the place of the key's value, where it has one.
    pub fn put(&mut self, key: K, value: Arc<V>)
        requires { 0 < self.old.room }
        ensures put { self.new.entries ≡ put_at K.cmp key (arc_value value) self.old.entries }
        ensures room { self.new.room + 1 ≡ self.old.room }
    {
        self.room = 0;
        match &mut self.whole {
            None => unreachable!(),
            Some(whole) => whole_put(whole, key, value, &mut self.spares),
        }
    }

    /// Takes the entry of a key away, if there is one.
    pub fn cut(&mut self, key: &K)
        ensures cut { self.new.entries ≡ cut_at K.cmp key.now self.old.entries }
        ensures room { self.new.room ≡ self.old.room }
    {
        if let Some(whole) = &mut self.whole {
            whole_cut(whole, key);
        }
    }

    /// How many entries there are, or the most that a `usize` tells.
    pub fn len(&self) -> usize
        ensures { result ≡ min (length self.now.entries) usize.MAX }
    {
        match &self.whole {
            None => 0,
            Some(whole) => whole_len(whole),
        }
    }

    /// Whether there are none.
    pub fn is_empty(&self) -> bool
        ensures { IsTrue result ↔ (self.now.entries ≡ []) }
    {
        self.first().is_none()
    }

    /// The value at a key.
    pub fn get(&self, key: &K) -> Option<&V>
        ensures value { option_copied result ≡ value_at K.cmp key.now self.now.entries }
        ensures rising { IsRising K.cmp self.now.entries }
    {
        match &self.whole {
            None => None,
            Some(whole) => whole_get(whole, key),
        }
    }

    /// The first entry.
    pub fn first(&self) -> Option<(K, &V)>
        ensures first { lent result ≡ slice_get self.now.entries 0 }
        ensures rising { IsRising K.cmp self.now.entries }
    {
        match &self.whole {
            None => None,
            Some(whole) => whole_first(whole, 0),
        }
    }

    /// The first entry at a key or above it.
    pub fn at_or_above(&self, key: &K) -> Option<(K, &V)>
        ensures first { lent result ≡ first_from K.cmp key.now self.now.entries }
        ensures rising { IsRising K.cmp self.now.entries }
    {
        match &self.whole {
            None => None,
            Some(whole) => whole_beyond(whole, key, false),
        }
    }

    /// The first entry above a key.
    pub fn above(&self, key: &K) -> Option<(K, &V)>
        ensures first { lent result ≡ first_above K.cmp key.now self.now.entries }
        ensures rising { IsRising K.cmp self.now.entries }
    {
        match &self.whole {
            None => None,
            Some(whole) => whole_beyond(whole, key, true),
        }
    }

    /// A map of the entries, which no later change reaches. The entries stay, also after an error.
    pub fn share(&mut self, alloc: Global) -> Result<Pmap<K, V>, AllocError>
        ensures map { IfOk result (λ map. map ≡ self.old.entries) }
        ensures same { self.new.entries ≡ self.old.entries }
        ensures room { self.new.room ≡ self.old.room }
    {
        match &mut self.whole {
            None => Ok(Pmap::empty()),
            Some(whole) => whole_map(alloc, whole),
        }
    }
}
