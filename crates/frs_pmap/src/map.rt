// Finite maps whose copies share memory.
ghost use Rattle.std.specs.Prelude.{◌≡◌, ◌↔◌, [], IfOk, IsTrue, length, min, option_copied, option_map, slice_get};
ghost use Rattle.frs_pmap.specs.Entries.{IsRising, cut_at, first_above, first_beyond, first_from, keys_from, lent, put_at, value_at};
ghost use Rattle.frs_pmap.specs.Trees.{IsTree, entries_of};
ghost use Rattle.std.specs.Arc.{arc_value};

use crate::beyond::{root_beyond, root_first};
use crate::lengths::root_len;
use crate::root::{root_get, root_of_one, root_with, root_without};
use crate::row::Root;
use std::alloc::{AllocError, Global};
use std::marker::Model;
use std::sync::Arc;

/// A finite map, in memory that its copies share.
///
/// A contract sees the entries as a list in order of their keys, each key once.
#[derive(Drop)]
pub struct Pmap<K: Ord, V> {
    // Without entries there need be no root, and then no memory is taken.
    root: Option<Arc<Root<K, V>>>,
}

impl<K: Ord, V> Model for Pmap<K, V> {
    ghost use Rattle.std.specs.Prelude.{List};
    ghost use Rattle.std.specs.Coded.{coded_list, coded×};
    ghost use Rattle.frs_pmap.specs.Trees.{IsTree, entries_of, tree_of};

    ghost Value = { List (K × V) };

    ghost coded = { coded_list (coded× K.code V.code) };

    ghost view = { λ map. entries_of (tree_of map.root) };

    ghost invariant = { λ map. IsTree K.cmp (tree_of map.root) };
}

impl<K: Ord + Copy, V: Drop> Pmap<K, V> {
    /// No entries, in no memory.
    pub fn empty() -> Pmap<K, V>
        ensures { result ≡ [] }
    {
        Pmap { root: None }
    }

    /// The map of these rows.
    pub(crate) fn of(root: Arc<Root<K, V>>) -> Pmap<K, V>
        requires { IsTree K.cmp (arc_value root) }
        ensures { result ≡ entries_of (arc_value root) }
    {
        Pmap { root: Some(root) }
    }

    /// The same entries, in the same memory.
    pub fn share(&self) -> Result<Pmap<K, V>, AllocError>
        ensures { IfOk result (λ map. map ≡ self.now) }
    {
        match &self.root {
            None => Ok(Pmap { root: None }),
            Some(root) => Ok(Pmap {
                root: Some(Arc::try_clone(root)?),
            }),
        }
    }

    /// How many entries there are, or the most that a `usize` tells.
    pub fn len(&self) -> usize
        ensures { result ≡ min (length self.now) usize.MAX }
    {
        match &self.root {
            None => 0,
            Some(root) => root_len(root),
        }
    }

    /// Whether there are none.
    pub fn is_empty(&self) -> bool
        ensures { IsTrue result ↔ (self.now ≡ []) }
    {
        self.first().is_none()
    }

    /// The value at a key.
    pub fn get(&self, key: &K) -> Option<&V>
        ensures value { option_copied result ≡ value_at K.cmp key.now self.now }
        ensures rising { IsRising K.cmp self.now }
    {
        match &self.root {
            None => None,
            Some(root) => root_get(root, key),
        }
    }

    /// The first entry.
    pub fn first(&self) -> Option<(K, &V)>
        ensures first { lent result ≡ slice_get self.now 0 }
        ensures rising { IsRising K.cmp self.now }
    {
        match &self.root {
            None => None,
            Some(root) => root_first(root, 0),
        }
    }

    /// The first entry at a key or above it.
    pub fn at_or_above(&self, key: &K) -> Option<(K, &V)>
        ensures first { lent result ≡ first_from K.cmp key.now self.now }
        ensures rising { IsRising K.cmp self.now }
    {
        match &self.root {
            None => None,
            Some(root) => root_beyond(root, key, false),
        }
    }

    /// The first entry above a key.
    pub fn above(&self, key: &K) -> Option<(K, &V)>
        ensures first { lent result ≡ first_above K.cmp key.now self.now }
        ensures rising { IsRising K.cmp self.now }
    {
        match &self.root {
            None => None,
            Some(root) => root_beyond(root, key, true),
        }
    }

    /// The first key above another, or, unless `past`, not below it.
    fn key_beyond(&self, key: &K, past: bool) -> Option<K>
        ensures key { result ≡ option_map (λ e. e.0) (first_beyond K.cmp past key.now self.now) }
        ensures rising { IsRising K.cmp self.now }
    {
        match &self.root {
            None => None,
            Some(root) => match root_beyond(root, key, past) {
                None => None,
                Some(found) => Some(found.0),
            },
        }
    }

    /// The keys of the first entries, `limit` at most, at a key or above it.
    pub fn range(&self, alloc: Global, low: &K, limit: usize) -> Result<Vec<K>, AllocError>
        ensures { IfOk result (λ keys. keys.items ≡ keys_from K.cmp low.now limit self.now) }
    {
        let mut keys = Vec::new(alloc);
        let mut next = self.key_beyond(low, false);
        while keys.len() < limit {
            let Some(key) = next else {
                break;
            };
            keys.push(key)?;
            next = self.key_beyond(&key, true);
        }
        Ok(keys)
    }

    /// The map with this value at a key: in the place of the key's value, where it has one. The
    /// old map stays as it is.
    pub fn with(&self, alloc: Global, key: K, value: V) -> Result<Pmap<K, V>, AllocError>
        ensures { IfOk result (λ map. map ≡ put_at K.cmp key value self.now) }
    {
        let root = match &self.root {
            None => root_of_one(alloc, key, value)?,
            Some(root) => root_with(alloc, root, key, value)?,
        };
        Ok(Pmap {
            root: Some(Arc::new(alloc, root)?),
        })
    }

    /// The map without the entry of a key, if it has one. The old map stays as it is.
    pub fn without(&self, alloc: Global, key: &K) -> Result<Pmap<K, V>, AllocError>
        ensures { IfOk result (λ map. map ≡ cut_at K.cmp key.now self.now) }
    {
        match &self.root {
            None => Ok(Pmap { root: None }),
            Some(root) => {
                let root = root_without(alloc, root, key)?;
                Ok(Pmap {
                    root: Some(Arc::new(alloc, root)?),
                })
            }
        }
    }
}
