// Keys in order, with values that rows share.
ghost use Rattle.std.specs.Prelude.{◌≡◌, ◌≤◌, ◌<◌, ◌++◌, ◌-◌, [], ◌∷◌, Some, IfOk, OnOk, length, take, drop, find, slice_get};
ghost use Rattle.std.specs.Arc.{arc_value};
ghost use Rattle.std.specs.List.{prefix_len};
ghost use Rattle.frs_pmap.specs.Entries.{IsRising, is_below, is_beyond, is_upto};

use std::alloc::{AllocError, Global};
use std::marker::Model;
use std::sync::Arc;

/// The most keys of a row.
pub(crate) const MOST: usize = 64;

/// Two rows beside each other with so many keys at most, together, are joined.
pub(crate) const FEW: usize = MOST / 2;

/// Entries in one row.
pub(crate) type Leaf<K, V> = Row<K, V>;

/// Entries in rows of a row.
pub(crate) type Middle<K, V> = Row<K, Leaf<K, V>>;

/// Entries in rows of rows of a row.
pub(crate) type Root<K, V> = Row<K, Middle<K, V>>;

/// How many of these keys are at or below another.
pub(crate) fn place<K: Ord, P>(items: &[(K, P)], key: &K) -> usize
    requires { IsRising K.cmp items.now }
    ensures place { result ≡ prefix_len (is_upto K.cmp key.now) items.now }
    ensures within { result ≤ length items.now }
{
    items.partition_point(|e| e.0.cmp(key).is_le())
}

/// How many of these keys are below another.
pub(crate) fn place_below<K: Ord, P>(items: &[(K, P)], key: &K) -> usize
    requires { IsRising K.cmp items.now }
    ensures place { result ≡ prefix_len (is_below K.cmp key.now) items.now }
    ensures within { result ≤ length items.now }
{
    items.partition_point(|e| e.0.cmp(key).is_lt())
}

/// Keys with shared values, in one piece of memory.
///
/// A contract sees the keys with what their values are. A row of rows is a row whose values are
/// rows, each under the first of its keys.
#[derive(Drop)]
pub(crate) struct Row<K, P> {
    items: Vec<(K, Arc<P>)>,
}

impl<K, P> Model for Row<K, P> {
    ghost use Rattle.std.specs.Prelude.{List};
    ghost use Rattle.std.specs.Coded.{coded_list, coded×};
    ghost use Rattle.frs_pmap.specs.Entries.{seen};

    ghost Value = { List (K × P) };

    ghost coded = { coded_list (coded× K.code P.code) };

    ghost view = { λ row. seen row.items.items };
}

impl<K: Ord + Copy, P: Drop> Row<K, P> {
    /// No keys, with room for so many.
    pub(crate) fn with_room(alloc: Global, room: usize) -> Result<Row<K, P>, AllocError>
        ensures { IfOk result (λ row. row ≡ []) }
    {
        Ok(Row {
            items: Vec::with_capacity(alloc, room)?,
        })
    }

    /// How many keys there are.
    pub(crate) fn len(&self) -> usize
        ensures { result ≡ length self.now }
    {
        self.items.len()
    }

    /// The key and the value at this place.
    pub(crate) fn item(&self, at: usize) -> (K, &P)
        requires { at < length self.now }
        ensures { slice_get self.now at ≡ Some (result.0, result.1.now) }
    {
        let item = &self.items[at];
        (item.0, &*item.1)
    }

    /// How many keys are at or below this one.
    pub(crate) fn place(&self, key: &K) -> usize
        requires { IsRising K.cmp self.now }
        ensures place { result ≡ prefix_len (is_upto K.cmp key.now) self.now }
        ensures within { result ≤ length self.now }
    {
        place(self.items.as_slice(), key)
    }

    /// Where the first key stands that is above this one, or, unless `past`, not below it: behind
    /// the others where there is none.
    pub(crate) fn beyond(&self, key: &K, past: bool) -> usize
        requires { IsRising K.cmp self.now }
        ensures { slice_get self.now result ≡ find (is_beyond K.cmp past key.now) self.now }
    {
        if past {
            return place(self.items.as_slice(), key);
        }
        place_below(self.items.as_slice(), key)
    }

    /// Adds a key behind the others.
    pub(crate) fn push(&mut self, alloc: Global, key: K, value: P) -> Result<(), AllocError>
        ensures { OnOk result (self.new ≡ self.old ++ (key, value) ∷ []) }
    {
        let value = Arc::new(alloc, value)?;
        self.items.push((key, value))?;
        Ok(())
    }

    /// Adds a key behind the others with a value that is shared.
    pub(crate) fn push_shared(&mut self, key: K, value: Arc<P>) -> Result<(), AllocError>
        ensures { OnOk result (self.new ≡ self.old ++ (key, arc_value value) ∷ []) }
    {
        self.items.push((key, value))?;
        Ok(())
    }

    /// Adds those keys of another from one place up to another, sharing their values.
    pub(crate) fn extend(
        &mut self,
        other: &Row<K, P>,
        from: usize,
        to: usize,
    ) -> Result<(), AllocError>
        requires ordered { from ≤ to }
        requires within { to ≤ length other.now }
        ensures { OnOk result (self.new ≡ self.old ++ take (to - from) (drop from other.now)) }
    {
        for at in from..to {
            let item = &other.items[at];
            self.items.push((item.0, Arc::try_clone(&item.1)?))?;
        }
        Ok(())
    }

    /// Takes the keys from this place on away.
    pub(crate) fn split_off(&mut self, at: usize) -> Result<Row<K, P>, AllocError>
        requires { at ≤ length self.old }
        ensures front { OnOk result (self.new ≡ take at self.old) }
        ensures back { IfOk result (λ row. row ≡ drop at self.old) }
    {
        Ok(Row {
            items: self.items.split_off(at)?,
        })
    }
}
