// Where to look for objects. A hint may be stale: what it leads to is looked at.
ghost use Rattle.std.specs.Prelude.{◌≡◌, ◌<◌, ◌≤◌, ◌-◌, ◌∷◌, ◌++◌, [], ℕ, IsSome, OnOk, length, take, slice_index_or, unwrap_or};
ghost use Rattle.vol_state.specs.Hints.{AreChained, head_of, last_with, newest_after, newest_of, KeepsBut, Leads, redirected, spare_of};
ghost use Rattle.vol_state.specs.declared.hints.Link.{Link};

use frs_base::ReservedVec;
use std::alloc::{AllocError, Global};
use std::collections::HashMap;
use std::marker::Model;

/// A hint, and the one before it with the same key.
#[derive(Clone, Copy)]
pub(crate) struct Link {
    /// What was looked for.
    pub(crate) key: u64,
    /// The number of the object that was there.
    pub(crate) fid: u64,
    /// One more than the index of the last hint before this one with its key, 0 where there is
    /// none.
    pub(crate) previous: usize,
}

/// Hints by their keys.
///
/// A contract sees them, oldest first, and for how many more there is room.
#[derive(Drop)]
pub(crate) struct Hints {
    newest: Option<HashMap<u64, usize>>,
    links: ReservedVec<Link>,
}

impl Model for Hints {
    ghost use Rattle.std.specs.Prelude.{min};
    ghost use Rattle.vol_state.specs.Hints.{Hinted, IsThreaded, spare_of};

    ghost Value = { Hinted };

    ghost view = { λ hints. record { links = hints.links.items; room = min (spare_of hints.newest) hints.links.room } };

    ghost invariant = { λ hints. IsThreaded hints.newest hints.links.items };
}

/// What a map has at a key, 0 where it has nothing.
fn newest_of(newest: &Option<HashMap<u64, usize>>, key: u64) -> usize
    ensures { result ≡ newest_of newest.now key }
{
    match newest {
        None => 0,
        Some(map) => match map.get(&key) {
            None => 0,
            Some(at) => *at,
        },
    }
}

/// Makes room for one more key.
fn reserve_key(alloc: Global, newest: &mut Option<HashMap<u64, usize>>) -> Result<(), AllocError>
    ensures same { (key : ℕ) → newest_of newest.new key ≡ newest_of newest.old key }
    ensures room { OnOk result (0 < spare_of newest.new) }
{
    if newest.is_none() {
        *newest = Some(HashMap::new(alloc));
    }
    match newest {
        None => Ok(()),
        Some(map) => map.reserve(1),
    }
}

/// Puts a value at a key.
fn put_newest(newest: &mut Option<HashMap<u64, usize>>, key: u64, at: usize)
    requires { 0 < spare_of newest.old }
    ensures same { (other : ℕ) → newest_of newest.new other ≡ newest_after (newest_of newest.old other) other key at }
{
    match newest {
        None => unreachable!(),
        Some(map) => match map.insert(key, at) {
            Ok(_) => {}
            Err(_) => unreachable!(),
        },
    }
}

/// Makes a hint lead to another object.
fn redirect(links: &mut ReservedVec<Link>, index: usize, fid: u64)
    requires { index < length links.old.items }
    ensures { links.new.items ≡ redirected index fid links.old.items }
{
    let link = links.as_slice()[index];
    links.set(index, Link { fid, ..link });
}

impl Hints {
    /// No hints.
    pub(crate) fn empty() -> Hints
        ensures { result.links ≡ [] }
    {
        Hints {
            newest: None,
            links: ReservedVec::empty(),
        }
    }

    /// One more than the index of the newest hint with this key, 0 where there is none.
    pub(crate) fn newest(&self, key: u64) -> usize
        ensures newest { result ≡ last_with key self.now.links }
        ensures chained { AreChained self.now.links }
    {
        newest_of(&self.newest, key)
    }

    /// The hints, oldest first.
    pub(crate) fn links(&self) -> &[Link]
        ensures links { result.now ≡ self.now.links }
        ensures chained { AreChained self.now.links }
    {
        self.links.as_slice()
    }

    /// Makes room for one more hint.
    pub(crate) fn reserve(&mut self, alloc: Global) -> Result<(), AllocError>
        ensures same { self.new.links ≡ self.old.links }
        ensures room { OnOk result (0 < self.new.room) }
    {
        reserve_key(alloc, &mut self.newest)?;
        self.links.reserve_one(alloc)
    }

    /// The object that the newest hint with this key leads to.
    pub(crate) fn head(&self, key: u64) -> Option<u64>
        ensures { result ≡ head_of key self.now.links }
    {
        let at = newest_of(&self.newest, key);
        if at == 0 {
            return None;
        }
        Some(self.links.as_slice()[at - 1].fid)
    }

    /// Adds a hint.
    pub(crate) fn add(&mut self, key: u64, fid: u64)
        requires { 0 < self.old.room }
        ensures { self.new.links ≡ self.old.links ++ record { key = key; fid = fid; previous = last_with key self.old.links } ∷ [] }
    {
        let previous = newest_of(&self.newest, key);
        let count = self.links.as_slice().len();
        put_newest(&mut self.newest, key, count + 1);
        self.links.push(Link { key, fid, previous });
    }

    /// Makes the newest hint with this key lead to another object.
    pub(crate) fn redirect(&mut self, key: u64, fid: u64)
        requires { IsSome (head_of key self.old.links) }
        ensures { self.new.links ≡ redirected (last_with key self.old.links - 1) fid self.old.links }
    {
        let index = newest_of(&self.newest, key) - 1;
        redirect(&mut self.links, index, fid);
    }
}

/// Makes a key lead to an object: in place of the newest hint with this key, if that one's object
/// hasn't the key any more.
pub(crate) fn put_hint(hints: &mut Hints, key: u64, fid: u64, keyed: bool)
    requires { 0 < hints.old.room }
    ensures there { Leads hints.new.links key fid }
    ensures kept { KeepsBut keyed key hints.old.links hints.new.links }
{
    let Some(head) = hints.head(key) else {
        hints.add(key, fid);
        return;
    };
    if head == fid {
        return;
    }
    if keyed {
        hints.add(key, fid);
        return;
    }
    hints.redirect(key, fid);
}
