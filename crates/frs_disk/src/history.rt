// The contents of a disk in memory, with the states that it went through.
ghost use Rattle.std.specs.Prelude.{◌≡◌, ◌≤◌, ◌+◌, ◌++◌, ◌∷◌, [], length, take, min, max, vec_len, vec_capacity, OnOk, if◌then◌else◌};
ghost use Rattle.frs_disk.specs.Changes.{lost_if};
ghost use Rattle.frs_disk.specs.Crashes.{Stands, still, patch, wrote, cut_to, synced, lost};
ghost use Rattle.frs_disk.specs.Moments.{push, seen_now, top};

use crate::trace::{Change, Trace};
use std::alloc::{AllocError, Global};
use std::marker::Model;

/// The contents of a disk in memory: what a read gives, and what the last sync made sure of where
/// that differs. Contracts see the states that it went through, and for how many bytes there is
/// room.
#[derive(Drop)]
pub struct History {
    /// What a read gives.
    bytes: Vec<u8>,
    /// How many of these, from the front, are as the last sync left them.
    clean: usize,
    /// What the last sync made sure of behind them.
    behind: Vec<u8>,
    trace: Trace,
}

impl Model for History {
    ghost use Rattle.std.specs.Prelude.{◌≤◌, ◌+◌, ◌-◌, min, max, vec_len, vec_capacity};
    ghost use Rattle.frs_disk.specs.Histories.{HistoryState};
    ghost use Rattle.frs_disk.specs.History.{IsKept};

    ghost Value = { HistoryState };

    ghost view = { λ h. record {
      states = h.trace.states;
      spare_bytes = min (vec_capacity h.bytes) (vec_capacity h.behind)
          - max (vec_len h.bytes) (h.clean + vec_len h.behind);
    } };

    ghost invariant = { λ h. IsKept h.bytes.items h.clean h.behind.items h.trace.states
        × (max (vec_len h.bytes) (h.clean + vec_len h.behind)
        ≤ min (vec_capacity h.bytes) (vec_capacity h.behind)) };
}

/// Puts bytes over what is there and past the end, with room that is there.
fn put(bytes: &mut Vec<u8>, at: usize, new: &[u8])
    requires within { at ≤ vec_len bytes.old }
    requires room { vec_len bytes.old + length new.now ≤ vec_capacity bytes.old }
    ensures bytes { bytes.new.items ≡ patch at new.now bytes.old.items }
    ensures capacity { vec_capacity bytes.old ≤ vec_capacity bytes.new }
    ensures shorter { vec_len bytes.old ≤ vec_len bytes.new }
    ensures longer { vec_len bytes.new ≤ vec_len bytes.old + length new.now }
{
    let over = new.len().min(bytes.len() - at);
    bytes[at..at + over].copy_from_slice(&new[..over]);
    append(bytes, &new[over..]);
}

/// Puts bytes behind the others, with room that is there.
fn append(pool: &mut Vec<u8>, new: &[u8])
    requires { vec_len pool.old + length new.now ≤ vec_capacity pool.old }
    ensures items { pool.new.items ≡ pool.old.items ++ new.now }
    ensures len { vec_len pool.new ≡ vec_len pool.old + length new.now }
    ensures capacity { vec_capacity pool.old ≤ vec_capacity pool.new }
{
    let Ok(()) = pool.extend_from_slice(new) else {
        unreachable!()
    };
}

/// Puts bytes before the others, with room that is there.
fn prepend(pool: &mut Vec<u8>, new: &[u8])
    requires { vec_len pool.old + length new.now ≤ vec_capacity pool.old }
    ensures items { pool.new.items ≡ new.now ++ pool.old.items }
    ensures len { vec_len pool.new ≡ vec_len pool.old + length new.now }
    ensures capacity { vec_capacity pool.old ≤ vec_capacity pool.new }
{
    append(pool, new);
    pool.rotate_right(new.len());
}

/// Sets aside what the last sync made sure of from a place on, which is about to change, and says
/// how many first bytes are still as it left them.
fn set_aside(bytes: &[u8], clean: usize, behind: &mut Vec<u8>, at: usize) -> usize
    requires within { clean ≤ length bytes.now }
    requires room { clean + vec_len behind.old ≤ vec_capacity behind.old }
    ensures clean { result ≡ min clean at }
    ensures safe { take result bytes.now ++ behind.new.items
        ≡ take clean bytes.now ++ behind.old.items }
    ensures size { result + vec_len behind.new ≡ clean + vec_len behind.old }
    ensures capacity { vec_capacity behind.old ≤ vec_capacity behind.new }
{
    if clean <= at {
        return clean;
    }
    prepend(behind, &bytes[at..clean]);
    at
}

/// Brings back what the last sync made sure of: so many first bytes, and these behind them.
fn bring_back(bytes: &mut Vec<u8>, clean: usize, behind: &[u8])
    requires within { clean ≤ vec_len bytes.old }
    requires room { clean + length behind.now ≤ vec_capacity bytes.old }
    ensures items { bytes.new.items ≡ take clean bytes.old.items ++ behind.now }
    ensures len { vec_len bytes.new ≡ clean + length behind.now }
    ensures capacity { vec_capacity bytes.old ≤ vec_capacity bytes.new }
{
    bytes.truncate(clean);
    append(bytes, behind);
}

/// Brings it back where what was done since is lost.
fn bring_back_if(bytes: &mut Vec<u8>, clean: usize, behind: &[u8], lost: bool)
    requires within { clean ≤ vec_len bytes.old }
    requires room { clean + length behind.now ≤ vec_capacity bytes.old }
    ensures items { bytes.new.items
        ≡ (if lost then take clean bytes.old.items ++ behind.now else bytes.old.items) }
    ensures longest { vec_len bytes.new ≤ max (vec_len bytes.old) (clean + length behind.now) }
    ensures capacity { vec_capacity bytes.old ≤ vec_capacity bytes.new }
{
    if lost {
        bring_back(bytes, clean, behind);
    }
}

impl History {
    /// No bytes, and nothing was done.
    pub fn new(alloc: Global) -> History
        ensures states { result.states ≡ still [] ∷ [] }
        ensures stands { Stands (top result.states) }
    {
        History {
            bytes: Vec::new(alloc),
            clean: 0,
            behind: Vec::new(alloc),
            trace: Trace::new(),
        }
    }

    /// What a read gives.
    pub fn bytes(&self) -> &[u8]
        ensures { result.now ≡ seen_now self.now.states }
    {
        self.bytes.as_slice()
    }

    /// Makes room for calls that write this many bytes together.
    pub fn reserve(&mut self, bytes: usize) -> Result<(), AllocError>
        ensures states { self.new.states ≡ self.old.states }
        ensures bytes { OnOk result (bytes ≤ self.new.spare_bytes) }
    {
        let longest = self.bytes.len().max(self.clean + self.behind.len());
        self.bytes
            .reserve((longest - self.bytes.len()).saturating_add(bytes))?;
        self.behind
            .reserve((longest - self.behind.len()).saturating_add(bytes))?;
        Ok(())
    }

    /// Writes bytes from a place on. Where it is lost, the bytes of the last sync come back.
    pub fn write(&mut self, at: usize, bytes: &[u8], lost: bool)
        requires within { at ≤ length (seen_now self.old.states) }
        requires bytes { length bytes.now ≤ self.old.spare_bytes }
        ensures stands { Stands (top self.new.states) }
        ensures states { self.new.states
            ≡ push (λ s. lost_if lost (wrote at bytes.now s)) self.old.states }
        ensures bytes { self.old.spare_bytes ≤ self.new.spare_bytes + length bytes.now }
    {
        self.clean = set_aside(self.bytes.as_slice(), self.clean, &mut self.behind, at);
        put(&mut self.bytes, at, bytes);
        bring_back_if(&mut self.bytes, self.clean, self.behind.as_slice(), lost);
        self.trace = self.trace.then(&Change::Write { at, bytes, lost });
    }

    /// Cuts to this length. Where it is lost, the bytes of the last sync come back.
    pub fn cut(&mut self, length: usize, lost: bool)
        requires within { length ≤ Rattle.std.specs.Prelude.length (seen_now self.old.states) }
        ensures stands { Stands (top self.new.states) }
        ensures states { self.new.states
            ≡ push (λ s. lost_if lost (cut_to length s)) self.old.states }
        ensures bytes { self.old.spare_bytes ≤ self.new.spare_bytes }
    {
        self.clean = set_aside(self.bytes.as_slice(), self.clean, &mut self.behind, length);
        self.bytes.truncate(length);
        bring_back_if(&mut self.bytes, self.clean, self.behind.as_slice(), lost);
        self.trace = self.trace.then(&Change::Cut { length, lost });
    }

    /// Makes sure of what a read gives.
    pub fn sync(&mut self)
        ensures stands { Stands (top self.new.states) }
        ensures states { self.new.states ≡ push synced self.old.states }
        ensures bytes { self.old.spare_bytes ≤ self.new.spare_bytes }
    {
        self.behind.clear();
        self.clean = self.bytes.len();
        self.trace = self.trace.then(&Change::Sync { lost: false });
    }

    /// Stops in a sync: the bytes of the last one come back.
    pub fn lose(&mut self)
        ensures stands { Stands (top self.new.states) }
        ensures states { self.new.states ≡ push lost self.old.states }
        ensures bytes { self.old.spare_bytes ≤ self.new.spare_bytes }
    {
        bring_back(&mut self.bytes, self.clean, self.behind.as_slice());
        self.trace = self.trace.then(&Change::Sync { lost: true });
    }

    /// Begins anew with what a read gives, all of it made sure of.
    pub fn restart(&mut self)
        ensures stands { Stands (top self.new.states) }
        ensures states { self.new.states ≡ still (seen_now self.old.states) ∷ [] }
        ensures bytes { self.old.spare_bytes ≤ self.new.spare_bytes }
    {
        self.sync();
        self.trace = self.trace.then(&Change::Restart);
    }
}
