// What every disk can do.
ghost use Rattle.std.specs.Prelude.{◌≡◌, ◌≤◌, ◌<◌, ◌+◌, List, ℕ, length, take, drop, true, false, IfOk, IfSome, MatchResult, OnOk, OnErr, Some};
ghost use Rattle.std.specs.declared.option.Option.{Option};
ghost use Rattle.frs_disk.specs.Alarms.{Alarm, Counts, LeavesWord, SyncLeavesWord, Ticks};
ghost use Rattle.frs_disk.specs.Crashes.{Crash, Stands, wrote, cut_to, synced, unchanged};
ghost use Rattle.frs_disk.specs.Moments.{Now, Stops, pushed, seen_now};
ghost use Rattle.frs_disk.specs.Starts.{Start, measured, touched};
ghost use Rattle.frs_disk.specs.Sums.{HasSum};

use frs_base::Sum;
use std::alloc::{AllocError, Global};
use std::error::Error;
use std::fmt;

/// A call failed, and its disk counted it.
#[derive(Clone, Copy, Debug, PartialEq, Eq)]
pub struct Failed;

impl fmt::Display for Failed {
    ghost use Rattle.frs_disk.specs.Errors.{failed_text};

    ghost output = { λ _. Some failed_text };

    fn fmt<W: fmt::Write>(&self, f: &mut fmt::Formatter<W>) -> fmt::Result {
        write!(f, "the disk failed")
    }
}

impl Error for Failed {}

/// Bytes that outlive a crash once they are synced.
///
/// Between two syncs each range that was written, and what lies past the old end, may hold any
/// bytes after a crash, and the length is between the least and the greatest since. A call that
/// failed leaves the disk as a stop inside that call may leave it. A disk may tell nothing of its
/// contents, as one that is a file; then it counts a fault where it can't do what is asked.
pub trait FrsDisk: Drop {
    /// The states that it went through, the newest first, where it tells them.
    ghost states: { Self → Option (List Crash) };

    /// What a script armed on it, and the counts of what failed.
    ghost alarm: { Self → Alarm };

    /// What was there when it was made.
    ghost start: { Self → Start };

    /// For how many calls of `write_at`, `cut` and `sync` there is room.
    ghost spare_calls: { Self → ℕ };

    /// For how many bytes of `write_at` there is room.
    ghost spare_bytes: { Self → ℕ };

    /// Its length, in bytes.
    fn length(&mut self) -> Result<u64, Failed>
        ensures value { IfOk result (λ n. IfSome (states self.old)
            (λ ss. n ≡ length (seen_now ss))) }
        ensures blank { IfOk result (λ n. (start self.old).blank ≡ true
            → (start self.old).changed ≡ false → n ≡ 0) }
        ensures states { states self.new ≡ states self.old }
        ensures alarm { Counts result (alarm self.old) (alarm self.new) }
        ensures start { MatchResult result
            (λ n. start self.new ≡ measured n (start self.old))
            (λ _. start self.new ≡ start self.old) }
        ensures calls { spare_calls self.new ≡ spare_calls self.old }
        ensures bytes { spare_bytes self.new ≡ spare_bytes self.old };

    /// Whether a `length` that was asked for before the first `write_at` or `cut` was other than 0.
    fn found(&self) -> bool
        ensures { result ≡ (start self.now).found };

    /// Reads the bytes from a place on, as many as the buffer takes.
    fn read(&mut self, at: u64, buf: &mut [u8]) -> Result<(), Failed>
        requires { IfSome (states self.old) (λ ss. at + length buf.old ≤ length (seen_now ss)) }
        ensures bytes { OnOk result (IfSome (states self.old)
            (λ ss. buf.new ≡ take (length buf.old) (drop at (seen_now ss)))) }
        ensures states { states self.new ≡ states self.old }
        ensures alarm { Counts result (alarm self.old) (alarm self.new) }
        ensures start { start self.new ≡ start self.old }
        ensures calls { spare_calls self.new ≡ spare_calls self.old }
        ensures room { spare_bytes self.new ≡ spare_bytes self.old };

    /// Reads bytes that begin with this head and have this SHA-1 sum. A disk that gives back
    /// others counts a fault.
    fn read_sum(&mut self, at: u64, buf: &mut [u8], head: &[u8], sum: &Sum) -> Result<(), Failed>
        requires within { IfSome (states self.old)
            (λ ss. at + length buf.old ≤ length (seen_now ss)) }
        requires told { IfSome (states self.old)
            (λ ss. HasSum head.now sum.now.0 (take (length buf.old) (drop at (seen_now ss)))) }
        ensures sum { OnOk result (HasSum head.now sum.now.0 buf.new) }
        ensures bytes { OnOk result (IfSome (states self.old)
            (λ ss. buf.new ≡ take (length buf.old) (drop at (seen_now ss)))) }
        ensures states { states self.new ≡ states self.old }
        ensures alarm { Counts result (alarm self.old) (alarm self.new) }
        ensures start { start self.new ≡ start self.old }
        ensures calls { spare_calls self.new ≡ spare_calls self.old }
        ensures room { spare_bytes self.new ≡ spare_bytes self.old };

    /// Writes bytes from a place on, over what is there and past the end.
    fn write_at(&mut self, at: u64, bytes: &[u8]) -> Result<(), Failed>
        requires within { IfSome (states self.old) (λ ss. at ≤ length (seen_now ss)) }
        requires calls { 0 < spare_calls self.old }
        requires bytes { length bytes.now ≤ spare_bytes self.old }
        ensures stood { Now Stands (states self.old) }
        ensures stands { Now Stands (states self.new) }
        ensures done { OnOk result
            (states self.new ≡ pushed (wrote at bytes.now) (states self.old)) }
        ensures failed { OnErr result
            (Stops (wrote at bytes.now) (states self.old) (states self.new)) }
        ensures word { LeavesWord result (wrote at bytes.now)
            (alarm self.old) (states self.old) (states self.new) }
        ensures alarm { Ticks result (alarm self.old) (alarm self.new) }
        ensures start { start self.new ≡ touched (start self.old) }
        ensures calls { spare_calls self.old ≤ spare_calls self.new + 1 }
        ensures bytes { spare_bytes self.old ≤ spare_bytes self.new + length bytes.now };

    /// Cuts it to this length.
    fn cut(&mut self, length: u64) -> Result<(), Failed>
        requires within { IfSome (states self.old)
            (λ ss. length ≤ Rattle.std.specs.Prelude.length (seen_now ss)) }
        requires calls { 0 < spare_calls self.old }
        ensures stood { Now Stands (states self.old) }
        ensures stands { Now Stands (states self.new) }
        ensures done { OnOk result (states self.new ≡ pushed (cut_to length) (states self.old)) }
        ensures failed { OnErr result (Stops (cut_to length) (states self.old) (states self.new)) }
        ensures word { LeavesWord result (cut_to length)
            (alarm self.old) (states self.old) (states self.new) }
        ensures alarm { Ticks result (alarm self.old) (alarm self.new) }
        ensures start { start self.new ≡ touched (start self.old) }
        ensures calls { spare_calls self.old ≤ spare_calls self.new + 1 }
        ensures bytes { spare_bytes self.old ≤ spare_bytes self.new };

    /// Makes sure of all that was written and cut: from then on a crash leaves what a read gives.
    fn sync(&mut self) -> Result<(), Failed>
        requires calls { 0 < spare_calls self.old }
        ensures stood { Now Stands (states self.old) }
        ensures stands { Now Stands (states self.new) }
        ensures done { OnOk result (states self.new ≡ pushed synced (states self.old)) }
        ensures failed { OnErr result (Stops unchanged (states self.old) (states self.new)) }
        ensures word { SyncLeavesWord result (alarm self.old) (states self.old) (states self.new) }
        ensures alarm { Ticks result (alarm self.old) (alarm self.new) }
        ensures start { start self.new ≡ start self.old }
        ensures calls { spare_calls self.old ≤ spare_calls self.new + 1 }
        ensures bytes { spare_bytes self.old ≤ spare_bytes self.new };

    /// How many calls on it failed.
    fn faults(&self) -> u64
        ensures { result ≡ (alarm self.now).faults };

    /// Makes room for this many calls of `write_at`, `cut` and `sync`, which write this many bytes
    /// together. It is no call of the device, and takes all the memory that they need.
    fn reserve(&mut self, alloc: Global, calls: u32, bytes: u64) -> Result<(), AllocError>
        ensures states { states self.new ≡ states self.old }
        ensures alarm { alarm self.new ≡ alarm self.old }
        ensures start { start self.new ≡ start self.old }
        ensures calls { OnOk result (calls ≤ spare_calls self.new) }
        ensures bytes { OnOk result (bytes ≤ spare_bytes self.new) };
}
