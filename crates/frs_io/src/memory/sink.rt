ghost use Rattle.std.specs.Prelude.{◌≡◌, ◌<◌, ◌↔◌, ◌++◌, ℕ, [], Some, take, length, Contains, IfOk, IsErrOf, MatchResult};
ghost use Rattle.std.specs.Io.{WritesAtMost};
ghost use Rattle.frs_io.specs.Causes.{raised, HasWriteCause};
ghost use Rattle.frs_io.specs.Memory.{CountsCall};

use crate::memory::schedule::Schedule;
use crate::{Sink, WriteError};
use std::alloc::Global;
use std::marker::Model;

/// Bytes that were written, and only memory may lack. Contracts see the bytes that it took.
#[derive(Drop)]
pub struct SteadySink {
    bytes: Vec<u8>,
}

impl Model for SteadySink {
    ghost use Rattle.std.specs.Prelude.{List, ℕ};

    ghost Value = { List ℕ };

    ghost view = { λ s. s.bytes.items };
}

impl SteadySink {
    /// A sink that took nothing yet.
    pub fn new(alloc: Global) -> SteadySink
        ensures { result ≡ [] }
    {
        SteadySink {
            bytes: Vec::new(alloc),
        }
    }

    /// All bytes that it took so far.
    pub fn bytes(&self) -> &[u8]
        ensures { result.now ≡ self.now }
    {
        self.bytes.as_slice()
    }
}

impl Sink for SteadySink {
    ghost taken = { λ s. Some s };

    ghost faults = { λ _. 0 };

    fn write(&mut self, _alloc: Global, bytes: &[u8]) -> Result<usize, WriteError> {
        self.bytes.extend_from_slice(bytes)?;
        Ok(bytes.len())
    }
}

/// Bytes that were written, and the calls with these numbers fail. A call that fails writes nothing.
#[derive(Drop)]
pub struct MemSink {
    steady: SteadySink,
    schedule: Schedule,
}

impl Model for MemSink {
    ghost use Rattle.frs_io.specs.Memory.{MemoryState};

    ghost Value = { MemoryState };

    ghost view = { λ s. record {
      bytes = s.steady;
      calls = s.schedule.calls;
      failing = s.schedule.failing.items;
      faults = s.schedule.faults;
    } };
}

impl MemSink {
    /// A sink that took nothing yet, whose calls with these numbers fail. The first call is number
    /// 1.
    pub fn new(alloc: Global, failing: Vec<u64>) -> MemSink
        ensures bytes { result.bytes ≡ [] }
        ensures calls { result.calls ≡ 0 }
        ensures failing { result.failing ≡ failing.items }
        ensures faults { result.faults ≡ 0 }
    {
        MemSink {
            steady: SteadySink::new(alloc),
            schedule: Schedule::new(failing),
        }
    }

    /// All bytes that it took so far.
    pub fn bytes(&self) -> &[u8]
        ensures { result.now ≡ self.now.bytes }
    {
        self.steady.bytes()
    }

    /// How many calls failed.
    pub fn faults(&self) -> u64
        ensures { result ≡ self.now.faults }
    {
        self.schedule.faults
    }
}

impl Sink for MemSink {
    ghost taken = { λ s. Some s.bytes };

    ghost faults = { λ s. s.faults };

    fn write(&mut self, alloc: Global, bytes: &[u8]) -> Result<usize, WriteError>
        ensures bound { WritesAtMost result bytes.now }
        ensures some { IfOk result (λ n. 0 < length bytes.now → 0 < n) }
        ensures taken { MatchResult result
            (λ n. self.new.bytes ≡ self.old.bytes ++ take n bytes.now)
            (λ _. self.new.bytes ≡ self.old.bytes) }
        ensures fails { IsErrOf result WriteError.Failed ↔ Contains self.old.failing (raised self.old.calls) }
        ensures counted { CountsCall self.old self.new }
        ensures cause { HasWriteCause self.old.faults self.new.faults result }
    {
        self.schedule.call()?;
        self.steady.write(alloc, bytes)
    }
}
