ghost use Rattle.std.specs.Prelude.{◌≡◌, ◌<◌, ◌↔◌, ◌++◌, ℕ, [], Some, take, length, Contains, IfOk, IsErr, MatchResult};
ghost use Rattle.std.specs.Io.{ReadsAtMost};
ghost use Rattle.frs_io.specs.Causes.{raised, HasCause};
ghost use Rattle.frs_io.specs.Memory.{CountsCall};

use crate::memory::schedule::Schedule;
use crate::{Failed, Source};
use std::marker::Model;

/// Bytes to read, and no call on them fails. Contracts see the bytes that are left.
#[derive(Drop)]
pub struct SteadySource {
    bytes: Vec<u8>,
    at: usize,
}

impl Model for SteadySource {
    ghost use Rattle.std.specs.Prelude.{◌≤◌, List, ℕ, drop, length};

    ghost Value = { List ℕ };

    ghost view = { λ s. drop s.at s.bytes.items };

    ghost invariant = { λ s. s.at ≤ length s.bytes.items };
}

impl SteadySource {
    /// A source of these bytes.
    pub fn new(bytes: Vec<u8>) -> SteadySource
        ensures { result ≡ bytes.items }
    {
        SteadySource { bytes, at: 0 }
    }
}

impl Source for SteadySource {
    ghost left = { λ s. Some s };

    ghost faults = { λ _. 0 };

    fn read(&mut self, buf: &mut [u8]) -> Result<usize, Failed> {
        let rest = &self.bytes[self.at..];
        let count = rest.len().min(buf.len());
        buf[..count].copy_from_slice(&rest[..count]);
        self.at += count;
        Ok(count)
    }
}

/// Bytes to read, and the calls with these numbers fail. A call that fails reads nothing.
#[derive(Drop)]
pub struct MemSource {
    steady: SteadySource,
    schedule: Schedule,
}

impl Model for MemSource {
    ghost use Rattle.frs_io.specs.Memory.{MemoryState};

    ghost Value = { MemoryState };

    ghost view = { λ s. record {
      bytes = s.steady;
      calls = s.schedule.calls;
      failing = s.schedule.failing.items;
      faults = s.schedule.faults;
    } };
}

impl MemSource {
    /// A source of these bytes, whose calls with these numbers fail. The first call is number 1.
    pub fn new(bytes: Vec<u8>, failing: Vec<u64>) -> MemSource
        ensures bytes { result.bytes ≡ bytes.items }
        ensures calls { result.calls ≡ 0 }
        ensures failing { result.failing ≡ failing.items }
        ensures faults { result.faults ≡ 0 }
    {
        MemSource {
            steady: SteadySource::new(bytes),
            schedule: Schedule::new(failing),
        }
    }

    /// How many calls failed.
    pub fn faults(&self) -> u64
        ensures { result ≡ self.now.faults }
    {
        self.schedule.faults
    }
}

impl Source for MemSource {
    ghost left = { λ s. Some s.bytes };

    ghost faults = { λ s. s.faults };

    fn read(&mut self, buf: &mut [u8]) -> Result<usize, Failed>
        ensures bound { ReadsAtMost result buf.new }
        ensures given { MatchResult result
            (λ n. self.old.bytes ≡ take n buf.new ++ self.new.bytes)
            (λ _. self.new.bytes ≡ self.old.bytes) }
        ensures end { IfOk result (λ n. n ≡ 0 → 0 < length buf.new → self.new.bytes ≡ []) }
        ensures fails { IsErr result ↔ Contains self.old.failing (raised self.old.calls) }
        ensures counted { CountsCall self.old self.new }
        ensures cause { HasCause self.old.faults self.new.faults result }
    {
        self.schedule.call()?;
        self.steady.read(buf)
    }
}
