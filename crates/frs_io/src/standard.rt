ghost use Rattle.std.specs.Prelude.{◌≡◌, ◌<◌, ◌≤◌, ℕ, None, take, length, IfOk, MatchResult};
ghost use Rattle.std.specs.Io.{ReadsAtMost, WritesAtMost};
ghost use Rattle.std.specs.Io.KnownBytes.{ReadConsumes, WriteAppends};
ghost use Rattle.frs_io.specs.Causes.{raised, HasCause, HasWriteCause};

use crate::{Failed, Sink, Source, WriteError};
use std::alloc::Global;
use std::io::{Read, Write};
use std::marker::Model;

/// A source over a reader of std. As a source it tells nothing of its bytes.
///
/// Each error of the reader is a fault, also one whose kind is `Interrupted`: std's `read` doesn't
/// try again after a signal, and neither does this. The next call reads on.
#[derive(Drop)]
pub struct StdSource<R: Read + Drop> {
    inner: R,
    faults: u64,
}

impl<R: Read + Drop> Model for StdSource<R> {
    ghost use Rattle.frs_io.specs.Standard.{StandardState};

    ghost Value = { StandardState };

    ghost view = { λ s. record { told = R.Read.remaining s.inner; faults = s.faults } };
}

impl<R: Read + Drop> StdSource<R> {
    /// A source that reads from this reader.
    pub fn new(inner: R) -> StdSource<R>
        ensures told { result.told ≡ R.Read.remaining inner }
        ensures faults { result.faults ≡ 0 }
    {
        StdSource { inner, faults: 0 }
    }

    /// How many reads failed.
    pub fn faults(&self) -> u64
        ensures { result ≡ self.now.faults }
    {
        self.faults
    }

    /// Counts a read that failed.
    fn fault(&mut self) -> Failed
        ensures counted { self.new ≡ record self.old { faults = raised self.old.faults } }
        ensures later { self.old.faults ≤ self.new.faults }
    {
        self.faults = self.faults.saturating_add(1);
        Failed
    }
}

impl<R: Read + Drop> Source for StdSource<R> {
    ghost left = { λ _. None };

    ghost faults = { λ s. s.faults };

    fn read(&mut self, buf: &mut [u8]) -> Result<usize, Failed>
        ensures bound { ReadsAtMost result buf.new }
        ensures passed { ReadConsumes self.old.told self.new.told result buf.new }
        ensures cause { HasCause self.old.faults self.new.faults result }
    {
        match self.inner.read(buf) {
            Ok(count) => Ok(count),
            Err(_) => Err(self.fault()),
        }
    }
}

/// A sink over a writer of std. As a sink it tells nothing of its bytes.
///
/// Each error of the writer is a fault, also one whose kind is `Interrupted`, and so is a write
/// that takes none of the bytes where there are some.
#[derive(Drop)]
pub struct StdSink<W: Write + Drop> {
    inner: W,
    faults: u64,
}

impl<W: Write + Drop> Model for StdSink<W> {
    ghost use Rattle.frs_io.specs.Standard.{StandardState};

    ghost Value = { StandardState };

    ghost view = { λ s. record { told = W.Write.contents s.inner; faults = s.faults } };
}

impl<W: Write + Drop> StdSink<W> {
    /// A sink that writes to this writer.
    pub fn new(inner: W) -> StdSink<W>
        ensures told { result.told ≡ W.Write.contents inner }
        ensures faults { result.faults ≡ 0 }
    {
        StdSink { inner, faults: 0 }
    }

    /// How many writes failed.
    pub fn faults(&self) -> u64
        ensures { result ≡ self.now.faults }
    {
        self.faults
    }

    /// Counts a write that failed.
    fn fault(&mut self) -> WriteError
        ensures failed { result ≡ WriteError.Failed }
        ensures counted { self.new ≡ record self.old { faults = raised self.old.faults } }
        ensures later { self.old.faults ≤ self.new.faults }
    {
        self.faults = self.faults.saturating_add(1);
        WriteError::Failed
    }
}

impl<W: Write + Drop> Sink for StdSink<W> {
    ghost taken = { λ _. None };

    ghost faults = { λ s. s.faults };

    fn write(&mut self, _alloc: Global, bytes: &[u8]) -> Result<usize, WriteError>
        ensures bound { WritesAtMost result bytes.now }
        ensures some { IfOk result (λ n. 0 < length bytes.now → 0 < n) }
        ensures passed { WriteAppends self.old.told self.new.told result bytes.now }
        ensures cause { HasWriteCause self.old.faults self.new.faults result }
    {
        match self.inner.write(bytes) {
            Ok(count) if count > 0 || bytes.is_empty() => Ok(count),
            _ => Err(self.fault()),
        }
    }
}
