// A disk in memory.
ghost use Rattle.std.specs.Prelude.{◌≡◌, ◌∷◌, [], false, true, None};
ghost use Rattle.frs_disk.specs.Alarms.{IsSilent};
ghost use Rattle.frs_disk.specs.Crashes.{still};
ghost use Rattle.frs_disk.specs.Starts.{untouched};

use crate::disk::{Failed, FrsDisk};
use crate::history::History;
use crate::image::Image;
use crate::script::{Reached, Script};
use crate::script_disk::ScriptDisk;
use frs_base::Sum;
use std::alloc::{AllocError, Global};
use std::marker::Model;

/// A disk in memory, which fails where a call is armed alone.
///
/// It keeps what a read gives and what the last sync made sure of. A call that stops it leaves the
/// image that was armed: with the call done, or with the bytes of the last sync back.
#[derive(Drop)]
pub struct MemDisk {
    history: History,
    script: Script,
    /// Whether a write or a cut was called.
    changed: bool,
    /// Whether a length that was asked for before was other than 0.
    found: bool,
}

impl Model for MemDisk {
    ghost use Rattle.std.specs.Prelude.{◌≡◌, [], false, true, None};
    ghost use Rattle.frs_disk.specs.Memory.{MemState, alarm_of};
    ghost use Rattle.frs_disk.specs.Crashes.{Stands};
    ghost use Rattle.frs_disk.specs.Moments.{seen_now, top};

    ghost Value = { MemState };

    ghost view = { λ d. record {
      states = d.history.states;
      alarm = alarm_of d.script;
      start = record { changed = d.changed; found = d.found; blank = true };
      spare_bytes = d.history.spare_bytes;
    } };

    ghost invariant = { λ d. (d.changed ≡ false
        → (seen_now d.history.states ≡ []) × ((top d.history.states).safe ≡ []))
        × (d.script.was_armed ≡ false → (d.script.armed ≡ None) × (d.script.faults ≡ 0))
        × Stands (top d.history.states) };
}

impl MemDisk {
    /// A disk with no bytes.
    pub fn new(alloc: Global) -> MemDisk
        ensures states { result.states ≡ still [] ∷ [] }
        ensures alarm { IsSilent result.alarm }
        ensures kind { (result.alarm.can_crash ≡ true) × (result.alarm.quiet ≡ true)
            × (result.alarm.exact ≡ true) }
        ensures start { result.start ≡ untouched true }
    {
        MemDisk {
            history: History::new(alloc),
            script: Script::new(),
            changed: false,
            found: false,
        }
    }
}

impl FrsDisk for MemDisk {
    ghost use Rattle.std.specs.Prelude.{Some, ◌^◌};

    ghost states = { λ d. Some d.states };

    ghost alarm = { λ d. d.alarm };

    ghost start = { λ d. d.start };

    // A call takes no room, and no more than 2 ^ 32 - 1 can be asked for.
    ghost spare_calls = { λ _. 2 ^ 32 };

    ghost spare_bytes = { λ d. d.spare_bytes };

    fn length(&mut self) -> Result<u64, Failed> {
        let length = self.history.bytes().len() as u64;
        self.found = self.found || (!self.changed && length != 0);
        Ok(length)
    }

    fn found(&self) -> bool {
        self.found
    }

    fn read(&mut self, at: u64, buf: &mut [u8]) -> Result<(), Failed> {
        let bytes = self.history.bytes();
        let at = at as usize;
        buf.copy_from_slice(&bytes[at..at + buf.len()]);
        Ok(())
    }

    fn read_sum(
        &mut self,
        at: u64,
        buf: &mut [u8],
        _head: &[u8],
        _sum: &Sum,
    ) -> Result<(), Failed> {
        self.read(at, buf)
    }

    fn write_at(&mut self, at: u64, bytes: &[u8]) -> Result<(), Failed> {
        self.changed = true;
        match self.script.tick() {
            Reached::Passed => {
                self.history.write(at as usize, bytes, false);
                Ok(())
            }
            Reached::Failed => Err(Failed),
            Reached::Stopped(image) => {
                self.history
                    .write(at as usize, bytes, image == Image::Without);
                Err(Failed)
            }
        }
    }

    fn cut(&mut self, length: u64) -> Result<(), Failed> {
        self.changed = true;
        match self.script.tick() {
            Reached::Passed => {
                self.history.cut(length as usize, false);
                Ok(())
            }
            Reached::Failed => Err(Failed),
            Reached::Stopped(image) => {
                self.history.cut(length as usize, image == Image::Without);
                Err(Failed)
            }
        }
    }

    fn sync(&mut self) -> Result<(), Failed> {
        match self.script.tick() {
            Reached::Passed => {
                self.history.sync();
                Ok(())
            }
            Reached::Failed => Err(Failed),
            Reached::Stopped(Image::With) => {
                self.history.sync();
                Err(Failed)
            }
            Reached::Stopped(Image::Without) => {
                self.history.lose();
                Err(Failed)
            }
        }
    }

    fn faults(&self) -> u64 {
        self.script.faults
    }

    fn reserve(&mut self, _alloc: Global, _calls: u32, bytes: u64) -> Result<(), AllocError> {
        self.history.reserve(bytes as usize)
    }
}

impl ScriptDisk for MemDisk {
    fn arm(&mut self, call: u32, image: Image) -> bool {
        self.script.arm(call, Some(image));
        true
    }

    fn fail(&mut self, call: u32) -> bool {
        self.script.arm(call, None);
        true
    }

    fn disarm(&mut self) {
        self.script.disarm();
    }

    fn stopped(&self) -> bool {
        self.script.stopped
    }

    fn crash(&mut self) -> bool {
        self.history.restart();
        true
    }

    /// None, since each call that fails was armed.
    fn unarmed(&self) -> u64 {
        let _ = &self.script;
        0
    }
}
