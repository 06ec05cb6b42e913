// A machine, and the journal of its commands.
ghost use Rattle.std.specs.Prelude.{◌≡◌, ◌≤◌, ◌<◌, ◌+◌, ◌-◌, ◌^◌, ◌%◌, ◌∷◌, ◌++◌, [], ℕ, length, false, true, Err, OnOk, OnErr, IfOk, IfErr, IfSome, Some, None};
ghost use Rattle.frs_disk.specs.Alarms.{Passes, armed_if, disarmed};
ghost use Rattle.frs_disk.specs.Moments.{seen_now};
ghost use Rattle.frs_journal.specs.Faults.{IsApplyFault, IsCommitFault, IsDiskFault, IsRefused};
ghost use Rattle.frs_journal.specs.Loads.{Loads};
ghost use Rattle.frs_journal.specs.Rests.{Kept};
ghost use Rattle.frs_journal.specs.Slots.{framed};
ghost use Rattle.frs_journal.specs.State.{AtPresent, IsUnchanged, KeepsOrSteps, SameJournal, StopsAsArmed, StopsWithin, disk_a, disk_b};

use crate::faults::ApplyFault;
use crate::slot::append_record;
use frs_base::Machine;
use frs_disk::{FrsDisk, Image, ScriptDisk};
use std::alloc::{AllocError, Global};
use std::marker::Model;

/// How many bytes a slot may have.
const ROOM: u64 = 1 << 32;

/// A machine and the two disks of its slots. The commands that led to its state stand in the
/// current slot.
///
/// After a call of a device that failed the journal is shut: the disks may hold the last command
/// or not, and a load of them says which.
#[derive(Drop)]
pub struct Journalled<M: Machine, D: FrsDisk> {
    machine: M,
    /// The disk of the current slot.
    current: D,
    other: D,
    /// Whether the current slot is slot b.
    in_b: bool,
    /// The length of the current slot, in bytes.
    end: u64,
    /// How many commands there were, modulo 2^64.
    serial: u64,
    shut: bool,
}

impl<M: Machine, D: FrsDisk> Model for Journalled<M, D> {
    ghost use Rattle.std.specs.Prelude.{◌≡◌, ◌≤◌, ◌^◌, false};
    ghost use Rattle.frs_journal.specs.State.{State, state_code};
    ghost use Rattle.frs_journal.specs.Rests.{Kept};

    ghost Value = { State M D };

    ghost coded = { state_code M.code D.code };

    ghost view = { λ s. record {
      machine = s.machine;
      current = s.current;
      other = s.other;
      in_b = s.in_b;
      end = s.end;
      serial = s.serial;
      shut = s.shut;
    } };

    ghost invariant = { λ s. (26 ≤ s.end) × (s.end ≤ 2 ^ 61)
        × (s.shut ≡ false → Kept M.law (M.state s.machine) s.in_b s.end s.serial
        (D.states s.current) (D.states s.other)) };
}

/// A command that is ready to be committed: all memory for it is taken.
#[derive(Drop)]
pub struct Prepared<M: Machine> {
    ready: M::Ready,
    /// The record behind the gate, with a closed gate behind it.
    body: Vec<u8>,
}

impl<M: Machine> Model for Prepared<M> {
    ghost use Rattle.std.specs.Prelude.{◌≡◌, ◌++◌, ◌∷◌, []};
    ghost use Rattle.frs_journal.specs.State.{Spelt, spelt_code};
    ghost use Rattle.frs_journal.specs.Slots.{framed};

    ghost Value = { Spelt M.Ready };

    ghost coded = { spelt_code M.Ready.code };

    ghost view = { λ p. record { ready = p.ready; body = p.body.items } };

    ghost invariant = { λ p. M.law.is_cmd (M.command p.ready)
        × (p.body.items ≡ framed (M.law.code (M.command p.ready)) ++ 0 ∷ []) };
}

/// The bytes of a record behind its gate, with a closed gate behind them.
#[tactic(auto, unfolding(crate::specs::Slots::framed))]
fn body_of(alloc: Global, payload: &[u8]) -> Result<Vec<u8>, AllocError>
    requires { length payload.now < 2 ^ 32 }
    ensures bytes { IfOk result (λ body. body.items ≡ framed payload.now ++ 0 ∷ []) }
    ensures size { IfOk result (λ body. length body.items ≡ length payload.now + 5) }
{
    let mut body = Vec::new(alloc);
    body.extend_from_slice(&(payload.len() as u32).to_le_bytes())?;
    body.extend_from_slice(payload)?;
    body.push(0)?;
    Ok(body)
}

impl<M: Machine, D: FrsDisk> Journalled<M, D> {
    /// A journal whose disks are at rest.
    pub(crate) fn at_rest(
        machine: M,
        current: D,
        other: D,
        in_b: bool,
        end: u64,
        serial: u64,
    ) -> Journalled<M, D>
        requires low { 26 ≤ end }
        requires high { end ≤ 2 ^ 61 }
        requires kept { Kept M.law (M.state machine) in_b end serial
            (D.states current) (D.states other) }
        ensures { result ≡ record {
          machine = machine;
          current = current;
          other = other;
          in_b = in_b;
          end = end;
          serial = serial;
          shut = false;
        } }
    {
        Journalled {
            machine,
            current,
            other,
            in_b,
            end,
            serial,
            shut: false,
        }
    }

    /// The machine. While the journal isn't shut, a crash leaves its state.
    pub fn state(&self) -> &M
        ensures machine { result.now ≡ self.now.machine }
        ensures leaves { self.now.shut ≡ false
            → AtPresent D.states (Loads M.law (M.state self.now.machine) self.now.serial) self.now }
    {
        &self.machine
    }

    /// How many commands there were since the machine was first made, modulo 2^64.
    pub fn serial(&self) -> u64
        ensures { result ≡ self.now.serial }
    {
        self.serial
    }

    /// The length of the current slot, in bytes.
    pub fn end(&self) -> u64
        ensures end { result ≡ self.now.end }
        ensures length { self.now.shut ≡ false → IfSome (D.states self.now.current)
            (λ ss. self.now.end ≡ length (seen_now ss)) }
    {
        self.end
    }

    /// The disks of slot a and slot b.
    pub fn into_disks(self) -> (D, D)
        ensures { (result.0 ≡ disk_a self) × (result.1 ≡ disk_b self) }
    {
        let Journalled {
            machine,
            current,
            other,
            in_b,
            end: _,
            serial: _,
            shut: _,
        } = self;
        let _ = machine;
        if in_b {
            (other, current)
        } else {
            (current, other)
        }
    }

    /// Takes all that a command needs, the disk's room too, and makes no call of a device.
    pub fn prepare(&mut self, alloc: Global, cmd: M::Cmd) -> Result<Prepared<M>, ApplyFault>
        ensures ready { IfOk result (λ p. (M.command p.ready ≡ cmd)
            × M.fits p.ready self.new.machine
            × (length p.body ≡ length (M.law.code cmd) + 5)) }
        ensures spare { IfOk result (λ p. (3 < D.spare_calls self.new.current)
            × (length p.body + 1 ≤ D.spare_bytes self.new.current)) }
        ensures room { IfOk result (λ p. self.new.end + length p.body ≤ 2 ^ 32) }
        ensures open { OnOk result (self.old.shut ≡ false) }
        ensures refused { IfErr result (λ e. IsRefused e self.old.shut
            (self.old.end + length (M.law.code cmd) + 5)) }
        ensures shut { self.old.shut ≡ true → result ≡ Err ApplyFault.Shut }
        ensures machine { M.state self.new.machine ≡ M.state self.old.machine }
        ensures states { D.states self.new.current ≡ D.states self.old.current }
        ensures alarm { D.alarm self.new.current ≡ D.alarm self.old.current }
        ensures same { SameJournal self.old self.new }
    {
        if self.shut {
            return Err(ApplyFault::Shut);
        }
        let Ok(payload) = M::encode(alloc, &cmd) else {
            return Err(ApplyFault::Memory);
        };
        let length = self.end + payload.len() as u64 + 5;
        if length > ROOM {
            return Err(ApplyFault::JournalFull { length });
        }
        let Ok(body) = body_of(alloc, payload.as_slice()) else {
            return Err(ApplyFault::Memory);
        };
        let Ok(()) = self.current.reserve(alloc, 4, body.len() as u64 + 1) else {
            return Err(ApplyFault::Memory);
        };
        let Ok(ready) = self.machine.ready(alloc, cmd) else {
            return Err(ApplyFault::Memory);
        };
        Ok(Prepared { ready, body })
    }

    /// Takes the command that the last `prepare` gave, in exactly four calls of the current slot's
    /// disk: body write, sync, gate write, sync. It takes no memory.
    pub fn commit(&mut self, prepared: Prepared<M>) -> Result<(), ApplyFault>
        requires open { self.old.shut ≡ false }
        requires fits { M.fits prepared.ready self.old.machine }
        requires spare { (3 < D.spare_calls self.old.current)
            × (length prepared.body + 1 ≤ D.spare_bytes self.old.current) }
        requires room { self.old.end + length prepared.body ≤ 2 ^ 32 }
        ensures step { OnOk result (M.law.step (M.state self.old.machine)
            (M.command prepared.ready) (M.state self.new.machine)) }
        ensures end { OnOk result (self.new.end ≡ self.old.end + length prepared.body) }
        ensures serial { OnOk result (self.new.serial ≡ (self.old.serial + 1) % 2 ^ 64) }
        ensures slot { self.new.in_b ≡ self.old.in_b }
        ensures crash { KeepsOrSteps D.states M.law (M.state self.old.machine) self.old.serial
            (M.command prepared.ready) self.old self.new }
        ensures done { OnOk result (AtPresent D.states
            (Loads M.law (M.state self.new.machine) self.new.serial) self.new) }
        ensures open_still { OnOk result (self.new.shut ≡ false) }
        ensures shut { OnErr result (self.new.shut ≡ true) }
        ensures kept { OnErr result ((self.new.machine ≡ self.old.machine)
            × (self.new.end ≡ self.old.end) × (self.new.serial ≡ self.old.serial)) }
        ensures alarm { OnOk result
            (Passes 4 (D.alarm self.old.current) (D.alarm self.new.current)) }
        ensures stops { OnErr result (StopsWithin D.states D.alarm
            M.law (M.state self.old.machine) self.old.serial self.old self.new) }
        ensures word { OnErr result (StopsAsArmed D.states (D.alarm self.old.current)
            M.law (M.state self.old.machine) self.old.serial (M.command prepared.ready) self.new) }
        ensures could { (after : M.State)
            × M.law.step (M.state self.old.machine) (M.command prepared.ready) after }
        ensures fault { IfErr result (λ e. IsCommitFault e
            (D.alarm self.old.current).faults (D.alarm self.new.current).faults) }
        ensures other { self.new.other ≡ self.old.other }
    {
        let Prepared { ready, body } = prepared;
        let Ok(()) = append_record(&mut self.current, self.end - 1, body.as_slice()) else {
            self.shut = true;
            return Err(ApplyFault::DiskFault {
                count: self.current.faults(),
            });
        };
        self.machine.take(ready);
        self.end += body.len() as u64;
        self.serial = self.serial.wrapping_add(1);
        Ok(())
    }

    /// Takes a command. A crash at any moment of the call leaves the state before or the state
    /// after, and once it is Ok the state after.
    pub fn apply(&mut self, alloc: Global, cmd: M::Cmd) -> Result<(), ApplyFault>
        ensures step { OnOk result
            (M.law.step (M.state self.old.machine) cmd (M.state self.new.machine)) }
        ensures end { OnOk result (self.new.end ≡ self.old.end + length (M.law.code cmd) + 5) }
        ensures fits { OnOk result (self.new.end ≤ 2 ^ 32) }
        ensures serial { OnOk result (self.new.serial ≡ (self.old.serial + 1) % 2 ^ 64) }
        ensures slot { self.new.in_b ≡ self.old.in_b }
        ensures crash { self.old.shut ≡ false → KeepsOrSteps D.states
            M.law (M.state self.old.machine) self.old.serial cmd self.old self.new }
        ensures done { OnOk result (AtPresent D.states
            (Loads M.law (M.state self.new.machine) self.new.serial) self.new) }
        ensures open { OnOk result ((self.old.shut ≡ false) × (self.new.shut ≡ false)) }
        ensures fault { IfErr result (λ e. IsApplyFault e self.old.shut
            (self.old.end + length (M.law.code cmd) + 5)
            (D.alarm self.old.current).faults (D.alarm self.new.current).faults) }
        ensures was_shut { self.old.shut ≡ true → result ≡ Err ApplyFault.Shut }
        ensures shut { IfErr result (λ e. IsDiskFault e → self.new.shut ≡ true) }
        ensures kept { OnErr result ((M.state self.new.machine ≡ M.state self.old.machine)
            × (self.new.end ≡ self.old.end) × (self.new.serial ≡ self.old.serial)) }
        ensures alarm { OnOk result
            (Passes 4 (D.alarm self.old.current) (D.alarm self.new.current)) }
        ensures stops { IfErr result (λ e. IsDiskFault e → StopsWithin D.states D.alarm
            M.law (M.state self.old.machine) self.old.serial self.old self.new) }
        ensures word { IfErr result (λ e. IsDiskFault e
            → StopsAsArmed D.states (D.alarm self.old.current)
            M.law (M.state self.old.machine) self.old.serial cmd self.new) }
        ensures could { IfErr result (λ e. IsDiskFault e
            → (after : M.State) × M.law.step (M.state self.old.machine) cmd after) }
        ensures refused { IfErr result (λ e. (IsDiskFault e → ⊥)
            → IsUnchanged M.state D.states D.alarm self.old self.new) }
        ensures other { self.new.other ≡ self.old.other }
    {
        let _ = &self.machine;
        match self.prepare(alloc, cmd) {
            Ok(prepared) => self.commit(prepared),
            Err(fault) => Err(fault),
        }
    }
}

impl<M: Machine, D: ScriptDisk> Journalled<M, D> {
    /// Arms a call of the current slot's disk that is to stop it.
    pub fn arm(&mut self, call: u32, image: Image) -> bool
        requires { 0 < call }
        ensures can { result ≡ (D.FrsDisk.alarm self.old.current).can_crash }
        ensures alarm { D.FrsDisk.alarm self.new.current
            ≡ armed_if result call (Some image) (D.FrsDisk.alarm self.old.current) }
        ensures states { D.FrsDisk.states self.new.current ≡ D.FrsDisk.states self.old.current }
        ensures calls { D.FrsDisk.spare_calls self.new.current
            ≡ D.FrsDisk.spare_calls self.old.current }
        ensures bytes { D.FrsDisk.spare_bytes self.new.current
            ≡ D.FrsDisk.spare_bytes self.old.current }
        ensures machine { self.new.machine ≡ self.old.machine }
        ensures same { SameJournal self.old self.new }
    {
        self.current.arm(call, image)
    }

    /// Arms a call of the current slot's disk that is to fail alone.
    pub fn fail(&mut self, call: u32) -> bool
        requires { 0 < call }
        ensures can { result ≡ (D.FrsDisk.alarm self.old.current).can_crash }
        ensures alarm { D.FrsDisk.alarm self.new.current
            ≡ armed_if result call None (D.FrsDisk.alarm self.old.current) }
        ensures states { D.FrsDisk.states self.new.current ≡ D.FrsDisk.states self.old.current }
        ensures calls { D.FrsDisk.spare_calls self.new.current
            ≡ D.FrsDisk.spare_calls self.old.current }
        ensures bytes { D.FrsDisk.spare_bytes self.new.current
            ≡ D.FrsDisk.spare_bytes self.old.current }
        ensures machine { self.new.machine ≡ self.old.machine }
        ensures same { SameJournal self.old self.new }
    {
        self.current.fail(call)
    }

    /// Takes back what was armed on either disk.
    pub fn disarm(&mut self)
        ensures alarm { D.FrsDisk.alarm self.new.current
            ≡ disarmed (D.FrsDisk.alarm self.old.current) }
        ensures other_alarm { D.FrsDisk.alarm self.new.other
            ≡ disarmed (D.FrsDisk.alarm self.old.other) }
        ensures states { D.FrsDisk.states self.new.current ≡ D.FrsDisk.states self.old.current }
        ensures other_states { D.FrsDisk.states self.new.other ≡ D.FrsDisk.states self.old.other }
        ensures calls { D.FrsDisk.spare_calls self.new.current
            ≡ D.FrsDisk.spare_calls self.old.current }
        ensures bytes { D.FrsDisk.spare_bytes self.new.current
            ≡ D.FrsDisk.spare_bytes self.old.current }
        ensures machine { self.new.machine ≡ self.old.machine }
        ensures same { (self.new.in_b ≡ self.old.in_b) × (self.new.end ≡ self.old.end)
            × (self.new.serial ≡ self.old.serial) × (self.new.shut ≡ self.old.shut) }
    {
        self.current.disarm();
        self.other.disarm();
    }
}
