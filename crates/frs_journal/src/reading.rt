// The records of a slot, read from its bytes.
ghost use Rattle.std.specs.Prelude.{◌≡◌, ◌≤◌, ◌<◌, ◌+◌, ◌++◌, ◌∷◌, [], List, ℕ, length, drop, get_or, IfOk, IfSome, IfNone};
ghost use Rattle.frs_journal.specs.Damage.{Parses};
ghost use Rattle.frs_journal.specs.Loads.{Counts};
ghost use Rattle.frs_journal.specs.Reading.{HasCount, IsValid, NoCount, ReadTo};
ghost use Rattle.frs_journal.specs.Slots.{IsShort, framed};

use frs_base::Machine;
use std::alloc::{AllocError, Global};

/// What was read of a valid slot.
#[derive(Drop)]
pub(crate) enum Parsed<C> {
    /// Its commands, how many of them a checkpoint saved, and the place behind its first gate that
    /// isn't 1.
    Whole {
        commands: Vec<C>,
        saved: u64,
        end: usize,
    },
    /// From this place on it has no list.
    Broken {
        offset: usize,
    },
}

/// The payload behind an opened gate, where the record and a gate behind it are there.
fn payload_of(rest: &[u8]) -> Option<&[u8]>
    ensures whole { IfSome result (λ p.
        rest.now ≡ framed p.now ++ drop (4 + length p.now) rest.now) }
    ensures inside { IfSome result (λ p. 4 + length p.now < length rest.now) }
    ensures short { IfSome result (λ p. IsShort p.now) }
    ensures none { IfNone result ((p : List ℕ) (gate : ℕ) (more : List ℕ)
        → IsShort p → rest.now ≡ framed p ++ gate ∷ more → ⊥) }
{
    if rest.len() < 5 {
        return None;
    }
    let count = u32::from_le_bytes([rest[0], rest[1], rest[2], rest[3]]) as usize;
    if count >= rest.len() - 4 {
        return None;
    }
    Some(&rest[4..4 + count])
}

/// The count in a payload: 0xFF and eight bytes.
#[tactic(auto, using(crate::proofs::Records::counts_size, crate::proofs::Records::counts_first))]
fn count_in(payload: &[u8]) -> Option<u64>
    ensures some { IfSome result (λ saved. Counts payload.now saved) }
    ensures none { IfNone result ((saved : ℕ) → Counts payload.now saved → ⊥) }
{
    if payload.len() != 9 || payload[0] != 0xff {
        return None;
    }
    Some(u64::from_le_bytes([
        payload[1], payload[2], payload[3], payload[4], payload[5], payload[6], payload[7],
        payload[8],
    ]))
}

/// The count of saved commands at the first gate of a slot, if one stands there.
fn count_of(bytes: &[u8]) -> Option<u64>
    requires { 26 ≤ length bytes.now }
    ensures some { IfSome result (λ saved. HasCount bytes.now saved) }
    ensures none { IfNone result (get_or bytes.now 25 0 ≡ 1 → NoCount bytes.now) }
{
    if bytes[25] != 1 {
        return None;
    }
    let Some(payload) = payload_of(&bytes[26..]) else {
        return None;
    };
    count_in(payload)
}

/// Reads the commands of a slot from a gate on.
fn read_commands<M: Machine>(
    alloc: Global,
    bytes: &[u8],
    saved: u64,
    first: usize,
) -> Result<Parsed<M::Cmd>, AllocError>
    requires { ReadTo M.law bytes.now first saved [] }
    ensures { IfOk result (λ parsed. Parses M.law bytes.now parsed) }
{
    let mut commands = Vec::new(alloc);
    let mut at = first;
    while bytes[at] == 1 {
        let Some(payload) = payload_of(&bytes[at + 1..]) else {
            return Ok(Parsed::Broken { offset: at });
        };
        let Some(command) = M::decode(alloc, payload)? else {
            return Ok(Parsed::Broken { offset: at });
        };
        commands.push(command)?;
        at += 5 + payload.len();
    }
    if saved > commands.len() as u64 {
        return Ok(Parsed::Broken { offset: 25 });
    }
    Ok(Parsed::Whole {
        commands,
        saved,
        end: at + 1,
    })
}

/// Reads the records of a valid slot.
pub(crate) fn read_slot<M: Machine>(
    alloc: Global,
    bytes: &[u8],
) -> Result<Parsed<M::Cmd>, AllocError>
    requires { IsValid bytes.now }
    ensures { IfOk result (λ parsed. Parses M.law bytes.now parsed) }
{
    match count_of(bytes) {
        Some(saved) => read_commands::<M>(alloc, bytes, saved, 39),
        None => read_commands::<M>(alloc, bytes, 0, 25),
    }
}
