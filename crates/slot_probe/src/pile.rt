// The machine whose journals are probed: byte strings, and commands that each put one behind them.
ghost use Rattle.std.specs.Prelude.{◌≡◌, [], IfOk};
ghost use Rattle.slot_probe.specs.Piles.{pile_rules};

use frs_base::{Bytes, Machine, ReservedVec};
use std::alloc::{AllocError, Global};

/// Byte strings in order. The command of a string is spelled by a zero, its length in four bytes
/// and the string.
#[derive(Drop)]
pub struct Pile {
    pub strings: ReservedVec<Bytes>,
}

impl Pile {
    /// No strings.
    pub fn new() -> Pile
        ensures { result.strings.items ≡ [] }
    {
        Pile {
            strings: ReservedVec::empty(),
        }
    }
}

/// The bytes of a command.
#[tactic(auto, unfolding(frs_journal::specs::Slots::framed))]
fn spell(alloc: Global, string: &[u8], length: u32) -> Result<Vec<u8>, AllocError>
    requires { length ≡ Rattle.std.specs.Prelude.length string.now }
    ensures { IfOk result (λ bytes. bytes.items ≡ pile_rules.code string.now) }
{
    let mut bytes = Vec::with_capacity(alloc, 5 + string.len())?;
    bytes.push(0)?;
    bytes.extend_from_slice(&length.to_le_bytes())?;
    bytes.extend_from_slice(string)?;
    Ok(bytes)
}

impl Machine for Pile {
    ghost use Rattle.std.specs.Prelude.{List, ℕ, ◌<◌};
    ghost use Rattle.slot_probe.specs.Piles.{pile_lawful, pile_leads, pile_rules};

    type Cmd = Bytes;

    type Ready = Bytes;

    ghost State = { List (List ℕ) };

    ghost state = { λ pile. pile.strings.items };

    ghost law = { pile_rules };

    ghost command = { λ ready. ready };

    ghost fits = { λ _ pile. 0 < pile.strings.room };

    ghost lawful = { pile_lawful };

    ghost leads = { λ ready pile _. pile_leads pile.strings.items ready };

    fn ready(&mut self, alloc: Global, cmd: Bytes) -> Result<Bytes, AllocError> {
        self.strings.reserve_one(alloc)?;
        Ok(cmd)
    }

    fn take(&mut self, ready: Bytes) {
        self.strings.push(ready);
    }

    fn encode(alloc: Global, cmd: &Bytes) -> Result<Vec<u8>, AllocError> {
        let Ok(length) = u32::try_from(cmd.as_slice().len()) else {
            return Err(AllocError);
        };
        spell(alloc, cmd.as_slice(), length)
    }

    fn decode(alloc: Global, bytes: &[u8]) -> Result<Option<Bytes>, AllocError> {
        if bytes.len() < 5 {
            return Ok(None);
        }
        if bytes[0] != 0 {
            return Ok(None);
        }
        let length = u32::from_le_bytes([bytes[1], bytes[2], bytes[3], bytes[4]]) as usize;
        if length != bytes.len() - 5 {
            return Ok(None);
        }
        Ok(Some(Bytes::of(Vec::from_slice(alloc, &bytes[5..])?)))
    }

    fn save(&self, alloc: Global) -> Result<Vec<Bytes>, AllocError> {
        let mut saved = Vec::new(alloc);
        for string in self.strings.as_slice() {
            saved.push(Bytes::of(Vec::from_slice(alloc, string.as_slice())?))?;
        }
        Ok(saved)
    }
}
