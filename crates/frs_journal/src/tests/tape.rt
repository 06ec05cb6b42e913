// The smallest machine: bytes, and commands that each put one behind them.
use frs_base::{Machine, ReservedVec};
use std::alloc::{AllocError, Global};

/// Bytes in order. The command of a byte is spelled 0 and the byte.
#[derive(Drop)]
pub struct Tape {
    pub bytes: ReservedVec<u8>,
}

impl Machine for Tape {
    ghost use Rattle.std.specs.Prelude.{List, ℕ, ◌<◌};
    ghost use Rattle.frs_base.specs.Tapes.{tape_lawful, tape_leads, tape_rules};

    type Cmd = u8;

    type Ready = u8;

    ghost State = { List ℕ };

    ghost state = { λ tape. tape.bytes.items };

    ghost law = { tape_rules };

    ghost command = { λ ready. ready };

    ghost fits = { λ _ tape. 0 < tape.bytes.room };

    ghost lawful = { tape_lawful };

    ghost leads = { λ ready tape _. tape_leads tape.bytes.items ready };

    fn ready(&mut self, alloc: Global, cmd: u8) -> Result<u8, AllocError> {
        self.bytes.reserve_one(alloc)?;
        Ok(cmd)
    }

    fn take(&mut self, ready: u8) {
        self.bytes.push(ready);
    }

    fn encode(alloc: Global, cmd: &u8) -> Result<Vec<u8>, AllocError> {
        Ok(vec![in alloc; 0, *cmd]?)
    }

    fn decode(alloc: Global, bytes: &[u8]) -> Result<Option<u8>, AllocError> {
        let _ = alloc;
        match bytes {
            [0, byte] => Ok(Some(*byte)),
            _ => Ok(None),
        }
    }

    #[tactic(auto, using(frs_base::specs::Tapes::tape_saves))]
    fn save(&self, alloc: Global) -> Result<Vec<u8>, AllocError> {
        Vec::from_slice(alloc, self.bytes.as_slice())
    }
}
