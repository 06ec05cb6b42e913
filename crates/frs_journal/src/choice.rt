// Which of two slots is taken.
ghost use Rattle.frs_journal.specs.Picks.{IsHead, Picks};

use crate::faults::Slot;

/// Which of two slots a load takes.
#[derive(Clone, Copy, Debug, PartialEq, Eq)]
pub(crate) enum Pick {
    Taken(Slot),
    /// Neither is valid.
    Neither,
    /// This one says that it is valid, and has another magic.
    Bad(Slot),
}

/// What the header of a slot says.
#[derive(Clone, Copy, Debug, PartialEq, Eq)]
enum Head {
    Nothing,
    Bad,
    Valid { generation: u64 },
}

/// "FRSJRN01"
const MAGIC: [u8; 8] = [0x46, 0x52, 0x53, 0x4a, 0x52, 0x4e, 0x30, 0x31];

/// What the header of a slot says.
#[tactic(auto, unfolding(crate::specs::Slots::generation_of, crate::specs::Slots::is_bad))]
fn head_of(slot: &[u8]) -> Head
    ensures { IsHead slot.now result }
{
    if slot.len() < 26 || slot[0] != 1 {
        return Head::Nothing;
    }
    if slot[1..9] != MAGIC[..] {
        return Head::Bad;
    }
    Head::Valid {
        generation: u64::from_le_bytes([
            slot[9], slot[10], slot[11], slot[12], slot[13], slot[14], slot[15], slot[16],
        ]),
    }
}

/// The slot that is taken of two, by their bytes.
pub(crate) fn choose(a: &[u8], b: &[u8]) -> Pick
    ensures { Picks a.now b.now result }
{
    match (head_of(a), head_of(b)) {
        (Head::Bad, _) => Pick::Bad(Slot::A),
        (_, Head::Bad) => Pick::Bad(Slot::B),
        (Head::Nothing, Head::Nothing) => Pick::Neither,
        (Head::Valid { .. }, Head::Nothing) => Pick::Taken(Slot::A),
        (Head::Nothing, Head::Valid { .. }) => Pick::Taken(Slot::B),
        (Head::Valid { generation: x }, Head::Valid { generation: y }) => {
            if y == x.wrapping_add(1) || (x != y.wrapping_add(1) && x < y) {
                Pick::Taken(Slot::B)
            } else {
                Pick::Taken(Slot::A)
            }
        }
    }
}
