// Consuming the journal.
ghost use Rattle.std.specs.Prelude.{◌≡◌, true, IfErr, IfOk};
ghost use Rattle.usn_consumer.specs.Next.{HasClock, IsNext, IsSkewed, have_clocks, next_of};

use crate::made::{Mark, base_fence, recorded_of};
use crate::{ConsumeError, Consumed};
use record_db::Book;
use vol_state::Volume;

/// The first number that no clock may be.
const CLOCK_END: u64 = 0x4000_0000_0000_0000;

/// What consuming the next journal record of a member at a moment comes to.
pub fn next_record(volume: &Volume, book: &Book, moment: u64) -> Result<Consumed, ConsumeError>
    requires own { volume.now.state.own ≡ book.now.state.own }
    requires next { IsNext volume.now.state book.now.state.consumed }
    requires clocks { have_clocks book.now.state.records ≡ true }
    ensures answer { IfOk result (λ found. found ≡ next_of volume.now.state book.now.state moment) }
    ensures clock { IfOk result (λ found. HasClock found) }
    ensures skewed { IfErr result (λ e. IsSkewed e (next_of volume.now.state book.now.state moment)) }
{
    let usn = book.consumed();
    if usn == volume.next_usn() {
        return Ok(Consumed::End);
    }
    let Some(record) = volume.record_at(usn) else {
        unreachable!()
    };
    let mark = Mark {
        usn,
        base: base_fence(book.phase(), book.kind()),
        moment,
    };
    let held = book.held(record.uid);
    match recorded_of(volume, &mark, record, held)? {
        None => Ok(Consumed::Skip),
        Some(update) if update.clock >= CLOCK_END => Err(ConsumeError::Skewed {
            clock: update.clock,
        }),
        Some(update) => Ok(Consumed::Make(update)),
    }
}
