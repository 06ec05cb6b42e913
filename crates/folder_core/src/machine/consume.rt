// Consuming the journal.
ghost use Rattle.std.specs.Prelude.{◌≡◌, ◌<◌, ◌-◌, ◌^◌, IfOk, OnErr, Some};
ghost use Rattle.record_db.specs.declared.command.BookCmd.TheVariants.{RecordLocal};
ghost use Rattle.folder_core.specs.declared.reply.Reply.TheVariants.{Made};
ghost use Rattle.folder_core.specs.Books.{Takes};
ghost use Rattle.folder_core.specs.Consume.{AnswersConsume};
ghost use Rattle.folder_core.specs.Given.{IsNoted, MayTake};

use super::Machine;
use crate::answer::Answer;
use crate::{Mark, Refusal, Reply};
use record_db::BookCmd;
use std::alloc::{AllocError, Global};
use usn_consumer::{ConsumeError, Consumed, next_record};
use win_order::Update;

impl Machine {
    /// The journal record with this USN, the next one, makes this update.
    fn record(&mut self, alloc: Global, usn: u64, update: Update) -> Result<Answer, AllocError>
        requires may { MayTake (RecordLocal usn (Some update)) self.old }
        ensures answers { IfOk result (λ answer. Takes (RecordLocal usn (Some update)) (Made update.gvsn) self.old answer.reply self.new) }
        ensures noted { IfOk result (λ answer. IsNoted answer self.old self.new) }
        ensures err { OnErr result (self.new ≡ self.old) }
    {
        let reply = Reply::Made(update.gvsn);
        let mark = Mark::Made(update.gvsn);
        let update = Some(update);
        self.widen(alloc, BookCmd::RecordLocal { usn, update }, reply, mark)
    }

    /// The next journal record is consumed.
    pub(crate) fn consume(&mut self, alloc: Global, moment: u64) -> Result<Answer, AllocError>
        requires { self.old.volume.next_usn < 2 ^ 64 - 1 }
        ensures answers { IfOk result (λ answer. AnswersConsume moment self.old answer.reply self.new) }
        ensures noted { IfOk result (λ answer. IsNoted answer self.old self.new) }
        ensures err { OnErr result (self.new ≡ self.old) }
    {
        let usn = self.book.consumed();
        match next_record(&self.volume, &self.book, moment) {
            Ok(Consumed::End) => Ok(Answer {
                reply: Reply::Nothing,
                mark: Mark::Nothing,
                moved: false,
            }),
            Ok(Consumed::Skip) => {
                let cmd = BookCmd::RecordLocal { usn, update: None };
                self.widen(alloc, cmd, Reply::Skipped(usn), Mark::Skipped(usn))
            }
            Ok(Consumed::Make(update)) => self.record(alloc, usn, update),
            Err(ConsumeError::Skewed { clock }) => {
                Ok(Answer::refused(&Refusal::Skewed { clock }))
            }
            Err(ConsumeError::Memory) => Err(AllocError),
        }
    }
}
