// Commands on the book.
ghost use Rattle.std.specs.Prelude.{◌≡◌, true, IfErr, IfOk, OnErr, OnOk};
ghost use Rattle.version_vector.specs.Limits.{IsTooLong};
ghost use Rattle.record_db.specs.Steps.{covered_after, is_allowed};
ghost use Rattle.folder_core.specs.Books.{Changed, Takes};
ghost use Rattle.folder_core.specs.Given.{IsNoted, MayTake, StaysSound};
ghost use Rattle.folder_core.specs.Notes.{mark_of};

use super::Machine;
use crate::answer::Answer;
use crate::{Mark, Refusal, Reply};
use record_db::BookCmd;
use std::alloc::{AllocError, Global};
use version_vector::VectorError;

impl Machine {
    /// Does a command on the book. After an error the machine is as it was.
    pub(super) fn go_on(&mut self, alloc: Global, cmd: BookCmd) -> Result<(), VectorError>
        requires allowed { is_allowed cmd self.old.book ≡ true }
        requires sound { StaysSound cmd self.old }
        ensures ok { OnOk result (Changed cmd self.old self.new) }
        ensures full { IfErr result (λ e. IsTooLong e (covered_after cmd self.old.book)) }
        ensures err { OnErr result (self.new ≡ self.old) }
    {
        self.book.do_allowed(alloc, cmd)?;
        let _ = self.book.vector();
        Ok(())
    }

    /// Does a command on the book, which changes the vector; or the vector would be full.
    pub(super) fn widen(
        &mut self,
        alloc: Global,
        cmd: BookCmd,
        reply: Reply,
        mark: Mark,
    ) -> Result<Answer, AllocError>
        requires may { MayTake cmd self.old }
        requires mark { mark ≡ mark_of reply }
        ensures answers { IfOk result (λ answer. Takes cmd reply self.old answer.reply self.new) }
        ensures noted { IfOk result (λ answer. IsNoted answer self.old self.new) }
        ensures err { OnErr result (self.new ≡ self.old) }
    {
        match self.go_on(alloc, cmd) {
            Ok(()) => Ok(Answer {
                reply,
                mark,
                moved: true,
            }),
            Err(VectorError::VectorFull { count }) => {
                Ok(Answer::refused(&Refusal::VectorFull { count }))
            }
            Err(VectorError::Memory) => Err(AllocError),
        }
    }
}
