// Finishing a round.
ghost use Rattle.std.specs.Prelude.{◌≡◌, ◌↔◌, IfOk, IsTrue, MatchOption, IfNone, OnErr, not, option_copied, true};
ghost use Rattle.frs_base.specs.Options.{some_is};
ghost use Rattle.win_order.specs.Order.{key_lt, key_of};
ghost use Rattle.record_db.specs.Steps.{is_allowed};
ghost use Rattle.record_db.specs.declared.command.BookCmd.TheVariants.{Finish};
ghost use Rattle.folder_core.specs.declared.reply.Reply.TheVariants.{Finished};
ghost use Rattle.folder_core.specs.Books.{Takes};
ghost use Rattle.folder_core.specs.Finish.{AnswersFinish, HasNoneAhead, IsLeastAhead, first_unheld, is_held_or_beaten};
ghost use Rattle.folder_core.specs.Given.{IsNoted, StaysSound};
ghost use Rattle.folder_core.specs.Sound.{IsSound};

use super::Machine;
use super::adopt::is_below;
use crate::answer::Answer;
use crate::{Mark, Refusal, Reply};
use record_db::{BookCmd, first_past};
use std::alloc::{AllocError, Global};
use version_vector::{GrowingVector, Vector, VectorError};
use win_order::Update;

/// The held record has no smaller key.
fn stands_by(held: Option<&Update>, update: &Update) -> bool
    ensures { result ≡ some_is (λ r. not (key_lt (key_of r) (key_of update.now))) (option_copied held.entry) }
{
    match held {
        None => false,
        Some(record) => !is_below(record, update),
    }
}

/// The vectors have the same intervals.
fn are_same(a: &Vector, b: &GrowingVector) -> bool
    ensures { IsTrue result ↔ (a.now ≡ b.now.items) }
{
    a.intervals() == b.intervals()
}

impl Machine {
    /// The least own version of a vector that isn't consumed.
    fn least_ahead(&self, sent: &Vector) -> Option<u64>
        ensures least { MatchOption result (HasNoneAhead self.now sent.now) (λ version. IsLeastAhead self.now sent.now version) }
        ensures allowed { IfNone result (is_allowed (Finish sent.now) self.now.book ≡ true) }
        ensures sound { IsSound self.now }
    {
        let consumed = self.book.consumed();
        match first_past(sent.intervals(), self.book.own(), consumed) {
            None => None,
            Some(interval) => Some(consumed.max(interval.low)),
        }
    }

    /// The record of the update's file has no smaller key.
    fn is_held_or_beaten(&self, update: &Update) -> bool
        ensures { result ≡ is_held_or_beaten self.now.book.records update.now }
    {
        stands_by(self.book.held(update.uid), update)
    }

    /// The first update that is neither held nor beaten.
    fn first_unheld<'a>(&self, seen: &'a [Update]) -> Option<&'a Update>
        ensures { option_copied result ≡ first_unheld self.now.book.records seen.now }
    {
        seen.iter().find(|update| !self.is_held_or_beaten(update))
    }

    /// All of the vector is covered.
    fn cover(&mut self, alloc: Global, sent: Vector) -> Result<Answer, AllocError>
        requires allowed { is_allowed (Finish sent) self.old.book ≡ true }
        requires sound { StaysSound (Finish sent) self.old }
        ensures answers { IfOk result (λ answer. Takes (Finish sent) Finished self.old answer.reply self.new) }
        ensures noted { IfOk result (λ answer. IsNoted answer self.old self.new) }
        ensures err { OnErr result (self.new ≡ self.old) }
    {
        let before = self.book.vector().copy(alloc)?;
        match self.go_on(alloc, BookCmd::Finish { sent }) {
            Ok(()) => {
                let moved = !are_same(&before, self.book.vector());
                Ok(Answer {
                    reply: Reply::Finished,
                    mark: Mark::Finished,
                    moved,
                })
            }
            Err(VectorError::VectorFull { count }) => {
                Ok(Answer::refused(&Refusal::VectorFull { count }))
            }
            Err(VectorError::Memory) => Err(AllocError),
        }
    }

    /// A round over a vector is finished, whose pages had these updates.
    pub(crate) fn finish(
        &mut self,
        alloc: Global,
        sent: Vector,
        seen: &[Update],
    ) -> Result<Answer, AllocError>
        ensures answers { IfOk result (λ answer. AnswersFinish sent seen.now self.old answer.reply self.new) }
        ensures noted { IfOk result (λ answer. IsNoted answer self.old self.new) }
        ensures err { OnErr result (self.new ≡ self.old) }
    {
        if let Some(version) = self.least_ahead(&sent) {
            return Ok(Answer::refused(&Refusal::OwnAhead { version }));
        }
        if let Some(update) = self.first_unheld(seen) {
            let uid = update.uid;
            return Ok(Answer::refused(&Refusal::Unheld { uid }));
        }
        self.cover(alloc, sent)
    }
}
