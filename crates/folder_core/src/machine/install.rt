// Steps of the installer.
ghost use Rattle.std.specs.Prelude.{◌≡◌, ◌<◌, ◌-◌, ◌^◌, false, IfOk, Ok, OnErr, option_copied};
ghost use Rattle.install_plan.specs.Agenda.{IsLast};
ghost use Rattle.name_rules.specs.declared.step.Step.{Step};
ghost use Rattle.name_rules.specs.declared.step.Next.TheVariants as next;
ghost use Rattle.name_rules.specs.declared.step.Step.TheVariants.{Erase, Make, Park, Place, Rewrite, Skip, Unstage};
ghost use Rattle.folder_core.specs.declared.mark.Mark.TheVariants as mark;
ghost use Rattle.folder_core.specs.declared.reply.Reply.TheVariants as reply;
ghost use Rattle.folder_core.specs.Given.{IsNoted};
ghost use Rattle.folder_core.specs.Install.{AnswersInstall, DoesStep, HasRecord, Installs, IsNextOf, IsOperation, IsPlanned, IsRecordOf, contents_in};

use super::Machine;
use super::adopt::kind_of;
use super::local::step_laws;
use crate::answer::Answer;
use crate::{Mark, Refusal, Reply};
use frs_base::Uid;
use install_plan::{Agenda, next_step};
use marshal_form::Form;
use name_rules::{Next, Step};
use record_db::BookCmd;
use std::alloc::{AllocError, Global};
use vol_state::VolCmd;
use win_order::Update;

/// The bytes of a form before its contents.
const HEAD: usize = 44;

/// The contents in a form, in memory of their own; none where there is no form.
fn contents_in(alloc: Global, form: Option<&Form>) -> Result<Vec<u8>, AllocError>
    ensures { IfOk result (λ bytes. bytes.items ≡ contents_in (option_copied form.entry)) }
{
    match form {
        None => Ok(Vec::new(alloc)),
        Some(form) => {
            let form = form.as_slice();
            Vec::from_slice(alloc, &form[HEAD.min(form.len())..])
        }
    }
}

/// A step was done, and the vector is as it was.
fn did(step: &Step) -> Answer
    ensures { result ≡ record { reply = reply.Did step.now; mark = mark.Did step.now; moved = false } }
{
    Answer {
        reply: Reply::Did(*step),
        mark: Mark::Did(*step),
        moved: false,
    }
}

impl Machine {
    /// The record of a file or directory that has one.
    fn record_of(&self, uid: &Uid) -> &Update
        requires { HasRecord self.now uid.now }
        ensures { IsRecordOf self.now uid.now result.now }
    {
        let Some(update) = self.book.held(*uid) else {
            unreachable!()
        };
        update
    }

    /// Does a step by its operation on the volume. After an error the machine is as it was.
    fn install_by(&mut self, alloc: Global, step: &Step, cmd: VolCmd) -> Result<Answer, AllocError>
        requires next { IsNextOf self.old (next.Do step.now) }
        requires operation { IsOperation self.old step.now cmd }
        requires numbers { self.old.volume.next_usn < 2 ^ 64 - 1 }
        ensures answers { IfOk result (λ answer. Installs step.now self.old answer.reply self.new) }
        ensures noted { IfOk result (λ answer. IsNoted answer self.old self.new) }
        ensures err { OnErr result (self.new ≡ self.old) }
    {
        let _ = self.book();
        self.operate(alloc, cmd, None)?;
        Ok(did(step))
    }

    /// An object leaves its place.
    fn park(&mut self, alloc: Global, uid: &Uid) -> Result<Answer, AllocError>
        requires next { IsNextOf self.old (next.Do (Park uid.now)) }
        requires numbers { self.old.volume.next_usn < 2 ^ 64 - 1 }
        ensures answers { IfOk result (λ answer. DoesStep (Park uid.now) self.old answer.reply self.new) }
        ensures noted { IfOk result (λ answer. IsNoted answer self.old self.new) }
        ensures err { OnErr result (self.new ≡ self.old) }
    {
        let cmd = self.volume.park(*uid);
        self.install_by(alloc, &Step::Park(*uid), cmd)
    }

    /// The object of a file or directory that was removed goes.
    fn erase(&mut self, alloc: Global, uid: &Uid) -> Result<Answer, AllocError>
        requires next { IsNextOf self.old (next.Do (Erase uid.now)) }
        requires numbers { self.old.volume.next_usn < 2 ^ 64 - 1 }
        ensures answers { IfOk result (λ answer. DoesStep (Erase uid.now) self.old answer.reply self.new) }
        ensures noted { IfOk result (λ answer. IsNoted answer self.old self.new) }
        ensures err { OnErr result (self.new ≡ self.old) }
    {
        let cmd = self.volume.erase(*uid);
        self.install_by(alloc, &Step::Erase(*uid), cmd)
    }

    /// An object is made in limbo, a file with the contents that are staged.
    fn make(&mut self, alloc: Global, uid: &Uid) -> Result<Answer, AllocError>
        requires next { IsNextOf self.old (next.Do (Make uid.now)) }
        requires numbers { self.old.volume.next_usn < 2 ^ 64 - 1 }
        ensures answers { IfOk result (λ answer. DoesStep (Make uid.now) self.old answer.reply self.new) }
        ensures noted { IfOk result (λ answer. IsNoted answer self.old self.new) }
        ensures err { OnErr result (self.new ≡ self.old) }
    {
        let bytes = contents_in(alloc, self.book.form(*uid))?;
        let kind = kind_of(self.record_of(uid));
        let cmd = self.volume.make(*uid, kind, bytes);
        self.install_by(alloc, &Step::Make(*uid), cmd)
    }

    /// A file gets the contents that are staged.
    fn rewrite(&mut self, alloc: Global, uid: &Uid) -> Result<Answer, AllocError>
        requires next { IsNextOf self.old (next.Do (Rewrite uid.now)) }
        requires numbers { self.old.volume.next_usn < 2 ^ 64 - 1 }
        ensures answers { IfOk result (λ answer. DoesStep (Rewrite uid.now) self.old answer.reply self.new) }
        ensures noted { IfOk result (λ answer. IsNoted answer self.old self.new) }
        ensures err { OnErr result (self.new ≡ self.old) }
    {
        let bytes = contents_in(alloc, self.book.form(*uid))?;
        let cmd = self.volume.rewrite(*uid, bytes);
        self.install_by(alloc, &Step::Rewrite(*uid), cmd)
    }

    /// An object in limbo gets its record's place.
    fn place(&mut self, alloc: Global, uid: &Uid) -> Result<Answer, AllocError>
        requires next { IsNextOf self.old (next.Do (Place uid.now)) }
        requires numbers { self.old.volume.next_usn < 2 ^ 64 - 1 }
        ensures answers { IfOk result (λ answer. DoesStep (Place uid.now) self.old answer.reply self.new) }
        ensures noted { IfOk result (λ answer. IsNoted answer self.old self.new) }
        ensures err { OnErr result (self.new ≡ self.old) }
    {
        let record = self.record_of(uid);
        let parent = record.parent;
        let name = record.name.copy()?;
        let cmd = self.volume.place(*uid, parent, name);
        self.install_by(alloc, &Step::Place(*uid), cmd)
    }

    /// What is staged of a file goes.
    fn unstage(&mut self, uid: &Uid) -> Answer
        requires { IsNextOf self.old (next.Do (Unstage uid.now)) }
        ensures answers { DoesStep (Unstage uid.now) self.old result.reply self.new }
        ensures noted { IsNoted result self.old self.new }
    {
        self.book.unstage(*uid);
        let _ = self.book.vector();
        did(&Step::Unstage(*uid))
    }

    /// A journal record of the installer's own is passed.
    fn skip(&mut self, alloc: Global, usn: u64) -> Result<Answer, AllocError>
        requires next { IsNextOf self.old (next.Do (Skip usn)) }
        requires numbers { self.old.volume.next_usn < 2 ^ 64 - 1 }
        ensures answers { IfOk result (λ answer. DoesStep (Skip usn) self.old answer.reply self.new) }
        ensures noted { IfOk result (λ answer. IsNoted answer self.old self.new) }
        ensures err { OnErr result (self.new ≡ self.old) }
    {
        let _ = self.book();
        let cmd = BookCmd::RecordLocal { usn, update: None };
        let Answer {
            reply,
            mark,
            moved: _,
        } = did(&Step::Skip(usn));
        self.widen(alloc, cmd, reply, mark)
    }

    /// Does the next step. After an error the machine is as it was.
    fn do_step(&mut self, alloc: Global, step: &Step) -> Result<Answer, AllocError>
        requires next { IsNextOf self.old (next.Do step.now) }
        requires numbers { self.old.volume.next_usn < 2 ^ 64 - 1 }
        ensures answers { IfOk result (λ answer. DoesStep step.now self.old answer.reply self.new) }
        ensures noted { IfOk result (λ answer. IsNoted answer self.old self.new) }
        ensures err { OnErr result (self.new ≡ self.old) }
    {
        match step {
            Step::Park(uid) => self.park(alloc, uid),
            Step::Erase(uid) => self.erase(alloc, uid),
            Step::Make(uid) => self.make(alloc, uid),
            Step::Rewrite(uid) => self.rewrite(alloc, uid),
            Step::Place(uid) => self.place(alloc, uid),
            Step::Unstage(uid) => Ok(self.unstage(uid)),
            Step::Skip(usn) => self.skip(alloc, *usn),
        }
    }

    /// Does the next step, which the agenda notes as the last one. The agenda stays one of the machine.
    fn step(
        &mut self,
        alloc: Global,
        step: &Step,
        agenda: &Option<Agenda>,
    ) -> Result<Answer, AllocError>
        requires next { IsNextOf self.old (next.Do step.now) }
        requires numbers { self.old.volume.next_usn < 2 ^ 64 - 1 }
        requires planned { IsPlanned self.old agenda.now }
        requires last { IsLast step.now agenda.now }
        ensures planned { IsPlanned self.new agenda.now }
        ensures answers { IfOk result (λ answer. DoesStep step.now self.old answer.reply self.new) }
        ensures noted { IfOk result (λ answer. IsNoted answer self.old self.new) }
        ensures err { OnErr result (self.new ≡ self.old) }
    {
        // The machine's own word that it is sound, before and after.
        let _ = self.book();
        step_laws();
        let answer = self.do_step(alloc, step)?;
        let _ = self.book();
        Ok(answer)
    }

    /// What the installer does next, by the agenda if there is one.
    fn next_step(&self, alloc: Global, agenda: &mut Option<Agenda>) -> Result<Next, AllocError>
        requires planned { IsPlanned self.now agenda.old }
        ensures next { IfOk result (λ answer. IsNextOf self.now answer) }
        ensures planned { IsPlanned self.now agenda.new }
        ensures last { (step : Step) → result ≡ Ok (next.Do step) → IsLast step agenda.new }
    {
        next_step(alloc, &self.volume, &self.book, agenda)
    }

    /// The installer takes its next step, unless a local journal record is to be consumed first. An
    /// agenda stays one of the machine.
    pub(crate) fn install(
        &mut self,
        alloc: Global,
        agenda: &mut Option<Agenda>,
    ) -> Result<Answer, AllocError>
        requires numbers { self.old.volume.next_usn < 2 ^ 64 - 1 }
        requires planned { IsPlanned self.old agenda.old }
        ensures planned { IsPlanned self.new agenda.new }
        ensures answers { IfOk result (λ answer. AnswersInstall self.old answer.reply self.new) }
        ensures noted { IfOk result (λ answer. IsNoted answer self.old self.new) }
        ensures err { OnErr result (self.new ≡ self.old) }
    {
        match self.next_step(alloc, agenda)? {
            Next::Do(step) => self.step(alloc, &step, agenda),
            Next::Drained => Ok(Answer {
                reply: Reply::Drained,
                mark: Mark::Drained,
                moved: false,
            }),
            Next::NotYet { usn } => Ok(Answer::refused(&Refusal::NotYet { usn })),
        }
    }
}
