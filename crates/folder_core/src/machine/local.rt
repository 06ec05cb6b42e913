// Local operations.
ghost use Rattle.std.specs.Prelude.{◌≡◌, ◌<◌, ◌-◌, ◌^◌, true, IfOk, IsOk, MatchOption, Ok, OnErr, OnOk};
ghost use Rattle.vol_state.specs.Conditions.{is_allowed};
ghost use Rattle.vol_state.specs.Effects.{effect};
ghost use Rattle.vol_state.specs.Laws.{KeepsNumbering, LeavesNumbersFree};
ghost use Rattle.vol_state.specs.Maps.{StandsOn, maps_of};
ghost use Rattle.vol_state.specs.Paths.{check, resolve};
ghost use Rattle.vol_state.specs.Sums.{IsBrought};
ghost use Rattle.vol_state.specs.Tables.{IsLocal};
ghost use Rattle.vol_state.specs.Ways.{ListsResolve, ResolvedMay};
ghost use Rattle.folder_core.specs.Local.{AnswersLocal};
ghost use Rattle.folder_core.specs.Notes.{local_note_of, local_noted_sum};
ghost use Rattle.folder_core.specs.Given.{IsNoted};
ghost use Rattle.folder_core.specs.Install.{MayOperate};

use super::Machine;
use crate::answer::Answer;
use crate::{Mark, Refusal, Reply};
use frs_base::Sum;
use std::alloc::{AllocError, Global};
use vol_state::{
    LocalOp, VolCmd, lists_resolve_as_maps, lists_stand_for_maps, resolved_commands_may_be_done,
    steps_keep_the_numbering, steps_leave_numbers_free,
};

/// What the volume promises of operations by path.
fn path_laws()
    ensures resolve { ListsResolve }
    ensures may { ResolvedMay }
{
    lists_resolve_as_maps();
    resolved_commands_may_be_done();
}

/// What the volume promises of the steps of commands.
pub(super) fn step_laws()
    ensures on { StandsOn }
    ensures numbering { KeepsNumbering }
    ensures free { LeavesNumbersFree }
{
    lists_stand_for_maps();
    steps_keep_the_numbering();
    steps_leave_numbers_free();
}

impl Machine {
    /// The command of an operation that isn't refused.
    fn command(&self, operation: LocalOp) -> Result<VolCmd, AllocError>
        requires { IsOk (check self.now.volume.objects operation) }
        ensures command { IfOk result (λ cmd. resolve self.now.volume.objects operation ≡ Ok cmd) }
        ensures allowed { IfOk result (λ cmd. is_allowed cmd self.now.volume ≡ true) }
        ensures sum { IfOk result (λ cmd. MatchOption (local_noted_sum (local_note_of operation)) (Unit {0}) (IsBrought cmd)) }
    {
        match operation {
            LocalOp::Put { path, bytes } => self.volume.put(path.as_slice(), bytes.into_vec()),
            LocalOp::Mkdir { path } => self.volume.mkdir(path.as_slice()),
            LocalOp::Move { from, to } => self.volume.move_to(from.as_slice(), to.as_slice()),
            LocalOp::Remove { path } => Ok(self.volume.remove(path.as_slice())),
        }
    }

    /// Does the command of a local operation, or of a step of the installer, with the sum of the
    /// contents that it brings. After an error the machine is as it was.
    pub(super) fn operate(
        &mut self,
        alloc: Global,
        cmd: VolCmd,
        sum: Option<Sum>,
    ) -> Result<(), AllocError>
        requires sum { MatchOption sum (Unit {0}) (IsBrought cmd) }
        requires allowed { is_allowed cmd self.old.volume ≡ true }
        requires may { MayOperate self.old cmd }
        requires numbers { self.old.volume.next_usn < 2 ^ 64 - 1 }
        ensures ok { OnOk result (self.new ≡ record self.old { volume = effect cmd self.old.volume }) }
        ensures err { OnErr result (self.new ≡ self.old) }
    {
        let ready = self.volume.ready_with(alloc, cmd, sum)?;
        self.volume.take(ready);
        let _ = self.volume.objects();
        step_laws();
        Ok(())
    }

    /// A local operation, with the sum of the contents that it brings.
    pub(crate) fn local(
        &mut self,
        alloc: Global,
        operation: LocalOp,
        sum: Option<Sum>,
    ) -> Result<Answer, AllocError>
        requires numbers { self.old.volume.next_usn < 2 ^ 64 - 1 }
        requires sum { sum ≡ local_noted_sum (local_note_of operation) }
        ensures answers { IfOk result (λ answer. AnswersLocal operation self.old answer.reply self.new) }
        ensures noted { IfOk result (λ answer. IsNoted answer self.old self.new) }
        ensures err { OnErr result (self.new ≡ self.old) }
    {
        if let Err(why) = self.volume.check(&operation) {
            return Ok(Answer::refused(&Refusal::Local(why)));
        }
        let usn = self.volume.next_usn();
        let cmd = self.command(operation)?;
        path_laws();
        self.operate(alloc, cmd, sum)?;
        Ok(Answer {
            reply: Reply::Usn(usn),
            mark: Mark::Usn(usn),
            moved: false,
        })
    }
}
