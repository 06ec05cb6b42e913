// Lines that bring a member's volume nearer to its records.
ghost use Rattle.std.specs.Prelude.{◌≡◌, ◌<◌, ◌≤◌, ◌^◌, Some, true, IfOk, OnErr, OnOk, length, string_bytes};
ghost use Rattle.frs_base.specs.Identifiers.{database_of};
ghost use Rattle.script_engine.specs.Scene.{Scene, in_world};

use super::Engine;
use crate::Refusal;
use crate::lines::{drained_text, refusal_text, step_text, unknown_text};
use crate::replies::installed_of;
use folder_core::Event;
use name_rules::Step;
use std::alloc::{AllocError, Global};

impl Engine {
    ghost use Rattle.std.specs.Prelude.{◌+◌, List, Ok};
    ghost use Rattle.name_rules.specs.declared.step.Step.{Step};
    ghost use Rattle.world_model.specs.World.{World};
    ghost use Rattle.script_lang.specs.Grammar.{is_member_name};
    ghost use Rattle.folder_core.specs.declared.event.Event.TheVariants as Event;
    ghost use Rattle.script_engine.specs.Begun.{BeginsAt};
    ghost use Rattle.script_engine.specs.Histories.{Came};
    ghost use Rattle.script_engine.specs.Replies.{installed_of};
    ghost use Rattle.script_engine.specs.Engines.{AtNamed, DrainedBy, HasRoom, HasScene, Stands, local_by_all};
    ghost use Rattle.script_engine.specs.Installing.{Installs, InstallsSome};
    ghost use Rattle.script_engine.specs.Text.{DrainsAll, InstallsNext};

    /// The next step of the installer at the member with this place, or none where its volume has
    /// what its records say.
    fn install(
        &mut self,
        alloc: Global,
        at: usize,
    ) -> Result<Result<Option<Step>, Refusal>, AllocError>
        requires within { at < length self.old.folders.items }
        requires scene { HasScene self.old }
        ensures ok { (s : Scene) → Stands self.old s → IfOk result (λ outcome. (w : World) × Installs s (database_of (at + 1)) outcome w × Stands self.new (in_world s w)) }
        ensures err { (s : Scene) → Stands self.old s → OnErr result (Stands self.new s) }
        ensures came { IfOk result (λ outcome. Came at Event.Install installed_of outcome self.old self.new) }
        ensures made { OnOk result (local_by_all self.new ≡ local_by_all self.old) }
        ensures names { self.new.names ≡ self.old.names }
        ensures many { length self.new.folders.items ≡ length self.old.folders.items }
    {
        let reply = self.event(alloc, at, Event::Install)?;
        let Some(outcome) = installed_of(&reply) else {
            unreachable!()
        };
        Ok(outcome)
    }

    /// Steps of the installer until none is left: how many, or why one is refused. The number has 128
    /// bits, since there is a step for each file and one more for each journal record.
    fn drain(&mut self, alloc: Global, at: usize) -> Result<Result<u128, Refusal>, AllocError>
        requires within { at < length self.old.folders.items }
        requires scene { HasScene self.old }
        requires room { local_by_all self.old < 2 ^ 60 }
        ensures ok { (s : Scene) → Stands self.old s → IfOk result (λ outcome. (w : World) × DrainedBy s (database_of (at + 1)) outcome w × Stands self.new (in_world s w)) }
        ensures err { (s : Scene) → Stands self.old s → OnErr result ((w : World) × (steps : List Step) × InstallsSome s (database_of (at + 1)) steps w × Stands self.new (in_world s w)) }
        ensures made { OnOk result (local_by_all self.new ≡ local_by_all self.old) }
        ensures names { self.new.names ≡ self.old.names }
    {
        let mut steps = 0;
        loop {
            match self.install(alloc, at)? {
                Ok(Some(_)) => steps += 1,
                Ok(None) => return Ok(Ok(steps)),
                Err(refusal) => return Ok(Err(refusal)),
            }
        }
    }

    /// One step of the installer at the member with this name.
    pub(super) fn install_line(&mut self, alloc: Global, name: &[u8]) -> Result<String, AllocError>
        requires name { is_member_name name.now ≡ true }
        requires scene { HasScene self.old }
        ensures ok { (s : Scene) → Stands self.old s → IfOk result (λ text. (new : Scene) × AtNamed s name.now (λ d said after. InstallsNext s name.now d said after) (string_bytes text) new × Stands self.new new) }
        ensures err { (s : Scene) → Stands self.old s → OnErr result ((new : Scene) × BeginsAt s name.now (λ d w. (step : Step) × Installs s d (Ok (Some step)) w) new × Stands self.new new) }
        ensures made { OnOk result (local_by_all self.new ≤ local_by_all self.old + 1) }
    {
        let Some(at) = self.place_of(name) else {
            return unknown_text(alloc, name);
        };
        match self.install(alloc, at)? {
            Ok(step) => step_text(alloc, self.names.as_slice(), name, step),
            Err(refusal) => refusal_text(alloc, &refusal),
        }
    }

    /// Steps of the installer at the member with this name until none is left.
    pub(super) fn drain_line(&mut self, alloc: Global, name: &[u8]) -> Result<String, AllocError>
        requires name { is_member_name name.now ≡ true }
        requires scene { HasScene self.old }
        requires room { HasRoom self.old }
        ensures ok { (s : Scene) → Stands self.old s → IfOk result (λ text. (new : Scene) × AtNamed s name.now (λ d said after. DrainsAll s d said after) (string_bytes text) new × Stands self.new new) }
        ensures err { (s : Scene) → Stands self.old s → OnErr result ((new : Scene) × BeginsAt s name.now (λ d w. (steps : List Step) × InstallsSome s d steps w) new × Stands self.new new) }
        ensures made { OnOk result (local_by_all self.new ≤ local_by_all self.old + 1) }
    {
        let Some(at) = self.place_of(name) else {
            return unknown_text(alloc, name);
        };
        match self.drain(alloc, at)? {
            Ok(steps) => drained_text(alloc, steps),
            Err(refusal) => refusal_text(alloc, &refusal),
        }
    }
}
