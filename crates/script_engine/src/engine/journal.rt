// Lines that consume a member's journal.
ghost use Rattle.std.specs.Prelude.{◌≡◌, ◌<◌, ◌≤◌, ◌+◌, ◌^◌, [], true, IfOk, OnErr, OnOk, string_bytes};
ghost use Rattle.script_engine.specs.Scene.{Scene};
ghost use Rattle.vol_state.specs.declared.operation.LocalOp.TheVariants.{Put};

use super::Engine;
use super::operations::empty_put_of;
use crate::lines::{last_text, local_text, refusal_text, unknown_text};
use frs_base::{List, Name};
use std::alloc::{AllocError, Global};

impl Engine {
    ghost use Rattle.script_lang.specs.Grammar.{is_member_name};
    ghost use Rattle.script_engine.specs.Engines.{AtNamed, HasRoom, HasScene, Stands, local_by_all};
    ghost use Rattle.script_engine.specs.Text.{Changes, Consumes};
    ghost use Rattle.script_engine.specs.Begun.{BeginsAt, BeginsChange};
    ghost use Rattle.script_engine.specs.Consuming.{ConsumesOne};
    ghost use Rattle.script_engine.specs.declared.consumed.Consumed.{Consumed};

    /// One journal record consumed at the member with this name.
    pub(super) fn consume_line(
        &mut self,
        alloc: Global,
        name: &[u8],
        moment: u64,
    ) -> Result<String, AllocError>
        requires name { is_member_name name.now ≡ true }
        requires scene { HasScene self.old }
        requires early { moment < 2 ^ 61 }
        requires room { HasRoom self.old }
        ensures ok { (s : Scene) → Stands self.old s → IfOk result (λ text. (new : Scene) × AtNamed s name.now (λ d said after. Consumes s name.now d moment said after) (string_bytes text) new × Stands self.new new) }
        ensures err { (s : Scene) → Stands self.old s → OnErr result ((new : Scene) × BeginsAt s name.now (λ d w. (c : Consumed) × ConsumesOne s.world d moment c w) new × Stands self.new new) }
        ensures made { OnOk result (local_by_all self.new ≤ local_by_all self.old + 1) }
    {
        let Some(at) = self.place_of(name) else {
            return unknown_text(alloc, name);
        };
        match self.consume(alloc, at, moment)? {
            Ok(consumed) => last_text(alloc, name, consumed),
            Err(refusal) => refusal_text(alloc, &refusal),
        }
    }

    /// A put of no contents, and all that is left of the journal consumed.
    pub(super) fn change(
        &mut self,
        alloc: Global,
        name: &[u8],
        path: &List<Name>,
        moment: u64,
    ) -> Result<String, AllocError>
        requires name { is_member_name name.now ≡ true }
        requires scene { HasScene self.old }
        requires early { moment < 2 ^ 61 }
        requires room { HasRoom self.old }
        ensures ok { (s : Scene) → Stands self.old s → IfOk result (λ text. (new : Scene) × AtNamed s name.now (λ d said after. Changes s name.now d (Put path.now []) moment said after) (string_bytes text) new × Stands self.new new) }
        ensures err { (s : Scene) → Stands self.old s → OnErr result ((new : Scene) × BeginsAt s name.now (λ d w. BeginsChange s.world d (Put path.now []) moment w) new × Stands self.new new) }
        ensures made { OnOk result (local_by_all self.new ≤ local_by_all self.old + 1) }
    {
        let Some(at) = self.place_of(name) else {
            return unknown_text(alloc, name);
        };
        let operation = empty_put_of(alloc, path)?;
        if let Err(why) = self.operate(alloc, at, operation)? {
            return local_text(alloc, why);
        }
        match self.consume_all(alloc, at, moment)? {
            Ok(last) => last_text(alloc, name, last),
            Err(refusal) => refusal_text(alloc, &refusal),
        }
    }
}
