// The members of a script.
ghost use Rattle.std.specs.Prelude.{◌≡◌, ◌<◌, ◌≤◌, ◌^◌, IfOk, OnErr, OnOk, Some, bytes_eq, length, position, slice_get, string_bytes, true};
ghost use Rattle.frs_base.specs.Identifiers.{database_of};
ghost use Rattle.folder_core.specs.Replay.{IsEarlyEvent};
ghost use Rattle.folder_core.specs.Replay as replay;
ghost use Rattle.folder_core.specs.Sound.{IsSound};
ghost use Rattle.script_engine.specs.Scene.{Scene, fresh_scene, in_world, with_name};

mod installing;
mod journal;
mod operations;
mod printing;
mod pulling;

use self::operations::{copy_bytes, mkdir_of, move_of, put_of, remove_of};
use crate::lines::{exists_text, ok_text};
use crate::replies::{consumed_of, usn_of};
use crate::{Consumed, MemberName, Refusal};
use folder_core::{Event, Folder, Reply};
use frs_base::{Bytes, Guid, MemberKind, ReservedVec, content_set, database_of};
use script_lang::Line;
use std::alloc::{AllocError, Global};
use vol_state::{LocalOp, Refused};

/// Who the events of lines come from.
const SCRIPT: u64 = 0;

/// The members of a script: the k-th `member` line has the k-th database, counted from 1. A refused one
/// has it too, for a member that no line can name.
#[derive(Drop)]
pub struct Engine {
    names: ReservedVec<MemberName>,
    folders: ReservedVec<Folder>,
}

impl Engine {
    ghost use Rattle.std.specs.Prelude.{◌+◌, List, ℕ};
    ghost use Rattle.script_lang.specs.Grammar.{IsLine, is_member_name};
    ghost use Rattle.script_lang.specs.declared.line.Line.TheVariants as Line;
    ghost use Rattle.world_model.specs.World.{World};
    ghost use Rattle.script_engine.specs.Named.{is_name_or_empty};
    ghost use Rattle.script_engine.specs.Text.{Does};
    ghost use Rattle.script_engine.specs.Begun.{Begins, ConsumesSome};
    ghost use Rattle.script_engine.specs.declared.consumed.Consumed.{Consumed};
    ghost use Rattle.folder_core.specs.declared.event.Event.TheVariants as Event;
    ghost use Rattle.script_engine.specs.Histories.{Came, Entered};
    ghost use Rattle.script_engine.specs.Replies.{consumed_of, usn_of};
    ghost use Rattle.script_engine.specs.Engines.{Answered, ConsumedAll, ConsumedNext, HasRoom, HasScene, IsWithin, Operated, Stands, count_of, local_by_all, machines_of, unconsumed_by_all};

    /// An engine without members, which takes no memory.
    pub fn new() -> Engine
        ensures stands { Stands result fresh_scene }
        ensures within { IsWithin 0 result }
    {
        Engine {
            names: ReservedVec::empty(),
            folders: ReservedVec::empty(),
        }
    }

    /// The place of the first member with this name.
    fn place_of(&self, name: &[u8]) -> Option<usize>
        ensures { result ≡ position (λ m. bytes_eq m.name name.now) self.now.names.items }
    {
        self.names
            .as_slice()
            .iter()
            .position(|m| m.name.as_slice() == name)
    }

    /// The folder of the member with this place.
    fn folder(&self, at: usize) -> &Folder
        requires { at < length self.now.folders.items }
        ensures { slice_get self.now.folders.items at ≡ Some result.now }
    {
        match self.folders.as_slice().get(at) {
            Some(folder) => folder,
            None => unreachable!(),
        }
    }

    /// The name of the member with this place, and its database.
    fn name(&self, at: usize) -> &MemberName
        requires { at < length self.now.names.items }
        ensures { slice_get self.now.names.items at ≡ Some result.now }
    {
        match self.names.as_slice().get(at) {
            Some(name) => name,
            None => unreachable!(),
        }
    }

    /// The database of the member with this place.
    fn database(&self, at: usize) -> Guid
        requires within { at < length self.now.folders.items }
        requires scene { HasScene self.now }
        ensures { result ≡ database_of (at + 1) }
    {
        self.name(at).db
    }

    /// An event at the member with this place.
    fn event(&mut self, alloc: Global, at: usize, event: Event) -> Result<Reply, AllocError>
        requires within { at < length self.old.folders.items }
        requires early { IsEarlyEvent event }
        ensures names { self.new.names ≡ self.old.names }
        ensures many { length self.new.folders.items ≡ length self.old.folders.items }
        ensures ok { IfOk result (λ reply. Answered at event reply self.old self.new) }
        ensures entered { IfOk result (λ reply. Entered at event reply self.old self.new) }
        ensures err { OnErr result (machines_of self.new ≡ machines_of self.old) }
    {
        self.folders.change(
            at,
            |folder|
                requires { IsEarlyEvent event }
                ensures does { IfOk result (λ reply. replay.Does 0 event reply folder.old folder.new) }
                ensures sound { IsSound folder.new.machine }
                ensures usns { folder.new.machine.volume.next_usn < 2 ^ 64 }
                ensures err { OnErr result (folder.new ≡ folder.old) }
            {
                let reply = folder.event(alloc, SCRIPT, event);
                let _ = folder.volume().next_usn();
                reply
            },
        )
    }

    /// A local operation: its USN, or its first refusal.
    fn operate(
        &mut self,
        alloc: Global,
        at: usize,
        operation: LocalOp,
    ) -> Result<Result<u64, Refused>, AllocError>
        requires within { at < length self.old.folders.items }
        requires scene { HasScene self.old }
        ensures ok { (s : Scene) → Stands self.old s → IfOk result (λ outcome. (w : World) × Operated s.world (database_of (at + 1)) operation outcome w × Stands self.new (in_world s w)) }
        ensures err { (s : Scene) → Stands self.old s → OnErr result (Stands self.new s) }
        ensures came { IfOk result (λ outcome. Came at (Event.Local operation) usn_of outcome self.old self.new) }
        ensures made { OnOk result (local_by_all self.new ≤ local_by_all self.old + 1) }
        ensures names { self.new.names ≡ self.old.names }
        ensures many { length self.new.folders.items ≡ length self.old.folders.items }
    {
        let reply = self.event(alloc, at, Event::Local(operation))?;
        let Some(outcome) = usn_of(reply) else {
            unreachable!()
        };
        Ok(outcome)
    }

    /// Consumes the next journal record, if there is one.
    fn consume(
        &mut self,
        alloc: Global,
        at: usize,
        moment: u64,
    ) -> Result<Result<Option<Consumed>, Refusal>, AllocError>
        requires within { at < length self.old.folders.items }
        requires scene { HasScene self.old }
        requires early { moment < 2 ^ 61 }
        requires room { local_by_all self.old < 2 ^ 60 }
        ensures ok { (s : Scene) → Stands self.old s → IfOk result (λ outcome. (w : World) × ConsumedNext s.world (database_of (at + 1)) moment outcome w × Stands self.new (in_world s w)) }
        ensures err { (s : Scene) → Stands self.old s → OnErr result (Stands self.new s) }
        ensures came { IfOk result (λ outcome. Came at (Event.Consume moment) consumed_of outcome self.old self.new) }
        ensures made { OnOk result (local_by_all self.new ≡ local_by_all self.old) }
        ensures fewer { IfOk result (λ outcome. unconsumed_by_all self.new + count_of outcome ≡ unconsumed_by_all self.old) }
        ensures names { self.new.names ≡ self.old.names }
        ensures many { length self.new.folders.items ≡ length self.old.folders.items }
    {
        let reply = self.event(alloc, at, Event::Consume { moment })?;
        let Some(outcome) = consumed_of(&reply) else {
            unreachable!()
        };
        Ok(outcome)
    }

    /// Consumes what is left of the journal. The last of it, or why one is refused.
    fn consume_all(
        &mut self,
        alloc: Global,
        at: usize,
        moment: u64,
    ) -> Result<Result<Option<Consumed>, Refusal>, AllocError>
        requires within { at < length self.old.folders.items }
        requires scene { HasScene self.old }
        requires early { moment < 2 ^ 61 }
        requires room { local_by_all self.old < 2 ^ 60 }
        ensures ok { (s : Scene) → Stands self.old s → IfOk result (λ outcome. (w : World) × ConsumedAll s.world (database_of (at + 1)) moment outcome w × Stands self.new (in_world s w)) }
        ensures err { (s : Scene) → Stands self.old s → OnErr result ((w : World) × (done : List Consumed) × ConsumesSome s.world (database_of (at + 1)) moment done w × Stands self.new (in_world s w)) }
        ensures made { OnOk result (local_by_all self.new ≡ local_by_all self.old) }
        ensures names { self.new.names ≡ self.old.names }
    {
        let mut last = None;
        loop {
            match self.consume(alloc, at, moment)? {
                Ok(Some(consumed)) => last = Some(consumed),
                Ok(None) => return Ok(Ok(last)),
                Err(refusal) => return Ok(Err(refusal)),
            }
        }
    }

    /// A new member of this name and kind. A refused line takes its number too.
    fn add(&mut self, alloc: Global, name: &Bytes, kind: MemberKind) -> Result<String, AllocError>
        requires name { is_member_name name.now ≡ true }
        requires scene { HasScene self.old }
        ensures ok { (s : Scene) → Stands self.old s → IfOk result (λ text. (new : Scene) × Does s (Line.Member name.now kind) (string_bytes text) new × Stands self.new new) }
        ensures err { (s : Scene) → Stands self.old s → OnErr result (Stands self.new s) }
        ensures made { OnOk result (local_by_all self.new ≤ local_by_all self.old + 1) }
    {
        if self.place_of(name.as_slice()).is_some() {
            let text = exists_text(alloc, name.as_slice())?;
            self.take_number(alloc, Bytes::of(Vec::new(alloc)), MemberKind::Plain)?;
            return Ok(text);
        }
        let text = ok_text(alloc)?;
        self.take_number(alloc, copy_bytes(alloc, name)?, kind)?;
        Ok(text)
    }

    /// Takes the next number for a member of this name and kind. No line can name it where the name is
    /// empty.
    fn take_number(
        &mut self,
        alloc: Global,
        name: Bytes,
        kind: MemberKind,
    ) -> Result<(), AllocError>
        requires name { is_name_or_empty name ≡ true }
        requires scene { HasScene self.old }
        ensures ok { (s : Scene) → Stands self.old s → IfOk result (λ done. Stands self.new (with_name s name kind)) }
        ensures err { (s : Scene) → Stands self.old s → OnErr result (Stands self.new s) }
        ensures made { OnOk result (local_by_all self.new ≤ local_by_all self.old + 1) }
    {
        self.names.reserve_one(alloc)?;
        self.folders.reserve_one(alloc)?;
        let db = database_of(self.names.as_slice().len() as u64 + 1);
        let folder = Folder::new(kind, db, content_set());
        let _ = folder.book();
        self.names.push(MemberName { db, name });
        self.folders.push(folder);
        Ok(())
    }

    /// Does a line, and gives what it prints.
    ///
    /// After want of memory it stands for the world after the first of the line's events, if only
    /// none; no further line is to be run then.
    pub fn run(&mut self, alloc: Global, line: &Line) -> Result<String, AllocError>
        requires line { IsLine line.now }
        requires scene { HasScene self.old }
        requires room { HasRoom self.old }
        ensures ok { (s : Scene) → Stands self.old s → IfOk result (λ text. (new : Scene) × Does s line.now (string_bytes text) new × Stands self.new new) }
        ensures err { (s : Scene) → Stands self.old s → OnErr result ((new : Scene) × Begins s line.now new × Stands self.new new) }
        ensures within { (n : ℕ) → IsWithin n self.old → OnOk result (IsWithin (n + 1) self.new) }
    {
        match line {
            Line::Member { name, kind } => self.add(alloc, name, *kind),
            Line::Put { name, path, text } => {
                let operation = put_of(alloc, path, text)?;
                self.local(alloc, name.as_slice(), operation)
            }
            Line::Fill { name, path, length } => self.fill(alloc, name.as_slice(), path, *length),
            Line::Mkdir { name, path } => {
                let operation = mkdir_of(alloc, path)?;
                self.local(alloc, name.as_slice(), operation)
            }
            Line::Move { name, from, to } => {
                let operation = move_of(alloc, from, to)?;
                self.local(alloc, name.as_slice(), operation)
            }
            Line::Remove { name, path } => {
                let operation = remove_of(alloc, path)?;
                self.local(alloc, name.as_slice(), operation)
            }
            Line::Consume { name, moment } => self.consume_line(alloc, name.as_slice(), *moment),
            Line::Change { name, path, moment } => {
                self.change(alloc, name.as_slice(), path, *moment)
            }
            Line::Pull { name, other } => self.pull_line(alloc, name.as_slice(), other.as_slice()),
            Line::Install { name } => self.install_line(alloc, name.as_slice()),
            Line::Drain { name } => self.drain_line(alloc, name.as_slice()),
            Line::Show { name } => self.show(alloc, name.as_slice()),
            Line::Tree { name } => self.tree(alloc, name.as_slice()),
            Line::Sums { name } => self.sums(alloc, name.as_slice()),
            Line::Count { name } => self.count(alloc, name.as_slice()),
        }
    }
}

#[cfg(test)]
mod tests;
