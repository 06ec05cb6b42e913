// Lines that bring a member what another one has.
ghost use Rattle.std.specs.Prelude.{◌≡◌, ◌≢◌, ◌<◌, ◌≤◌, ◌^◌, ◌⊎◌, true, IfOk, MatchOption, OnErr, OnOk, length, string_bytes};
ghost use Rattle.frs_base.specs.Identifiers.{database_of};
ghost use Rattle.record_db.specs.Records.{Covered, Versions};
ghost use Rattle.world_model.specs.Events.{sends_vector};
ghost use Rattle.world_model.specs.Rounds.{IsWanted};
ghost use Rattle.pinned_pages.specs.Pages.{IsPage};
ghost use Rattle.script_engine.specs.Pulls.{unknown};
ghost use Rattle.script_engine.specs.Scene.{Scene, in_world};

use super::Engine;
use crate::Refusal;
use crate::lines::{pulled_text, refusal_text, unknown_text};
use crate::replies::{file_of, pinned_of, taken_of};
use folder_core::{Event, files_have_forms};
use frs_base::{Guid, List};
use marshal_form::Form;
use name_rules::is_file;
use pinned_pages::{Body, FileAnswer, Pinned};
use std::alloc::{AllocError, Global};
use version_vector::{GrowingVector, Vector};
use win_order::Update;

/// What came of pages: the files that are still to be fetched, and how many updates were taken.
#[derive(Drop)]
pub(crate) struct Paged {
    listed: Vec<Update>,
    taken: u64,
}

/// A file's record, as of an entry of its member's history, and the form of its contents.
#[derive(Drop)]
pub(crate) struct Fetched {
    at: u64,
    update: Update,
    form: Option<Form>,
}

/// The bytes of a body, of which a number of 64 bits tells how many they are.
fn form_of(body: Option<Body>) -> Option<Form>
    ensures form { result ≡ body }
    ensures length { MatchOption body (Unit {0}) (λ form. length form < 2 ^ 64) }
{
    let body = body?;
    let _ = body.length();
    Some(body.into_form())
}

/// The updates of a pinned state that a vector doesn't cover, in order of their versions.
fn page_of(
    alloc: Global,
    vector: &GrowingVector,
    pinned: &Pinned,
) -> Result<Vec<Update>, AllocError>
    ensures { IfOk result (λ page. IsPage (unknown pinned.now.vector vector.now.items) pinned.now.records page.items) }
{
    let own = vector.copy(alloc)?;
    let asked = pinned.vector.minus(alloc, &own)?;
    let page = pinned.page(alloc, &asked)?;
    Ok(page)
}

impl Engine {
    ghost use Rattle.std.specs.Prelude.{◌+◌, List, Option, ℕ};
    ghost use Rattle.win_order.specs.declared.update.Update.{Update};
    ghost use Rattle.world_model.specs.World.{World};
    ghost use Rattle.script_lang.specs.Grammar.{is_member_name};
    ghost use Rattle.script_lang.specs.declared.line.Line.TheVariants.{Pull};
    ghost use Rattle.folder_core.specs.declared.event.Event.TheVariants as Event;
    ghost use Rattle.script_engine.specs.Histories.{Adopted, Came, Fetches, Pulled, answer_of};
    ghost use Rattle.script_engine.specs.Replies.{file_of, pinned_of, taken_of};
    ghost use Rattle.script_engine.specs.Engines.{HasRoom, HasScene, Stands, local_by_all};
    ghost use Rattle.script_engine.specs.Text.{Does};
    ghost use Rattle.script_engine.specs.Begun.{Begins, BeginsFiles, BeginsPages, BeginsPull};
    ghost use Rattle.script_engine.specs.Pulls.{AreCovered, ArePages, CanTake, Ended, FetchedFrom, FilesTaken, HasForm, IsFormOfGiven, IsPinned, MayEnd, MayFetch, MayFinish, MayPage, MayTake, PagesTaken, PullEnds, Says, Took, after_taking};

    /// The vector and the records of the member with this place.
    fn ask(&mut self, alloc: Global, at: usize) -> Result<Pinned, AllocError>
        requires within { at < length self.old.folders.items }
        requires scene { HasScene self.old }
        ensures ok { (s : Scene) → Stands self.old s → IfOk result (λ pinned. IsPinned s.world (database_of (at + 1)) pinned × Stands self.new (in_world s (sends_vector s.world (database_of (at + 1))))) }
        ensures err { (s : Scene) → Stands self.old s → OnErr result (Stands self.new s) }
        ensures came { IfOk result (λ pinned. Came at Event.Vector pinned_of pinned self.old self.new) }
        ensures made { OnOk result (local_by_all self.new ≡ local_by_all self.old) }
        ensures many { length self.new.folders.items ≡ length self.old.folders.items }
    {
        let reply = self.event(alloc, at, Event::Vector)?;
        let Some(pinned) = pinned_of(reply) else {
            unreachable!()
        };
        Ok(pinned)
    }

    /// Whether an update beats the record of its file at the member with this place, or there is
    /// none.
    fn wants(&self, at: usize, update: &Update) -> bool
        requires { at < length self.now.folders.items }
        ensures { (s : Scene) → Stands self.now s → Says result (IsWanted s.world (database_of (at + 1)) update.now) }
    {
        match self.folder(at).book().held(update.uid) {
            None => true,
            Some(held) => update.beats(held),
        }
    }

    /// An update that the member of a database sent in this entry of its history is adopted, a
    /// present file with the form of its contents.
    fn adopt(
        &mut self,
        alloc: Global,
        at: usize,
        from: Guid,
        entry: u64,
        update: Update,
        form: Option<Form>,
    ) -> Result<Result<(), Refusal>, AllocError>
        requires within { at < length self.old.folders.items }
        requires form { HasForm update form }
        requires may { MayTake self.old (database_of (at + 1)) from update }
        requires room { local_by_all self.old < 2 ^ 60 }
        ensures ok { (s : Scene) (given : Option (List ℕ)) → Stands self.old s → CanTake s.world (database_of (at + 1)) from update → IsFormOfGiven given form
            → IfOk result (λ outcome. (w : World) × Took s.world (database_of (at + 1)) from update outcome w × Stands self.new (after_taking s (database_of (at + 1)) update given outcome w)) }
        ensures err { (s : Scene) → Stands self.old s → OnErr result (Stands self.new s) }
        ensures came { IfOk result (λ outcome. Came at (Event.Adopt from entry update form) taken_of outcome self.old self.new) }
        ensures made { OnOk result (local_by_all self.new ≡ local_by_all self.old) }
        ensures many { length self.new.folders.items ≡ length self.old.folders.items }
    {
        let event = Event::Adopt {
            from,
            at: entry,
            update,
            form,
        };
        let reply = self.event(alloc, at, event)?;
        let Some(outcome) = taken_of(reply) else {
            unreachable!()
        };
        Ok(outcome)
    }

    /// The record of a file at the member with this place with its form, or the USN of what it has
    /// to consume first.
    fn fetch(
        &mut self,
        alloc: Global,
        at: usize,
        update: &Update,
    ) -> Result<Result<Fetched, u64>, AllocError>
        requires within { at < length self.old.folders.items }
        requires may { (s : Scene) × Stands self.old s × Covered s.world.all (s.world.at (database_of (at + 1))).known update.now }
        ensures ok { (s : Scene) → Stands self.old s → Covered s.world.all (s.world.at (database_of (at + 1))).known update.now
            → IfOk result (λ outcome. FetchedFrom s (database_of (at + 1)) update.now.uid outcome × Stands self.new s) }
        ensures err { (s : Scene) → Stands self.old s → OnErr result (Stands self.new s) }
        ensures came { IfOk result (λ outcome. Came at (Event.File update.now.uid) file_of (answer_of outcome) self.old self.new) }
        ensures made { OnOk result (local_by_all self.new ≡ local_by_all self.old) }
        ensures many { length self.new.folders.items ≡ length self.old.folders.items }
    {
        files_have_forms();
        let reply = self.event(alloc, at, Event::File { uid: update.uid })?;
        match file_of(reply) {
            Some(FileAnswer::Found { at, update, body }) => {
                let form = form_of(body);
                Ok(Ok(Fetched { at, update, form }))
            }
            Some(FileAnswer::NotYet { usn }) => Ok(Err(usn)),
            Some(FileAnswer::NoRecord) => unreachable!(),
            None => unreachable!(),
        }
    }

    /// A round over a vector that the member of a database sent in this entry of its history is
    /// finished.
    fn finish(
        &mut self,
        alloc: Global,
        at: usize,
        from: Guid,
        entry: u64,
        sent: Vector,
        seen: List<Update>,
    ) -> Result<Result<(), Refusal>, AllocError>
        requires within { at < length self.old.folders.items }
        requires may { MayEnd self.old (database_of (at + 1)) sent seen }
        ensures ok { (s : Scene) (versions : Versions) → Stands self.old s → MayFinish s.world (database_of (at + 1)) versions sent seen
            → IfOk result (λ outcome. (w : World) × Ended s.world (database_of (at + 1)) versions outcome w × Stands self.new (in_world s w)) }
        ensures err { (s : Scene) → Stands self.old s → OnErr result (Stands self.new s) }
        ensures came { IfOk result (λ outcome. Came at (Event.Finish from entry sent seen) taken_of outcome self.old self.new) }
        ensures made { OnOk result (local_by_all self.new ≡ local_by_all self.old) }
    {
        let event = Event::Finish {
            from,
            at: entry,
            sent,
            seen,
        };
        let reply = self.event(alloc, at, event)?;
        let Some(outcome) = taken_of(reply) else {
            unreachable!()
        };
        Ok(outcome)
    }

    /// The updates of pages: what doesn't beat the puller's record is passed, present files are
    /// listed, directories and tombstones are taken.
    fn take_pages(
        &mut self,
        alloc: Global,
        at: usize,
        from: Guid,
        entry: u64,
        page: &[Update],
    ) -> Result<Result<Paged, Refusal>, AllocError>
        requires within { at < length self.old.folders.items }
        requires may { MayPage self.old from page.now }
        requires room { local_by_all self.old < 2 ^ 60 }
        ensures ok { (s : Scene) → Stands self.old s → ArePages s.world from page.now
            → IfOk result (λ outcome. (w : World) × PagesTaken s.world (database_of (at + 1)) from page.now outcome w × Stands self.new (in_world s w)) }
        ensures err { (s : Scene) → Stands self.old s → ArePages s.world from page.now
            → OnErr result ((w : World) × BeginsPages s.world (database_of (at + 1)) from page.now w × Stands self.new (in_world s w)) }
        ensures few { IfOk result (λ outcome. IfOk outcome (λ paged. paged.taken ≤ length page.now)) }
        ensures adopted { IfOk result (λ outcome. IfOk outcome (λ paged. Adopted at from entry paged.taken self.old self.new)) }
        ensures made { OnOk result (local_by_all self.new ≡ local_by_all self.old) }
        ensures many { length self.new.folders.items ≡ length self.old.folders.items }
    {
        let mut listed = Vec::new(alloc);
        let mut taken = 0;
        for update in page {
            if self.wants(at, update) {
                if is_file(update) {
                    listed.push(update.copy()?)?;
                } else {
                    let update = update.copy()?;
                    if let Err(refusal) = self.adopt(alloc, at, from, entry, update, None)? {
                        return Ok(Err(refusal));
                    }
                    taken += 1;
                }
            }
        }
        Ok(Ok(Paged { listed, taken }))
    }

    /// The listed files: what doesn't beat the puller's record any more is passed, the others are
    /// fetched and taken. How many were.
    fn take_files(
        &mut self,
        alloc: Global,
        at: usize,
        from: usize,
        files: &[Update],
    ) -> Result<Result<u64, Refusal>, AllocError>
        requires within { at < length self.old.folders.items }
        requires there { from < length self.old.folders.items }
        requires may { MayFetch self.old (database_of (from + 1)) files.now }
        requires room { local_by_all self.old < 2 ^ 60 }
        ensures ok { (s : Scene) → Stands self.old s → AreCovered s.world (database_of (from + 1)) files.now
            → IfOk result (λ outcome. (new : Scene) × FilesTaken s (database_of (at + 1)) (database_of (from + 1)) files.now outcome new × Stands self.new new) }
        ensures err { (s : Scene) → Stands self.old s → AreCovered s.world (database_of (from + 1)) files.now
            → OnErr result ((new : Scene) × BeginsFiles s (database_of (at + 1)) (database_of (from + 1)) files.now new × Stands self.new new) }
        ensures few { IfOk result (λ outcome. IfOk outcome (λ taken. taken ≤ length files.now)) }
        ensures fetched { IfOk result (λ outcome. IfOk outcome (λ taken. Fetches at from (database_of (from + 1)) taken self.old self.new)) }
        ensures made { OnOk result (local_by_all self.new ≡ local_by_all self.old) }
        ensures many { length self.new.folders.items ≡ length self.old.folders.items }
    {
        let server = self.database(from);
        let mut taken = 0;
        for file in files {
            if self.wants(at, file) {
                let fetched = match self.fetch(alloc, from, file)? {
                    Ok(fetched) => fetched,
                    Err(usn) => return Ok(Err(Refusal::NotYet { usn })),
                };
                let Fetched {
                    at: entry,
                    update,
                    form,
                } = fetched;
                if let Err(refusal) = self.adopt(alloc, at, server, entry, update, form)? {
                    return Ok(Err(refusal));
                }
                taken += 1;
            }
        }
        Ok(Ok(taken))
    }

    /// A round: the server's vector is asked for, its updates that the puller doesn't cover come in
    /// order of their versions, then the files, and the round is finished. How many were taken.
    fn pull(
        &mut self,
        alloc: Global,
        at: usize,
        from: usize,
    ) -> Result<Result<u64, Refusal>, AllocError>
        requires within { at < length self.old.folders.items }
        requires there { from < length self.old.folders.items }
        requires scene { HasScene self.old }
        requires room { local_by_all self.old < 2 ^ 60 }
        ensures ok { (s : Scene) → Stands self.old s
            → IfOk result (λ outcome. (new : Scene) × PullEnds s (database_of (at + 1)) (database_of (from + 1)) outcome new × Stands self.new new) }
        ensures err { (s : Scene) → Stands self.old s
            → OnErr result ((new : Scene) × ((new ≡ s) ⊎ BeginsPull s (database_of (at + 1)) (database_of (from + 1)) new) × Stands self.new new) }
        ensures pulled { IfOk result (λ outcome. IfOk outcome (λ taken. Pulled at from (database_of (from + 1)) taken self.old self.new)) }
        ensures made { OnOk result (local_by_all self.new ≡ local_by_all self.old) }
    {
        let server = self.database(from);
        let pinned = self.ask(alloc, from)?;
        let entry = pinned.at;
        let page = page_of(alloc, self.folder(at).book().vector(), &pinned)?;
        let paged = match self.take_pages(alloc, at, server, entry, &page)? {
            Ok(paged) => paged,
            Err(refusal) => return Ok(Err(refusal)),
        };
        let fetched = match self.take_files(alloc, at, from, &paged.listed)? {
            Ok(fetched) => fetched,
            Err(refusal) => return Ok(Err(refusal)),
        };
        let taken = paged.taken + fetched;
        let seen = List::of(page);
        match self.finish(alloc, at, server, entry, pinned.vector, seen)? {
            Ok(()) => Ok(Ok(taken)),
            Err(refusal) => Ok(Err(refusal)),
        }
    }

    /// A round in which the member with the first name pulls from the one with the other.
    pub(super) fn pull_line(
        &mut self,
        alloc: Global,
        name: &[u8],
        other: &[u8],
    ) -> Result<String, AllocError>
        requires name { is_member_name name.now ≡ true }
        requires other { is_member_name other.now ≡ true }
        requires scene { HasScene self.old }
        requires room { HasRoom self.old }
        ensures ok { (s : Scene) → Stands self.old s → IfOk result (λ text. (new : Scene) × Does s (Pull name.now other.now) (string_bytes text) new × Stands self.new new) }
        ensures err { (s : Scene) → Stands self.old s → OnErr result ((new : Scene) × Begins s (Pull name.now other.now) new × Stands self.new new) }
        ensures made { OnOk result (local_by_all self.new ≤ local_by_all self.old + 1) }
    {
        let Some(at) = self.place_of(name) else {
            return unknown_text(alloc, name);
        };
        let Some(from) = self.place_of(other) else {
            return unknown_text(alloc, other);
        };
        if name == other {
            return refusal_text(alloc, &Refusal::Itself);
        }
        match self.pull(alloc, at, from)? {
            Ok(taken) => pulled_text(alloc, taken),
            Err(refusal) => refusal_text(alloc, &refusal),
        }
    }
}
