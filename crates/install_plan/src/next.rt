// The next step.
ghost use Rattle.std.specs.Prelude.{◌≡◌, ◌≤◌, IfOk, MatchOption, MatchResult, Ok};
ghost use Rattle.vol_state.specs.Journal.{IsNumbered};
ghost use Rattle.vol_state.specs.Maps.{maps_of};
ghost use Rattle.name_rules.specs.Next.{IsAnswer, IsFirstPending};
ghost use Rattle.name_rules.specs.Shown.{Among};
ghost use Rattle.name_rules.specs.declared.step.Next.TheVariants.{Do};
ghost use Rattle.record_db.specs.State.{IsBook};
ghost use Rattle.install_plan.specs.Agenda.{IsAgenda, IsLast, IsPlanned};
ghost use Rattle.install_plan.specs.Done.{IsDue, IsIdle};
ghost use Rattle.install_plan.specs.Staged.{staged_hashes};

use crate::agenda::Agenda;
use crate::first::{
    first_to_erase, first_to_make, first_to_park, first_to_place, first_to_rewrite,
    first_to_unstage,
};
use crate::pending::first_pending;
use name_rules::{Next, Step};
use record_db::Book;
use std::alloc::{AllocError, Global};
use vol_state::Volume;

/// The first step that is needed.
fn first_step(volume: &Volume, book: &Book, agenda: &Agenda) -> Option<Step>
    requires numbered { IsNumbered volume.now.state }
    requires begun { 9 ≤ book.now.state.consumed }
    requires consumed { book.now.state.consumed ≤ volume.now.state.next_usn }
    requires book { IsBook book.now.state }
    requires agenda { IsAgenda volume.now.state book.now.state agenda.now }
    ensures { MatchOption result (IsIdle volume.now.state book.now.state) (λ step. IsDue volume.now.state book.now.state step) }
{
    if let Some(uid) = first_to_park(volume, book, agenda) {
        return Some(Step::Park(uid));
    }
    if let Some(uid) = first_to_erase(volume, book, agenda) {
        return Some(Step::Erase(uid));
    }
    if let Some(uid) = first_to_make(volume, book, agenda) {
        return Some(Step::Make(uid));
    }
    if let Some(uid) = first_to_rewrite(volume, book, agenda) {
        return Some(Step::Rewrite(uid));
    }
    if let Some(uid) = first_to_place(volume, book, agenda) {
        return Some(Step::Place(uid));
    }
    if let Some(uid) = first_to_unstage(volume, book, agenda) {
        return Some(Step::Unstage(uid));
    }
    let usn = book.consumed();
    if usn < volume.next_usn() {
        return Some(Step::Skip(usn));
    }
    None
}

/// The agenda that was kept, or a new one; or the local journal record that is to be consumed first.
fn agenda_for(
    alloc: Global,
    volume: &Volume,
    book: &Book,
    kept: Option<Agenda>,
) -> Result<Result<Agenda, u64>, AllocError>
    requires book { IsBook book.now.state }
    requires numbered { IsNumbered volume.now.state }
    requires planned { IsPlanned volume.now.state book.now.state kept }
    ensures { IfOk result (λ found. MatchResult found (IsAgenda volume.now.state book.now.state) (λ usn. IsFirstPending book.now.state.consumed (maps_of volume.now.state) usn)) }
{
    if let Some(agenda) = kept {
        return Ok(Ok(agenda));
    }
    match first_pending(volume, book.consumed()) {
        Some(usn) => Ok(Err(usn)),
        None => Ok(Ok(Agenda::of(alloc, volume, book)?)),
    }
}

/// What a member does next: the first of these of which there is one, and of a kind of step the one
/// for the least UID.
///
/// - It consumes local journal records that are pending.
/// - An object leaves its place, where its record isn't shown at exactly that place.
/// - An object of a file or directory that was removed goes.
/// - An object is made for a record that is shown.
/// - A file gets the contents of its record.
/// - An object in limbo gets the place where its record is shown.
/// - Staged contents go that the file has already.
/// - A journal record of the installer's own is consumed.
///
/// With an agenda, which the call before left, it looks at what is on it from the last step on, so
/// that all steps up to the last one look at each of its files a few times. Without one it looks at
/// each pending journal record, sorts the records and looks at each object, and leaves one. An
/// agenda is to be forgotten where the records change, or the volume by more than the steps.
pub fn next_step(
    alloc: Global,
    volume: &Volume,
    book: &Book,
    agenda: &mut Option<Agenda>,
) -> Result<Next, AllocError>
    requires own { volume.now.state.own ≡ book.now.state.own }
    requires numbered { IsNumbered volume.now.state }
    requires begun { 9 ≤ book.now.state.consumed }
    requires consumed { book.now.state.consumed ≤ volume.now.state.next_usn }
    requires planned { IsPlanned volume.now.state book.now.state agenda.old }
    ensures answer { IfOk result (λ next. IsAnswer (Among book.now.state.records) book.now.state.own (maps_of volume.now.state) (staged_hashes book.now.state) book.now.state.consumed next) }
    ensures planned { IsPlanned volume.now.state book.now.state agenda.new }
    ensures last { (step : Step) → result ≡ Ok (Do step) → IsLast step agenda.new }
{
    // The book's own word that no two of its records are of one file.
    let _ = book.vector();
    let plan = match agenda_for(alloc, volume, book, agenda.take())? {
        Ok(plan) => plan,
        Err(usn) => return Ok(Next::NotYet { usn }),
    };
    let found = first_step(volume, book, &plan);
    match found {
        None => {
            *agenda = Some(plan);
            Ok(Next::Drained)
        }
        Some(step) => {
            *agenda = Some(plan.noting(&step));
            Ok(Next::Do(step))
        }
    }
}
