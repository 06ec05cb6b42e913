// The file that each kind of step is for.
ghost use Rattle.std.specs.Prelude.{◌≡◌};
ghost use Rattle.name_rules.specs.declared.step.Step.TheVariants.{Erase, Make, Park, Place, Rewrite, Unstage};
ghost use Rattle.record_db.specs.State.{IsBook};
ghost use Rattle.install_plan.specs.Agenda.{IsAgenda};
ghost use Rattle.install_plan.specs.Done.{IsFirst};

use crate::agenda::Agenda;
use crate::files::{
    needs_erase, needs_make, needs_park, needs_place, needs_rewrite, needs_unstage,
};
use crate::passing::first_passing;
use frs_base::Uid;
use name_rules::Step;
use record_db::Book;
use vol_state::Volume;

/// The least file or directory that is to leave its place.
pub(crate) fn first_to_park(volume: &Volume, book: &Book, agenda: &Agenda) -> Option<Uid>
    requires book { IsBook book.now.state }
    requires agenda { IsAgenda volume.now.state book.now.state agenda.now }
    ensures { IsFirst volume.now.state book.now.state Park result }
{
    let uids = agenda.uids.as_slice();
    let passed = uids.partition_point(|uid| agenda.has_passed(&Step::Park(*uid)));
    first_passing(
        &uids[passed..],
        |uid| needs_park(volume, book, agenda.shown.as_slice(), uid),
    )
}

/// The least file or directory whose object is to go.
pub(crate) fn first_to_erase(volume: &Volume, book: &Book, agenda: &Agenda) -> Option<Uid>
    requires book { IsBook book.now.state }
    requires agenda { IsAgenda volume.now.state book.now.state agenda.now }
    ensures { IsFirst volume.now.state book.now.state Erase result }
{
    let uids = agenda.uids.as_slice();
    let passed = uids.partition_point(|uid| agenda.has_passed(&Step::Erase(*uid)));
    first_passing(&uids[passed..], |uid| needs_erase(volume, book, uid))
}

/// The least file or directory that needs an object.
pub(crate) fn first_to_make(volume: &Volume, book: &Book, agenda: &Agenda) -> Option<Uid>
    requires { IsAgenda volume.now.state book.now.state agenda.now }
    ensures { IsFirst volume.now.state book.now.state Make result }
{
    let uids = agenda.uids.as_slice();
    let passed = uids.partition_point(|uid| agenda.has_passed(&Step::Make(*uid)));
    first_passing(
        &uids[passed..],
        |uid| needs_make(volume, book, agenda.shown.as_slice(), uid),
    )
}

/// The least file that needs other contents.
pub(crate) fn first_to_rewrite(volume: &Volume, book: &Book, agenda: &Agenda) -> Option<Uid>
    requires book { IsBook book.now.state }
    requires agenda { IsAgenda volume.now.state book.now.state agenda.now }
    ensures { IsFirst volume.now.state book.now.state Rewrite result }
{
    let uids = agenda.uids.as_slice();
    let passed = uids.partition_point(|uid| agenda.has_passed(&Step::Rewrite(*uid)));
    first_passing(&uids[passed..], |uid| needs_rewrite(volume, book, uid))
}

/// The least file or directory that is to get its place.
pub(crate) fn first_to_place(volume: &Volume, book: &Book, agenda: &Agenda) -> Option<Uid>
    requires book { IsBook book.now.state }
    requires agenda { IsAgenda volume.now.state book.now.state agenda.now }
    ensures { IsFirst volume.now.state book.now.state Place result }
{
    let uids = agenda.uids.as_slice();
    let passed = uids.partition_point(|uid| agenda.has_passed(&Step::Place(*uid)));
    first_passing(
        &uids[passed..],
        |uid| needs_place(volume, book, agenda.shown.as_slice(), uid),
    )
}

/// The least file whose staged contents are to go.
pub(crate) fn first_to_unstage(volume: &Volume, book: &Book, agenda: &Agenda) -> Option<Uid>
    requires { IsAgenda volume.now.state book.now.state agenda.now }
    ensures { IsFirst volume.now.state book.now.state Unstage result }
{
    let uids = agenda.uids.as_slice();
    let passed = uids.partition_point(|uid| agenda.has_passed(&Step::Unstage(*uid)));
    first_passing(&uids[passed..], |uid| needs_unstage(volume, book, uid))
}
