// What the installer has still to look at.
ghost use Rattle.std.specs.Prelude.{◌≡◌, ◌⊎◌, IfOk, OnOk, Some};
ghost use Rattle.frs_base.specs.Options.{In};
ghost use Rattle.frs_base.specs.Versions.{uid_lt};
ghost use Rattle.vol_state.specs.declared.object.Object.{Object};
ghost use Rattle.vol_state.specs.Maps.{maps_of};
ghost use Rattle.vol_state.specs.State.{uid_of};
ghost use Rattle.name_rules.specs.Next.{IsQuiet, place_lt, place_of};
ghost use Rattle.name_rules.specs.Shown.{AreShown};
ghost use Rattle.record_db.specs.State.{IsBook};
ghost use Rattle.install_plan.specs.Agenda.{IsAgenda, comes_before};
ghost use Rattle.install_plan.specs.Objects.{HasObject, IsSettled};

use crate::objects::is_settled;
use frs_base::{Guid, Uid};
use name_rules::{Step, shown};
use record_db::Book;
use std::alloc::{AllocError, Global};
use std::marker::Model;
use vol_state::Volume;

/// What the installer of a member has still to look at. It is of a volume and a book, and stays so
/// while steps are done and the records stay the same: a step changes what is needed for its own
/// file alone.
///
/// A contract sees its parts.
#[derive(Drop)]
pub struct Agenda {
    /// The files and directories whose records are shown, in order.
    pub(crate) shown: Vec<Uid>,
    /// Those for which a step is needed, or was, in order.
    pub(crate) uids: Vec<Uid>,
    /// The step that was answered last.
    pub(crate) last: Option<Step>,
}

impl Model for Agenda {
    ghost use Rattle.install_plan.specs.Agenda.{Agenda};

    ghost Value = { Agenda };

    ghost view = { λ a. record { shown = a.shown.items; uids = a.uids.items; last = a.last } };
}

/// Where a step stands in their order: by its kind, then by its file.
fn place_of(step: &Step) -> (u8, Uid)
    ensures { result ≡ place_of step.now }
{
    match step {
        Step::Park(uid) => (0, *uid),
        Step::Erase(uid) => (1, *uid),
        Step::Make(uid) => (2, *uid),
        Step::Rewrite(uid) => (3, *uid),
        Step::Place(uid) => (4, *uid),
        Step::Unstage(uid) => (5, *uid),
        Step::Skip(usn) => (
            6,
            Uid {
                db: Guid::of_number(0),
                version: *usn,
            },
        ),
    }
}

/// Whether the first one of two steps comes before the other.
fn is_before(step: &Step, other: &Step) -> bool
    ensures { result ≡ place_lt (place_of step.now) (place_of other.now) }
{
    let (kind, uid) = place_of(step);
    let (other_kind, other_uid) = place_of(other);
    kind < other_kind || (kind == other_kind && uid < other_uid)
}

/// The files and directories of the objects for which a step is needed.
fn unsettled(
    alloc: Global,
    volume: &Volume,
    book: &Book,
    shown: &[Uid],
) -> Result<Vec<Uid>, AllocError>
    requires book { IsBook book.now.state }
    requires shown { AreShown book.now.state.records shown.now }
    ensures { IfOk result (λ uids. (o : Object) → In o volume.now.state.objects
        → In (uid_of volume.now.state.own o) uids.items ⊎ IsSettled volume.now.state book.now.state o) }
{
    let own = volume.own();
    let mut uids = Vec::new(alloc);
    for object in volume.objects() {
        if !is_settled(volume, book, shown, object) {
            uids.push(object.uid(own))?;
        }
    }
    Ok(uids)
}

/// Adds those that have no object.
fn add_missing(volume: &Volume, shown: &[Uid], uids: &mut Vec<Uid>) -> Result<(), AllocError>
    ensures kept { OnOk result ((uid : Uid) → In uid uids.old.items → In uid uids.new.items) }
    ensures missing { OnOk result ((uid : Uid) → In uid shown.now → In uid uids.new.items ⊎ HasObject volume.now.state uid) }
{
    for uid in shown {
        if volume.object_of(*uid).is_none() {
            uids.push(*uid)?;
        }
    }
    Ok(())
}

impl Agenda {
    /// The agenda of a volume and a book, where no local journal record is pending.
    ///
    /// It takes the work of sorting the records, and looks at each object once.
    pub(crate) fn of(alloc: Global, volume: &Volume, book: &Book) -> Result<Agenda, AllocError>
        requires book { IsBook book.now.state }
        requires quiet { IsQuiet book.now.state.consumed (maps_of volume.now.state) }
        ensures { IfOk result (λ agenda. IsAgenda volume.now.state book.now.state agenda) }
    {
        let records = book.rows(alloc)?;
        let shown = shown(alloc, records.as_slice())?;
        let mut uids = unsettled(alloc, volume, book, shown.as_slice())?;
        add_missing(volume, shown.as_slice(), &mut uids)?;
        uids.sort_unstable();
        let _ = volume.objects();
        Ok(Agenda {
            shown,
            uids,
            last: None,
        })
    }

    /// Whether a step comes before the one that was answered last.
    pub(crate) fn has_passed(&self, step: &Step) -> bool
        ensures { result ≡ comes_before step.now self.now.last }
    {
        match &self.last {
            None => false,
            Some(last) => is_before(step, last),
        }
    }
    /// The same, with the step that was answered last.
    pub(crate) fn noting(self, step: &Step) -> Agenda
        ensures { result ≡ record self { last = Some step.now } }
    {
        Agenda {
            shown: self.shown,
            uids: self.uids,
            last: Some(*step),
        }
    }
}
