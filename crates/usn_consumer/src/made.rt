// The update that a journal record makes.
ghost use Rattle.std.specs.Prelude.{◌≡◌, ◌<◌, ◌^◌, IfOk, IfSome, Some, option_copied};
ghost use Rattle.vol_state.specs.Effects.{uid_found};
ghost use Rattle.vol_state.specs.Conditions.{root_uid};
ghost use Rattle.vol_state.specs.Maps.{maps_of};
ghost use Rattle.name_rules.specs.Recorded.{attributes_of, base_fence, clock_of, created_of, fence_of, hash_of, is_deletion, object_update, parent_uid, recorded_change, recorded_deletion, recorded_of, tombstone};

use frs_base::{Guid, Gvsn, Kind, MemberKind, Name, Phase, Sum, Uid, content_set};
use std::alloc::AllocError;
use vol_state::{Object, VolRecord, Volume};
use win_order::Update;

/// The attribute of a directory.
const DIRECTORY: u32 = 0x10;

/// The attribute of a file.
const FILE: u32 = 0x20;

/// The USN of a journal record, the least fence of its update, and when it is consumed.
#[derive(Clone, Copy, Debug)]
pub(crate) struct Mark {
    pub(crate) usn: u64,
    pub(crate) base: u64,
    pub(crate) moment: u64,
}

/// The least fence of an update of a member of this kind in this phase.
pub(crate) fn base_fence(phase: Phase, kind: MemberKind) -> u64
    ensures { result ≡ base_fence phase kind }
{
    match (phase, kind) {
        (Phase::Initial, MemberKind::Primary) => 2,
        (Phase::Initial, MemberKind::Plain) => 1,
        (Phase::Normal, _) => 3,
    }
}

/// A fence no lower than that of the held record.
fn fence_of(base: u64, held: Option<&Update>) -> u64
    ensures { result ≡ fence_of base (option_copied held.entry) }
{
    match held {
        None => base,
        Some(held) => base.max(held.fence),
    }
}

/// The moment, or one past the clock of the held record.
fn clock_of(moment: u64, held: Option<&Update>) -> u64
    requires { IfSome (option_copied held) (λ u. u.clock < 2 ^ 62) }
    ensures { result ≡ clock_of moment (option_copied held.entry) }
{
    match held {
        None => moment,
        Some(held) => moment.max(held.clock + 1),
    }
}

/// The create time of the held record, else the moment.
fn created_of(moment: u64, held: Option<&Update>) -> u64
    ensures { result ≡ created_of moment (option_copied held.entry) }
{
    match held {
        None => moment,
        Some(held) => held.created,
    }
}

/// The kind of operation takes an object out.
fn is_deletion(entry: &VolRecord) -> bool
    ensures { result ≡ is_deletion entry.now }
{
    entry.op == 5 || entry.op == 7
}

/// The root's UID.
fn root_uid() -> Uid
    ensures { result ≡ root_uid }
{
    Uid {
        db: content_set(),
        version: 1,
    }
}

/// The UID of the directory with this number.
fn parent_uid(volume: &Volume, fid: u64) -> Uid
    ensures { result ≡ parent_uid volume.now.state.own (maps_of volume.now.state) fid }
{
    if fid == 0 {
        return root_uid();
    }
    let own = volume.own();
    match volume.object_at(fid) {
        None => Uid {
            db: own,
            version: 0,
        },
        Some(o) => o.uid(own),
    }
}

fn attributes_of(kind: Kind) -> u32
    ensures { result ≡ attributes_of kind }
{
    match kind {
        Kind::File => FILE,
        Kind::Directory => DIRECTORY,
    }
}

/// The sum of a file's contents; a directory has none.
fn hash_of(o: &Object) -> Sum
    ensures { result ≡ hash_of o.now }
{
    match o.kind {
        Kind::File => o.sum,
        Kind::Directory => Sum([0; 20]),
    }
}

/// The object as it is now.
fn object_update(
    volume: &Volume,
    mark: &Mark,
    held: Option<&Update>,
    o: &Object,
    place: &(u64, Name),
) -> Result<Update, AllocError>
    requires { IfSome (option_copied held) (λ u. u.clock < 2 ^ 62) }
    ensures { IfOk result (λ u. u ≡ object_update volume.now.state.own (maps_of volume.now.state) mark.now.base mark.now.usn mark.now.moment (option_copied held.entry) o.now place.now) }
{
    let (parent, name) = place;
    Ok(Update {
        present: true,
        name_conflict: false,
        attributes: attributes_of(o.kind),
        fence: fence_of(mark.base, held),
        clock: clock_of(mark.moment, held),
        created: created_of(mark.moment, held),
        set: content_set(),
        hash: hash_of(o),
        similarity: [0; 16],
        uid: o.uid(volume.own()),
        gvsn: Gvsn {
            db: volume.own(),
            version: mark.usn,
        },
        parent: parent_uid(volume, *parent),
        name: name.copy()?,
        flags: 0,
    })
}

/// The held record, no longer present.
fn tombstone(own: Guid, mark: &Mark, held: &Update) -> Result<Update, AllocError>
    requires { held.now.clock < 2 ^ 62 }
    ensures { IfOk result (λ u. u ≡ tombstone own mark.now.base mark.now.usn mark.now.moment held.now) }
{
    let mut update = held.copy()?;
    update.present = false;
    update.name_conflict = false;
    update.fence = fence_of(mark.base, Some(held));
    update.clock = clock_of(mark.moment, Some(held));
    update.created = created_of(mark.moment, Some(held));
    update.similarity = [0; 16];
    update.gvsn = Gvsn {
        db: own,
        version: mark.usn,
    };
    update.flags = 0;
    Ok(update)
}

/// What a deletion makes: a tombstone of a present record that is held.
fn recorded_deletion(
    own: Guid,
    mark: &Mark,
    held: Option<&Update>,
) -> Result<Option<Update>, AllocError>
    requires { IfSome (option_copied held) (λ u. u.clock < 2 ^ 62) }
    ensures { IfOk result (λ made. made ≡ recorded_deletion own mark.now.base mark.now.usn mark.now.moment (option_copied held.entry)) }
{
    let Some(held) = held else {
        return Ok(None);
    };
    if !held.present {
        return Ok(None);
    }
    Ok(Some(tombstone(own, mark, held)?))
}

/// What any other operation makes: the object as it is, if it is there and has no later local
/// record.
fn recorded_change(
    volume: &Volume,
    mark: &Mark,
    held: Option<&Update>,
    found: Option<&Object>,
) -> Result<Option<Update>, AllocError>
    requires { IfSome (option_copied held) (λ u. u.clock < 2 ^ 62) }
    ensures { IfOk result (λ made. made ≡ recorded_change volume.now.state.own (maps_of volume.now.state) mark.now.base mark.now.usn mark.now.moment (option_copied held.entry) (option_copied found.entry)) }
{
    let Some(o) = found else {
        return Ok(None);
    };
    if mark.usn < o.last_local {
        return Ok(None);
    }
    let Some(place) = &o.place else {
        return Ok(None);
    };
    Ok(Some(object_update(volume, mark, held, o, place)?))
}

/// What a journal record makes over the record of its UID that is held.
pub(crate) fn recorded_of(
    volume: &Volume,
    mark: &Mark,
    entry: &VolRecord,
    held: Option<&Update>,
) -> Result<Option<Update>, AllocError>
    requires { IfSome (option_copied held) (λ u. u.clock < 2 ^ 62) }
    ensures { IfOk result (λ made. made ≡ recorded_of volume.now.state.own (maps_of volume.now.state) mark.now.base mark.now.usn mark.now.moment entry.now (option_copied held.entry)) }
{
    if !entry.local {
        return Ok(None);
    }
    if is_deletion(entry) {
        return recorded_deletion(volume.own(), mark, held);
    }
    recorded_change(volume, mark, held, volume.object_at(entry.fid))
}
