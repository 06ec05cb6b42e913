// The words of versions, vectors and records.
ghost use Rattle.std.specs.Prelude.{◌≡◌, ◌∷◌, IfOk, codes, string_bytes};
ghost use Rattle.std.specs.List.{join_with_byte};
ghost use Rattle.script_engine.specs.Named.{AreNamed};
ghost use Rattle.script_engine.specs.Printed.{interval_word, kind_word, name_word, parent_word, place_words, printed, record_words, state_word, subject_words, version_word};

use crate::MemberName;
use crate::names::name_of;
use frs_base::{Guid, Name, Uid, content_set};
use std::alloc::{AllocError, Global};
use version_vector::Interval;
use win_order::Update;

/// The attribute bit of a directory.
const DIRECTORY: u32 = 0x10;

/// A version or a file: the member's name and the version.
pub(crate) fn version_word(
    alloc: Global,
    names: &[MemberName],
    db: Guid,
    version: u64,
) -> Result<String, AllocError>
    requires { AreNamed names.now }
    ensures { IfOk result (λ text. string_bytes text ≡ version_word names.now db version) }
{
    let name = name_of(names, db);
    format!(in alloc; "{name}:{version}")
}

/// An interval of versions, half open.
pub(crate) fn interval_word(
    alloc: Global,
    names: &[MemberName],
    interval: &Interval,
) -> Result<String, AllocError>
    requires { AreNamed names.now }
    ensures { IfOk result (λ text. string_bytes text ≡ interval_word names.now interval.now) }
{
    let first = version_word(alloc, names, interval.db, interval.low)?;
    let high = interval.high;
    format!(in alloc; "{first}..{high}")
}

fn kind_word(u: &Update) -> &'static str
    ensures { result.now ≡ kind_word u.now }
{
    if u.attributes & DIRECTORY == 0 {
        "f"
    } else {
        "d"
    }
}

fn state_word(u: &Update) -> &'static str
    ensures { result.now ≡ state_word u.now }
{
    if u.present { "live" } else { "gone" }
}

/// The parent's UID. The root's is the content set with version 1.
fn parent_word(alloc: Global, names: &[MemberName], uid: Uid) -> Result<String, AllocError>
    requires { AreNamed names.now }
    ensures { IfOk result (λ text. string_bytes text ≡ parent_word names.now uid) }
{
    if uid.db == content_set() && uid.version == 1 {
        String::from_str(alloc, "root")
    } else {
        version_word(alloc, names, uid.db, uid.version)
    }
}

/// A name as text. A unit that is half of a pair stands for U+FFFD.
pub(crate) fn name_word(alloc: Global, name: &Name) -> Result<String, AllocError>
    ensures { IfOk result (λ text. string_bytes text ≡ name_word name.now) }
{
    String::from_utf16_lossy(alloc, name.units())
}

/// What a record is of: its UID, GVSN, kind and state.
fn subject_text(alloc: Global, names: &[MemberName], u: &Update) -> Result<String, AllocError>
    requires { AreNamed names.now }
    ensures { IfOk result (λ text. string_bytes text ≡ join_with_byte 32 (subject_words names.now u.now)) }
{
    let uid = version_word(alloc, names, u.uid.db, u.uid.version)?;
    let gvsn = version_word(alloc, names, u.gvsn.db, u.gvsn.version)?;
    let kind = kind_word(u);
    let state = state_word(u);
    format!(in alloc; "{uid} {gvsn} {kind} {state}")
}

/// Where a record's file is, and what it is ordered by: its parent, name, fence, clock and create
/// time.
fn place_text(alloc: Global, names: &[MemberName], u: &Update) -> Result<String, AllocError>
    requires { AreNamed names.now }
    ensures { IfOk result (λ text. string_bytes text ≡ join_with_byte 32 (place_words names.now u.now)) }
{
    let parent = parent_word(alloc, names, u.parent)?;
    let name = name_word(alloc, &u.name)?;
    let fence = u.fence;
    let clock = u.clock;
    let created = u.created;
    format!(in alloc; "{parent} {name} {fence} {clock} {created}")
}

/// The line of a record.
pub(crate) fn record_text(
    alloc: Global,
    names: &[MemberName],
    u: &Update,
) -> Result<String, AllocError>
    requires { AreNamed names.now }
    ensures { IfOk result (λ text. string_bytes text ≡ printed (record_words names.now u.now)) }
{
    let subject = subject_text(alloc, names, u)?;
    let place = place_text(alloc, names, u)?;
    format!(in alloc; "{subject} {place}\n")
}
