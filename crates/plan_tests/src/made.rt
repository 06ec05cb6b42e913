// Volumes and books made of lines of words.
ghost use Rattle.std.specs.Prelude.{OnOk};
ghost use Rattle.vol_state.specs.Journal.{IsNumbered};

use frs_base::{Bytes, Gvsn, Kind, Name, Sum, Uid, content_set, database_of};
use marshal_form::Form;
use record_db::Book;
use std::alloc::Global;
use std::test::Fail;
use vol_state::{VolCmd, Volume};
use win_order::Update;

fn name_of(alloc: Global, word: Option<&str>) -> Result<Name, Fail> {
    let mut units = Vec::new(alloc);
    for byte in word.ok_or("no name")?.as_bytes() {
        units.push(u16::from(*byte))?;
    }
    Ok(Name::from_units(alloc, &units)?)
}

fn number(word: Option<&str>) -> Result<u64, Fail> {
    Ok(word.ok_or("no number")?.parse::<u64>()?)
}

/// The root, or the file that a member made with a USN, as in `2:20`.
fn uid_of(word: Option<&str>) -> Result<Uid, Fail> {
    let word = word.ok_or("no UID")?;
    if word == "root" {
        return Ok(Uid {
            db: content_set(),
            version: 1,
        });
    }
    let (member, version) = word.split_once(':').ok_or("no colon")?;
    Ok(Uid {
        db: database_of(member.parse::<u64>()?),
        version: version.parse::<u64>()?,
    })
}

/// The command of a line: `put PARENT NAME`, `make UID d` or `f`, `place FID PARENT NAME` or
/// `park FID`.
fn command(alloc: Global, line: &str) -> Result<VolCmd, Fail> {
    let mut words = line.split(' ');
    let word = words.next().unwrap_or("");
    let bytes = Bytes::of(Vec::new(alloc));
    if word == "put" {
        let parent = number(words.next())?;
        let name = name_of(alloc, words.next())?;
        return Ok(VolCmd::PutNew {
            parent,
            name,
            bytes,
        });
    }
    if word == "make" {
        let uid = uid_of(words.next())?;
        let kind = if words.next() == Some("d") {
            Kind::Directory
        } else {
            Kind::File
        };
        return Ok(VolCmd::Make { uid, kind, bytes });
    }
    let fid = number(words.next())?;
    if word == "park" {
        return Ok(VolCmd::Park { fid });
    }
    let parent = number(words.next())?;
    let name = name_of(alloc, words.next())?;
    Ok(VolCmd::Place { fid, parent, name })
}

/// Does this to a volume, line by line.
pub(crate) fn fill_volume(alloc: Global, volume: &mut Volume, lines: &str) -> Result<(), Fail>
    requires { IsNumbered volume.old.state }
    ensures { OnOk result (IsNumbered volume.new.state) }
{
    if lines == "none" {
        return Ok(());
    }
    for line in lines.split("; ") {
        let cmd = command(alloc, line)?;
        let ready = volume.ready(alloc, cmd)?;
        volume.take(ready);
    }
    Ok(())
}

/// The record of a line, with a clock: `UID d`, `f` or `gone`, parent and name, and `same` if it
/// has the sum of its object.
fn record_of(alloc: Global, volume: &Volume, line: &str, clock: u64) -> Result<Update, Fail> {
    let mut words = line.split(' ');
    let uid = uid_of(words.next())?;
    let kind = words.next().unwrap_or("");
    let parent = uid_of(words.next())?;
    let name = name_of(alloc, words.next())?;
    let hash = match volume.object_of(uid) {
        Some(object) if words.next() == Some("same") => object.sum,
        _ => Sum([7; 20]),
    };
    Ok(Update {
        present: kind != "gone",
        name_conflict: false,
        attributes: if kind == "d" { 0x10 } else { 0x20 },
        fence: 3,
        clock,
        created: 100,
        set: content_set(),
        hash,
        similarity: [0; 16],
        uid,
        gvsn: Gvsn {
            db: database_of(3),
            version: clock,
        },
        parent,
        name,
        flags: 0,
    })
}

/// Has a book consume this USN next and hold these records, the later ones with later clocks. A
/// record whose line ends in `staged` has a form.
pub(crate) fn fill_book(
    alloc: Global,
    volume: &Volume,
    book: &mut Book,
    consumed: u64,
    lines: &str,
) -> Result<(), Fail> {
    for usn in 9..consumed {
        book.record_local(alloc, usn, None)?;
    }
    if lines == "none" {
        return Ok(());
    }
    for (at, line) in lines.split("; ").enumerate() {
        let clock = (at as u64).saturating_add(100);
        let update = record_of(alloc, volume, line, clock)?;
        let staged = line.ends_with(" staged");
        let form = if staged {
            Some(Form::of(alloc, Vec::new(alloc))?)
        } else {
            None
        };
        book.adopt(alloc, update, form)?;
    }
    Ok(())
}
