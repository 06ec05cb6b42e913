// What no contract says: that the calls succeed, and small volumes and books written out by hand.
ghost use Rattle.std.specs.Prelude.{◌≡◌};
ghost use Rattle.usn_consumer.specs.Next.{have_clocks};

use frs_base::{Bytes, Guid, Gvsn, Kind, MemberKind, Name, Sum, Uid, content_set, database_of};
use record_db::Book;
use std::alloc::Global;
use std::process::Abort;
use std::test::Fail;
use usn_consumer::{ConsumeError, Consumed, next_record};
use version_vector::Vector;
use vol_state::{VolCmd, Volume};
use win_order::Update;

/// The first number that no clock may be.
const CLOCK_END: u64 = 0x4000_0000_0000_0000;

fn name_of(alloc: Global, word: Option<&str>) -> Result<Name, Fail> {
    let mut units = Vec::new(alloc);
    for byte in word.ok_or("no name")?.as_bytes() {
        units.push(u16::from(*byte))?;
    }
    Ok(Name::from_units(alloc, &units)?)
}

fn number(word: Option<&str>) -> Result<u64, Fail> {
    Ok(word.ok_or("no number")?.parse::<u64>()?)
}

/// The files and directories of the second member.
fn theirs(version: u64) -> Uid {
    Uid {
        db: database_of(2),
        version,
    }
}

/// The local command of a line.
fn local_command(alloc: Global, line: &str) -> Result<Option<VolCmd>, Fail> {
    let mut words = line.split(' ');
    let word = words.next().unwrap_or("");
    let first = number(words.next())?;
    let bytes = Bytes::of(Vec::new(alloc));
    if word == "put" {
        let name = name_of(alloc, words.next())?;
        return Ok(Some(VolCmd::PutNew {
            parent: first,
            name,
            bytes,
        }));
    }
    if word == "over" {
        return Ok(Some(VolCmd::PutOver { fid: first, bytes }));
    }
    if word == "mkdir" {
        let name = name_of(alloc, words.next())?;
        return Ok(Some(VolCmd::Mkdir {
            parent: first,
            name,
        }));
    }
    if word == "move" {
        let parent = number(words.next())?;
        let name = name_of(alloc, words.next())?;
        return Ok(Some(VolCmd::Move {
            fid: first,
            parent,
            name,
        }));
    }
    if word == "remove" {
        return Ok(Some(VolCmd::Remove { fid: first }));
    }
    Ok(None)
}

/// The installer's command of a line.
fn replica_command(alloc: Global, line: &str) -> Result<Option<VolCmd>, Fail> {
    let mut words = line.split(' ');
    let word = words.next().unwrap_or("");
    let first = number(words.next())?;
    if word == "make" {
        return Ok(Some(VolCmd::Make {
            uid: theirs(first),
            kind: Kind::File,
            bytes: Bytes::of(Vec::new(alloc)),
        }));
    }
    if word == "place" {
        let name = name_of(alloc, words.next())?;
        return Ok(Some(VolCmd::Place {
            fid: first,
            parent: 0,
            name,
        }));
    }
    if word == "park" {
        return Ok(Some(VolCmd::Park { fid: first }));
    }
    if word == "erase" {
        return Ok(Some(VolCmd::Erase { fid: first }));
    }
    Ok(None)
}

/// Does this to a volume, line by line.
fn fill_volume(alloc: Global, volume: &mut Volume, steps: &str) -> Result<(), Fail> {
    for line in steps.split("; ") {
        let local = local_command(alloc, line)?;
        let replica = replica_command(alloc, line)?;
        let cmd = local.or(replica).ok_or("no command")?;
        let ready = volume.ready(alloc, cmd)?;
        volume.take(ready);
    }
    Ok(())
}

/// The record of a text: member and version of its UID, fence, clock, create time, `live` or
/// `gone`.
fn record_of(alloc: Global, text: &str) -> Result<Update, Fail> {
    let mut words = text.split(' ');
    let member = number(words.next())?;
    let uid = Uid {
        db: database_of(member),
        version: number(words.next())?,
    };
    let fence = number(words.next())?;
    let clock = number(words.next())?;
    let created = number(words.next())?;
    Ok(Update {
        present: words.next() == Some("live"),
        name_conflict: true,
        attributes: 0x20,
        fence,
        clock,
        created,
        set: content_set(),
        hash: Sum([7; 20]),
        similarity: [5; 16],
        uid,
        gvsn: Gvsn {
            db: database_of(3),
            version: 30,
        },
        parent: Uid {
            db: content_set(),
            version: 1,
        },
        name: name_of(alloc, Some("o"))?,
        flags: 2,
    })
}

/// Has a book consume this USN next, and hold this record, if any.
fn fill_book(
    alloc: Global,
    book: &mut Book,
    finished: bool,
    consumed: u64,
    held: &str,
) -> Result<(), Fail> {
    for usn in 9..consumed {
        book.record_local(alloc, usn, None)?;
    }
    if finished {
        book.finish(alloc, &Vector::empty())?;
    }
    if held != "none" {
        book.adopt(alloc, record_of(alloc, held)?, None)?;
    }
    Ok(())
}

fn member_of(db: Guid) -> u128 {
    db.number() % 16
}

/// UID, GVSN, kind, `live` or `gone`, parent, name, fence, clock, create time.
fn text_of(alloc: Global, u: &Update) -> Result<String, Fail> {
    let (db, version) = (member_of(u.uid.db), u.uid.version);
    let mut text = format!(in alloc; "make {db}:{version}")?;
    let (db, version) = (member_of(u.gvsn.db), u.gvsn.version);
    text.push_str(format!(in alloc; " {db}:{version}")?.as_str())?;
    text.push_str(if u.attributes == 0x10 { " d" } else { " f" })?;
    text.push_str(if u.present { " live" } else { " gone" })?;
    if u.parent.db == content_set() {
        text.push_str(" root ")?;
    } else {
        let (db, version) = (member_of(u.parent.db), u.parent.version);
        text.push_str(format!(in alloc; " {db}:{version} ")?.as_str())?;
    }
    text.push_str(String::from_utf16_lossy(alloc, u.name.units())?.as_str())?;
    let (fence, clock, created) = (u.fence, u.clock, u.created);
    text.push_str(format!(in alloc; " {fence} {clock} {created}")?.as_str())?;
    Ok(text)
}

/// What is answered, as a text.
fn answer_text(alloc: Global, answer: Result<Consumed, ConsumeError>) -> Result<String, Fail> {
    match answer {
        Ok(Consumed::Skip) => Ok(String::from_str(alloc, "skip")?),
        Ok(Consumed::End) => Ok(String::from_str(alloc, "end")?),
        Ok(Consumed::Make(update)) => text_of(alloc, &update),
        Err(e) => Ok(e.to_string(alloc)?),
    }
}

/// Each record has its clock below 2^62.
fn have_clocks(records: &[Update]) -> bool
    ensures { result ≡ have_clocks records.now }
{
    records.iter().all(|u| u.clock < CLOCK_END)
}

/// What consuming the next record comes to, where its condition holds.
fn answer(
    alloc: Global,
    volume: &Volume,
    book: &Book,
    moment: u64,
) -> Result<Result<Consumed, ConsumeError>, Fail> {
    let records = book.rows(alloc)?;
    if volume.own() != book.own() || !have_clocks(&records) {
        return Err("not of one member, or not in time")?;
    }
    let usn = book.consumed();
    if usn != volume.next_usn() && volume.record_at(usn).is_none() {
        return Err("no such record")?;
    }
    Ok(next_record(volume, book, moment))
}

/// The kind of a member.
fn kind_of(word: &str) -> MemberKind {
    if word == "primary" {
        MemberKind::Primary
    } else {
        MemberKind::Plain
    }
}

/// The answer of the parts of a row over a volume and a book that have done nothing.
fn parts_answer(
    alloc: Global,
    volume: &mut Volume,
    book: &mut Book,
    parts: [&str; 4],
) -> Result<Result<Consumed, ConsumeError>, Fail> {
    let [steps, member, held, moment] = parts;
    fill_volume(alloc, volume, steps)?;
    let mut words = member.split(' ').skip(1);
    let finished = words.next() == Some("normal");
    let consumed = number(words.next())?;
    fill_book(alloc, book, finished, consumed, held)?;
    answer(alloc, volume, book, moment.parse::<u64>()?)
}

/// The answer of a row: what was done to the volume, then the member's kind, its phase and the USN
/// that it consumes next, the record that it holds, and the moment.
fn row_answer(alloc: Global, row: &str) -> Result<Result<Consumed, ConsumeError>, Fail> {
    let (steps, rest) = row.split_once(" | ").ok_or("no steps")?;
    let (member, rest) = rest.split_once(" | ").ok_or("no member")?;
    let (held, moment) = rest.split_once(" | ").ok_or("no record")?;
    let (kind, _) = member.split_once(' ').ok_or("no kind")?;
    let mut volume = Volume::new(database_of(1));
    let mut book = Book::new(kind_of(kind), database_of(1), content_set());
    parts_answer(alloc, &mut volume, &mut book, [steps, member, held, moment])
}

fn try_rows(rt: &impl Abort, alloc: Global, rows: &str) -> Result<(), Fail> {
    for line in rows.split('\n') {
        let (row, wanted) = line.split_once(" -> ").ok_or("no arrow")?;
        let found = answer_text(alloc, row_answer(alloc, row)?)?;
        assert_eq!(rt; found.as_str(), wanted, "{row}");
    }
    Ok(())
}

/// Puts, directories and moves, in each phase and of each kind of member.
const CHANGES: &str =
    "put 0 x | plain initial 9 | none | 100 -> make 1:9 1:9 f live root x 1 100 100
put 0 x | primary initial 9 | none | 100 -> make 1:9 1:9 f live root x 2 100 100
put 0 x | plain normal 9 | none | 100 -> make 1:9 1:9 f live root x 3 100 100
put 0 x | primary normal 9 | none | 100 -> make 1:9 1:9 f live root x 3 100 100
mkdir 0 d | plain initial 9 | none | 0 -> make 1:9 1:9 d live root d 1 0 0
mkdir 0 d; put 1 x | plain initial 10 | none | 100 -> make 1:10 1:10 f live 1:9 x 1 100 100
put 0 x; move 1 0 y | plain initial 10 | none | 100 -> make 1:9 1:10 f live root y 1 100 100
mkdir 0 d; put 1 x; move 1 0 e | plain initial 10 | none | 100 -> make 1:10 1:10 f live 1:9 x 1 100 100
mkdir 0 d; put 1 x; move 1 0 e | plain initial 11 | none | 100 -> make 1:9 1:11 d live root e 1 100 100
put 0 x | plain initial 10 | none | 100 -> end";

/// Local records that have a later one, or whose object is gone or in limbo.
const PASSED: &str = "put 0 x; over 1 | plain initial 9 | none | 100 -> skip
put 0 x; over 1; over 1 | plain initial 10 | 1 9 1 100 50 live | 100 -> skip
put 0 x; move 1 0 y | plain initial 9 | none | 100 -> skip
mkdir 0 d; put 1 x; move 1 0 e | plain initial 9 | none | 100 -> skip
put 0 x; remove 1 | plain initial 9 | none | 100 -> skip
put 0 x; park 1 | plain initial 9 | none | 100 -> skip";

/// Fences never fall, clocks rise, and the create time stays.
const OVER_A_RECORD: &str =
    "put 0 x; over 1 | plain initial 10 | 1 9 1 100 50 live | 90 -> make 1:9 1:10 f live root x 1 101 50
put 0 x; over 1 | plain initial 10 | 1 9 1 100 50 live | 101 -> make 1:9 1:10 f live root x 1 101 50
put 0 x; over 1 | plain initial 10 | 1 9 1 100 50 live | 102 -> make 1:9 1:10 f live root x 1 102 50
put 0 x; over 1 | primary initial 10 | 1 9 1 100 50 live | 90 -> make 1:9 1:10 f live root x 2 101 50
put 0 x; move 1 0 y | plain initial 10 | 1 9 3 100 50 live | 90 -> make 1:9 1:10 f live root y 3 101 50
make 20; place 1 x; over 1 | plain initial 11 | 2 20 2 100 50 gone | 90 -> make 2:20 1:11 f live root x 2 101 50
put 0 x | plain initial 9 | 2 20 3 500 400 live | 100 -> make 1:9 1:9 f live root x 1 100 100";

/// Removals: of what is held, of what never was, and of what is gone already.
const REMOVALS: &str =
    "put 0 x; remove 1 | plain initial 10 | 1 9 1 100 50 live | 90 -> make 1:9 1:10 f gone root o 1 101 50
put 0 x; remove 1 | plain normal 10 | 1 9 1 100 50 live | 900 -> make 1:9 1:10 f gone root o 3 900 50
put 0 x; remove 1 | plain initial 10 | 1 9 3 100 50 live | 90 -> make 1:9 1:10 f gone root o 3 101 50
put 0 x; remove 1 | plain initial 10 | none | 90 -> skip
put 0 x; remove 1 | plain initial 10 | 1 9 1 100 50 gone | 90 -> skip";

/// What the installer did makes nothing, and what is done over it does.
const REPLICA: &str = "make 20 | plain initial 9 | none | 100 -> skip
make 20; place 1 x | plain initial 10 | 2 20 3 100 50 live | 100 -> skip
make 20; erase 1 | plain initial 10 | 2 20 3 500 400 live | 100 -> skip
make 20; place 1 x; over 1 | plain initial 11 | 2 20 3 500 400 live | 100 -> make 2:20 1:11 f live root x 3 501 400
make 20; place 1 x; remove 1 | plain initial 11 | 2 20 3 500 400 live | 100 -> make 2:20 1:11 f gone root o 3 501 400";

/// A clock of 2^62 or more is refused, where an update would be made.
const CLOCKS: &str =
    "put 0 x; over 1 | plain initial 10 | 1 9 1 4611686018427387902 50 live | 100 -> make 1:9 1:10 f live root x 1 4611686018427387903 50
put 0 x; over 1 | plain initial 10 | 1 9 1 4611686018427387903 50 live | 100 -> a clock of 4611686018427387904
put 0 x; over 1 | plain initial 10 | 1 9 1 4611686018427387902 50 live | 2305843009213693951 -> make 1:9 1:10 f live root x 1 4611686018427387903 50
put 0 x; over 1 | plain initial 10 | 1 9 1 4611686018427387903 50 live | 2305843009213693951 -> a clock of 4611686018427387904
put 0 x; remove 1 | plain initial 10 | 1 9 1 4611686018427387903 50 live | 100 -> a clock of 4611686018427387904
put 0 x | plain initial 9 | none | 4611686018427387903 -> make 1:9 1:9 f live root x 1 4611686018427387903 4611686018427387903
put 0 x | plain initial 9 | none | 4611686018427387904 -> a clock of 4611686018427387904
put 0 x | plain initial 9 | none | 18446744073709551615 -> a clock of 18446744073709551615
put 0 x; over 1 | plain initial 9 | 1 9 1 4611686018427387903 50 live | 100 -> skip
put 0 x | plain initial 10 | 1 9 1 4611686018427387903 50 live | 18446744073709551615 -> end";

#[test]
fn local_changes_make_updates(rt: HostRuntime) -> Result<(), Fail> {
    try_rows(&rt, rt.alloc(), CHANGES)
}

#[test]
fn records_of_what_is_gone_or_changed_again_are_passed(rt: HostRuntime) -> Result<(), Fail> {
    try_rows(&rt, rt.alloc(), PASSED)
}

#[test]
fn updates_win_over_the_held_record(rt: HostRuntime) -> Result<(), Fail> {
    try_rows(&rt, rt.alloc(), OVER_A_RECORD)
}

#[test]
fn removals_make_tombstones(rt: HostRuntime) -> Result<(), Fail> {
    try_rows(&rt, rt.alloc(), REMOVALS)
}

#[test]
fn what_the_installer_did_makes_nothing(rt: HostRuntime) -> Result<(), Fail> {
    try_rows(&rt, rt.alloc(), REPLICA)
}

#[test]
fn clocks_end_below_2_to_the_62(rt: HostRuntime) -> Result<(), Fail> {
    try_rows(&rt, rt.alloc(), CLOCKS)
}

#[test]
fn a_tombstone_keeps_the_hash_and_drops_the_flags(rt: HostRuntime) -> Result<(), Fail> {
    let row = "put 0 x; remove 1 | plain initial 10 | 1 9 1 100 50 live | 90";
    let found = row_answer(rt.alloc(), row)?;
    let mut wanted = record_of(rt.alloc(), "1 9 1 101 50 gone")?;
    wanted.name_conflict = false;
    wanted.similarity = [0; 16];
    wanted.flags = 0;
    wanted.gvsn = Gvsn {
        db: database_of(1),
        version: 10,
    };
    assert!(rt; found == Ok(Consumed::Make(wanted)));
    Ok(())
}
