// What no contract says: that the calls succeed, and members written out by hand.
ghost use Rattle.std.specs.Prelude.{IfOk};
ghost use Rattle.folder_core.specs.Replay.{IsEarlyEvent};

use folder_core::{Event, Folder, LocalNote, Note, Reply};
use frs_base::{
    Bytes, Guid, Gvsn, List, MemberKind, Name, Phase, Sum, Uid, content_set, database_of,
};
use marshal_form::{Form, LOCAL, Meta, marshal};
use name_rules::{Step, Subject};
use pinned_pages::{Body, FileAnswer};
use std::alloc::Global;
use std::process::Abort;
use std::test::Fail;
use version_vector::{Interval, Vector};
use vol_state::LocalOp;
use win_order::Update;

fn name_of(alloc: Global, text: &str) -> Result<Name, Fail> {
    let mut units = Vec::new(alloc);
    for byte in text.as_bytes() {
        units.push(u16::from(*byte))?;
    }
    Ok(Name::from_units(alloc, &units)?)
}

/// A path of one name.
fn path_of(alloc: Global, text: &str) -> Result<List<Name>, Fail> {
    let mut names = Vec::new(alloc);
    names.push(name_of(alloc, text)?)?;
    Ok(List::of(names))
}

/// `put NAME TEXT`, `move NAME NAME`, `mkdir NAME` or `remove NAME`.
fn operation(alloc: Global, word: &str, rest: &str) -> Result<Option<LocalOp>, Fail> {
    if word == "mkdir" {
        let path = path_of(alloc, rest)?;
        return Ok(Some(LocalOp::Mkdir { path }));
    }
    if word == "remove" {
        let path = path_of(alloc, rest)?;
        return Ok(Some(LocalOp::Remove { path }));
    }
    let Some((name, text)) = rest.split_once(' ') else {
        return Ok(None);
    };
    let path = path_of(alloc, name)?;
    if word == "put" {
        let bytes = Bytes::of(Vec::from_slice(alloc, text.as_bytes())?);
        return Ok(Some(LocalOp::Put { path, bytes }));
    }
    if word == "move" {
        let to = path_of(alloc, text)?;
        return Ok(Some(LocalOp::Move { from: path, to }));
    }
    Ok(None)
}

fn version_of(member: u64, version: u64) -> Gvsn {
    Gvsn {
        db: database_of(member),
        version,
    }
}

fn file_of(member: u64, version: u64) -> Uid {
    Uid {
        db: database_of(member),
        version,
    }
}

/// The form of a file with the contents `hi`.
fn hi_form(alloc: Global) -> Result<Vec<u8>, Fail> {
    Ok(marshal(alloc, LOCAL, b"hi")?)
}

/// The form that comes with an update: one of `hi`, or none with `bare`; with other attributes with
/// `hidden`, without its last byte with `short`, and of other contents with `other`.
fn form_of(alloc: Global, word: &str) -> Result<Option<Form>, Fail> {
    if word == "bare" {
        return Ok(None);
    }
    if word == "hidden" {
        let form = marshal(alloc, Meta { attributes: 0x22 }, b"hi")?;
        return Ok(Some(Form::of(alloc, form)?));
    }
    if word == "other" {
        let form = marshal(alloc, LOCAL, b"ho")?;
        return Ok(Some(Form::of(alloc, form)?));
    }
    let mut form = hi_form(alloc)?;
    if word == "short" {
        form.pop();
    }
    Ok(Some(Form::of(alloc, form)?))
}

/// The directory of an update: the root where it is `shown` or `gone`, else one that no member has.
fn parent_of(word: &str) -> Uid {
    if word == "shown" || word == "gone" {
        Uid {
            db: content_set(),
            version: 1,
        }
    } else {
        file_of(0, 1)
    }
}

/// An update of this file, made by this version at this clock; the word says of what: a `directory`, a
/// file of a `foreign` content set, a file that is `gone`, or else a file. A file has the contents `hi`.
fn update_of(alloc: Global, word: &str, gvsn: Gvsn, uid: Uid, clock: u64) -> Result<Update, Fail> {
    Ok(Update {
        present: word != "gone",
        name_conflict: false,
        attributes: if word == "directory" { 0x10 } else { 0x20 },
        fence: 3,
        clock,
        created: 100,
        set: if word == "foreign" {
            Guid::of_number(5)
        } else {
            content_set()
        },
        hash: if word == "directory" {
            Sum([0; 20])
        } else {
            HI_SUM
        },
        similarity: [0; 16],
        uid,
        gvsn,
        parent: parent_of(word),
        name: name_of(alloc, "x")?,
        flags: 0,
    })
}

fn adopt(update: Update, form: Option<Form>) -> Event
    ensures { IsEarlyEvent result }
{
    Event::Adopt {
        from: database_of(2),
        at: 1,
        update,
        form,
    }
}

fn finish(sent: Vector, seen: Vec<Update>) -> Event
    ensures { IsEarlyEvent result }
{
    Event::Finish {
        from: database_of(2),
        at: 1,
        sent,
        seen: List::of(seen),
    }
}

fn consume(moment: u64) -> Result<Event, Fail>
    ensures { IfOk result IsEarlyEvent }
{
    if moment < 1 << 61 {
        Ok(Event::Consume { moment })
    } else {
        Err("a late moment")?
    }
}

/// The numbers of a line, parted by spaces.
fn numbers_of(alloc: Global, text: &str) -> Result<Vec<u64>, Fail> {
    let mut numbers = Vec::new(alloc);
    for word in text.split(' ') {
        numbers.push(word.parse::<u64>()?)?;
    }
    Ok(numbers)
}

/// The vector of this many single versions of the second member, no two of which touch.
fn wide(alloc: Global, count: u64) -> Result<Vector, Fail> {
    let db = database_of(2);
    let mut intervals = Vec::new(alloc);
    let mut low = 100;
    for _ in 0..count {
        if low > 1 << 60 {
            return Err("a vector too wide")?;
        }
        let high = low + 1;
        intervals.push(Interval { db, low, high })?;
        low += 2;
    }
    Ok(Vector::of(alloc, &intervals)?)
}

/// `consume MOMENT`, `wide COUNT`, `get MEMBER BORN`, `finish MEMBER LOW HIGH`; an update, which is
/// `MEMBER VERSION MEMBER BORN CLOCK`, behind its word; or `seen` and an update.
fn numbered(alloc: Global, word: &str, numbers: &[u64]) -> Result<Event, Fail>
    ensures { IfOk result IsEarlyEvent }
{
    match numbers {
        [moment] if word == "consume" => consume(*moment),
        [count] => Ok(finish(wide(alloc, *count)?, Vec::new(alloc))),
        [member, born] => Ok(Event::File {
            uid: file_of(*member, *born),
        }),
        [member, low, high] => {
            let part = Interval {
                db: database_of(*member),
                low: *low,
                high: *high,
            };
            Ok(finish(Vector::of(alloc, &[part])?, Vec::new(alloc)))
        }
        [member, version, maker, born, clock] => {
            let (gvsn, uid) = (version_of(*member, *version), file_of(*maker, *born));
            let update = update_of(alloc, word, gvsn, uid, *clock)?;
            if word == "seen" {
                let mut seen = Vec::new(alloc);
                seen.push(update)?;
                return Ok(finish(Vector::empty(), seen));
            }
            Ok(adopt(update, form_of(alloc, word)?))
        }
        _ => Err("no event")?,
    }
}

/// The event of a line.
fn event_of(alloc: Global, line: &str) -> Result<Event, Fail>
    ensures { IfOk result IsEarlyEvent }
{
    let Some((word, rest)) = line.split_once(' ') else {
        return Ok(if line == "install" {
            Event::Install
        } else {
            Event::Vector
        });
    };
    if let Some(operation) = operation(alloc, word, rest)? {
        return Ok(Event::Local(operation));
    }
    let numbers = numbers_of(alloc, rest)?;
    numbered(alloc, word, numbers.as_slice())
}

fn answer_text(alloc: Global, answer: &FileAnswer) -> Result<String, Fail> {
    Ok(match answer {
        FileAnswer::Found { at, update, body } => {
            let version = update.gvsn.version;
            let length = body.as_ref().map(Body::length).unwrap_or(0);
            format!(in alloc; "found {version} at {at} with {length}")?
        }
        FileAnswer::NotYet { usn } => format!(in alloc; "not yet {usn}")?,
        FileAnswer::NoRecord => String::from_str(alloc, "no record")?,
    })
}

fn step_text(alloc: Global, step: &Step) -> Result<String, Fail> {
    let word = step.word();
    let number = match step.subject() {
        Subject::Uid(uid) => uid.version,
        Subject::Usn(usn) => usn,
    };
    Ok(format!(in alloc; "did {word} {number}")?)
}

fn text_of(alloc: Global, reply: &Reply) -> Result<String, Fail> {
    Ok(match reply {
        Reply::Usn(usn) => format!(in alloc; "usn {usn}")?,
        Reply::Made(gvsn) => {
            let version = gvsn.version;
            format!(in alloc; "made {version}")?
        }
        Reply::Skipped(usn) => format!(in alloc; "skipped {usn}")?,
        Reply::Nothing => String::from_str(alloc, "nothing")?,
        Reply::Sent(pinned) => {
            let (parts, records) = (pinned.vector.intervals().len(), pinned.records.len());
            let at = pinned.at;
            format!(in alloc; "sent {parts} of {records} at {at}")?
        }
        Reply::File(answer) => answer_text(alloc, answer)?,
        Reply::Adopted => String::from_str(alloc, "adopted")?,
        Reply::Finished => String::from_str(alloc, "finished")?,
        Reply::Did(step) => step_text(alloc, step)?,
        Reply::Drained => String::from_str(alloc, "drained")?,
        Reply::Refused(why) => format!(in alloc; "{why}")?,
    })
}

/// Next USN, what is consumed next, how many intervals and records, and the generation.
fn state_text(alloc: Global, folder: &Folder) -> Result<String, Fail> {
    let book = folder.book();
    let (next, consumed) = (folder.volume().next_usn(), book.consumed());
    let (parts, records) = (book.vector().intervals().len(), book.rows(alloc)?.len());
    let generation = folder.generation();
    Ok(format!(in alloc; "{next} {consumed} {parts} {records} {generation}")?)
}

/// How many events came.
fn entries(folder: &Folder) -> usize {
    folder.history().len()
}

/// What is answered to an event of the caller 7.
fn answered(alloc: Global, folder: &mut Folder, event: Event) -> Result<String, Fail>
    requires { IsEarlyEvent event }
{
    let reply = folder.event(alloc, 7, event)?;
    text_of(alloc, &reply)
}

/// What is answered to the event of a line.
fn said(alloc: Global, folder: &mut Folder, line: &str) -> Result<String, Fail> {
    let event = event_of(alloc, line)?;
    answered(alloc, folder, event)
}

/// The row of a line: what is answered, and what the folder is then.
fn row_of(alloc: Global, folder: &mut Folder, line: &str) -> Result<String, Fail> {
    let said = said(alloc, folder, line)?;
    let state = state_text(alloc, folder)?;
    Ok(format!(in alloc; "{line} -> {said} | {state}")?)
}

/// Each entry can be copied, and its copy has the caller 7.
fn are_copied(alloc: Global, folder: &Folder) -> Result<bool, Fail> {
    for entry in folder.history() {
        if entry.copy(alloc)?.caller != 7 {
            return Ok(false);
        }
    }
    Ok(true)
}

/// Each row is an event, its reply, and what the folder is then. Each is in the history, whose
/// entries can be copied.
fn try_rows(rt: &impl Abort, alloc: Global, folder: &mut Folder, rows: &str) -> Result<(), Fail> {
    for row in rows.lines() {
        let line = match row.split_once(" -> ") {
            None => row,
            Some((line, _)) => line,
        };
        let length = entries(folder);
        assert_eq!(rt; row_of(alloc, folder, line)?.as_str(), row);
        assert!(rt; length < entries(folder), "{line}");
    }
    assert!(rt; are_copied(alloc, folder)?);
    Ok(())
}

fn primary() -> Folder {
    Folder::new(MemberKind::Primary, database_of(1), content_set())
}

// What owns a folder lends it to one function: each early return past an owned folder makes a proof
// much longer.

/// Tries the rows in a folder of their own.
fn try_alone(rt: &impl Abort, alloc: Global, rows: &str) -> Result<(), Fail> {
    try_rows(rt, alloc, &mut primary(), rows)
}

/// The one record is of this directory, which is gone.
fn is_gone(alloc: Global, folder: &Folder, uid: &Uid) -> Result<bool, Fail> {
    let records = folder.book().rows(alloc)?;
    let [record] = records.as_slice() else {
        return Ok(false);
    };
    Ok(
        !record.present
            && record.uid == *uid
            && record.is_directory()
            && record.fence == 2
            && record.clock == 12
            && record.created == 10,
    )
}

/// Makes a directory, moves it and removes it.
fn try_moved(rt: &impl Abort, alloc: Global, folder: &mut Folder) -> Result<(), Fail> {
    try_rows(
        rt,
        alloc,
        folder,
        "mkdir d -> usn 9 | 10 9 0 0 0
consume 10 -> made 9 | 10 10 1 1 2
move d e -> usn 10 | 11 10 1 1 2
remove e -> usn 11 | 12 10 1 1 2
consume 11 -> skipped 10 | 12 11 1 1 5
consume 12 -> made 11 | 12 12 1 1 6
consume 13 -> nothing | 12 12 1 1 6",
    )?;
    assert!(rt; is_gone(alloc, folder, &file_of(1, 9))?);
    Ok(())
}

/// The move's record is passed, since a later one is there.
#[test]
fn moved_and_removed(rt: HostRuntime) -> Result<(), Fail> {
    let mut folder = primary();
    try_moved(&rt, rt.alloc(), &mut folder)
}

#[test]
fn local_refusals(rt: HostRuntime) -> Result<(), Fail> {
    try_alone(
        &rt,
        rt.alloc(),
        "remove f -> no such path | 9 9 0 0 0
put f 1 -> usn 9 | 10 9 0 0 0
mkdir F -> the name is taken | 10 9 0 0 0
move f f -> usn 10 | 11 9 0 0 0",
    )
}

/// A file of a partner is made, gets other contents, leaves a place that it was moved to, and goes.
/// The own records of the installer are passed; nothing is installed before a local record.
#[test]
fn what_is_pulled_is_installed(rt: HostRuntime) -> Result<(), Fail> {
    try_alone(
        &rt,
        rt.alloc(),
        "install -> drained | 9 9 0 0 0
shown 2 9 2 9 500 -> adopted | 9 9 1 1 2
install -> did make 9 | 10 9 1 1 2
install -> did place 9 | 11 9 1 1 2
install -> did unstage 9 | 11 9 1 1 2
install -> did skip 9 | 11 10 2 1 6
install -> did skip 10 | 11 11 2 1 7
install -> drained | 11 11 2 1 7
get 2 9 -> found 9 at 9 with 46 | 11 11 2 1 7
put x ho -> usn 11 | 12 11 2 1 7
install -> the journal record 11 is to be consumed first | 12 11 2 1 7
consume 600 -> made 11 | 12 12 2 1 12
install -> drained | 12 12 2 1 12
shown 2 10 2 9 900 -> adopted | 12 12 2 1 14
install -> did rewrite 9 | 13 12 2 1 14
install -> did unstage 9 | 13 12 2 1 14
install -> did skip 12 | 13 13 2 1 17
install -> drained | 13 13 2 1 17
move x y -> usn 13 | 14 13 2 1 17
consume 1000 -> made 13 | 14 14 2 1 20
shown 2 11 2 9 1100 -> adopted | 14 14 2 1 21
install -> did park 9 | 15 14 2 1 21
install -> did place 9 | 16 14 2 1 21
install -> did unstage 9 | 16 14 2 1 21
install -> did skip 14 | 16 15 2 1 25
install -> did skip 15 | 16 16 2 1 26
install -> drained | 16 16 2 1 26
gone 2 12 2 9 1200 -> adopted | 16 16 2 1 28
install -> did park 9 | 17 16 2 1 28
install -> did erase 9 | 18 16 2 1 28
install -> did skip 16 | 18 17 2 1 31
install -> did skip 17 | 18 18 2 1 32
install -> drained | 18 18 2 1 32",
    )
}

/// A partner set the clock of an own file as far as it may: the next change is refused.
#[test]
fn skewed(rt: HostRuntime) -> Result<(), Fail> {
    try_alone(
        &rt,
        rt.alloc(),
        "put x 1 -> usn 9 | 10 9 0 0 0
consume 10 -> made 9 | 10 10 1 1 2
file 2 12 1 9 4611686018427387903 -> adopted | 10 10 2 1 3
put x 2 -> usn 10 | 11 10 2 1 3
consume 20 -> the clock 4611686018427387904 is too far ahead | 11 10 2 1 3",
    )
}

/// How far the member has come.
fn phase(folder: &Folder) -> Phase {
    folder.book().phase()
}

/// Asks for files while changes wait, and for what is covered.
fn try_asked(rt: &impl Abort, alloc: Global, folder: &mut Folder) -> Result<(), Fail> {
    try_rows(
        rt,
        alloc,
        folder,
        "put x 1 -> usn 9 | 10 9 0 0 0
get 1 9 -> no record | 10 9 0 0 0
consume 10 -> made 9 | 10 10 1 1 3
get 1 9 -> found 9 at 4 with 45 | 10 10 1 1 3
put x 2 -> usn 10 | 11 10 1 1 3
put x 3 -> usn 11 | 12 10 1 1 3
get 1 9 -> not yet 11 | 12 10 1 1 3
vector -> sent 1 of 1 at 8 | 12 10 1 1 3",
    )?;
    assert!(rt; entries(folder) == 8 && phase(folder) == Phase::Initial);
    Ok(())
}

#[test]
fn what_is_asked_for(rt: HostRuntime) -> Result<(), Fail> {
    let mut folder = primary();
    try_asked(&rt, rt.alloc(), &mut folder)
}

/// What `sha1sum` says of the form of a file with the contents `hi`.
const HI_SUM: Sum = Sum([
    0x23, 0x3d, 0x31, 0x19, 0xee, 0xf9, 0x4b, 0x3c, 0x5d, 0x27, 0x9f, 0xb6, 0xf3, 0x96, 0x0f, 0xbb,
    0x04, 0xc7, 0x1c, 0xb0,
]);

/// What comes with a present file is staged, where it is the form of a local file and has its hash;
/// the form of an own change is that of its object.
#[test]
fn forms_are_checked_and_given(rt: HostRuntime) -> Result<(), Fail> {
    try_alone(
        &rt,
        rt.alloc(),
        "bare 2 9 2 9 10 -> no form of a file at byte 0 | 9 9 0 0 0
hidden 2 9 2 9 10 -> no form of a file at byte 24 | 9 9 0 0 0
short 2 9 2 9 10 -> no form of a file at byte 44 | 9 9 0 0 0
other 2 9 2 9 10 -> the form has another sum | 9 9 0 0 0
file 2 9 2 9 10 -> adopted | 9 9 1 1 5
get 2 9 -> found 9 at 6 with 46 | 9 9 1 1 5
directory 2 10 2 10 10 -> adopted | 9 9 1 2 7
get 2 10 -> found 10 at 8 with 0 | 9 9 1 2 7
put f a -> usn 9 | 10 9 1 2 7
consume 10 -> made 9 | 10 10 2 3 10
get 1 9 -> found 9 at 11 with 45 | 10 10 2 3 10",
    )
}

/// What `sha1sum` says of the bytes `form`.
const FORM_SUM: Sum = Sum([
    0xd0, 0x0b, 0x39, 0x81, 0x5c, 0x18, 0x7d, 0x83, 0x2c, 0xef, 0x32, 0x39, 0xeb, 0x7a, 0x77, 0x58,
    0x07, 0x28, 0xdc, 0x47,
]);

/// The sum in the note of the first of two entries, a put.
fn put_sum(folder: &Folder) -> Option<Sum> {
    let [put, _] = folder.history() else {
        return None;
    };
    match &put.note {
        Note::Local(LocalNote::Put { path: _, sum }) => Some(*sum),
        _ => None,
    }
}

/// The sum of the form in the note of the second of two entries, an adoption.
fn form_sum(folder: &Folder) -> Option<Sum> {
    let [_, adopted] = folder.history() else {
        return None;
    };
    match &adopted.note {
        Note::Adopt { form, .. } => *form,
        _ => None,
    }
}

/// The sum of the one object.
fn object_sum(folder: &Folder) -> Option<Sum> {
    match folder.volume().objects() {
        [object] => Some(object.sum),
        _ => None,
    }
}

/// Adopts an update that comes with the form `form`.
fn adopt_form(alloc: Global, folder: &mut Folder) -> Result<String, Fail> {
    let update = update_of(alloc, "file", version_of(2, 9), file_of(2, 9), 10)?;
    let form = Form::of(alloc, Vec::from_slice(alloc, b"form")?)?;
    answered(alloc, folder, adopt(update, Some(form)))
}

/// Puts the contents `hi` and adopts an update with the form `form`.
fn try_sums(rt: &impl Abort, alloc: Global, folder: &mut Folder) -> Result<(), Fail> {
    try_rows(rt, alloc, folder, "put f hi -> usn 9 | 10 9 0 0 0")?;
    let said = adopt_form(alloc, folder)?;
    assert_eq!(rt; said.as_str(), "no form of a file at byte 0");
    assert!(rt; put_sum(folder) == Some(HI_SUM));
    assert!(rt; object_sum(folder) == Some(HI_SUM));
    assert!(rt; form_sum(folder) == Some(FORM_SUM));
    Ok(())
}

/// The contents of a put have the sum that they give its file, and a form has its own.
#[test]
fn notes_keep_sums(rt: HostRuntime) -> Result<(), Fail> {
    let mut folder = primary();
    try_sums(&rt, rt.alloc(), &mut folder)
}

/// Each refusal of an update, by the record that is held and without one.
#[test]
fn adopt_refusals(rt: HostRuntime) -> Result<(), Fail> {
    try_alone(
        &rt,
        rt.alloc(),
        "put f 1 -> usn 9 | 10 9 0 0 0
foreign 2 9 2 9 10 -> of another content set | 10 9 0 0 0
file 1 9 2 9 10 -> the own version 9 isn't made yet | 10 9 0 0 0
file 2 9 1 9 10 -> the own version 9 isn't made yet | 10 9 0 0 0
consume 10 -> made 9 | 10 10 1 1 5
file 2 10 2 9 10 -> adopted | 10 10 2 2 6
directory 2 11 2 9 9 -> a directory in place of a file | 10 10 2 2 6
file 2 11 2 9 9 -> the record that is held stands | 10 10 2 2 6
file 2 10 2 9 10 -> the record that is held stands | 10 10 2 2 6
file 2 11 2 9 11 -> adopted | 10 10 2 2 10
file 2 10 2 8 12 -> version 10 is covered | 10 10 2 2 10",
    )
}

/// An update of the other kind than the member's object, of which no record is held.
#[test]
fn kind_of_an_object(rt: HostRuntime) -> Result<(), Fail> {
    try_alone(
        &rt,
        rt.alloc(),
        "mkdir d -> usn 9 | 10 9 0 0 0
move d g -> usn 10 | 11 9 0 0 0
consume 10 -> skipped 9 | 11 10 1 0 3
file 2 9 1 9 10 -> a file in place of a directory | 11 10 1 0 3
directory 2 9 1 9 10 -> adopted | 11 10 2 1 5",
    )
}

/// Finishes rounds, and is refused some.
fn try_finish(rt: &impl Abort, alloc: Global, folder: &mut Folder) -> Result<(), Fail> {
    try_rows(
        rt,
        alloc,
        folder,
        "put f 1 -> usn 9 | 10 9 0 0 0
consume 10 -> made 9 | 10 10 1 1 2
finish 1 3 40 -> the own version 10 isn't made yet | 10 10 1 1 2
finish 1 20 40 -> the own version 20 isn't made yet | 10 10 1 1 2
seen 2 9 2 9 10 -> the file 9 isn't held | 10 10 1 1 2
seen 1 9 1 9 1 -> the file 9 isn't held | 10 10 1 1 2
finish 2 9 12 -> finished | 10 10 2 1 7
finish 2 9 11 -> finished | 10 10 2 1 7",
    )?;
    assert!(rt; phase(folder) == Phase::Normal);
    Ok(())
}

#[test]
fn finish_and_its_refusals(rt: HostRuntime) -> Result<(), Fail> {
    let mut folder = primary();
    try_finish(&rt, rt.alloc(), &mut folder)
}

/// A vector of 65,536 intervals is taken, and nothing that would make it longer.
#[test]
fn vector_full(rt: HostRuntime) -> Result<(), Fail> {
    try_alone(
        &rt,
        rt.alloc(),
        "wide 65537 -> a vector of 65537 intervals | 9 9 0 0 0
wide 65536 -> finished | 9 9 65536 0 2
file 3 9 2 9 10 -> a vector of 65537 intervals | 9 9 65536 0 2
put f 1 -> usn 9 | 10 9 65536 0 2
consume 10 -> a vector of 65537 intervals | 10 9 65536 0 2",
    )
}

/// Puts over a file and consumes the change, so often.
fn try_often(rt: &impl Abort, alloc: Global, folder: &mut Folder, times: u64) -> Result<(), Fail> {
    for turn in 0..times {
        said(alloc, folder, "put x 1")?;
        answered(alloc, folder, consume(turn)?)?;
    }
    assert_eq!(rt; entries(folder), 5_000);
    try_rows(
        rt,
        alloc,
        folder,
        "put x 2 -> usn 2509 | 2510 2509 1 1 5000",
    )
}

/// A history goes on past any bound that a test is likely to have.
#[test]
fn five_thousand_events_of_one_member(rt: HostRuntime) -> Result<(), Fail> {
    let mut folder = primary();
    try_often(&rt, rt.alloc(), &mut folder, 2_500)
}
