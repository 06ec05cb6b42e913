// What no contract says: that the calls succeed, and books written out by hand.
use frs_base::{Guid, Gvsn, MemberKind, Name, Phase, Sum, Uid, content_set, database_of};
use marshal_form::Form;
use record_db::{Book, BookCmd};
use std::alloc::Global;
use std::process::Abort;
use std::test::Fail;
use version_vector::{Interval, Vector, VectorError};
use win_order::Update;

fn file(born: u64) -> Uid {
    Uid {
        db: database_of(1),
        version: born,
    }
}

/// An update of the first member's file that was born with this number.
fn update(alloc: Global, born: u64, gvsn: Gvsn, clock: u64) -> Result<Update, Fail> {
    Ok(Update {
        present: true,
        name_conflict: false,
        attributes: 0x20,
        fence: 3,
        clock,
        created: 100,
        set: content_set(),
        hash: Sum([0; 20]),
        similarity: [0; 16],
        uid: file(born),
        gvsn,
        parent: Uid {
            db: content_set(),
            version: 1,
        },
        name: Name::from_units(alloc, &[0x78])?,
        flags: 0,
    })
}

fn version_of(member: u64, version: u64) -> Gvsn {
    Gvsn {
        db: database_of(member),
        version,
    }
}

fn part(member: u64, low: u64, high: u64) -> Interval {
    Interval {
        db: database_of(member),
        low,
        high,
    }
}

fn book() -> Book {
    Book::new(MemberKind::Plain, database_of(1), content_set())
}

/// A form of one byte.
fn form(alloc: Global, number: u64) -> Result<Form, Fail> {
    let bytes = Vec::from_array(alloc, [(number % 256) as u8])?;
    Ok(Form::of(alloc, bytes)?)
}

/// The numbers of a line, parted by spaces.
fn numbers_of(alloc: Global, text: &str) -> Result<Vec<u64>, Fail> {
    let mut numbers = Vec::new(alloc);
    for word in text.split(' ') {
        numbers.push(word.parse::<u64>()?)?;
    }
    Ok(numbers)
}

/// The command of a line: `skip USN`, `local MEMBER VERSION BORN CLOCK USN`,
/// `adopt MEMBER VERSION BORN CLOCK`, or `folder` for one of a directory,
/// `stage MEMBER VERSION BORN CLOCK BYTE`, `finish MEMBER LOW HIGH` or `unstage BORN`.
fn command(alloc: Global, line: &str) -> Result<BookCmd, Fail> {
    let (word, rest) = line.split_once(' ').ok_or("no word")?;
    let numbers = numbers_of(alloc, rest)?;
    match numbers.as_slice() {
        [born] if word == "unstage" => Ok(BookCmd::Unstage { uid: file(*born) }),
        [usn] => Ok(BookCmd::RecordLocal {
            usn: *usn,
            update: None,
        }),
        [member, low, high] => Ok(BookCmd::Finish {
            sent: Vector::of(alloc, &[part(*member, *low, *high)])?,
        }),
        [member, version, born, clock, byte] if word == "stage" => Ok(BookCmd::Adopt {
            update: update(alloc, *born, version_of(*member, *version), *clock)?,
            form: Some(form(alloc, *byte)?),
        }),
        [member, version, born, clock, usn] => Ok(BookCmd::RecordLocal {
            usn: *usn,
            update: Some(update(alloc, *born, version_of(*member, *version), *clock)?),
        }),
        [member, version, born, clock] if word == "adopt" => Ok(BookCmd::Adopt {
            update: update(alloc, *born, version_of(*member, *version), *clock)?,
            form: None,
        }),
        [member, version, born, clock] if word == "folder" => {
            let mut update = update(alloc, *born, version_of(*member, *version), *clock)?;
            update.attributes = 0x10;
            Ok(BookCmd::Adopt { update, form: None })
        }
        _ => Err("no command")?,
    }
}

/// Does a command by the call that has its name.
fn done(alloc: Global, book: &mut Book, cmd: BookCmd) -> Result<(), VectorError> {
    match cmd {
        BookCmd::RecordLocal { usn, update } => book.record_local(alloc, usn, update),
        BookCmd::Adopt { update, form } => book.adopt(alloc, update, form),
        BookCmd::Finish { sent } => book.finish(alloc, &sent),
        BookCmd::Unstage { uid } => {
            book.unstage(uid);
            Ok(())
        }
    }
}

/// The last digit of a database, which is the number of its member.
fn member_of(db: Guid) -> u128 {
    db.number() % 16
}

/// The vector, then each record's birth, version and clock, then what is consumed next.
fn text_of(alloc: Global, book: &Book) -> Result<String, Fail> {
    let mut text = String::new(alloc);
    for i in book.vector().intervals() {
        let db = member_of(i.db);
        let (low, high) = (i.low, i.high);
        text.push_str(format!(in alloc; "{db}:{low}..{high} ")?.as_str())?;
    }
    text.push_str("|")?;
    for record in &book.rows(alloc)? {
        let db = member_of(record.gvsn.db);
        let (born, version, clock) = (record.uid.version, record.gvsn.version, record.clock);
        text.push_str(format!(in alloc; " {born}={db}:{version}@{clock}")?.as_str())?;
    }
    let consumed = book.consumed();
    text.push_str(format!(in alloc; " | {consumed}")?.as_str())?;
    text.push_str(if book.phase() == Phase::Initial {
        " initial"
    } else {
        " normal"
    })?;
    Ok(text)
}

/// Commands, and what the book then is.
fn rows() -> &'static str {
    "local 1 9 9 100 9 -> 1:9..10 | 9=1:9@100 | 10 initial
skip 10 -> 1:9..11 | 9=1:9@100 | 11 initial
local 1 11 11 100 11 -> 1:9..12 | 9=1:9@100 11=1:11@100 | 12 initial
local 1 12 9 200 12 -> 1:9..13 | 9=1:12@200 11=1:11@100 | 13 initial
adopt 2 20 10 300 -> 1:9..13 2:20..21 | 9=1:12@200 10=2:20@300 11=1:11@100 | 13 initial
adopt 2 22 11 300 -> 1:9..13 2:20..21 2:22..23 | 9=1:12@200 10=2:20@300 11=2:22@300 | 13 initial
adopt 3 9 11 50 -> 1:9..13 2:20..21 2:22..23 | 9=1:12@200 10=2:20@300 11=2:22@300 | 13 initial
adopt 3 9 11 350 -> 1:9..13 2:20..21 2:22..23 3:9..10 | 9=1:12@200 10=2:20@300 11=3:9@350 | 13 initial
adopt 3 9 12 900 -> 1:9..13 2:20..21 2:22..23 3:9..10 | 9=1:12@200 10=2:20@300 11=3:9@350 | 13 initial
adopt 1 14 12 900 -> 1:9..13 2:20..21 2:22..23 3:9..10 | 9=1:12@200 10=2:20@300 11=3:9@350 | 13 initial
adopt 2 30 13 900 -> 1:9..13 2:20..21 2:22..23 3:9..10 | 9=1:12@200 10=2:20@300 11=3:9@350 | 13 initial
folder 2 30 9 900 -> 1:9..13 2:20..21 2:22..23 3:9..10 | 9=1:12@200 10=2:20@300 11=3:9@350 | 13 initial
finish 1 9 14 -> 1:9..13 2:20..21 2:22..23 3:9..10 | 9=1:12@200 10=2:20@300 11=3:9@350 | 13 initial
finish 2 9 23 -> 1:9..13 2:9..23 3:9..10 | 9=1:12@200 10=2:20@300 11=3:9@350 | 13 normal
local 1 14 9 400 13 -> 1:9..13 2:9..23 3:9..10 | 9=1:12@200 10=2:20@300 11=3:9@350 | 13 normal
local 2 13 9 400 13 -> 1:9..13 2:9..23 3:9..10 | 9=1:12@200 10=2:20@300 11=3:9@350 | 13 normal
local 1 12 9 400 12 -> 1:9..13 2:9..23 3:9..10 | 9=1:12@200 10=2:20@300 11=3:9@350 | 13 normal
skip 12 -> 1:9..13 2:9..23 3:9..10 | 9=1:12@200 10=2:20@300 11=3:9@350 | 13 normal
skip 14 -> 1:9..13 2:9..23 3:9..10 | 9=1:12@200 10=2:20@300 11=3:9@350 | 13 normal
skip 18446744073709551615 -> 1:9..13 2:9..23 3:9..10 | 9=1:12@200 10=2:20@300 11=3:9@350 | 13 normal
adopt 2 18446744073709551615 9 400 -> 1:9..13 2:9..23 3:9..10 | 9=1:12@200 10=2:20@300 11=3:9@350 | 13 normal
adopt 3 18446744073709551614 9 400 -> 1:9..13 2:9..23 3:9..10 3:18446744073709551614..18446744073709551615 | 9=3:18446744073709551614@400 10=2:20@300 11=3:9@350 | 13 normal"
}

// What owns a book lends it to one function: each early return past a book that is owned makes a
// proof much longer.

/// Does the command of a line.
fn do_line(alloc: Global, book: &mut Book, words: &str) -> Result<(), Fail> {
    done(alloc, book, command(alloc, words)?)?;
    Ok(())
}

/// Does the commands of these rows.
fn try_rows(rt: &impl Abort, alloc: Global, book: &mut Book) -> Result<(), Fail> {
    for line in rows().lines() {
        let (words, wanted) = line.split_once(" -> ").ok_or("no arrow")?;
        do_line(alloc, book, words)?;
        assert_eq!(rt; text_of(alloc, book)?.as_str(), wanted, "{words}");
    }
    Ok(())
}

#[test]
fn a_book_takes_commands(rt: HostRuntime) -> Result<(), Fail> {
    let mut book = book();
    try_rows(&rt, rt.alloc(), &mut book)
}

/// Makes a command ready and takes it, and answers what the book was in between.
fn ready_and_taken(alloc: Global, book: &mut Book, words: &str) -> Result<String, Fail> {
    let cmd = command(alloc, words)?;
    let ready = book.ready(alloc, cmd)?;
    let between = text_of(alloc, book);
    book.take(ready);
    between
}

/// Makes the commands of these rows ready one after the other, and takes each.
fn try_ready_rows(rt: &impl Abort, alloc: Global, book: &mut Book) -> Result<(), Fail> {
    for line in rows().lines() {
        let (words, wanted) = line.split_once(" -> ").ok_or("no arrow")?;
        let before = text_of(alloc, book)?;
        let between = ready_and_taken(alloc, book, words)?;
        assert_eq!(rt; between.as_str(), before.as_str(), "{words}");
        assert_eq!(rt; text_of(alloc, book)?.as_str(), wanted, "{words}");
    }
    Ok(())
}

#[test]
fn a_command_that_is_ready_is_taken_as_the_call_does_it(rt: HostRuntime) -> Result<(), Fail> {
    let mut book = book();
    try_ready_rows(&rt, rt.alloc(), &mut book)
}

#[test]
fn a_fresh_book_has_nothing(rt: HostRuntime) -> Result<(), Fail> {
    let book = book();
    assert_eq!(rt; text_of(rt.alloc(), &book)?.as_str(), "| | 9 initial");
    assert_eq!(rt; book.kind(), MemberKind::Plain);
    assert_eq!(rt; book.own(), database_of(1));
    assert_eq!(rt; book.set(), content_set());
    assert!(rt; book.held(file(9)).is_none());
    assert!(rt; book.form(file(9)).is_none());
    Ok(())
}

/// The book holds just this record of this file.
fn holds(book: &Book, born: u64, record: Option<&Update>) -> bool {
    book.held(file(born)) == record
}

/// Does the first six commands, and looks for two files.
fn try_finding(rt: &impl Abort, alloc: Global, book: &mut Book) -> Result<(), Fail> {
    for line in rows().lines().take(6) {
        let (words, _) = line.split_once(" -> ").ok_or("no arrow")?;
        do_line(alloc, book, words)?;
    }
    let found = update(alloc, 10, version_of(2, 20), 300)?;
    assert!(rt; holds(book, 10, Some(&found)));
    assert!(rt; holds(book, 12, None));
    Ok(())
}

#[test]
fn records_are_found_and_copied(rt: HostRuntime) -> Result<(), Fail> {
    let mut book = book();
    try_finding(&rt, rt.alloc(), &mut book)
}

/// Adopts an update of another content set than the book's.
fn try_adopting(rt: &impl Abort, alloc: Global, book: &mut Book) -> Result<(), Fail> {
    book.adopt(alloc, update(alloc, 9, version_of(2, 9), 100)?, None)?;
    let records = book.rows(alloc)?;
    for record in &records {
        assert_eq!(rt; record.set, Guid::of_number(7));
    }
    assert_eq!(rt; records.len(), 1);
    Ok(())
}

#[test]
fn a_record_is_of_the_book_s_content_set(rt: HostRuntime) -> Result<(), Fail> {
    let mut book = Book::new(MemberKind::Primary, database_of(4), Guid::of_number(7));
    try_adopting(&rt, rt.alloc(), &mut book)
}

/// The byte of the form that is staged of a file.
fn staged_byte(book: &Book, born: u64) -> Option<u8> {
    match book.form(file(born)) {
        None => None,
        Some(form) => form.as_slice().first().copied(),
    }
}

/// What is staged, by birth.
fn staged_text(alloc: Global, book: &Book) -> Result<String, Fail> {
    let mut text = String::from_str(alloc, "|")?;
    for born in 9..13u64 {
        if let Some(byte) = staged_byte(book, born) {
            text.push_str(format!(in alloc; " {born}={byte}")?.as_str())?;
        }
    }
    Ok(text)
}

/// Commands, and what is then staged.
fn staging_rows() -> &'static str {
    "skip 9 -> |
skip 10 -> |
skip 11 -> |
skip 12 -> |
stage 2 20 12 300 7 -> | 12=7
stage 2 21 10 300 8 -> | 10=8 12=7
stage 2 22 11 300 9 -> | 10=8 11=9 12=7
stage 2 23 11 200 4 -> | 10=8 11=9 12=7
stage 3 9 11 400 6 -> | 10=8 11=6 12=7
stage 3 18446744073709551615 9 400 5 -> | 10=8 11=6 12=7
adopt 2 23 12 400 -> | 10=8 11=6
local 1 13 10 500 13 -> | 11=6
skip 14 -> | 11=6
unstage 12 -> | 11=6
finish 2 9 30 -> | 11=6
unstage 11 -> |"
}

/// Does the commands of these rows.
fn try_staging_rows(rt: &impl Abort, alloc: Global, book: &mut Book) -> Result<(), Fail> {
    for line in staging_rows().lines() {
        let (words, wanted) = line.split_once(" -> ").ok_or("no arrow")?;
        do_line(alloc, book, words)?;
        assert_eq!(rt; staged_text(alloc, book)?.as_str(), wanted, "{words}");
    }
    Ok(())
}

#[test]
fn a_form_is_staged_until_its_file_changes(rt: HostRuntime) -> Result<(), Fail> {
    let mut book = book();
    try_staging_rows(&rt, rt.alloc(), &mut book)
}

/// So many versions of the second member, with a gap behind each.
fn gaps(alloc: Global, count: u32) -> Result<Vector, Fail> {
    let mut intervals = Vec::new(alloc);
    for i in 0..count {
        let low = 2 * u64::from(i) + 10;
        intervals.push(part(2, low, low + 1))?;
    }
    Ok(Vector::of(alloc, &intervals)?)
}

/// What a command answers in a book with as many intervals as a vector may have, and how many
/// there are then.
fn answer_of(
    alloc: Global,
    book: &mut Book,
    line: &str,
) -> Result<(Result<(), VectorError>, usize), Fail> {
    let full = gaps(alloc, 65_536)?;
    book.finish(alloc, &full)?;
    let cmd = command(alloc, line)?;
    let answer = done(alloc, book, cmd);
    Ok((answer, book.vector().intervals().len()))
}

/// The same in a book of the fourth member.
fn answer(alloc: Global, line: &str) -> Result<(Result<(), VectorError>, usize), Fail> {
    let mut book = Book::new(MemberKind::Plain, database_of(4), content_set());
    answer_of(alloc, &mut book, line)
}

#[test]
fn a_vector_that_would_be_too_long_is_refused(rt: HostRuntime) -> Result<(), Fail> {
    let full = Err(VectorError::VectorFull { count: 65_537 });
    for (line, wanted, length) in [
        ("skip 9", full, 65_536),
        ("adopt 3 9 9 100", full, 65_536),
        ("adopt 2 9 9 100", Ok(()), 65_536),
        ("adopt 2 11 9 100", Ok(()), 65_535),
        ("finish 3 9 20", full, 65_536),
        ("finish 2 10 20", Ok(()), 65_531),
    ] {
        let (answer, found) = answer(rt.alloc(), line)?;
        assert_eq!(rt; answer, wanted, "{line}");
        assert_eq!(rt; found, length, "{line}");
    }
    Ok(())
}

/// Finishes a round that would cover too much.
fn try_too_much(rt: &impl Abort, alloc: Global, book: &mut Book) -> Result<(), Fail> {
    let much = gaps(alloc, 65_537)?;
    let full = Err(VectorError::VectorFull { count: 65_537 });
    assert_eq!(rt; book.finish(alloc, &much), full);
    assert_eq!(rt; text_of(alloc, book)?.as_str(), "| | 9 initial");
    Ok(())
}

#[test]
fn a_round_that_would_cover_too_much_changes_nothing(rt: HostRuntime) -> Result<(), Fail> {
    let mut book = book();
    try_too_much(&rt, rt.alloc(), &mut book)
}
