// What is done next, by rows of volumes and records.
ghost use Rattle.vol_state.specs.Journal.{IsNumbered};

use crate::made::{fill_book, fill_volume};
use frs_base::{MemberKind, Uid, content_set, database_of};
use install_plan::next_step;
use name_rules::{Next, Step, Subject};
use record_db::Book;
use std::alloc::Global;
use std::process::Abort;
use std::test::Fail;
use vol_state::Volume;

/// A step as a text: its word, and what it is of.
fn step_text(alloc: Global, step: Step) -> Result<String, Fail> {
    let word = step.word();
    match step.subject() {
        Subject::Usn(usn) => Ok(format!(in alloc; "{word} {usn}")?),
        Subject::Uid(Uid { db, version }) => {
            let member = db.number() % 16;
            Ok(format!(in alloc; "{word} {member}:{version}")?)
        }
    }
}

/// What is done next, as a text, by a new agenda and by the one that is left, where the volume and the book are of one member.
fn answer(alloc: Global, volume: &Volume, book: &Book) -> Result<String, Fail>
    requires { IsNumbered volume.now.state }
{
    if volume.own() != book.own() {
        return Err("of two members")?;
    }
    let consumed = book.consumed();
    if consumed < 9 || volume.next_usn() < consumed {
        return Err("no such USN")?;
    }
    let mut agenda = None;
    let next = next_step(alloc, volume, book, &mut agenda)?;
    if next_step(alloc, volume, book, &mut agenda)? != next {
        return Err("another answer by the agenda")?;
    }
    match next {
        Next::Drained => Ok(String::from_str(alloc, "drained")?),
        Next::NotYet { usn } => Ok(format!(in alloc; "not yet {usn}")?),
        Next::Do(step) => step_text(alloc, step),
    }
}

/// The answer of the parts of a row over a volume and a book that have done nothing.
fn parts_answer(
    alloc: Global,
    volume: &mut Volume,
    book: &mut Book,
    parts: [&str; 3],
) -> Result<String, Fail>
    requires { IsNumbered volume.old.state }
{
    let [steps, consumed, records] = parts;
    fill_volume(alloc, volume, steps)?;
    fill_book(alloc, volume, book, consumed.parse::<u64>()?, records)?;
    answer(alloc, volume, book)
}

/// The answer of a row: what was done to the volume, the USN that is consumed next, and the
/// records.
fn row_answer(alloc: Global, row: &str) -> Result<String, Fail> {
    let (steps, rest) = row.split_once(" | ").ok_or("no steps")?;
    let (consumed, records) = rest.split_once(" | ").ok_or("no records")?;
    let mut volume = Volume::new(database_of(1));
    let mut book = Book::new(MemberKind::Plain, database_of(1), content_set());
    parts_answer(alloc, &mut volume, &mut book, [steps, consumed, records])
}

fn try_rows(rt: &impl Abort, alloc: Global, rows: &str) -> Result<(), Fail> {
    for line in rows.split('\n') {
        let (row, wanted) = line.split_once(" -> ").ok_or("no arrow")?;
        let found = row_answer(alloc, row)?;
        assert_eq!(rt; found.as_str(), wanted, "{row}");
    }
    Ok(())
}

/// Each kind of answer.
const KINDS: &str = "none | 9 | none -> drained
put 0 x; put 0 y | 9 | none -> not yet 9
put 0 x; put 0 y | 10 | 2:20 f root z other -> not yet 10
make 2:20 f; place 1 0 x | 11 | 2:20 f root y same -> park 2:20
make 2:20 f; place 1 0 x | 11 | 2:20 f root X same -> park 2:20
make 2:20 f; place 1 0 x | 11 | 2:20 gone root x same -> park 2:20
make 2:20 f | 10 | 2:20 gone root x other -> erase 2:20
none | 9 | 2:20 f root x other -> make 2:20
make 2:20 f | 10 | 2:20 f root x other staged -> rewrite 2:20
make 2:20 f | 10 | 2:20 f root x same -> place 2:20
make 2:20 f; place 1 0 x | 11 | 2:20 f root x same staged -> unstage 2:20
make 2:20 f; place 1 0 x | 9 | 2:20 f root x same -> skip 9
make 2:20 f; place 1 0 x | 11 | 2:20 f root x same -> drained";

/// The kinds in their order, and the least UID first.
const ORDER: &str =
    "make 2:20 f; make 2:21 f; place 2 0 x | 12 | 2:20 gone root a other -> park 2:21
make 2:20 f | 10 | 2:20 gone root x other; 2:10 f root y other -> erase 2:20
make 2:20 f | 10 | 2:20 f root x other; 2:30 f root y other -> make 2:30
make 2:20 f; make 2:21 f | 11 | 2:20 f root x same; 2:21 f root y other -> rewrite 2:21
make 2:20 f; make 2:21 f; place 1 0 x | 12 | 2:20 f root x same staged; 2:21 f root y same -> place 2:21
make 2:20 f; place 1 0 x | 10 | 2:20 f root x same staged -> unstage 2:20
none | 9 | 2:21 f root a other; 2:20 f root b other -> make 2:20
make 2:21 f; make 2:20 f | 11 | 2:21 f root a same; 2:20 f root b same -> place 2:20";

/// Names that several records want.
const NAMES: &str =
    "none | 9 | 2:20 f root x other; 2:21 f root X other; 2:22 f root x other -> make 2:22
put 0 x | 10 | 1:9 f root x same; 2:20 f root X other -> park 1:9
put 0 x | 10 | 2:20 f root X other; 1:9 f root x same -> drained
make 2:20 f; place 1 0 x; make 2:21 f; place 2 0 y | 13 | 2:20 f root y same; 2:21 f root x same -> park 2:20
make 2:20 f; place 1 0 x; make 2:21 f; place 2 0 y; park 1 | 14 | 2:20 f root y same; 2:21 f root x same -> park 2:21
make 2:20 f; make 2:21 f | 11 | 2:20 f root y same; 2:21 f root x same -> place 2:20";

/// Parents that were removed, and parents on a cycle.
const PARENTS: &str =
    "make 2:20 d; place 1 0 d; make 2:21 f; place 2 1 x | 13 | 2:20 gone root d other; 2:21 f 2:20 x same -> park 2:20
make 2:20 d; make 2:21 f | 11 | 2:20 gone root d other; 2:21 f 2:20 x same -> erase 2:20
make 2:21 f | 10 | 2:20 gone root d other; 2:21 f 2:20 x same -> drained
none | 9 | 2:20 d 2:21 a other; 2:21 d 2:20 b other -> drained
none | 9 | 2:20 f 2:21 a other; 2:21 d root b other -> make 2:20";

#[test]
fn each_kind_of_step_has_its_turn(rt: HostRuntime) -> Result<(), Fail> {
    try_rows(&rt, rt.alloc(), KINDS)
}

#[test]
fn kinds_come_in_order_and_the_least_file_first(rt: HostRuntime) -> Result<(), Fail> {
    try_rows(&rt, rt.alloc(), ORDER)
}

#[test]
fn a_name_goes_to_the_record_that_wins(rt: HostRuntime) -> Result<(), Fail> {
    try_rows(&rt, rt.alloc(), NAMES)
}

#[test]
fn what_is_hidden_is_taken_down(rt: HostRuntime) -> Result<(), Fail> {
    try_rows(&rt, rt.alloc(), PARENTS)
}
