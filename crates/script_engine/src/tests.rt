// What no contract says: that the calls succeed, and what they print, written out by hand.
ghost use Rattle.std.specs.Prelude.{◌≡◌, IfOk};
ghost use Rattle.script_engine.specs.Named.{AreNamed};

use super::*;
use crate::count::count_text;
use crate::lines::{last_text, ok_text, pulled_text, refusal_text, usn_text};
use crate::records::vector_text;
use frs_base::{Bytes, Gvsn, MemberKind, Name, Sum, Uid, content_set, database_of};
use record_db::Book;
use std::alloc::{AllocError, Global};
use std::process::Abort;
use std::test::Fail;
use version_vector::Interval;
use vol_state::{Refused, VolCmd, Volume};
use win_order::Update;

fn name_of(alloc: Global, text: &str) -> Result<Name, Fail> {
    let mut units = Vec::new(alloc);
    for byte in text.as_bytes() {
        units.push(u16::from(*byte))?;
    }
    Ok(Name::from_units(alloc, &units)?)
}

fn bytes_of(alloc: Global, text: &str) -> Result<Bytes, Fail>
    ensures { IfOk result (λ bytes. bytes ≡ text.now) }
{
    Ok(Bytes::of(Vec::from_slice(alloc, text.as_bytes())?))
}

/// The command of a row: `dir PARENT NAME`, `file PARENT NAME TEXT` or `park FID`. Objects are
/// numbered from 1 in the order of their rows, and the root is 0.
fn command(alloc: Global, row: &str) -> Result<VolCmd, Fail> {
    let (word, rest) = row.split_once(' ').ok_or("no word")?;
    if word == "park" {
        return Ok(VolCmd::Park {
            fid: rest.parse::<u64>()?,
        });
    }
    let (parent, rest) = rest.split_once(' ').ok_or("no parent")?;
    let parent = parent.parse::<u64>()?;
    if word == "dir" {
        return Ok(VolCmd::Mkdir {
            parent,
            name: name_of(alloc, rest)?,
        });
    }
    let (name, text) = rest.split_once(' ').ok_or("no text")?;
    Ok(VolCmd::PutNew {
        parent,
        name: name_of(alloc, name)?,
        bytes: bytes_of(alloc, text)?,
    })
}

// What owns a volume or a book lends it to one function: each early return past one that is owned
// makes a proof much longer.

/// Does the commands of these rows.
fn fill_volume(alloc: Global, volume: &mut Volume, rows: &str) -> Result<(), Fail> {
    for row in rows.lines() {
        let ready = volume.ready(alloc, command(alloc, row)?)?;
        volume.take(ready);
    }
    Ok(())
}

/// Does the commands of these rows, and answers the tree.
fn filled_tree(alloc: Global, volume: &mut Volume, rows: &str) -> Result<String, Fail> {
    fill_volume(alloc, volume, rows)?;
    Ok(tree_text(alloc, volume)?)
}

/// Does the commands of these rows, and answers the sums.
fn filled_sums(alloc: Global, volume: &mut Volume, rows: &str) -> Result<String, Fail> {
    fill_volume(alloc, volume, rows)?;
    Ok(sums_text(alloc, volume)?)
}

/// The tree of a volume after these rows.
fn tree_after(alloc: Global, rows: &str) -> Result<String, Fail> {
    let mut volume = Volume::new(database_of(1));
    filled_tree(alloc, &mut volume, rows)
}

/// The rows of a volume, and its tree.
const TREES: [(&str, &str); 7] = [
    ("", "tree empty\n"),
    // the order is of lists of names, not of their texts: `!` is below `/`
    (
        "file 0 a! 12\ndir 0 a\nfile 2 b 123",
        "d a\nf a/b 3\nf a! 2\n",
    ),
    // capitals come before small letters, and a name before what it begins
    (
        "file 0 ab 1\nfile 0 b \nfile 0 Z 22\nfile 0 a 333",
        "f Z 2\nf a 3\nf ab 1\nf b 0\n",
    ),
    // a directory stands before what is in it, at any depth
    (
        "dir 0 z\ndir 1 y\ndir 2 x\nfile 3 f 1\nfile 1 a 1",
        "d z\nf z/a 1\nd z/y\nd z/y/x\nf z/y/x/f 1\n",
    ),
    // limbo has no row, nor has what stands beneath it
    (
        "dir 0 d\nfile 1 x 1\ndir 1 e\nfile 3 y 1\nfile 0 z 1\npark 1",
        "f z 1\n",
    ),
    ("dir 0 d\nfile 1 x 1\npark 1", "tree empty\n"),
    ("dir 0 d\nfile 1 x 1\npark 2", "d d\n"),
];

#[test]
fn trees_print_in_order_of_their_paths(rt: HostRuntime) -> Result<(), Fail> {
    for (rows, want) in TREES {
        assert_eq!(rt; tree_after(rt.alloc(), rows)?.as_str(), want);
    }
    Ok(())
}

/// The sums of a volume after these rows.
fn sums_after(alloc: Global, rows: &str) -> Result<String, Fail> {
    let mut volume = Volume::new(database_of(1));
    filled_sums(alloc, &mut volume, rows)
}

/// The paths of sums, a line each, where each sum has 40 digits.
fn paths_in(alloc: Global, text: &str) -> Result<String, Fail> {
    let mut paths = String::new(alloc);
    for line in text.lines() {
        let (digits, path) = line.split_once(' ').ok_or("no path")?;
        if digits.len() != 40 {
            return Err("a sum of another length")?;
        }
        paths.push_str(path)?;
        paths.push('\n')?;
    }
    Ok(paths)
}

/// The rows of a volume, and the paths of its files, in order of the lists of names.
const FILES: [(&str, &str); 3] = [
    ("file 0 a! 12\ndir 0 a\nfile 2 b 123", "a/b\na!\n"),
    (
        "dir 0 z\ndir 1 y\nfile 2 x 1\nfile 1 f 1\nfile 0 ab 1\nfile 0 Y \nfile 0 a 1",
        "Y\na\nab\nz/f\nz/y/x\n",
    ),
    ("dir 0 d\nfile 1 x 1\nfile 0 z 1\npark 1", "z\n"),
];

#[test]
fn sums_print_files_in_order_of_their_paths(rt: HostRuntime) -> Result<(), Fail> {
    for (rows, want) in FILES {
        let text = sums_after(rt.alloc(), rows)?;
        assert_eq!(rt; paths_in(rt.alloc(), text.as_str())?.as_str(), want);
    }
    Ok(())
}

#[test]
fn sums_of_no_files(rt: HostRuntime) -> Result<(), Fail> {
    for rows in ["", "dir 0 d", "dir 0 d\nfile 1 x 1\npark 1"] {
        assert_eq!(rt; sums_after(rt.alloc(), rows)?.as_str(), "sums empty\n");
    }
    Ok(())
}

/// The second of two rows has this name as the second of its path, and the object 2.
fn is_second(rows: &[TreeRow], name: &Name) -> bool {
    let [_, row] = rows else {
        return false;
    };
    let [_, own] = row.path() else {
        return false;
    };
    **own == *name && row.object().fid == 2
}

/// Makes a directory and a file in it, and looks at the rows of both.
fn look_at_rows(rt: &impl Abort, alloc: Global, volume: &mut Volume) -> Result<(), Fail> {
    let name = name_of(alloc, "b")?;
    fill_volume(alloc, volume, "dir 0 a\nfile 1 b 12")?;
    let rows = tree_rows(alloc, volume)?;
    assert!(rt; is_second(&rows, &name));
    Ok(())
}

#[test]
fn rows_have_paths_and_objects(rt: HostRuntime) -> Result<(), Fail> {
    let mut volume = Volume::new(database_of(1));
    look_at_rows(&rt, rt.alloc(), &mut volume)
}

fn uid(member: u64, version: u64) -> Uid {
    Uid {
        db: database_of(member),
        version,
    }
}

fn root() -> Uid {
    Uid {
        db: content_set(),
        version: 1,
    }
}

fn gvsn(member: u64, version: u64) -> Gvsn {
    Gvsn {
        db: database_of(member),
        version,
    }
}

/// A present file at the root.
fn file(alloc: Global, uid: Uid, gvsn: Gvsn, name: &str) -> Result<Update, Fail> {
    Ok(Update {
        present: true,
        name_conflict: false,
        attributes: 0x20,
        fence: 3,
        clock: 201,
        created: 100,
        set: content_set(),
        hash: Sum([0; 20]),
        similarity: [0; 16],
        uid,
        gvsn,
        parent: root(),
        name: name_of(alloc, name)?,
        flags: 0,
    })
}

/// A present directory at the root.
fn directory(alloc: Global, uid: Uid, gvsn: Gvsn, name: &str) -> Result<Update, Fail> {
    let mut directory = file(alloc, uid, gvsn, name)?;
    directory.attributes = 0x10;
    Ok(directory)
}

/// A present file in a directory.
fn inner(alloc: Global) -> Result<Update, Fail> {
    let mut inner = file(alloc, uid(2, 12), gvsn(2, 12), "y!")?;
    inner.parent = uid(1, 10);
    Ok(inner)
}

/// A directory that is gone.
fn gone(alloc: Global) -> Result<Update, Fail> {
    let mut gone = directory(alloc, uid(1, 11), gvsn(1, 13), "e")?;
    gone.present = false;
    gone.fence = 2;
    gone.clock = 12;
    gone.created = 10;
    Ok(gone)
}

/// Adopts a file, a directory, a file in it, and a directory that is gone.
fn fill(alloc: Global, book: &mut Book) -> Result<(), Fail> {
    book.adopt(alloc, file(alloc, uid(1, 9), gvsn(2, 11), "x")?, None)?;
    book.adopt(alloc, directory(alloc, uid(1, 10), gvsn(1, 10), "d")?, None)?;
    book.adopt(alloc, inner(alloc)?, None)?;
    book.adopt(alloc, gone(alloc)?, None)?;
    Ok(())
}

/// A book with no records.
fn book() -> Book {
    Book::new(MemberKind::Plain, database_of(3), content_set())
}

/// The first two members, `a` and `b`.
fn names(alloc: Global) -> Result<Vec<MemberName>, AllocError>
    ensures { IfOk result (λ names. AreNamed names.items) }
{
    let mut names = Vec::new(alloc);
    names.push(MemberName {
        db: database_of(1),
        name: Bytes::of(Vec::from_slice(alloc, "a".as_bytes())?),
    })?;
    names.push(MemberName {
        db: database_of(2),
        name: Bytes::of(Vec::from_slice(alloc, "b".as_bytes())?),
    })?;
    Ok(names)
}

/// The records of the four.
fn filled_records(alloc: Global, book: &mut Book) -> Result<String, Fail> {
    fill(alloc, book)?;
    let names = names(alloc)?;
    Ok(records_text(alloc, &names, book)?)
}

#[test]
fn records_print_in_order_of_their_uids(rt: HostRuntime) -> Result<(), Fail> {
    let text = filled_records(rt.alloc(), &mut book())?;
    assert_eq!(rt;
        text.as_str(),
        "a:9 b:11 f live root x 3 201 100\n\
         a:10 a:10 d live root d 3 201 100\n\
         a:11 a:13 d gone root e 2 12 10\n\
         b:12 b:12 f live a:10 y! 3 201 100\n"
    );
    Ok(())
}

#[test]
fn vectors_print_their_intervals(rt: HostRuntime) -> Result<(), Fail> {
    let names = names(rt.alloc())?;
    let empty = vector_text(rt.alloc(), &names, &[])?;
    assert_eq!(rt; empty.as_str(), "vector empty\n");
    let intervals = [
        Interval {
            db: database_of(1),
            low: 9,
            high: 11,
        },
        Interval {
            db: database_of(2),
            low: 9,
            high: 12,
        },
    ];
    let text = vector_text(rt.alloc(), &names, &intervals)?;
    assert_eq!(rt; text.as_str(), "vector a:9..11 b:9..12\n");
    Ok(())
}

/// The counts of a book and of rows.
fn counts(alloc: Global, book: &Book, rows: &[TreeRow]) -> Result<String, Fail> {
    let intervals = book.vector().intervals();
    let records = book.rows(alloc)?;
    Ok(count_text(alloc, &records, rows, intervals)?)
}

/// The counts of a book with the four and of a volume after these rows.
fn filled_counts(
    alloc: Global,
    book: &mut Book,
    volume: &mut Volume,
    rows: &str,
) -> Result<String, Fail> {
    fill(alloc, book)?;
    fill_volume(alloc, volume, rows)?;
    let rows = tree_rows(alloc, volume)?;
    counts(alloc, book, &rows)
}

/// The same from nothing.
fn counts_after(alloc: Global, rows: &str) -> Result<String, Fail> {
    let mut volume = Volume::new(database_of(1));
    filled_counts(alloc, &mut book(), &mut volume, rows)
}

#[test]
fn counts_leave_out_tombstones_and_directories(rt: HostRuntime) -> Result<(), Fail> {
    let rows = "dir 0 a\nfile 1 b 12\nfile 0 c 1\nfile 0 l 1\npark 4";
    let text = counts_after(rt.alloc(), rows)?;
    assert_eq!(rt; text.as_str(), "records 4 live 3 files 2 intervals 3\n");
    Ok(())
}

/// What a refused local operation prints.
fn local(alloc: Global, why: Refused) -> Result<String, AllocError> {
    refusal_text(alloc, &Refusal::Local { why })
}

/// Tries each refusal of a local operation.
fn try_local(rt: &impl Abort, alloc: Global) -> Result<(), Fail> {
    for (why, want) in [
        (
            Refused::TooLarge { length: 1_048_577 },
            "refused 10 toolarge 1048577\n",
        ),
        (Refused::NoPath, "refused 5 nopath\n"),
        (Refused::NotDirectory, "refused 6 notdir\n"),
        (Refused::NotEmpty, "refused 7 notempty\n"),
        (Refused::NameTaken, "refused 8 taken\n"),
        (Refused::Looped, "refused 9 loop\n"),
    ] {
        assert_eq!(rt; local(alloc, why)?.as_str(), want);
    }
    Ok(())
}

/// Refusals that name no member: of a member itself, of an early one, and of a full vector.
fn other_refusals(alloc: Global) -> Result<String, AllocError> {
    let own = refusal_text(alloc, &Refusal::Itself)?;
    let early = refusal_text(alloc, &Refusal::NotYet { usn: 11 })?;
    let full = refusal_text(alloc, &Refusal::VectorFull { count: 65_537 })?;
    format!(in alloc; "{own}|{early}|{full}")
}

#[test]
fn refusals_print_their_numbers_and_values(rt: HostRuntime) -> Result<(), Fail> {
    try_local(&rt, rt.alloc())?;
    let others = other_refusals(rt.alloc())?;
    assert_eq!(rt;
        others.as_str(),
        "refused 18 self\n|refused 12 notyet 11\n|refused 20 vectorfull 65537\n"
    );
    Ok(())
}

/// What a line prints in place of a refusal.
fn plain_texts(alloc: Global) -> Result<String, AllocError> {
    let ok = ok_text(alloc)?;
    let usn = usn_text(alloc, 9)?;
    let pulled = pulled_text(alloc, 0)?;
    format!(in alloc; "{ok}|{usn}|{pulled}")
}

/// What a consumed journal record of a member prints.
fn last_texts(alloc: Global) -> Result<String, AllocError> {
    let name = "abc".as_bytes();
    let none = last_text(alloc, name, None)?;
    let made = last_text(alloc, name, Some(Consumed::Made { usn: 9 }))?;
    let skipped = last_text(alloc, name, Some(Consumed::Skipped { usn: 10 }))?;
    format!(in alloc; "{none}|{made}|{skipped}")
}

/// What a name prints that no member has.
fn unknown(alloc: Global) -> Result<String, Fail> {
    let name = bytes_of(alloc, "abc")?;
    Ok(refusal_text(alloc, &Refusal::Unknown { name })?)
}

/// What a name prints that a member has.
fn taken(alloc: Global) -> Result<String, Fail> {
    let name = bytes_of(alloc, "abc")?;
    Ok(refusal_text(alloc, &Refusal::Exists { name })?)
}

#[test]
fn lines_print_what_they_did(rt: HostRuntime) -> Result<(), Fail> {
    let alloc = rt.alloc();
    assert_eq!(rt; plain_texts(alloc)?.as_str(), "ok\n|usn 9\n|pulled 0\n");
    assert_eq!(rt;
        last_texts(alloc)?.as_str(),
        "nothing\n|update abc:9\n|skip abc:10\n"
    );
    assert_eq!(rt; unknown(alloc)?.as_str(), "refused 1 unknown abc\n");
    assert_eq!(rt; taken(alloc)?.as_str(), "refused 2 exists abc\n");
    Ok(())
}
