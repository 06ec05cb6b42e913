// What no contract says: that a book is pinned and that what it then does leaves the pinned state;
// and a body read by hand.
use frs_base::{Gvsn, MemberKind, Name, Sum, Uid, content_set, database_of};
use marshal_form::Form;
use pinned_pages::{Body, Pinned};
use record_db::Book;
use std::alloc::Global;
use std::process::Abort;
use std::test::Fail;
use version_vector::{Interval, Vector};
use win_order::Update;

fn file(born: u64) -> Uid {
    Uid {
        db: database_of(2),
        version: born,
    }
}

/// A file that was born with this number, at this version of the second member.
fn update(alloc: Global, born: u64, version: u64) -> Result<Update, Fail> {
    Ok(Update {
        present: true,
        name_conflict: false,
        attributes: 0x20,
        fence: 3,
        clock: version,
        created: 100,
        set: content_set(),
        hash: Sum([0; 20]),
        similarity: [0; 16],
        uid: file(born),
        gvsn: Gvsn {
            db: database_of(2),
            version,
        },
        parent: Uid {
            db: content_set(),
            version: 1,
        },
        name: Name::from_units(alloc, &[0x78])?,
        flags: 0,
    })
}

/// Adopts updates of these births and versions.
fn adopt_all(alloc: Global, book: &mut Book, made: &[(u64, u64)]) -> Result<(), Fail> {
    for (born, version) in made {
        book.adopt(alloc, update(alloc, *born, *version)?, None)?;
    }
    Ok(())
}

/// The pinned state has the record of this birth and version.
fn has(alloc: Global, pinned: &Pinned, born: u64, version: u64) -> Result<bool, Fail> {
    let wanted = update(alloc, born, version)?;
    Ok(pinned.find(file(born)) == Some(&wanted))
}

/// What is asked for, as intervals of the second member's versions, and the versions of the page.
const PAGES: [(&[(u64, u64)], &str); 8] = [
    (&[], ""),
    (&[(9, 12)], "12@9 9@10 15@11 "),
    (&[(5, 11)], "12@9 9@10 "),
    (&[(10, 11)], "9@10 "),
    (&[(9, 10), (11, 300)], "12@9 15@11 "),
    (&[(1, 9)], ""),
    (&[(1, 8), (12, 300)], ""),
    (&[(11, 12), (13, 14), (15, 16)], "15@11 "),
];

/// The vector of these intervals of a member's versions.
fn vector_of(alloc: Global, member: u64, parts: &[(u64, u64)]) -> Result<Vector, Fail> {
    let mut intervals = Vec::new(alloc);
    for (low, high) in parts {
        intervals.push(Interval {
            db: database_of(member),
            low: *low,
            high: *high,
        })?;
    }
    Ok(Vector::of(alloc, &intervals)?)
}

/// The births and versions of a page.
fn page_text(alloc: Global, pinned: &Pinned, asked: &Vector) -> Result<String, Fail> {
    let mut text = String::new(alloc);
    for update in &pinned.page(alloc, asked)? {
        let (born, version) = (update.uid.version, update.gvsn.version);
        text.push_str(format!(in alloc; "{born}@{version} ")?.as_str())?;
    }
    Ok(text)
}

/// The pages of what was pinned.
fn look_at_pages(rt: &impl Abort, alloc: Global, pinned: &Pinned) -> Result<(), Fail> {
    for (parts, wanted) in PAGES {
        let asked = vector_of(alloc, 2, parts)?;
        assert_eq!(rt; page_text(alloc, pinned, &asked)?.as_str(), wanted);
        let others = vector_of(alloc, 3, parts)?;
        assert_eq!(rt; page_text(alloc, pinned, &others)?.as_str(), "");
    }
    Ok(())
}

/// What was pinned of a book of three records at the third entry.
fn look_at(rt: &impl Abort, alloc: Global, pinned: &Pinned) -> Result<(), Fail> {
    assert_eq!(rt; pinned.at, 3);
    let covered = [Interval {
        db: database_of(2),
        low: 9,
        high: 12,
    }];
    assert_eq!(rt; pinned.vector.intervals(), covered.as_slice());
    assert_eq!(rt; pinned.records.len(), 3);
    for (born, version) in [(9, 10), (12, 9), (15, 11)] {
        assert!(rt; has(alloc, pinned, born, version)?, "{born}");
    }
    for born in [8, 10, 13, 16] {
        assert!(rt; pinned.find(file(born)).is_none(), "{born}");
    }
    Ok(())
}

/// Pins a book, and adopts more.
fn pinned_before_more(alloc: Global, book: &mut Book) -> Result<Pinned, Fail> {
    adopt_all(alloc, book, &[(12, 9), (9, 10), (15, 11)])?;
    let pinned = Pinned::of(alloc, book, 3)?;
    match adopt_all(alloc, book, &[(9, 12), (10, 13)]) {
        Ok(()) => Ok(pinned),
        Err(why) => Err(why),
    }
}

/// A state that was pinned of a book that went on.
fn pinned_once(alloc: Global) -> Result<Pinned, Fail> {
    let mut book = Book::new(MemberKind::Plain, database_of(1), content_set());
    pinned_before_more(alloc, &mut book)
}

#[test]
fn a_pinned_state_stays(rt: HostRuntime) -> Result<(), Fail> {
    let pinned = pinned_once(rt.alloc())?;
    look_at(&rt, rt.alloc(), &pinned)
}

#[test]
fn a_page_has_what_is_asked_for_and_was_pinned(rt: HostRuntime) -> Result<(), Fail> {
    let pinned = pinned_once(rt.alloc())?;
    look_at_pages(&rt, rt.alloc(), &pinned)
}

/// Reads of a body of ten bytes: from where, into how many, and what is then there.
#[test]
fn a_body_is_read_piece_by_piece(rt: HostRuntime) -> Result<(), Fail> {
    let bytes = Vec::from_slice(rt.alloc(), b"0123456789")?;
    let body = Body::of(Form::of(rt.alloc(), bytes)?);
    assert_eq!(rt; body.length(), 10);
    for (at, count, wanted) in [
        (0, 4, b"0123"),
        (4, 4, b"4567"),
        (8, 2, b"89--"),
        (10, 0, b"----"),
        (u64::MAX, 0, b"----"),
    ] {
        let mut buf = *b"----";
        assert_eq!(rt; body.read_at(at, &mut buf), count, "{at}");
        assert_eq!(rt; &buf, wanted, "{at}");
    }
    assert_eq!(rt; body.into_form().as_slice(), b"0123456789".as_slice());
    Ok(())
}
