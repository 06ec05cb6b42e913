// What no contract says: that the calls succeed, and sums and differences written out by hand.
use super::*;
use frs_base::{Gvsn, database_of};
use std::alloc::Global;
use std::process::Abort;
use std::test::Fail;

/// The intervals that a text names, as `a:9..12 b:3..5`, or `none`: `a` is the first member's
/// database, and any other name the second's.
fn intervals(alloc: Global, text: &str) -> Result<Vec<Interval>, Fail> {
    let mut found = Vec::new(alloc);
    for word in text.split_whitespace() {
        if let Some((name, versions)) = word.split_once(':') {
            let (low, high) = versions.split_once("..").ok_or("no interval")?;
            let db = database_of(if name == "a" { 1 } else { 2 });
            let low = low.parse::<u64>()?;
            let high = high.parse::<u64>()?;
            found.push(Interval { db, low, high })?;
        }
    }
    Ok(found)
}

fn vector(alloc: Global, text: &str) -> Result<Vector, Fail> {
    Ok(Vector::of(alloc, &intervals(alloc, text)?)?)
}

/// In each line two sets, both together, the first without the second, the second without the
/// first.
fn sets() -> &'static str {
    "none | none | none | none | none
a:9..12 | none | a:9..12 | a:9..12 | none
none | a:9..12 | a:9..12 | none | a:9..12
a:9..12 | a:9..12 | a:9..12 | none | none
a:9..12 | a:20..25 | a:9..12 a:20..25 | a:9..12 | a:20..25
a:9..10 | a:10..12 | a:9..12 | a:9..10 | a:10..12
a:10..12 | a:9..10 | a:9..12 | a:10..12 | a:9..10
a:9..10 | a:11..12 | a:9..10 a:11..12 | a:9..10 | a:11..12
a:9..15 | a:12..20 | a:9..20 | a:9..12 | a:15..20
a:12..20 | a:9..15 | a:9..20 | a:15..20 | a:9..12
a:9..12 | a:10..11 | a:9..12 | a:9..10 a:11..12 | none
a:10..11 | a:9..12 | a:9..12 | none | a:9..10 a:11..12
a:9..20 | a:9..12 | a:9..20 | a:12..20 | none
a:9..20 | a:15..20 | a:9..20 | a:9..15 | none
a:9..12 | b:9..12 | a:9..12 b:9..12 | a:9..12 | b:9..12
b:9..12 | a:9..12 | a:9..12 b:9..12 | b:9..12 | a:9..12
a:9..12 b:9..12 | b:9..12 | a:9..12 b:9..12 | a:9..12 | none
a:9..12 | b:12..15 | a:9..12 b:12..15 | a:9..12 | b:12..15
a:9..12 a:13..15 | a:12..13 | a:9..15 | a:9..12 a:13..15 | a:12..13
a:9..10 a:11..12 a:13..14 a:15..16 | a:9..16 | a:9..16 | none | a:10..11 a:12..13 a:14..15
a:9..16 | a:9..10 a:11..12 a:13..14 a:15..16 | a:9..16 | a:10..11 a:12..13 a:14..15 | none
a:9..10 a:11..12 a:13..14 | a:10..11 a:12..13 | a:9..14 | a:9..10 a:11..12 a:13..14 | a:10..11 a:12..13
a:9..10 a:15..16 | a:12..13 a:18..19 | a:9..10 a:12..13 a:15..16 a:18..19 | a:9..10 a:15..16 | a:12..13 a:18..19
a:9..12 a:15..20 | a:11..17 | a:9..20 | a:9..11 a:17..20 | a:12..15
a:9..12 b:5..8 | a:11..14 b:8..10 | a:9..14 b:5..10 | a:9..11 b:5..8 | a:12..14 b:8..10
a:9..12 b:5..8 | b:1..20 | a:9..12 b:1..20 | a:9..12 | b:1..5 b:8..20
a:9..11 a:12..14 b:9..11 | a:11..12 b:10..30 | a:9..14 b:9..30 | a:9..11 a:12..14 b:9..10 | a:11..12 b:11..30
a:18446744073709551613..18446744073709551615 | a:9..10 | a:9..10 a:18446744073709551613..18446744073709551615 | a:18446744073709551613..18446744073709551615 | a:9..10
a:0..1 | a:0..18446744073709551615 | a:0..18446744073709551615 | none | a:1..18446744073709551615
a:9..30 b:9..30 | a:12..15 a:20..25 b:1..10 b:29..40 | a:9..30 b:1..40 | a:9..12 a:15..20 a:25..30 b:10..29 | b:1..9 b:30..40"
}

fn union_of(alloc: Global, first: &str, second: &str) -> Result<Vector, Fail> {
    let mut merged = vector(alloc, first)?;
    merged.merge(alloc, &vector(alloc, second)?)?;
    Ok(merged)
}

fn difference_of(alloc: Global, first: &str, second: &str) -> Result<Vector, Fail> {
    Ok(vector(alloc, first)?.minus(alloc, &vector(alloc, second)?)?)
}

/// Whether a set is of just the intervals that a text names.
fn is_of(alloc: Global, set: &Vector, text: &str) -> Result<bool, Fail> {
    Ok(set.intervals() == intervals(alloc, text)?.as_slice())
}

/// Whether a line of `sets` is right.
fn holds(alloc: Global, line: &str) -> Result<bool, Fail> {
    let (a, rest) = line.split_once(" | ").ok_or("no second")?;
    let (b, rest) = rest.split_once(" | ").ok_or("no union")?;
    let (both, rest) = rest.split_once(" | ").ok_or("no difference")?;
    let (left, right) = rest.split_once(" | ").ok_or("no difference back")?;
    let unions = is_of(alloc, &union_of(alloc, a, b)?, both)?
        && is_of(alloc, &union_of(alloc, b, a)?, both)?;
    let differences = is_of(alloc, &difference_of(alloc, a, b)?, left)?
        && is_of(alloc, &difference_of(alloc, b, a)?, right)?;
    Ok(unions && differences)
}

#[test]
fn unions_and_differences(rt: HostRuntime) -> Result<(), Fail> {
    let alloc = rt.alloc();
    for line in sets().lines() {
        assert!(rt; holds(alloc, line)?, "{line}");
    }
    assert_eq!(rt; sets().lines().count(), 30);
    Ok(())
}

#[test]
fn vectors(rt: HostRuntime) -> Result<(), Fail> {
    let alloc = rt.alloc();
    assert!(rt;
        is_of(
            alloc,
            &difference_of(alloc, "a:9..12", "a:10..11")?,
            "a:9..10 a:11..12"
        )?
    );
    assert!(rt; is_of(alloc, &union_of(alloc, "a:9..10", "a:10..12")?, "a:9..12")?);
    match Vector::of(alloc, &intervals(alloc, "a:10..12 a:9..10")?) {
        Ok(_) => assert!(rt; false, "out of order"),
        Err(e) => assert_eq!(rt; e, OfError::NotCanonical { index: 1 }),
    }
    Ok(())
}

// What owns a set lends it to one function: each early return past one that is owned makes a proof
// much longer.

/// Versions that are added one after the other, and the set after each.
const ADDED: [(u64, u32, &str); 8] = [
    (1, 9, "a:9..10"),
    (1, 11, "a:9..10 a:11..12"),
    (2, 10, "a:9..10 a:11..12 b:10..11"),
    (1, 10, "a:9..12 b:10..11"),
    (1, 8, "a:8..12 b:10..11"),
    (1, 10, "a:8..12 b:10..11"),
    (2, 11, "a:8..12 b:10..12"),
    (1, 20, "a:8..12 a:20..21 b:10..12"),
];

fn version_of(member: u64, version: u64) -> Gvsn {
    Gvsn {
        db: database_of(member),
        version,
    }
}

fn try_adding(rt: &impl Abort, alloc: Global, all: &mut Vector) -> Result<(), Fail> {
    for (member, version, want) in ADDED {
        let db = database_of(member);
        let version = u64::from(version);
        all.add(alloc, Gvsn { db, version })?;
        assert!(rt; is_of(alloc, all, want)?, "with {version}");
    }
    Ok(())
}

#[test]
fn versions_are_added_and_joined(rt: HostRuntime) -> Result<(), Fail> {
    let mut all = Vector::empty();
    try_adding(&rt, rt.alloc(), &mut all)
}

/// Whether a copy of a set that grows is of just these intervals.
fn is_copied_as(alloc: Global, grown: &GrowingVector, text: &str) -> Result<bool, Fail> {
    let copy = grown.copy(alloc)?;
    is_of(alloc, &copy, text)
}

fn try_growing(rt: &impl Abort, alloc: Global, grown: &mut GrowingVector) -> Result<(), Fail> {
    for (member, version, want) in ADDED {
        let db = database_of(member);
        let version = u64::from(version);
        let g = Gvsn { db, version };
        grown.reserve(alloc, g)?;
        grown.cover(g);
        assert!(rt; is_copied_as(alloc, grown, want)?, "with {version}");
    }
    assert!(rt; !grown.covers(version_of(2, 4)));
    Ok(())
}

/// What a set that grew is with the versions of another.
fn merged_with(alloc: Global, grown: &GrowingVector, text: &str) -> Result<GrowingVector, Fail> {
    let other = vector(alloc, text)?;
    Ok(grown.merged(alloc, &other)?)
}

fn try_merged(rt: &impl Abort, alloc: Global, more: &GrowingVector) -> Result<(), Fail> {
    assert!(rt; more.covers(version_of(2, 4)));
    assert!(rt; is_copied_as(alloc, more, "a:8..21 b:3..5 b:10..12")?);
    Ok(())
}

fn try_merging(rt: &impl Abort, alloc: Global, grown: &mut GrowingVector) -> Result<(), Fail> {
    try_growing(rt, alloc, grown)?;
    let more = merged_with(alloc, grown, "a:12..20 b:3..5")?;
    try_merged(rt, alloc, &more)
}

#[test]
fn versions_are_covered_in_their_place(rt: HostRuntime) -> Result<(), Fail> {
    let mut grown = GrowingVector::empty();
    try_merging(&rt, rt.alloc(), &mut grown)
}
