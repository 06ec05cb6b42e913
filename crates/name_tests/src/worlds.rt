// Four records, which of them are shown, their tree, and the one that has a name.
ghost use Rattle.std.specs.Prelude.{◌≡◌, IfOk};
ghost use Rattle.name_tests.specs.Born.{AreBornInOrder};

use frs_base::{Gvsn, Kind, Name, Sum, Uid, content_set, database_of};
use name_rules::{TreeRow, name_winner, shown, tree};
use std::alloc::Global;
use std::test::Fail;
use win_order::Update;

/// What a record is of.
#[derive(Clone, Copy)]
enum What {
    File,
    Directory,
    /// A directory that was removed.
    Gone,
}

/// A record of a world: the birth of the directory that it is in, 0 for the root; the unit of its
/// name; and what it is of.
type Seed = (u64, u16, What);

/// A world: its records, which have the births 9 to 12 and are made in this order; the births of
/// those that are shown; the rows of the tree, with names of one letter; and the birth of the one
/// that has the name x in the root.
type World = (
    [Seed; 4],
    &'static [u64],
    &'static [(&'static str, Kind)],
    Option<u64>,
);

/// The root.
fn root() -> Uid {
    Uid {
        db: content_set(),
        version: 1,
    }
}

/// The first member's file or directory with this birth.
fn file(born: u64) -> Uid
    ensures { result.version ≡ born }
{
    Uid {
        db: database_of(1),
        version: born,
    }
}

/// The record of a seed.
fn record(alloc: Global, born: u64, seed: &Seed) -> Result<Update, Fail>
    ensures file { IfOk result (λ u. u.uid.version ≡ born) }
    ensures version { IfOk result (λ u. u.gvsn.version ≡ born) }
{
    let (parent, unit, what) = *seed;
    Ok(Update {
        present: !matches!(what, What::Gone),
        name_conflict: false,
        attributes: if matches!(what, What::File) {
            0x20
        } else {
            0x10
        },
        fence: 3,
        clock: born,
        created: 100,
        set: content_set(),
        hash: Sum([7; 20]),
        similarity: [0; 16],
        uid: file(born),
        gvsn: Gvsn {
            db: database_of(1),
            version: born,
        },
        parent: if parent == 0 { root() } else { file(parent) },
        name: Name::from_units(alloc, &[unit])?,
        flags: 0,
    })
}

/// The records of a world.
fn records_of(alloc: Global, seeds: &[Seed; 4]) -> Result<Vec<Update>, Fail>
    ensures { IfOk result (λ records. AreBornInOrder records.items) }
{
    let mut records = Vec::new(alloc);
    for at in 0..4 {
        records.push(record(alloc, 9 + at as u64, &seeds[at])?)?;
    }
    Ok(records)
}

/// Whether these are the files with these births.
fn are_files(uids: &[Uid], births: &[u64]) -> bool {
    uids.len() == births.len()
        && uids
            .iter()
            .zip(births)
            .all(|(uid, born)| *uid == file(*born))
}

/// Whether a row has this path and is of this kind.
fn is_row(row: &TreeRow, path: &str, kind: Kind) -> bool {
    let names = row.path.as_slice();
    let sum = match kind {
        Kind::File => Sum([7; 20]),
        Kind::Directory => Sum([0; 20]),
    };
    let same = names.len() == path.len()
        && names
            .iter()
            .zip(path.bytes())
            .all(|(name, byte)| name.units() == [byte as u16].as_slice());
    same && row.kind == kind && row.hash == sum
}

/// Whether these are the rows with these paths and kinds.
fn are_rows(rows: &[TreeRow], wanted: &[(&str, Kind)]) -> bool {
    rows.len() == wanted.len()
        && rows
            .iter()
            .zip(wanted)
            .all(|(row, (path, kind))| is_row(row, path, *kind))
}

/// Whether a world is as it is told.
fn is_so(alloc: Global, world: &World) -> Result<bool, Fail> {
    let (seeds, births, rows, winner) = world;
    let owned = records_of(alloc, seeds)?;
    let records = owned.as_slice();
    let files = shown(alloc, records)?;
    let found = tree(alloc, records)?;
    let name = Name::from_units(alloc, &[0x78])?;
    let has_name = name_winner(records, root(), &name);
    Ok(are_files(&files, births) && are_rows(&found, rows) && has_name == winner.map(file))
}

#[test]
fn worlds(rt: HostRuntime) -> Result<(), Fail> {
    let alloc = rt.alloc();
    let (a, b, x, capital_x, y) = (0x61, 0x62, 0x78, 0x58, 0x79);
    let gone: Seed = (0, 0x7a, What::Gone);
    let worlds: [World; 8] = [
        // three matching names, of which the latest is shown
        (
            [
                (0, x, What::File),
                (0, capital_x, What::File),
                (0, x, What::Directory),
                gone,
            ],
            &[11],
            &[("x", Kind::Directory)],
            Some(11),
        ),
        // other names, one of them in the other case
        (
            [(0, y, What::File), gone, (0, capital_x, What::File), gone],
            &[9, 11],
            &[("X", Kind::File), ("y", Kind::File)],
            Some(11),
        ),
        // in a directory that was removed, and below it
        (
            [
                (0, x, What::Gone),
                (9, x, What::Directory),
                (10, a, What::File),
                (0, b, What::File),
            ],
            &[12],
            &[("b", Kind::File)],
            None,
        ),
        // a cycle of parents, and a file in it
        (
            [
                (10, a, What::Directory),
                (9, b, What::Directory),
                (9, x, What::File),
                gone,
            ],
            &[],
            &[],
            None,
        ),
        // directories in one another, each made before the one that it is in
        (
            [
                (10, x, What::File),
                (11, b, What::Directory),
                (0, a, What::Directory),
                gone,
            ],
            &[9, 10, 11],
            &[
                ("a", Kind::Directory),
                ("ab", Kind::Directory),
                ("abx", Kind::File),
            ],
            None,
        ),
        // one name in two directories, and shorter paths before longer ones
        (
            [
                (11, x, What::File),
                (12, x, What::File),
                (0, y, What::Directory),
                (0, b, What::Directory),
            ],
            &[9, 10, 11, 12],
            &[
                ("b", Kind::Directory),
                ("y", Kind::Directory),
                ("bx", Kind::File),
                ("yx", Kind::File),
            ],
            None,
        ),
        // matching directories, of which the hidden one hides what is in it
        (
            [
                (0, capital_x, What::Directory),
                (9, a, What::File),
                (0, x, What::Directory),
                (11, b, What::File),
            ],
            &[11, 12],
            &[("x", Kind::Directory), ("xb", Kind::File)],
            Some(11),
        ),
        // in a directory that has no record, and in a file
        (
            [
                (99, x, What::File),
                (0, x, What::File),
                (10, a, What::File),
                gone,
            ],
            &[10],
            &[("x", Kind::File)],
            Some(10),
        ),
    ];
    for (at, world) in worlds.iter().enumerate() {
        assert!(rt; is_so(alloc, world)?, "world {at}");
    }
    Ok(())
}
