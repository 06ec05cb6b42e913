// What no contract says: that a copy succeeds, and the answers and names of refusals.
use super::*;
use frs_base::{Guid, Gvsn, Name, NameError, Sum, Uid, content_set, database_of};
use std::alloc::Global;
use std::test::Fail;

/// A file of the first member, changed by the second.
fn sample(alloc: Global) -> Result<Update, NameError> {
    let name = Name::from_units(alloc, &[0x61, 0x2e, 0x74])?;
    Ok(Update {
        present: true,
        name_conflict: false,
        attributes: 0x20,
        fence: 3,
        clock: 131_000,
        created: 130_000,
        set: content_set(),
        hash: Sum([7; 20]),
        similarity: [5; 16],
        uid: Uid {
            db: database_of(1),
            version: 9,
        },
        gvsn: Gvsn {
            db: database_of(2),
            version: 12,
        },
        parent: Uid {
            db: content_set(),
            version: 1,
        },
        name,
        flags: 2,
    })
}

#[test]
fn copies_equal_their_source(rt: HostRuntime) -> Result<(), Fail> {
    let mut update = sample(rt.alloc())?;
    assert!(rt; update.copy()? == update);
    update.present = false;
    assert!(rt; update.copy()? == update);
    Ok(())
}

#[test]
fn admit_and_names(rt: HostRuntime) -> Result<(), Fail> {
    let set = content_set();
    let other = Guid::of_number(9);
    let file = database_of(1);
    let edge = 0x4000_0000_0000_0000;
    let last = 0xffff_ffff_ffff_ffff;
    let mut update = sample(rt.alloc())?;
    // set, flags, fence, clock, version, the UID's database and version
    for (set_of, flags, fence, clock, version, db, born, want) in [
        (set, 0, 3, 131_000, 12, file, 9, Ok(())),
        (set, 2, edge - 1, edge - 1, last - 1, set, 2, Ok(())),
        (set, 0, 3, 131_000, 9, file, 1, Ok(())),
        (other, 0, 3, 131_000, 12, file, 9, Err(Unfit::WrongSet)),
        (set, 3, 3, 131_000, 12, file, 9, Err(Unfit::Compressed)),
        (set, 0, edge, 131_000, 12, file, 9, Err(Unfit::Skewed)),
        (set, 0, 3, edge, 12, file, 9, Err(Unfit::Skewed)),
        (set, 0, 3, 131_000, 8, file, 9, Err(Unfit::Version)),
        (set, 0, 3, 131_000, last, file, 9, Err(Unfit::Version)),
        (set, 0, 3, 131_000, 12, set, 1, Err(Unfit::Root)),
        (other, 1, 3, 131_000, 12, file, 9, Err(Unfit::WrongSet)),
        (set, 1, 3, edge, 12, file, 9, Err(Unfit::Compressed)),
        (set, 0, 3, edge, 8, file, 9, Err(Unfit::Skewed)),
        (set, 0, 3, 131_000, 8, set, 1, Err(Unfit::Version)),
    ] {
        update.set = set_of;
        update.flags = flags;
        update.fence = fence;
        update.clock = clock;
        update.gvsn.version = version;
        update.uid = Uid { db, version: born };
        assert_eq!(rt;
            admit(&update, set),
            want,
            "flags {flags}, clock {clock}, version {version}"
        );
    }
    let names = format!(in rt.alloc(); "{}, {}", Unfit::WrongSet, Unfit::Skewed)?;
    assert_eq!(rt;
        names.as_str(),
        "of another content set, a fence or clock too far ahead"
    );
    Ok(())
}
