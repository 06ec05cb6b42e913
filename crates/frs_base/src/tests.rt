mod tape;

use crate::{
    Bytes, Guid, Gvsn, List, Machine, Name, NameError, ReservedVec, Uid, codes_have_one_command,
    connection_of, content_set, database_of, replica_set,
};
use std::alloc::Global;
use std::process::Abort;
use std::test::Fail;
use tape::Tape;

fn name_of(alloc: Global, text: &str) -> Result<Name, Fail> {
    let mut units = Vec::new(alloc);
    for byte in text.as_bytes() {
        units.push(u16::from(*byte))?;
    }
    Ok(Name::from_units(alloc, &units)?)
}

#[test]
fn identifiers_spell_their_texts(rt: HostRuntime) -> Result<(), Fail> {
    let rows = [
        (database_of(1), "d0000000-0000-4000-8000-000000000001"),
        (database_of(8), "d0000000-0000-4000-8000-000000000008"),
        (content_set(), "c0000000-0000-4000-8000-000000000001"),
        (replica_set(), "e0000000-0000-4000-8000-000000000001"),
        (connection_of(2, 1), "f0000000-0000-4000-8000-000000020001"),
        (connection_of(8, 3), "f0000000-0000-4000-8000-000000080003"),
    ];
    for (guid, text) in rows {
        assert_eq!(rt; guid.to_string(rt.alloc())?.as_str(), text);
    }
    Ok(())
}

#[test]
fn guids_are_ordered_by_their_values(rt: HostRuntime) {
    let low = Guid::of_number(0xff);
    let high = Guid::of_number(1 << 120);
    assert!(rt; low < high);
    let first = Gvsn {
        db: low,
        version: 12,
    };
    let second = Gvsn {
        db: high,
        version: 9,
    };
    assert!(rt; first < second);
    let root = Uid {
        db: low,
        version: 1,
    };
    assert!(rt;
        root < Uid {
            db: low,
            version: 2
        }
    );
}

// What owns a value lends it to one function: each early return past one that is owned makes a
// proof longer.

/// The units of a name that is made of these, or why there is none.
fn try_units(alloc: Global, units: &[u16]) -> Result<bool, NameError> {
    Ok(Name::from_units(alloc, units)?.units() == units)
}

/// A name that is made of so many units in both ways: whether it has them.
fn try_length(alloc: Global, count: usize) -> Result<Result<bool, NameError>, Fail> {
    let units = vec![in alloc; 0x78; count]?;
    Ok(try_units(alloc, &units))
}

/// A name that takes a vector of so many units `x`: how many of them it has.
fn try_taking(alloc: Global, count: usize) -> Result<Result<usize, NameError>, Fail> {
    let units = vec![in alloc; 0x78; count]?;
    Ok(Name::from_vec(units).map(|name| name.units().iter().filter(|unit| **unit == 0x78).count()))
}

#[test]
fn names_of_units(rt: HostRuntime) -> Result<(), Fail> {
    let alloc = rt.alloc();
    let bad = |at| NameError::NameBad { at };
    assert_eq!(rt; try_length(alloc, 255)?, Ok(true));
    assert_eq!(rt; try_length(alloc, 256)?, Err(bad(256)));
    assert_eq!(rt; try_taking(alloc, 255)?, Ok(255));
    assert_eq!(rt; try_taking(alloc, 256)?, Err(bad(256)));
    let rows: [(&[u16], usize); 5] = [
        (&[], 0),
        (&[0x2f], 0),
        (&[0x61, 0], 1),
        (&[0x61, 0x5c, 0x2f], 1),
        (&[0x61, 0x62, 0x2f, 0], 2),
    ];
    for (units, at) in rows {
        assert_eq!(rt; try_units(alloc, units), Err(bad(at)));
    }
    Ok(())
}

fn expect_match(
    rt: &impl Abort,
    alloc: Global,
    a: &str,
    b: &str,
    wanted: bool,
) -> Result<(), Fail> {
    assert_eq!(rt;
        name_of(alloc, a)?.matches(&name_of(alloc, b)?),
        wanted,
        "{a} {b}"
    );
    Ok(())
}

#[test]
fn names_match_without_case(rt: HostRuntime) -> Result<(), Fail> {
    let rows = [
        ("x", "X", true),
        ("Az", "aZ", true),
        ("a", "b", false),
        ("a", "ab", false),
        ("@", "`", false),
        ("[", "{", false),
    ];
    for (a, b, wanted) in rows {
        expect_match(&rt, rt.alloc(), a, b, wanted)?;
    }
    Ok(())
}

#[test]
fn a_copied_name_is_equal(rt: HostRuntime) -> Result<(), Fail> {
    let name = name_of(rt.alloc(), "Name")?;
    assert!(rt; name.copy()? == name);
    assert!(rt; name_of(rt.alloc(), "name")? != name);
    Ok(())
}

#[test]
fn wrapped_vectors_come_back(rt: HostRuntime) -> Result<(), Fail> {
    let alloc = rt.alloc();
    let bytes = Bytes::of(vec![in alloc; 1, 2, 3]?);
    assert!(rt; bytes == Bytes::of(vec![in alloc; 1, 2, 3]?));
    assert_eq!(rt; bytes.into_vec().as_slice(), [1, 2, 3].as_slice());
    let names = List::of(vec![in alloc; database_of(1), database_of(2)]?);
    assert!(rt; names != List::of(vec![in alloc; database_of(2), database_of(1)]?));
    assert_eq!(rt; names.into_vec().len(), 2);
    Ok(())
}

fn try_values(rt: &impl Abort, alloc: Global, values: &mut ReservedVec<u8>) -> Result<(), Fail> {
    values.reserve_one(alloc)?;
    values.push(7);
    values.reserve_one(alloc)?;
    values.insert(0, 5);
    values.reserve_one(alloc)?;
    values.insert(1, 6);
    assert_eq!(rt; values.as_slice(), [5, 6, 7].as_slice());
    values.set(2, 8);
    assert_eq!(rt; values.change(0, |value| std::mem::replace(value, 9)), 5);
    assert_eq!(rt; values.as_slice(), [9, 6, 8].as_slice());
    assert_eq!(rt; values.remove(1), 6);
    assert_eq!(rt; values.as_slice(), [9, 8].as_slice());
    Ok(())
}

#[test]
fn reserved_values_stay_in_order(rt: HostRuntime) -> Result<(), Fail> {
    let mut values = ReservedVec::empty();
    try_values(&rt, rt.alloc(), &mut values)
}

#[test]
fn reserved_values_are_those_of_a_vector(rt: HostRuntime) -> Result<(), Fail> {
    let mut values = ReservedVec::of(vec![in rt.alloc(); 1, 2, 3, 4, 5]?);
    values.remove_range(1, 3);
    assert_eq!(rt; values.as_slice(), [1, 4, 5].as_slice());
    Ok(())
}

fn try_tape(rt: &impl Abort, alloc: Global, tape: &mut Tape) -> Result<(), Fail> {
    for byte in [7, 0xff] {
        let code = Tape::encode(alloc, &byte)?;
        assert_eq!(rt; Tape::decode(alloc, &code)?, Some(byte));
        let ready = tape.ready(alloc, byte)?;
        tape.take(ready);
    }
    assert_eq!(rt; Tape::decode(alloc, &[1, 7])?, None);
    assert_eq!(rt; tape.save(alloc)?.as_slice(), [7, 0xff].as_slice());
    Ok(())
}

#[test]
fn a_machine_is_brought_back_by_its_commands(rt: HostRuntime) -> Result<(), Fail> {
    codes_have_one_command::<Tape>();
    let mut tape = Tape {
        bytes: ReservedVec::empty(),
    };
    try_tape(&rt, rt.alloc(), &mut tape)
}
