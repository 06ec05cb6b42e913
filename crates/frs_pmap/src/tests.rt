// What no contract says: that the calls succeed, also in maps of many rows.
use super::*;
use std::alloc::Global;
use std::process::Abort;
use std::sync::Arc;
use std::test::Fail;

/// A map of these keys, each with ten times itself.
fn map_of(alloc: Global, keys: &[u64]) -> Result<Pmap<u64, u64>, Fail> {
    let mut map = Pmap::empty();
    for key in keys {
        map = map.with(alloc, *key, key.wrapping_mul(10))?;
    }
    Ok(map)
}

#[test]
fn a_shared_map_keeps_its_keys(rt: HostRuntime) -> Result<(), Fail> {
    let alloc = rt.alloc();
    let map = map_of(alloc, &[5, 1, 3, 9])?;
    let copy = map.share()?;
    let map = map.without(alloc, &3)?;
    assert_eq!(rt; map.get(&3), None);
    assert_eq!(rt; copy.get(&3), Some(&30));
    assert_eq!(rt; map.range(alloc, &0, 9)?.as_slice(), [1, 5, 9].as_slice());
    assert_eq!(rt;
        copy.range(alloc, &0, 9)?.as_slice(),
        [1, 3, 5, 9].as_slice()
    );
    Ok(())
}

#[test]
fn keys_are_found_in_order(rt: HostRuntime) -> Result<(), Fail> {
    let alloc = rt.alloc();
    let map = map_of(alloc, &[2, 4, 6])?;
    let over = map.with(alloc, 4, 7)?;
    assert_eq!(rt; map.get(&4), Some(&40));
    assert_eq!(rt; over.get(&4), Some(&7));
    assert_eq!(rt; map.first().map(|e| e.0), Some(2));
    for (key, from, above) in [
        (1, Some(2), Some(2)),
        (2, Some(2), Some(4)),
        (6, Some(6), None),
    ] {
        assert_eq!(rt; map.at_or_above(&key).map(|e| e.0), from, "from {key}");
        assert_eq!(rt; map.above(&key).map(|e| e.0), above, "above {key}");
    }
    assert_eq!(rt; map.range(alloc, &3, 9)?.as_slice(), [4, 6].as_slice());
    assert_eq!(rt; map.range(alloc, &1, 2)?.as_slice(), [2, 4].as_slice());
    Ok(())
}

#[test]
fn many_keys_come_and_go(rt: HostRuntime) -> Result<(), Fail> {
    let alloc = rt.alloc();
    let mut map = Pmap::empty();
    for key in 0..9_000u64 {
        map = map.with(alloc, key.wrapping_mul(7) % 9_000, key)?;
    }
    let copy = map.share()?;
    for key in 0..9_000u64 {
        if key % 2 == 1 {
            map = map.without(alloc, &key)?;
        }
    }
    for key in 0..9_000u64 {
        assert_eq!(rt; map.get(&key).is_some(), key % 2 == 0, "at {key}");
        assert!(rt; copy.get(&key).is_some(), "{key} in the copy");
    }
    assert_eq!(rt;
        map.range(alloc, &8_995, 9)?.as_slice(),
        [8_996, 8_998].as_slice()
    );
    Ok(())
}

/// Puts ten times itself at a key of a table.
fn put_one(alloc: Global, table: &mut Table<u64, u64>, key: u64) -> Result<(), Fail> {
    let value = Arc::new(alloc, key.wrapping_mul(10))?;
    table.reserve(alloc)?;
    table.put(key, value);
    Ok(())
}

/// The keys of a table, so many at most.
fn keys_of(alloc: Global, table: &mut Table<u64, u64>, most: usize) -> Result<Vec<u64>, Fail> {
    Ok(table.share(alloc)?.range(alloc, &0, most)?)
}

#[test]
fn a_table_hands_out_maps(rt: HostRuntime) -> Result<(), Fail> {
    let alloc = rt.alloc();
    let mut table = Table::empty();
    for key in [5, 1, 3, 9] {
        put_one(alloc, &mut table, key)?;
    }
    let before = table.share(alloc)?;
    table.cut(&3);
    put_one(alloc, &mut table, 7)?;
    assert_eq!(rt; table.get(&3), None);
    assert_eq!(rt; table.get(&7), Some(&70));
    assert_eq!(rt; table.first().map(|e| e.0), Some(1));
    assert_eq!(rt; table.at_or_above(&6).map(|e| e.0), Some(7));
    assert_eq!(rt; table.above(&9).map(|e| e.0), None);
    assert_eq!(rt; table.len(), 4);
    assert_eq!(rt;
        before.range(alloc, &0, 9)?.as_slice(),
        [1, 3, 5, 9].as_slice()
    );
    assert_eq!(rt;
        keys_of(alloc, &mut table, 9)?.as_slice(),
        [1, 5, 7, 9].as_slice()
    );
    assert_eq!(rt; before.len(), 4);
    assert!(rt; !before.is_empty(), "four entries");
    Ok(())
}

/// Puts many keys into a table, cuts half of them, and shares it now and then.
fn try_many(rt: &impl Abort, alloc: Global, table: &mut Table<u64, u64>) -> Result<(), Fail> {
    for key in 0..9_000u64 {
        put_one(alloc, table, key.wrapping_mul(7) % 9_000)?;
    }
    let all = table.share(alloc)?;
    for key in 0..9_000u64 {
        if key % 2 == 1 {
            table.cut(&key);
        }
        if key % 1_000 == 999 {
            let _ = table.share(alloc)?;
        }
    }
    let half = table.share(alloc)?;
    assert_eq!(rt; (all.len(), half.len()), (9_000, 4_500));
    for key in 0..9_000u64 {
        let value = key.wrapping_mul(10);
        assert_eq!(rt; all.get(&key), Some(&value), "{key} in all");
        assert_eq!(rt; half.get(&key).is_some(), key % 2 == 0, "{key} in half");
        assert_eq!(rt;
            table.get(&key).is_some(),
            key % 2 == 0,
            "{key} in the table"
        );
    }
    Ok(())
}

#[test]
fn a_table_of_many_keys(rt: HostRuntime) -> Result<(), Fail> {
    let alloc = rt.alloc();
    try_many(&rt, alloc, &mut Table::empty())
}
