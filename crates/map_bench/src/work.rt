// The parts of the work that are timed.

use crate::key::{Key, Order, Value};
use frs_pmap::{Pmap, Table};
use std::alloc::{AllocError, Global};
use std::sync::Arc;

/// Puts a value at the key of a place.
fn put_one(
    alloc: Global,
    table: &mut Table<Key, Value>,
    order: Order,
    place: u64,
) -> Result<(), AllocError> {
    let value = Arc::new(alloc, [place; 24])?;
    table.reserve(alloc)?;
    table.put(order.key(place), value);
    Ok(())
}

/// Puts a value at the key of each place.
pub(crate) fn put_all(
    alloc: Global,
    table: &mut Table<Key, Value>,
    order: Order,
    entries: u64,
) -> Result<(), AllocError> {
    for place in 0..entries {
        put_one(alloc, table, order, place)?;
    }
    Ok(())
}

/// Puts other values at the keys of a few places that lie apart, others in each round.
pub(crate) fn put_some(
    alloc: Global,
    table: &mut Table<Key, Value>,
    order: Order,
    entries: u64,
    round: u64,
    changes: u64,
) -> Result<(), AllocError> {
    for change in 0..changes {
        let mixed = round
            .wrapping_mul(7_919)
            .wrapping_add(change.wrapping_mul(104_729));
        put_one(alloc, table, order, mixed % entries.max(1))?;
    }
    Ok(())
}

/// The sum of what is at the keys of all places.
pub(crate) fn get_all(table: &Table<Key, Value>, order: Order, entries: u64) -> u64 {
    let mut sum: u64 = 0;
    for place in 0..entries {
        if let Some(value) = table.get(&order.key(place)) {
            sum = sum.wrapping_add(value[0]);
        }
    }
    sum
}

/// The sum of the values in order of their keys.
pub(crate) fn walk(map: &Pmap<Key, Value>, entries: u64) -> u64 {
    let mut sum: u64 = 0;
    let mut next = map.first();
    for _ in 0..entries {
        let Some((key, value)) = next else {
            break;
        };
        sum = sum.wrapping_add(value[0]);
        next = map.above(&key);
    }
    sum
}

/// Takes the oldest entry away and puts a new one, as often as there are entries.
pub(crate) fn queue_all(
    alloc: Global,
    table: &mut Table<Key, Value>,
    order: Order,
    entries: u64,
) -> Result<(), AllocError> {
    for place in 0..entries {
        table.cut(&order.key(place));
        put_one(alloc, table, order, entries.wrapping_add(place))?;
    }
    Ok(())
}

/// Takes the entries away that [`queue_all`] put.
pub(crate) fn cut_all(table: &mut Table<Key, Value>, order: Order, entries: u64) {
    for place in 0..entries {
        table.cut(&order.key(entries.wrapping_add(place)));
    }
}
