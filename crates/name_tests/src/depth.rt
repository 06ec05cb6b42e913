// Rows in order of depth.

use frs_base::{Kind, List, Name, Sum};
use name_rules::{TreeRow, depth_order};
use std::alloc::Global;
use std::test::Fail;

/// The row of a file at a path of two names, the second of them none where it has no units.
fn row(alloc: Global, first: &[u16], second: &[u16]) -> Result<TreeRow, Fail> {
    let mut path = Vec::new(alloc);
    path.push(Name::from_units(alloc, first)?)?;
    if !second.is_empty() {
        path.push(Name::from_units(alloc, second)?)?;
    }
    Ok(TreeRow {
        path: List::of(path),
        kind: Kind::File,
        hash: Sum([7; 20]),
    })
}

#[test]
fn rows_by_depth(rt: HostRuntime) -> Result<(), Fail> {
    let alloc = rt.alloc();
    // shorter paths first; then names unit by unit, by number and not by case, and a name before
    // a longer one that it begins
    let mut rows = [
        row(alloc, &[0x61], &[0x62, 0x61])?,
        row(alloc, &[0x62], &[0x61])?,
        row(alloc, &[0x7a], &[])?,
        row(alloc, &[0x61], &[0x62])?,
        row(alloc, &[0x5a, 0x61], &[])?,
    ];
    depth_order(&mut rows);
    let wanted = [
        row(alloc, &[0x5a, 0x61], &[])?,
        row(alloc, &[0x7a], &[])?,
        row(alloc, &[0x61], &[0x62])?,
        row(alloc, &[0x61], &[0x62, 0x61])?,
        row(alloc, &[0x62], &[0x61])?,
    ];
    assert!(rt; rows.as_slice() == wanted.as_slice());
    Ok(())
}
