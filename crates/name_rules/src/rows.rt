// Rows of a tree, and their order.
ghost use Rattle.std.specs.Prelude.{◌≡◌};
ghost use Rattle.std.specs.List.Sorted.{IsPermutation};
ghost use Rattle.name_rules.specs.Rows.{AreByDepth, depth_cmp, names_cmp};

use frs_base::{Kind, List, Name, Sum};
use std::cmp::Ordering;

/// A file or directory of a tree.
#[derive(Debug, Drop, PartialEq, Eq)]
pub struct TreeRow {
    /// The names from the root on, the last of them its own.
    pub path: List<Name>,
    /// What it is.
    pub kind: Kind,
    /// The sum of the file's marshalled form, all zero for a directory.
    pub hash: Sum,
}

/// Compares two lists of names name by name, and names unit by unit.
fn compare_names(a: &[Name], b: &[Name]) -> Ordering
    ensures { result ≡ names_cmp a.now b.now }
{
    for (at, name) in a.iter().enumerate() {
        let Some(other) = b.get(at) else {
            return Ordering::Greater;
        };
        match name.units().cmp(other.units()) {
            Ordering::Equal => {}
            order => return order,
        }
    }
    if a.len() < b.len() {
        Ordering::Less
    } else {
        Ordering::Equal
    }
}

/// Compares two rows by the lengths of their paths, then by the names.
fn by_depth(a: &TreeRow, b: &TreeRow) -> Ordering
    ensures { result ≡ depth_cmp a.now.path b.now.path }
{
    let (one, other) = (a.path.as_slice(), b.path.as_slice());
    match one.len().cmp(&other.len()) {
        Ordering::Equal => compare_names(one, other),
        order => order,
    }
}

/// Puts rows in order: by the length of the path, then by its names as lists of UTF-16 units.
///
/// It takes no memory. Rows of one path may come in any order among themselves.
pub fn depth_order(rows: &mut [TreeRow])
    ensures permutation { IsPermutation rows.old rows.new }
    ensures ordered { AreByDepth rows.new }
{
    rows.sort_unstable_by(|a, b| by_depth(a, b));
}
