// The tree of records.
ghost use Rattle.std.specs.Prelude.{◌≡◌, ◌++◌, ◌∷◌, [], IfOk, map};
ghost use Rattle.name_rules.specs.Rows.{AreRowsOf, AreTreeRows, HaveNoRoot, path_above, row_hash, row_in};
ghost use Rattle.name_rules.specs.Shown.{AreDistinct, Descends};

use crate::descent::{Reached, descend};
use crate::kinds::kind_of;
use crate::named::named;
use crate::rows::{TreeRow, depth_order};
use frs_base::{List, Name, Sum};
use std::alloc::{AllocError, Global};
use win_order::Update;

/// The hash of an update's row.
fn row_hash(update: &Update) -> Sum
    ensures { result ≡ row_hash update.now }
{
    if update.is_directory() {
        Sum([0; 20])
    } else {
        update.hash
    }
}

/// The path of a name in a directory.
fn path_in(alloc: Global, above: &[Name], name: &Name) -> Result<List<Name>, AllocError>
    ensures { IfOk result (λ path. path ≡ above.now ++ name.now ∷ []) }
{
    let mut path = Vec::new(alloc);
    for other in above {
        path.push(other.copy()?)?;
    }
    path.push(name.copy()?)?;
    Ok(List::of(path))
}

/// The row of an update in a directory with this path.
fn row_in(alloc: Global, above: &[Name], update: &Update) -> Result<TreeRow, AllocError>
    ensures { IfOk result (λ row. row ≡ row_in above.now update.now) }
{
    Ok(TreeRow {
        path: path_in(alloc, above, &update.name)?,
        kind: kind_of(update),
        hash: row_hash(update),
    })
}

/// The path of the row with this number; that of the root, which is empty, where there is none.
fn path_above(rows: &[TreeRow], above: Option<usize>) -> &[Name]
    ensures { result.now ≡ path_above rows.now above }
{
    match above.and_then(|at| rows.get(at)) {
        None => &[],
        Some(row) => row.path.as_slice(),
    }
}

/// The rows of those that were found, in the order in which they were.
fn rows_of(alloc: Global, named: &[&Update], reached: &Reached) -> Result<Vec<TreeRow>, AllocError>
    requires { Descends (map (λ u. u.now) named.now) reached.now.flags.items reached.now.queue.items reached.now.above.items }
    ensures { IfOk result (λ rows. AreRowsOf (map (λ u. u.now) named.now) reached.now.queue.items reached.now.above.items rows.items) }
{
    let mut rows = Vec::new(alloc);
    for (next, at) in reached.queue.iter().enumerate() {
        let above = path_above(rows.as_slice(), reached.above[next]);
        let row = row_in(alloc, above, named[*at])?;
        rows.push(row)?;
    }
    Ok(rows)
}

/// The tree of the records: of each that is shown its path from the root, its kind and its hash, in
/// order of depth as [`depth_order`] has it.
///
/// With n records it takes the work of sorting them and their rows, and of copying the paths.
///
/// [`depth_order`]: crate::depth_order
pub fn tree(alloc: Global, records: &[Update]) -> Result<Vec<TreeRow>, AllocError>
    requires distinct { AreDistinct records.now }
    requires rootless { HaveNoRoot records.now }
    ensures { IfOk result (λ rows. AreTreeRows records.now rows.items) }
{
    let named = named(alloc, records)?;
    let reached = descend(alloc, named.as_slice())?;
    let mut rows = rows_of(alloc, named.as_slice(), &reached)?;
    depth_order(rows.as_mut_slice());
    Ok(rows)
}
