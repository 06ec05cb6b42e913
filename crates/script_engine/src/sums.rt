// What `sums` prints.
ghost use Rattle.std.specs.Prelude.{◌≡◌, List, IfOk, flat_map, not, string_bytes};
ghost use Rattle.vol_state.specs.Maps.{maps_of};
ghost use Rattle.vol_state.specs.Places.{is_directory};
ghost use Rattle.script_engine.specs.Trees.{IsTreeOf, Row, files_of, sum_text, sums_text};

use crate::TreeRow;
use crate::rows::tree_rows;
use crate::tree::path_word;
use frs_base::Kind;
use std::alloc::{AllocError, Global};
use vol_state::Volume;

/// Whether a row is a file's.
fn is_file(row: &TreeRow) -> bool
    ensures { result ≡ not (is_directory row.now.object.kind) }
{
    match row.object().kind {
        Kind::File => true,
        Kind::Directory => false,
    }
}

/// The line of a file: the digits of its sum, and the path.
fn sum_text(alloc: Global, row: &TreeRow) -> Result<String, AllocError>
    ensures { IfOk result (λ text. string_bytes text ≡ sum_text row.now) }
{
    let path = path_word(alloc, row.path())?;
    let digits = hex::encode(alloc, row.object().sum.0)?;
    format!(in alloc; "{digits} {path}\n")
}

/// The lines of those rows that are files.
fn file_lines(alloc: Global, rows: &[TreeRow]) -> Result<String, AllocError>
    ensures { IfOk result (λ text. string_bytes text ≡ flat_map sum_text (files_of rows.now)) }
{
    let mut text = String::new(alloc);
    for row in rows {
        if is_file(row) {
            let line = sum_text(alloc, row)?;
            text.push_str(line.as_str())?;
        }
    }
    Ok(text)
}

/// The lines of those rows that are files, or that there are none.
fn rows_text(alloc: Global, rows: &[TreeRow]) -> Result<String, AllocError>
    ensures { IfOk result (λ text. string_bytes text ≡ sums_text (files_of rows.now)) }
{
    let text = file_lines(alloc, rows)?;
    if text.as_str().is_empty() {
        return String::from_str(alloc, "sums empty\n");
    }
    Ok(text)
}

/// The lines of `sums`: a line for each file that a path leads to from the volume's root, in order
/// of the paths as lists of names by their units.
///
/// A sum is written as two lower-case hexadecimal digits for each of its bytes.
pub fn sums_text(alloc: Global, volume: &Volume) -> Result<String, AllocError>
    ensures { IfOk result (λ text. (rows : List Row) × IsTreeOf (maps_of volume.now.state) rows × (string_bytes text ≡ sums_text (files_of rows))) }
{
    let rows = tree_rows(alloc, volume)?;
    rows_text(alloc, &rows)
}
