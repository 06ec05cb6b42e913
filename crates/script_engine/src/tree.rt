// What `tree` prints.
ghost use Rattle.std.specs.Prelude.{◌≡◌, ◌∷◌, [], List, IfOk, codes, decimal, map, string_bytes};
ghost use Rattle.vol_state.specs.Maps.{maps_of};
ghost use Rattle.script_engine.specs.Printed.{printed};
ghost use Rattle.script_engine.specs.Trees.{IsTreeOf, Row, path_word, row_text, tree_text};

use crate::TreeRow;
use crate::rows::tree_rows;
use crate::words::name_word;
use frs_base::{Kind, Name};
use std::alloc::{AllocError, Global};
use vol_state::Volume;

/// A path as text: its names, with `/` between.
pub(crate) fn path_word(alloc: Global, path: &[&Name]) -> Result<String, AllocError>
    ensures { IfOk result (λ text. string_bytes text ≡ path_word (map (λ name. name.now) path.now)) }
{
    let Some((first, rest)) = path.split_first() else {
        return Ok(String::new(alloc));
    };
    let mut text = name_word(alloc, first)?;
    for name in rest {
        let word = name_word(alloc, name)?;
        text.push_str("/")?;
        text.push_str(word.as_str())?;
    }
    Ok(text)
}

/// The line of a file.
fn file_text(alloc: Global, path: &str, length: usize) -> Result<String, AllocError>
    ensures { IfOk result (λ text. string_bytes text ≡ printed (codes "f" ∷ path.now ∷ decimal length ∷ [])) }
{
    format!(in alloc; "f {path} {length}\n")
}

/// The line of a row: `d` and the path of a directory, or `f`, the path and the length of a file.
fn row_text(alloc: Global, row: &TreeRow) -> Result<String, AllocError>
    ensures { IfOk result (λ text. string_bytes text ≡ row_text row.now) }
{
    let path = path_word(alloc, row.path())?;
    let object = row.object();
    match object.kind {
        Kind::Directory => format!(in alloc; "d {path}\n"),
        Kind::File => file_text(alloc, path.as_str(), object.bytes.as_slice().len()),
    }
}

/// The lines of rows, or that there are none.
fn rows_text(alloc: Global, rows: &[TreeRow]) -> Result<String, AllocError>
    ensures { IfOk result (λ text. string_bytes text ≡ tree_text rows.now) }
{
    if rows.is_empty() {
        return String::from_str(alloc, "tree empty\n");
    }
    let mut text = String::new(alloc);
    for row in rows {
        let line = row_text(alloc, row)?;
        text.push_str(line.as_str())?;
    }
    Ok(text)
}

/// The lines of `tree`: a line for each object that a path leads to from the volume's root, in
/// order of the paths as lists of names by their units.
///
/// A unit of a name that is half of a pair prints as U+FFFD.
pub fn tree_text(alloc: Global, volume: &Volume) -> Result<String, AllocError>
    ensures { IfOk result (λ text. (rows : List Row) × IsTreeOf (maps_of volume.now.state) rows × (string_bytes text ≡ tree_text rows)) }
{
    let rows = tree_rows(alloc, volume)?;
    rows_text(alloc, &rows)
}
