// What is reached from the root of a volume.
ghost use Rattle.std.specs.Prelude.{◌≡◌, List, IfOk, length, map, option_map, vec_len};
ghost use Rattle.vol_state.specs.Maps.{maps_of};
ghost use Rattle.vol_state.specs.Valid.{IsVolume};
ghost use Rattle.script_engine.specs.Rows.{names_up, path_cmp, row_of, rows_of};
ghost use Rattle.script_engine.specs.Trees.{IsTreeOf, files_in};

use frs_base::{Kind, Name};
use std::alloc::{AllocError, Global};
use std::cmp::Ordering;
use std::marker::Model;
use vol_state::{Object, Volume};

/// An object that a path leads to.
///
/// A contract sees the path and the object.
#[derive(Debug, Drop)]
pub struct TreeRow<'a> {
    path: Vec<&'a Name>,
    object: &'a Object,
}

impl<'a> Model for TreeRow<'a> {
    ghost use Rattle.std.specs.Prelude.{map};
    ghost use Rattle.script_engine.specs.Trees.{Row};

    ghost Value = { Row };

    ghost view = { λ row. record { path = map (λ name. name.now) row.path.items; object = row.object.now } };
}

impl<'a> TreeRow<'a> {
    /// The names from the root on.
    pub fn path(&self) -> &[&'a Name]
        ensures { map (λ name. name.now) result.now ≡ self.now.path }
    {
        self.path.as_slice()
    }

    /// The object.
    pub fn object(&self) -> &'a Object
        ensures { result.now ≡ self.now.object }
    {
        self.object
    }
}

/// The names from an object up to the root; none where its places don't lead there.
fn names_up<'a>(
    alloc: Global,
    volume: &'a Volume,
    object: &'a Object,
) -> Result<Option<Vec<&'a Name>>, AllocError>
    ensures { IfOk result (λ found. option_map (λ names. map (λ name. name.now) names.items) found
        ≡ names_up volume.now.state.objects (length volume.now.state.objects) object.now.place) }
{
    let count = volume.objects().len();
    let mut names = Vec::new(alloc);
    let mut at = object;
    for _step in 0..count {
        let Some((parent, name)) = &at.place else {
            return Ok(None);
        };
        names.push(name)?;
        if *parent == 0 {
            return Ok(Some(names));
        }
        let Some(up) = volume.object_at(*parent) else {
            return Ok(None);
        };
        at = up;
    }
    Ok(None)
}

/// The row of an object; none where no path leads to it.
fn row_of<'a>(
    alloc: Global,
    volume: &'a Volume,
    object: &'a Object,
) -> Result<Option<TreeRow<'a>>, AllocError>
    ensures { IfOk result (λ row. row ≡ row_of volume.now.state.objects object.now) }
{
    let Some(mut path) = names_up(alloc, volume, object)? else {
        return Ok(None);
    };
    path.reverse();
    Ok(Some(TreeRow { path, object }))
}

/// The rows, in order of the objects' numbers.
fn rows_of<'a>(alloc: Global, volume: &'a Volume) -> Result<Vec<TreeRow<'a>>, AllocError>
    ensures valid { IsVolume volume.now.state }
    ensures rows { IfOk result (λ rows. rows.items ≡ rows_of volume.now.state.objects) }
{
    let mut rows = Vec::new(alloc);
    for object in volume.objects() {
        if let Some(row) = row_of(alloc, volume, object)? {
            rows.push(row)?;
        }
    }
    Ok(rows)
}

/// Compares two paths name by name, and names unit by unit.
fn compare_paths(a: &[&Name], b: &[&Name]) -> Ordering
    ensures { result ≡ path_cmp (map (λ name. name.now) a.now) (map (λ name. name.now) b.now) }
{
    for (at, name) in a.iter().enumerate() {
        let Some(other) = b.get(at) else {
            return Ordering::Greater;
        };
        match name.units().cmp(other.units()) {
            Ordering::Equal => {}
            order => return order,
        }
    }
    if a.len() < b.len() {
        Ordering::Less
    } else {
        Ordering::Equal
    }
}

/// Compares two rows by their paths.
fn by_path(a: &TreeRow, b: &TreeRow) -> Ordering
    ensures { result ≡ path_cmp a.now.path b.now.path }
{
    compare_paths(a.path(), b.path())
}

/// The objects that a path leads to from the root, with their paths and in order of them: paths
/// compare name by name, and names by their UTF-16 units.
///
/// What stands in limbo, or beneath what does, has no row.
pub fn tree_rows<'a>(alloc: Global, volume: &'a Volume) -> Result<Vec<TreeRow<'a>>, AllocError>
    ensures { IfOk result (λ rows. IsTreeOf (maps_of volume.now.state) rows.items) }
{
    let mut rows = rows_of(alloc, volume)?;
    rows.sort_unstable_by(|a, b| by_path(a, b));
    Ok(rows)
}

/// How many of the rows are files.
pub(crate) fn files_in(rows: &[TreeRow]) -> usize
    ensures { result ≡ files_in rows.now }
{
    let mut count = 0;
    for row in rows {
        match row.object().kind {
            Kind::File => count += 1,
            Kind::Directory => {}
        }
    }
    count
}
