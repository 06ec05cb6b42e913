// Rows with few keys, joined.
ghost use Rattle.std.specs.Prelude.{◌≡◌, ◌<◌, ◌+◌, IfOk, length};
ghost use Rattle.frs_pmap.specs.Trees.{IsJoined};

use crate::row::{FEW, MOST, Row};
use std::alloc::{AllocError, Global};

/// The row at a place and the one behind it in one.
fn joined_pair<K: Ord + Copy, P: Drop>(
    alloc: Global,
    parts: &Row<K, Row<K, P>>,
    at: usize,
) -> Result<Row<K, Row<K, P>>, AllocError>
    requires { at + 1 < length parts.now }
    ensures { IfOk result (IsJoined parts.now) }
{
    let len = parts.len();
    let (first, front) = parts.item(at);
    let (_, back) = parts.item(at + 1);
    let mut both = Row::with_room(alloc, MOST)?;
    both.extend(front, 0, front.len())?;
    both.extend(back, 0, back.len())?;
    let mut out = Row::with_room(alloc, len)?;
    out.extend(parts, 0, at)?;
    out.push(alloc, first, both)?;
    out.extend(parts, at + 2, len)?;
    Ok(out)
}

/// The row at a place and the one behind it in one, where both have few keys.
pub(crate) fn joined<K: Ord + Copy, P: Drop>(
    alloc: Global,
    parts: Row<K, Row<K, P>>,
    at: usize,
) -> Result<Row<K, Row<K, P>>, AllocError>
    ensures { IfOk result (IsJoined parts) }
{
    let len = parts.len();
    if len < 2 || at > len - 2 {
        return Ok(parts);
    }
    let (_, front) = parts.item(at);
    let (_, back) = parts.item(at + 1);
    let front_len = front.len();
    let back_len = back.len();
    if front_len > FEW || back_len > FEW - front_len {
        return Ok(parts);
    }
    let out = joined_pair(alloc, &parts, at)?;
    Ok(out)
}

/// The rows around a place in fewer, where they have few keys.
pub(crate) fn joined_around<K: Ord + Copy, P: Drop>(
    alloc: Global,
    parts: Row<K, Row<K, P>>,
    at: usize,
) -> Result<Row<K, Row<K, P>>, AllocError>
    ensures { IfOk result (IsJoined parts) }
{
    let behind = joined(alloc, parts, at)?;
    let both = joined(alloc, behind, at.saturating_sub(1))?;
    Ok(both)
}
