// Lists in memory of their own.
ghost use Rattle.std.specs.Prelude.{◌≡◌, IfOk};

use frs_base::{List, Name};
use std::alloc::{AllocError, Global};
use win_order::Update;

/// The same names.
pub(crate) fn copy_names(alloc: Global, names: &[Name]) -> Result<List<Name>, AllocError>
    ensures { IfOk result (λ copy. copy ≡ names.now) }
{
    let mut copy = Vec::new(alloc);
    for name in names {
        copy.push(name.copy()?)?;
    }
    Ok(List::of(copy))
}

/// The same updates.
pub(crate) fn copy_updates(alloc: Global, updates: &[Update]) -> Result<List<Update>, AllocError>
    ensures { IfOk result (λ copy. copy ≡ updates.now) }
{
    let mut copy = Vec::new(alloc);
    for update in updates {
        copy.push(update.copy()?)?;
    }
    Ok(List::of(copy))
}
