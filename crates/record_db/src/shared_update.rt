// Updates in memory that is shared.
ghost use Rattle.std.specs.Prelude.{◌≡◌, IfOk};

use frs_base::Uid;
use std::alloc::{AllocError, Global};
use std::marker::Model;
use std::sync::Arc;
use win_order::Update;

/// An update in memory of its own, to stand in two maps.
///
/// A contract sees the update.
#[derive(Drop)]
pub(crate) struct SharedUpdate {
    pub(crate) by_file: Arc<Update>,
    pub(crate) by_version: Arc<Update>,
}

impl Model for SharedUpdate {
    ghost use Rattle.std.specs.Prelude.{◌≡◌};
    ghost use Rattle.std.specs.Arc.{arc_value};
    ghost use Rattle.win_order.specs.declared.update.Update.{Update};

    ghost Value = { Update };

    ghost view = { λ u. arc_value u.by_file };

    ghost invariant = { λ u. arc_value u.by_version ≡ arc_value u.by_file };
}

impl SharedUpdate {
    /// Takes the memory for an update.
    pub(crate) fn of(alloc: Global, update: Update) -> Result<SharedUpdate, AllocError>
        ensures { IfOk result (λ shared. shared ≡ update) }
    {
        let by_file = Arc::new(alloc, update)?;
        let by_version = Arc::try_clone(&by_file)?;
        Ok(SharedUpdate {
            by_file,
            by_version,
        })
    }

    /// The file that it is of.
    pub(crate) fn uid(&self) -> Uid
        ensures { result ≡ self.now.uid }
    {
        self.by_file.uid
    }
}
