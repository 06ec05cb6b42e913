// Updates as a history keeps them.
ghost use Rattle.std.specs.Prelude.{◌≡◌, IfOk};

use std::alloc::{AllocError, Global};
use std::marker::Model;
use std::sync::Arc;
use win_order::Update;

/// An update in memory of its own, so that entries without one are small. Copies share it.
///
/// A contract sees the update.
#[derive(Debug, Drop)]
pub struct KeptUpdate {
    kept: Arc<Update>,
}

impl Model for KeptUpdate {
    ghost use Rattle.std.specs.Arc.{arc_value};
    ghost use Rattle.win_order.specs.declared.update.Update.{Update};

    ghost Value = { Update };

    ghost view = { λ u. arc_value u.kept };
}

impl KeptUpdate {
    /// Takes the memory for an update.
    pub(crate) fn of(alloc: Global, update: &Update) -> Result<KeptUpdate, AllocError>
        ensures { IfOk result (λ kept. kept ≡ update.now) }
    {
        let kept = Arc::new(alloc, update.copy()?)?;
        Ok(KeptUpdate { kept })
    }

    /// The update, lent.
    pub fn update(&self) -> &Update
        ensures { result.now ≡ self.now }
    {
        &self.kept
    }

    /// The same update, which takes no memory.
    pub fn copy(&self) -> Result<KeptUpdate, AllocError>
        ensures { IfOk result (λ kept. kept ≡ self.now) }
    {
        let kept = Arc::try_clone(&self.kept)?;
        Ok(KeptUpdate { kept })
    }
}
