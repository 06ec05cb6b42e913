// Entries of a history.
ghost use Rattle.std.specs.Prelude.{◌≡◌, IfOk};

use crate::{Mark, Note};
use std::alloc::{AllocError, Global};

/// An event, who it came from, and what was answered.
#[derive(Debug, Drop)]
pub struct Entry {
    /// Who the event came from: the connection or worker that brought it.
    pub caller: u64,
    /// The event.
    pub note: Note,
    /// The reply.
    pub reply: Mark,
}

impl Entry {
    /// The same entry in memory of its own.
    pub fn copy(&self, alloc: Global) -> Result<Entry, AllocError>
        ensures { IfOk result (λ entry. entry ≡ self.now) }
    {
        Ok(Entry {
            caller: self.caller,
            note: self.note.copy(alloc)?,
            reply: self.reply.copy(alloc)?,
        })
    }
}
