// Events as a history keeps them.
ghost use Rattle.std.specs.Prelude.{◌≡◌, IfOk};
ghost use Rattle.folder_core.specs.Notes.{form_sum, local_note_of, note_of, noted_sum};

use crate::copies::{copy_names, copy_updates};
use crate::{Event, KeptUpdate};
use frs_base::{Guid, Kind, List, Name, Sum, Uid};
use marshal_form::Form;
use std::alloc::{AllocError, Global};
use version_vector::Vector;
use vol_state::{LocalOp, content_sum};
use win_order::Update;

/// A local operation with the sum of contents in their place.
#[derive(Debug, Drop, PartialEq, Eq)]
pub enum LocalNote {
    /// A put.
    Put { path: List<Name>, sum: Sum },
    /// A mkdir.
    Mkdir { path: List<Name> },
    /// A move.
    Move { from: List<Name>, to: List<Name> },
    /// A remove.
    Remove { path: List<Name> },
}

/// An event with the sum of contents in their place.
#[derive(Debug, Drop)]
pub enum Note {
    /// An operation on its files.
    Local(LocalNote),
    /// A journal record consumed, at this moment.
    Consume {
        moment: u64,
    },
    /// What it covers was asked for.
    Vector,
    /// A file was asked for.
    File {
        uid: Uid,
    },
    /// An update that the member of the database `from` sent in the entry `at` of its history.
    Adopt {
        from: Guid,
        at: u64,
        update: KeptUpdate,
        form: Option<Sum>,
    },
    /// A round over the vector that the member of the database `from` sent in the entry `at` of its
    /// history.
    Finish {
        from: Guid,
        at: u64,
        sent: Vector,
        seen: List<Update>,
    },
    /// The installer took its next step.
    Install,
}

/// The sum of a form.
fn form_sum(form: &Form) -> Sum
    ensures { result ≡ form_sum form.now }
{
    Sum(form.sum())
}

impl LocalNote {
    /// The note of an operation.
    pub(crate) fn of(alloc: Global, operation: &LocalOp) -> Result<LocalNote, AllocError>
        ensures { IfOk result (λ note. note ≡ local_note_of operation.now) }
    {
        Ok(match operation {
            LocalOp::Put { path, bytes } => LocalNote::Put {
                path: copy_names(alloc, path.as_slice())?,
                sum: content_sum(Kind::File, bytes),
            },
            LocalOp::Mkdir { path } => LocalNote::Mkdir {
                path: copy_names(alloc, path.as_slice())?,
            },
            LocalOp::Move { from, to } => LocalNote::Move {
                from: copy_names(alloc, from.as_slice())?,
                to: copy_names(alloc, to.as_slice())?,
            },
            LocalOp::Remove { path } => LocalNote::Remove {
                path: copy_names(alloc, path.as_slice())?,
            },
        })
    }

    /// The same note in memory of its own.
    pub fn copy(&self, alloc: Global) -> Result<LocalNote, AllocError>
        ensures { IfOk result (λ note. note ≡ self.now) }
    {
        Ok(match self {
            LocalNote::Put { path, sum } => LocalNote::Put {
                path: copy_names(alloc, path.as_slice())?,
                sum: *sum,
            },
            LocalNote::Mkdir { path } => LocalNote::Mkdir {
                path: copy_names(alloc, path.as_slice())?,
            },
            LocalNote::Move { from, to } => LocalNote::Move {
                from: copy_names(alloc, from.as_slice())?,
                to: copy_names(alloc, to.as_slice())?,
            },
            LocalNote::Remove { path } => LocalNote::Remove {
                path: copy_names(alloc, path.as_slice())?,
            },
        })
    }
}

impl Note {
    /// The sum of the contents that a local operation brings.
    pub(crate) fn sum(&self) -> Option<Sum>
        ensures { result ≡ noted_sum self.now }
    {
        match self {
            Note::Local(LocalNote::Put { path: _, sum }) => Some(*sum),
            Note::Local(_)
            | Note::Consume { .. }
            | Note::Vector
            | Note::File { .. }
            | Note::Adopt { .. }
            | Note::Finish { .. }
            | Note::Install => None,
        }
    }

    /// The note of an event.
    pub(crate) fn of(alloc: Global, event: &Event) -> Result<Note, AllocError>
        ensures { IfOk result (λ note. note ≡ note_of event.now) }
    {
        Ok(match event {
            Event::Local(operation) => Note::Local(LocalNote::of(alloc, operation)?),
            Event::Consume { moment } => Note::Consume { moment: *moment },
            Event::Vector => Note::Vector,
            Event::File { uid } => Note::File { uid: *uid },
            Event::Adopt {
                from,
                at,
                update,
                form,
            } => Note::Adopt {
                from: *from,
                at: *at,
                update: KeptUpdate::of(alloc, update)?,
                form: form.as_ref().map(form_sum),
            },
            Event::Finish {
                from,
                at,
                sent,
                seen,
            } => Note::Finish {
                from: *from,
                at: *at,
                sent: sent.copy(alloc)?,
                seen: copy_updates(alloc, seen.as_slice())?,
            },
            Event::Install => Note::Install,
        })
    }

    /// The same note in memory of its own.
    pub fn copy(&self, alloc: Global) -> Result<Note, AllocError>
        ensures { IfOk result (λ note. note ≡ self.now) }
    {
        Ok(match self {
            Note::Local(operation) => Note::Local(operation.copy(alloc)?),
            Note::Consume { moment } => Note::Consume { moment: *moment },
            Note::Vector => Note::Vector,
            Note::File { uid } => Note::File { uid: *uid },
            Note::Adopt {
                from,
                at,
                update,
                form,
            } => Note::Adopt {
                from: *from,
                at: *at,
                update: update.copy()?,
                form: *form,
            },
            Note::Finish {
                from,
                at,
                sent,
                seen,
            } => Note::Finish {
                from: *from,
                at: *at,
                sent: sent.copy(alloc)?,
                seen: copy_updates(alloc, seen.as_slice())?,
            },
            Note::Install => Note::Install,
        })
    }
}
