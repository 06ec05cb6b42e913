// Replies as a history keeps them.
ghost use Rattle.std.specs.Prelude.{◌≡◌, IfOk};
ghost use Rattle.folder_core.specs.Notes.{file_mark_of};

use crate::{KeptUpdate, Refusal};
use frs_base::Gvsn;
use name_rules::Step;
use pinned_pages::FileAnswer;
use std::alloc::{AllocError, Global};
use version_vector::Vector;

/// What a member answered of a file.
#[derive(Debug, Drop)]
pub enum FileMark {
    /// Its record, as of the entry `at` of the history.
    Found { at: u64, update: KeptUpdate },
    /// The journal record with this USN is to be consumed first.
    NotYet { usn: u64 },
    /// There is no record of it.
    NoRecord,
}

/// A reply with a pinned state's vector in its place.
#[derive(Debug, Drop)]
pub enum Mark {
    /// A local operation got this USN.
    Usn(u64),
    /// A journal record made the update of this version.
    Made(Gvsn),
    /// The journal record with this USN made no update.
    Skipped(u64),
    /// No journal record was left to consume.
    Nothing,
    /// What the member covered as of the entry `at` of its history.
    Sent { vector: Vector, at: u64 },
    /// What it had of a file.
    File(FileMark),
    /// An update was taken.
    Adopted,
    /// A round was finished.
    Finished,
    /// The installer did this step.
    Did(Step),
    /// The installer had no step to do.
    Drained,
    /// The event changed nothing.
    Refused(Refusal),
}

impl FileMark {
    /// The mark of an answer.
    pub(crate) fn of(alloc: Global, answer: &FileAnswer) -> Result<FileMark, AllocError>
        ensures { IfOk result (λ mark. mark ≡ file_mark_of answer.now) }
    {
        Ok(match answer {
            FileAnswer::Found {
                at,
                update,
                body: _,
            } => FileMark::Found {
                at: *at,
                update: KeptUpdate::of(alloc, update)?,
            },
            FileAnswer::NotYet { usn } => FileMark::NotYet { usn: *usn },
            FileAnswer::NoRecord => FileMark::NoRecord,
        })
    }

    /// The same mark, which takes no memory.
    pub fn copy(&self) -> Result<FileMark, AllocError>
        ensures { IfOk result (λ mark. mark ≡ self.now) }
    {
        Ok(match self {
            FileMark::Found { at, update } => FileMark::Found {
                at: *at,
                update: update.copy()?,
            },
            FileMark::NotYet { usn } => FileMark::NotYet { usn: *usn },
            FileMark::NoRecord => FileMark::NoRecord,
        })
    }
}

impl Mark {
    /// The same mark in memory of its own.
    pub fn copy(&self, alloc: Global) -> Result<Mark, AllocError>
        ensures { IfOk result (λ mark. mark ≡ self.now) }
    {
        Ok(match self {
            Mark::Usn(usn) => Mark::Usn(*usn),
            Mark::Made(gvsn) => Mark::Made(*gvsn),
            Mark::Skipped(usn) => Mark::Skipped(*usn),
            Mark::Nothing => Mark::Nothing,
            Mark::Sent { vector, at } => Mark::Sent {
                vector: vector.copy(alloc)?,
                at: *at,
            },
            Mark::File(found) => Mark::File(found.copy()?),
            Mark::Adopted => Mark::Adopted,
            Mark::Finished => Mark::Finished,
            Mark::Did(step) => Mark::Did(*step),
            Mark::Drained => Mark::Drained,
            Mark::Refused(why) => Mark::Refused(*why),
        })
    }
}
