// What a member answers.
use crate::Refusal;
use frs_base::Gvsn;
use name_rules::Step;
use pinned_pages::{FileAnswer, Pinned};

/// What a member answers to an event.
#[derive(Drop)]
pub enum Reply {
    /// A local operation got this USN.
    Usn(u64),
    /// A journal record made the update of this version.
    Made(Gvsn),
    /// The journal record with this USN made no update.
    Skipped(u64),
    /// No journal record is left to consume.
    Nothing,
    /// What the member covers, and its records, as they are.
    Sent(Pinned),
    /// What it has of a file.
    File(FileAnswer),
    /// An update was taken.
    Adopted,
    /// A round was finished.
    Finished,
    /// The installer did this step.
    Did(Step),
    /// The installer has no step to do: the volume has what the records say.
    Drained,
    /// The event changed nothing.
    Refused(Refusal),
}
