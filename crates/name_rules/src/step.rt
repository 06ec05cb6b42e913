// Steps of the installer.
ghost use Rattle.std.specs.Prelude.{◌≡◌};
ghost use Rattle.name_rules.specs.Steps.{step_word, subject_of};

use frs_base::Uid;

/// A step of the installer, and of what it is.
#[derive(Clone, Copy, Debug, PartialEq, Eq)]
pub enum Step {
    /// The object of a file or directory leaves its place.
    Park(Uid),
    /// The object of one that was removed goes.
    Erase(Uid),
    /// An object is made, in limbo.
    Make(Uid),
    /// A file gets the contents that are staged.
    Rewrite(Uid),
    /// An object in limbo gets its place.
    Place(Uid),
    /// What is staged goes, since the object has it.
    Unstage(Uid),
    /// The journal record with this USN is consumed.
    Skip(u64),
}

/// What a step is of.
#[derive(Clone, Copy, Debug, PartialEq, Eq)]
pub enum Subject {
    /// A file or directory.
    Uid(Uid),
    /// A record of the member's journal.
    Usn(u64),
}

/// What a member does next.
#[derive(Clone, Copy, Debug, PartialEq, Eq)]
pub enum Next {
    /// This step.
    Do(Step),
    /// Nothing: all is installed.
    Drained,
    /// No step before the local journal record with this USN is consumed.
    NotYet { usn: u64 },
}

impl Step {
    /// The word for it: `park`, `erase`, `make`, `rewrite`, `place`, `unstage` or `skip`.
    pub fn word(&self) -> &'static str
        ensures { result.now ≡ step_word self.now }
    {
        match self {
            Step::Park(_) => "park",
            Step::Erase(_) => "erase",
            Step::Make(_) => "make",
            Step::Rewrite(_) => "rewrite",
            Step::Place(_) => "place",
            Step::Unstage(_) => "unstage",
            Step::Skip(_) => "skip",
        }
    }

    /// What it is of.
    pub fn subject(&self) -> Subject
        ensures { result ≡ subject_of self.now }
    {
        match self {
            Step::Park(uid)
            | Step::Erase(uid)
            | Step::Make(uid)
            | Step::Rewrite(uid)
            | Step::Place(uid)
            | Step::Unstage(uid) => Subject::Uid(*uid),
            Step::Skip(usn) => Subject::Usn(*usn),
        }
    }
}
