// What may come to a member.
use frs_base::{Guid, List, Uid};
use marshal_form::Form;
use version_vector::Vector;
use vol_state::LocalOp;
use win_order::Update;

/// What may come to a member.
#[derive(Debug, Drop)]
pub enum Event {
    /// An operation on its files.
    Local(LocalOp),
    /// The next journal record is consumed, at this moment.
    Consume {
        moment: u64,
    },
    /// A partner asks for what it covers.
    Vector,
    /// A partner asks for a file.
    File {
        uid: Uid,
    },
    /// An update is taken that the member of the database `from` sent in the entry `at` of its
    /// history. A present file comes with the form of its contents, and no other form is looked
    /// at.
    Adopt {
        from: Guid,
        at: u64,
        update: Update,
        form: Option<Form>,
    },
    /// A round is finished over the vector that the member of the database `from` sent in the entry
    /// `at` of its history; `seen` are the updates of its pages.
    Finish {
        from: Guid,
        at: u64,
        sent: Vector,
        seen: List<Update>,
    },
    /// The installer takes its next step.
    Install,
}
