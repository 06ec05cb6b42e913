// What is done to a book.
ghost use Rattle.std.specs.Prelude.{◌≡◌, option_copied};

use crate::shared_update::SharedUpdate;
use crate::staged::SharedForm;
use frs_base::Uid;
use marshal_form::Form;
use version_vector::{GrowingVector, Vector};
use win_order::Update;

/// A change of a book.
#[derive(Debug, Drop)]
pub enum BookCmd {
    /// The journal record with this USN is consumed, and makes this update, if any, whose version
    /// is that of the own database with the USN.
    RecordLocal { usn: u64, update: Option<Update> },
    /// A partner's update is taken, and what is staged of its file is then this form, or nothing.
    Adopt { update: Update, form: Option<Form> },
    /// A round with a partner that sent this vector is finished.
    Finish { sent: Vector },
    /// What is staged of a file goes.
    Unstage { uid: Uid },
}

impl BookCmd {
    ghost use Rattle.record_db.specs.Staged.{form_brought};
    ghost use Rattle.record_db.specs.Steps.{update_of};

    /// The update that it puts among the records.
    pub(crate) fn update(&self) -> Option<&Update>
        ensures { option_copied result ≡ update_of self.now }
    {
        match self {
            BookCmd::RecordLocal { usn: _, update } => update.as_ref(),
            BookCmd::Adopt { update, form: _ } => Some(update),
            BookCmd::Finish { sent: _ } | BookCmd::Unstage { uid: _ } => None,
        }
    }

    /// The form that it stages.
    pub(crate) fn form(&self) -> Option<&Form>
        ensures { option_copied result ≡ form_brought self.now }
    {
        match self {
            BookCmd::Adopt { update: _, form } => form.as_ref(),
            BookCmd::RecordLocal { .. } | BookCmd::Finish { .. } | BookCmd::Unstage { .. } => None,
        }
    }
}

/// A command with the memory that it needs.
#[derive(Drop)]
pub struct Ready {
    pub(crate) cmd: BookCmd,
    // The update of the command as the book keeps it.
    pub(crate) put: Option<SharedUpdate>,
    // The form of the command as the book keeps it.
    pub(crate) form: Option<SharedForm>,
    // What the book covers after a round, where its condition holds.
    pub(crate) merged: GrowingVector,
}

impl Ready {
    /// The command, the update that it puts, the form that it stages, and what the book then
    /// covers if it is a round.
    pub(crate) fn into_parts(
        self,
    ) -> (
        BookCmd,
        Option<SharedUpdate>,
        Option<SharedForm>,
        GrowingVector,
    )
        ensures { result ≡ (self.cmd, self.put, self.form, self.merged) }
    {
        let Ready {
            cmd,
            put,
            form,
            merged,
        } = self;
        (cmd, put, form, merged)
    }
}
