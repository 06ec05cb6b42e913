// Staged forms, found by their files.
ghost use Rattle.std.specs.Prelude.{◌≡◌, ◌<◌, ◌≤◌, [], None, IfOk, OnOk, find, option_copied, option_map};
ghost use Rattle.std.specs.Arc.{arc_value};
ghost use Rattle.frs_base.specs.Versions.{same_uid};
ghost use Rattle.record_db.specs.Staged.{staged_with};

use frs_base::Uid;
use frs_pmap::Table;
use marshal_form::Form;
use std::alloc::{AllocError, Global};
use std::marker::Model;
use std::sync::Arc;

/// A form that is staged: the marshalled form of the contents that a file is to get, kept until it
/// is installed.
#[derive(Debug, Drop)]
pub struct Staged {
    pub uid: Uid,
    pub form: Form,
}

/// A form in memory of its own, to be staged.
///
/// A contract sees its bytes.
#[derive(Drop)]
pub(crate) struct SharedForm {
    kept: Arc<Form>,
}

impl Model for SharedForm {
    ghost use Rattle.std.specs.Prelude.{List, ℕ};
    ghost use Rattle.std.specs.Arc.{arc_value};

    ghost Value = { List ℕ };

    ghost view = { λ form. arc_value form.kept };
}

impl SharedForm {
    /// Takes the memory for a form, whose bytes it shares.
    pub(crate) fn of(alloc: Global, form: &Form) -> Result<SharedForm, AllocError>
        ensures { IfOk result (λ shared. shared ≡ form.now) }
    {
        let kept = Arc::new(alloc, form.copy()?)?;
        Ok(SharedForm { kept })
    }

    /// The form as a table takes it.
    fn into_kept(self) -> Arc<Form>
        ensures { arc_value result ≡ self }
    {
        let SharedForm { kept } = self;
        kept
    }
}

/// The forms that are staged.
///
/// A contract sees them in order of their files, and for how many more there is room.
#[derive(Drop)]
pub(crate) struct StagedTable {
    forms: Table<Uid, Form>,
}

impl Model for StagedTable {
    ghost use Rattle.frs_base.specs.Reserved.{Reserved};
    ghost use Rattle.record_db.specs.declared.staged.Staged.{Staged};
    ghost use Rattle.record_db.specs.Staged.{staged_of};

    ghost Value = { Reserved Staged };

    ghost view = { λ t. record { items = staged_of t.forms.entries; room = t.forms.room } };
}

impl StagedTable {
    /// Nothing staged, in no memory.
    pub(crate) fn empty() -> StagedTable
        ensures { result ≡ record { items = []; room = 0 } }
    {
        StagedTable {
            forms: Table::empty(),
        }
    }

    /// Takes the memory that one form more may need. The forms stay, also after an error.
    pub(crate) fn reserve(&mut self, alloc: Global) -> Result<(), AllocError>
        ensures same { self.new.items ≡ self.old.items }
        ensures room { OnOk result (0 < self.new.room) }
    {
        self.forms.reserve(alloc)
    }

    /// The form that is staged of a file.
    pub(crate) fn get(&self, uid: &Uid) -> Option<&Form>
        ensures { option_copied result ≡ option_map (λ s. s.form) (find (λ s. same_uid s.uid uid.now) self.now.items) }
    {
        self.forms.get(uid)
    }

    /// What is staged of a file goes.
    pub(crate) fn cut(&mut self, uid: &Uid)
        ensures items { self.new.items ≡ staged_with uid.now None self.old.items }
        ensures room { self.old.room ≤ self.new.room }
    {
        let _ = self.forms.first();
        self.forms.cut(uid);
    }

    /// Stages a form in the place of what is staged of the file, where there is room for it;
    /// without a form nothing is staged of it then.
    pub(crate) fn put(&mut self, uid: Uid, form: Option<SharedForm>)
        requires { 0 < self.old.room }
        ensures { self.new.items ≡ staged_with uid form self.old.items }
    {
        let _ = self.forms.first();
        match form {
            None => self.cut(&uid),
            Some(form) => self.forms.put(uid, form.into_kept()),
        }
    }
}
