// Taking a partner's update.
ghost use Rattle.std.specs.Prelude.{◌≡◌, ◌<◌, ◌^◌, [], IfOk, OnErr, OnOk, drop, not, option_copied, option_map, unwrap_or};
ghost use Rattle.frs_base.specs.Options.{kept_if};
ghost use Rattle.win_order.specs.Order.{key_lt, key_of};
ghost use Rattle.name_rules.specs.Tree.{kind_of};
ghost use Rattle.folder_core.specs.declared.refusal.Refusal.TheVariants.{Beaten};
ghost use Rattle.folder_core.specs.Adopt.{AnswersAdopt, ChecksForm, Stages, adopt_refusal, beaten, doubled, kind_at, kind_differs, own_ahead, same_kind, unfit};
ghost use Rattle.folder_core.specs.Given.{IsNoted};
ghost use Rattle.folder_core.specs.Machine.{is_ahead};
ghost use Rattle.folder_core.specs.Sound.{IsSound, MayBeStaged};
ghost use Rattle.folder_core.specs.Notes.{form_sum};
ghost use Rattle.marshal_form.specs.Local.{local};
ghost use Rattle.marshal_form.specs.Spelling.{spelling};

use super::Machine;
use crate::answer::Answer;
use crate::{Mark, Refusal, Reply};
use frs_base::{Guid, Kind, Sum, Uid};
use marshal_form::{Form, unmarshal_local};
use name_rules::is_file;
use record_db::BookCmd;
use std::alloc::{AllocError, Global};
use win_order::{Update, admit};

/// The two kinds are one.
fn same_kind(a: Kind, b: Kind) -> bool
    ensures { result ≡ same_kind a b }
{
    match (a, b) {
        (Kind::File, Kind::File) | (Kind::Directory, Kind::Directory) => true,
        (Kind::File, Kind::Directory) | (Kind::Directory, Kind::File) => false,
    }
}

/// What an update is of.
pub(super) fn kind_of(update: &Update) -> Kind
    ensures { result ≡ kind_of update.now }
{
    if update.is_directory() {
        Kind::Directory
    } else {
        Kind::File
    }
}

/// The held record's key is smaller than the update's.
pub(super) fn is_below(held: &Update, update: &Update) -> bool
    ensures { result ≡ key_lt (key_of held.now) (key_of update.now) }
{
    held.key() < update.key()
}

/// The key of the held record isn't smaller.
fn beaten_by(held: Option<&Update>, update: &Update) -> Option<Refusal>
    ensures { result ≡ option_map Beaten (kept_if (λ key. not (key_lt key (key_of update.now))) (option_map key_of (option_copied held.entry))) }
{
    let record = held?;
    if is_below(record, update) {
        None
    } else {
        Some(Refusal::Beaten { held: record.key() })
    }
}

/// The number of an update's version.
fn version_of(update: &Update) -> u64
    ensures { result ≡ update.now.gvsn.version }
{
    update.gvsn.version
}

/// The number of an update's version has 64 bits.
fn fits(update: &Update)
    ensures { update.now.gvsn.version < 2 ^ 64 }
{
    let _ = version_of(update);
}

/// The bytes, which have this sum, are the form of a local file, and it is the sum that is wanted.
fn check_form(form: &[u8], got: Sum, want: Sum) -> Result<(), Refusal>
    requires { got ≡ form_sum form.now }
    ensures checks { ChecksForm form.now want tt result }
    ensures spelled { OnOk result (form.now ≡ spelling local (drop 44 form.now)) }
{
    if let Err(bad) = unmarshal_local(form) {
        let at = bad.at as u64;
        return Err(Refusal::MarshalBad { at });
    }
    if got == want {
        Ok(())
    } else {
        Err(Refusal::HashDiffers { want, got })
    }
}

/// A form that is given; no form is one of no bytes.
fn given_form(alloc: Global, form: Option<Form>) -> Result<Form, AllocError>
    ensures { IfOk result (λ given. given ≡ unwrap_or form []) }
{
    match form {
        None => Form::of(alloc, Vec::new(alloc)),
        Some(form) => Ok(form),
    }
}

/// What is staged with an update: a present file's form, unless it is refused, and nothing else's.
fn staged_with(
    alloc: Global,
    update: &Update,
    form: Option<Form>,
) -> Result<Result<Option<Form>, Refusal>, AllocError>
    ensures stages { IfOk result (λ staged. Stages update.now form staged) }
    ensures spelled { IfOk result (λ staged. IfOk staged MayBeStaged) }
{
    if !is_file(update) {
        return Ok(Ok(None));
    }
    let form = given_form(alloc, form)?;
    match check_form(form.as_slice(), Sum(form.sum()), update.hash) {
        Err(why) => Ok(Err(why)),
        Ok(()) => Ok(Ok(Some(form))),
    }
}

impl Machine {
    /// A version of the own database that isn't consumed.
    fn is_ahead(&self, db: Guid, version: u64) -> bool
        ensures { result ≡ is_ahead self.now db version }
    {
        db == self.book.own() && self.book.consumed() <= version
    }

    /// The update isn't one that a member of this content set takes.
    fn unfit(&self, update: &Update) -> Option<Refusal>
        ensures { result ≡ unfit self.now update.now }
    {
        match admit(update, self.book.set()) {
            Ok(()) => None,
            Err(why) => Some(Refusal::Unfit(why)),
        }
    }

    /// Its version, else that of its UID, is an own one that isn't consumed.
    fn own_ahead(&self, update: &Update) -> Option<Refusal>
        ensures { result ≡ own_ahead self.now update.now }
    {
        if self.is_ahead(update.gvsn.db, update.gvsn.version) {
            let version = update.gvsn.version;
            return Some(Refusal::OwnAhead { version });
        }
        if self.is_ahead(update.uid.db, update.uid.version) {
            let version = update.uid.version;
            return Some(Refusal::OwnAhead { version });
        }
        None
    }

    /// What the member has of a file: its record says the kind, or where none is held its object.
    fn kind_at(&self, uid: &Uid) -> Option<Kind>
        ensures { result ≡ kind_at self.now uid.now }
    {
        if let Some(record) = self.book.held(*uid) {
            return Some(kind_of(record));
        }
        match self.volume.object_of(*uid) {
            None => None,
            Some(object) => Some(object.kind),
        }
    }

    /// The update is of the other kind.
    fn kind_differs(&self, update: &Update) -> Option<Refusal>
        ensures { result ≡ kind_differs self.now update.now }
    {
        let held = self.kind_at(&update.uid)?;
        if same_kind(held, kind_of(update)) {
            None
        } else {
            Some(Refusal::KindDiffers { held })
        }
    }

    /// The key of the held record isn't smaller.
    fn beaten(&self, update: &Update) -> Option<Refusal>
        ensures { result ≡ beaten self.now update.now }
    {
        beaten_by(self.book.held(update.uid), update)
    }

    /// The version of the update is covered.
    fn doubled(&self, update: &Update) -> Option<Refusal>
        ensures { result ≡ doubled self.now update.now }
    {
        if self.book.vector().covers(update.gvsn) {
            let gvsn = update.gvsn;
            Some(Refusal::Doubled { gvsn })
        } else {
            None
        }
    }

    /// The first refusal of an update.
    fn adopt_refusal(&self, update: &Update) -> Option<Refusal>
        ensures refusal { result ≡ adopt_refusal self.now update.now }
        ensures sound { IsSound self.now }
    {
        let _ = &self.volume;
        if let Some(why) = self.unfit(update) {
            return Some(why);
        }
        if let Some(why) = self.own_ahead(update) {
            return Some(why);
        }
        if let Some(why) = self.kind_differs(update) {
            return Some(why);
        }
        if let Some(why) = self.beaten(update) {
            return Some(why);
        }
        self.doubled(update)
    }

    /// A partner's update is taken, with a form.
    pub(crate) fn adopt(
        &mut self,
        alloc: Global,
        update: Update,
        form: Option<Form>,
    ) -> Result<Answer, AllocError>
        ensures answers { IfOk result (λ answer. AnswersAdopt update form self.old answer.reply self.new) }
        ensures noted { IfOk result (λ answer. IsNoted answer self.old self.new) }
        ensures err { OnErr result (self.new ≡ self.old) }
    {
        if let Some(why) = self.adopt_refusal(&update) {
            return Ok(Answer::refused(&why));
        }
        fits(&update);
        let staged = staged_with(alloc, &update, form)?;
        match staged {
            Err(why) => Ok(Answer::refused(&why)),
            Ok(form) => {
                let cmd = BookCmd::Adopt { update, form };
                self.widen(alloc, cmd, Reply::Adopted, Mark::Adopted)
            }
        }
    }
}
