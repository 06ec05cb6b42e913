// The steps of commands.
ghost use Rattle.std.specs.Prelude.{◌≡◌, ◌<◌, ◌-◌, ◌^◌, true, IfErr, IfOk, OnErr, OnOk, Some, option_copied, option_map};
ghost use Rattle.frs_base.specs.Options.{none_or};
ghost use Rattle.frs_base.specs.Versions.{same_gvsn};
ghost use Rattle.version_vector.specs.Places.{one_version};
ghost use Rattle.version_vector.specs.Unions.{inserted};
ghost use Rattle.record_db.specs.Staged.{form_brought};
ghost use Rattle.record_db.specs.Steps.{CanCover, Changes, Fits, HasRoomFor, IsFull, IsMerged, IsStep, Widens, covered_with, gives_way, in_set, is_ahead, is_allowed, may_adopt, may_finish, may_record, own_version, update_of};
ghost use Rattle.record_db.specs.declared.command.BookCmd.TheVariants.{RecordLocal, Adopt, Finish, Unstage};

use crate::shared_update::SharedUpdate;
use crate::staged::SharedForm;
use crate::{Book, BookCmd, Ready, first_past};
use frs_base::{Guid, Gvsn, Phase, Uid};
use marshal_form::Form;
use std::alloc::{AllocError, Global};
use version_vector::{GrowingVector, Vector, VectorError};
use win_order::Update;

/// The record of a file, if there is one, gives way to an update.
fn gives_way(held: Option<&Update>, update: &Update) -> bool
    ensures { result ≡ none_or (gives_way update.now) (option_copied held.entry) }
{
    match held {
        None => true,
        Some(record) => {
            record.is_directory() == update.is_directory() && record.key() < update.key()
        }
    }
}

/// The form that a command stages, in memory of its own.
fn form_to_stage(alloc: Global, cmd: &BookCmd) -> Result<Option<SharedForm>, AllocError>
    ensures { IfOk result (λ form. form ≡ form_brought cmd.now) }
{
    let Some(form) = cmd.form() else {
        return Ok(None);
    };
    let form = SharedForm::of(alloc, form)?;
    Ok(Some(form))
}

impl Book {
    /// The version that the member makes of the journal record with this USN.
    fn own_version(&self, usn: u64) -> Gvsn
        ensures { result ≡ own_version self.now.state usn }
    {
        Gvsn {
            db: self.own(),
            version: usn,
        }
    }

    /// A local update is of the own version with the USN.
    fn is_own(&self, usn: u64, update: &Option<Update>) -> bool
        ensures { result ≡ none_or (λ u. same_gvsn u.gvsn (own_version self.now.state usn)) update.now }
    {
        match update {
            None => true,
            Some(update) => update.gvsn == self.own_version(usn),
        }
    }

    /// A version of the own database that isn't consumed.
    fn is_ahead(&self, db: Guid, version: u64) -> bool
        ensures { result ≡ is_ahead self.now.state db version }
    {
        db == self.own && self.consumed <= version
    }

    /// The journal record with this USN is the next to be consumed, and may make this update.
    fn may_record(&self, usn: u64, update: &Option<Update>) -> bool
        ensures { result ≡ may_record usn update.now self.now.state }
    {
        usn == self.consumed && usn < u64::MAX && self.is_own(usn, update)
    }

    /// A partner's update may be taken.
    fn may_adopt(&self, update: &Update) -> bool
        ensures { result ≡ may_adopt update.now self.now.state }
    {
        update.gvsn.version < u64::MAX
            && !self.is_ahead(update.gvsn.db, update.gvsn.version)
            && !self.is_ahead(update.uid.db, update.uid.version)
            && !self.vector.covers(update.gvsn)
            && gives_way(self.held(update.uid), update)
    }

    /// A round over this vector may be finished.
    fn may_finish(&self, sent: &Vector) -> bool
        ensures { result ≡ may_finish sent.now self.now.state }
    {
        first_past(sent.intervals(), self.own, self.consumed).is_none()
    }

    /// The condition of a command.
    fn is_allowed(&self, cmd: &BookCmd) -> bool
        ensures { result ≡ is_allowed cmd.now self.now.state }
    {
        match cmd {
            BookCmd::RecordLocal { usn, update } => self.may_record(*usn, update),
            BookCmd::Adopt { update, form: _ } => self.may_adopt(update),
            BookCmd::Finish { sent } => self.may_finish(sent),
            BookCmd::Unstage { uid: _ } => true,
        }
    }

    /// Takes the memory that a command whose condition holds needs to cover what it covers, and
    /// answers what a round makes of the vector.
    fn make_room(&mut self, alloc: Global, cmd: &BookCmd) -> Result<GrowingVector, VectorError>
        requires { is_allowed cmd.now self.old.state ≡ true }
        ensures same { self.new.state ≡ self.old.state }
        ensures covers { IfOk result (λ merged. CanCover cmd.now merged.items self.new) }
        ensures full { IfErr result (λ e. IsFull e cmd.now self.old.state) }
    {
        match cmd {
            BookCmd::RecordLocal { usn, update: _ } => {
                let version = self.own_version(*usn);
                self.vector.reserve(alloc, version)?;
            }
            BookCmd::Adopt { update, form: _ } => self.vector.reserve(alloc, update.gvsn)?,
            BookCmd::Finish { sent } => return self.vector.merged(alloc, sent),
            BookCmd::Unstage { uid: _ } => {}
        }
        Ok(GrowingVector::empty())
    }

    /// The update that a command puts, as one of the book's content set, in memory of its own.
    fn update_to_put(
        &self,
        alloc: Global,
        cmd: &BookCmd,
    ) -> Result<Option<SharedUpdate>, AllocError>
        ensures { IfOk result (λ put. put ≡ option_map (in_set self.now.state.set) (update_of cmd.now)) }
    {
        let Some(update) = cmd.update() else {
            return Ok(None);
        };
        let mut update = update.copy()?;
        update.set = self.set;
        let put = SharedUpdate::of(alloc, update)?;
        Ok(Some(put))
    }

    /// Covers a version more, with how far the journal is consumed, and puts an update that has
    /// it, of whose file this form, or nothing, is staged then.
    fn cover(&mut self, g: Gvsn, next: u64, put: Option<SharedUpdate>, form: Option<SharedForm>)
        requires version { g.version < 2 ^ 64 - 1 }
        requires room { 0 < self.old.room }
        requires staged_room { 0 < self.old.staged_room }
        requires vector_room { 0 < self.old.vector_room }
        requires widens { Widens self.old.state (inserted (one_version g) self.old.state.vector) next put }
        ensures { self.new.state ≡ covered_with self.old.state g next put form }
    {
        self.vector.cover(g);
        self.consumed = next;
        if let Some(update) = put {
            self.staged.put(update.uid(), form);
            self.records.put(update);
        }
    }

    /// Consumes the next journal record.
    fn change_by_record(&mut self, usn: u64, update: Option<Update>, put: Option<SharedUpdate>)
        requires allowed { is_allowed (RecordLocal usn update) self.old.state ≡ true }
        requires put { put ≡ option_map (in_set self.old.state.set) update }
        requires room { 0 < self.old.room }
        requires staged_room { 0 < self.old.staged_room }
        requires vector { HasRoomFor (own_version self.old.state usn) self.old }
        ensures { Changes (RecordLocal usn update) self.old.state self.new.state }
    {
        let _ = self.vector();
        let version = self.own_version(usn);
        self.cover(version, usn + 1, put, None);
    }

    /// Puts a partner's update.
    fn change_by_update(
        &mut self,
        update: Update,
        form: Option<SharedForm>,
        put: Option<SharedUpdate>,
    )
        requires allowed { is_allowed (Adopt update form) self.old.state ≡ true }
        requires put { put ≡ Some (in_set self.old.state.set update) }
        requires room { 0 < self.old.room }
        requires staged_room { 0 < self.old.staged_room }
        requires vector { HasRoomFor update.gvsn self.old }
        ensures { Changes (Adopt update form) self.old.state self.new.state }
    {
        let _ = self.vector();
        let version = update.gvsn;
        let next = self.consumed;
        self.cover(version, next, put, form);
    }

    /// Covers all that a partner sent.
    fn change_by_round(&mut self, merged: GrowingVector, sent: Vector)
        requires allowed { is_allowed (Finish sent) self.old.state ≡ true }
        requires merged { IsMerged sent self.old.state merged.items }
        ensures { Changes (Finish sent) self.old.state self.new.state }
    {
        self.vector = merged;
        self.phase = Phase::Normal;
    }

    /// Does a command whose condition holds.
    fn change(
        &mut self,
        cmd: BookCmd,
        put: Option<SharedUpdate>,
        form: Option<SharedForm>,
        merged: GrowingVector,
    )
        requires allowed { is_allowed cmd self.old.state ≡ true }
        requires put { put ≡ option_map (in_set self.old.state.set) (update_of cmd) }
        requires form { form ≡ form_brought cmd }
        requires room { 0 < self.old.room }
        requires staged_room { 0 < self.old.staged_room }
        requires vector { CanCover cmd merged.items self.old }
        ensures { Changes cmd self.old.state self.new.state }
    {
        match cmd {
            BookCmd::RecordLocal { usn, update } => self.change_by_record(usn, update, put),
            BookCmd::Adopt { update, form: _ } => self.change_by_update(update, form, put),
            BookCmd::Finish { sent } => self.change_by_round(merged, sent),
            BookCmd::Unstage { uid } => self.unstage(uid),
        }
    }

    /// Takes the memory that the command needs, so that [`Book::take`] takes none. After an error
    /// the state is as it was.
    pub fn ready(&mut self, alloc: Global, cmd: BookCmd) -> Result<Ready, VectorError>
        ensures same { self.new.state ≡ self.old.state }
        ensures command { IfOk result (λ ready. ready.cmd ≡ cmd) }
        ensures fits { IfOk result (λ ready. Fits ready self.new) }
        ensures full { IfErr result (λ e. IsFull e cmd self.old.state) }
    {
        let merged = if self.is_allowed(&cmd) {
            self.make_room(alloc, &cmd)?
        } else {
            GrowingVector::empty()
        };
        let put = self.update_to_put(alloc, &cmd)?;
        let form = form_to_stage(alloc, &cmd)?;
        self.records.reserve(alloc)?;
        self.staged.reserve(alloc)?;
        Ok(Ready {
            cmd,
            put,
            form,
            merged,
        })
    }

    /// Does a command for which there is room. A command whose condition doesn't hold changes
    /// nothing.
    pub fn take(&mut self, ready: Ready)
        requires { Fits ready self.old }
        ensures { IsStep ready.cmd self.old.state self.new.state }
    {
        let (cmd, put, form, merged) = ready.into_parts();
        if self.is_allowed(&cmd) {
            self.change(cmd, put, form, merged);
        }
    }

    /// Takes the memory that a command whose condition holds needs, and does it: the condition isn't
    /// tested again. After an error the state is as it was.
    pub fn do_allowed(&mut self, alloc: Global, cmd: BookCmd) -> Result<(), VectorError>
        requires { is_allowed cmd self.old.state ≡ true }
        ensures ok { OnOk result (IsStep cmd self.old.state self.new.state) }
        ensures full { IfErr result (λ e. IsFull e cmd self.old.state) }
        ensures err { OnErr result (self.new.state ≡ self.old.state) }
    {
        let merged = self.make_room(alloc, &cmd)?;
        let put = self.update_to_put(alloc, &cmd)?;
        let form = form_to_stage(alloc, &cmd)?;
        self.records.reserve(alloc)?;
        self.staged.reserve(alloc)?;
        self.change(cmd, put, form, merged);
        Ok(())
    }

    /// Consumes the journal record with this USN, which makes this update, if any. After an error
    /// the state is as it was.
    pub fn record_local(
        &mut self,
        alloc: Global,
        usn: u64,
        update: Option<Update>,
    ) -> Result<(), VectorError>
        ensures ok { OnOk result (IsStep (RecordLocal usn update) self.old.state self.new.state) }
        ensures full { IfErr result (λ e. IsFull e (RecordLocal usn update) self.old.state) }
        ensures err { OnErr result (self.new.state ≡ self.old.state) }
    {
        let ready = self.ready(alloc, BookCmd::RecordLocal { usn, update })?;
        self.take(ready);
        Ok(())
    }

    /// Puts a partner's update in the place of the record of its file, of which this form, or
    /// nothing, is staged then. After an error the state is as it was.
    pub fn adopt(
        &mut self,
        alloc: Global,
        update: Update,
        form: Option<Form>,
    ) -> Result<(), VectorError>
        ensures ok { OnOk result (IsStep (Adopt update form) self.old.state self.new.state) }
        ensures full { IfErr result (λ e. IsFull e (Adopt update form) self.old.state) }
        ensures err { OnErr result (self.new.state ≡ self.old.state) }
    {
        let ready = self.ready(alloc, BookCmd::Adopt { update, form })?;
        self.take(ready);
        Ok(())
    }

    /// Covers all that a partner sent, whose winners are each held or beaten. After an error the
    /// state is as it was.
    pub fn finish(&mut self, alloc: Global, sent: &Vector) -> Result<(), VectorError>
        ensures ok { OnOk result (IsStep (Finish sent.now) self.old.state self.new.state) }
        ensures full { IfErr result (λ e. IsFull e (Finish sent.now) self.old.state) }
        ensures err { OnErr result (self.new.state ≡ self.old.state) }
    {
        let sent = sent.copy(alloc)?;
        let ready = self.ready(alloc, BookCmd::Finish { sent })?;
        self.take(ready);
        Ok(())
    }

    /// What is staged of a file goes, if anything is.
    pub fn unstage(&mut self, uid: Uid)
        ensures { IsStep (Unstage uid) self.old.state self.new.state }
    {
        self.staged.cut(&uid);
    }
}
