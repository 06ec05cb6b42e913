// What a partner asks for.
ghost use Rattle.std.specs.Prelude.{◌≡◌, if◌then◌else◌, IfOk, None};
ghost use Rattle.marshal_form.specs.Local.{local};
ghost use Rattle.marshal_form.specs.Spelling.{spelling};
ghost use Rattle.vol_state.specs.Valid.{IsSummed};
ghost use Rattle.name_rules.specs.Tree.{is_file};
ghost use Rattle.folder_core.specs.Given.{IsNoted};
ghost use Rattle.folder_core.specs.Serve.{AnswersFile, AnswersVector, file_answer, form_at};

use super::Machine;
use crate::answer::Answer;
use crate::{FileMark, Mark, Reply};
use frs_base::{Kind, Uid};
use marshal_form::{Form, LOCAL, marshal};
use name_rules::is_file;
use pinned_pages::{Body, FileAnswer, Pinned};
use std::alloc::{AllocError, Global};
use vol_state::Object;
use win_order::Update;

/// The form of an object's contents, of which a file has the hash.
fn form_of(alloc: Global, object: &Object) -> Result<Form, AllocError>
    requires { IsSummed object.now }
    ensures { IfOk result (λ form. form ≡ spelling local object.now.bytes) }
{
    let contents = object.bytes.as_slice();
    match object.kind {
        Kind::File => Form::of_local(alloc, contents, object.sum.0),
        Kind::Directory => Form::of(alloc, marshal(alloc, LOCAL, contents)?),
    }
}

impl Machine {
    /// What the member covers and its records, as of the entry at this place.
    pub(crate) fn vector(&mut self, alloc: Global, at: u64) -> Result<Answer, AllocError>
        ensures answers { IfOk result (λ answer. AnswersVector at self.old answer.reply self.old) }
        ensures noted { IfOk result (λ answer. IsNoted answer self.old self.old) }
        ensures same { self.new ≡ self.old }
    {
        let pinned = Pinned::of(alloc, &mut self.book, at)?;
        let vector = self.book.vector().copy(alloc)?;
        Ok(Answer {
            reply: Reply::Sent(pinned),
            mark: Mark::Sent { vector, at },
            moved: false,
        })
    }

    /// The form of a file: the one that is staged, else that of its object.
    fn form(&self, alloc: Global, uid: &Uid) -> Result<Option<Body>, AllocError>
        ensures { IfOk result (λ body. body ≡ form_at self.now uid.now) }
    {
        if let Some(form) = self.book.form(*uid) {
            return Ok(Some(Body::of(form.copy()?)));
        }
        match self.volume.object_of(*uid) {
            None => Ok(None),
            Some(object) => {
                let form = form_of(alloc, object)?;
                Ok(Some(Body::of(form)))
            }
        }
    }

    /// The form that is given with a file's record.
    fn body(&self, alloc: Global, uid: &Uid, update: &Update) -> Result<Option<Body>, AllocError>
        ensures { IfOk result (λ body. body ≡ (if is_file update.now then form_at self.now uid.now else None)) }
    {
        if is_file(update) {
            self.form(alloc, uid)
        } else {
            Ok(None)
        }
    }

    /// What the member has of a file, as of the entry at this place.
    fn found(&self, alloc: Global, at: u64, uid: &Uid) -> Result<FileAnswer, AllocError>
        ensures { IfOk result (λ found. found ≡ file_answer at self.now uid.now) }
    {
        let Some(record) = self.book.held(*uid) else {
            return Ok(FileAnswer::NoRecord);
        };
        if let Some(usn) = self.volume.pending_local(*uid, self.book.consumed()) {
            return Ok(FileAnswer::NotYet { usn });
        }
        let body = self.body(alloc, uid, record)?;
        let update = record.copy()?;
        Ok(FileAnswer::Found { at, update, body })
    }

    /// A file is asked for.
    pub(crate) fn file(&self, alloc: Global, at: u64, uid: &Uid) -> Result<Answer, AllocError>
        ensures answers { IfOk result (λ answer. AnswersFile uid.now at self.now answer.reply self.now) }
        ensures noted { IfOk result (λ answer. IsNoted answer self.now self.now) }
    {
        let found = self.found(alloc, at, uid)?;
        let mark = FileMark::of(alloc, &found)?;
        Ok(Answer {
            reply: Reply::File(found),
            mark: Mark::File(mark),
            moved: false,
        })
    }
}
