// The machine of a member.
ghost use Rattle.std.specs.Prelude.{◌≡◌, ◌<◌, ◌-◌, ◌^◌, IfOk, OnErr};
ghost use Rattle.frs_base.specs.Identifiers.{content_set};
ghost use Rattle.folder_core.specs.Answers.{Answers};
ghost use Rattle.folder_core.specs.Given.{IsNoted};
ghost use Rattle.folder_core.specs.Install.{IsPlanned};
ghost use Rattle.folder_core.specs.Machine.{fresh_machine};
ghost use Rattle.folder_core.specs.Notes.{note_of, noted_sum};
ghost use Rattle.folder_core.specs.Sound.{IsSound};

mod adopt;
mod book;
mod consume;
mod finish;
mod install;
mod local;
mod serve;

use crate::Event;
use crate::answer::Answer;
use frs_base::{Guid, MemberKind, Sum};
use install_plan::Agenda;
use record_db::Book;
use std::alloc::{AllocError, Global};
use std::marker::Model;
use vol_state::Volume;

/// A member's volume and its book.
///
/// A contract sees both states.
#[derive(Drop)]
pub(crate) struct Machine {
    volume: Volume,
    book: Book,
}

impl Model for Machine {
    ghost use Rattle.folder_core.specs.Machine.{Machine};
    ghost use Rattle.folder_core.specs.Sound.{IsSound};

    ghost Value = { Machine };

    ghost view = { λ m. record { volume = m.volume.state; book = m.book.state } };

    ghost invariant = { λ m. IsSound (record { volume = m.volume.state; book = m.book.state }) };
}

impl Machine {
    /// The machine of a member that has done nothing.
    pub(crate) fn new(kind: MemberKind, own: Guid, set: Guid) -> Machine
        requires { set ≡ content_set }
        ensures { result ≡ fresh_machine kind own set }
    {
        let volume = Volume::new(own);
        let book = Book::new(kind, own, set);
        let _ = volume.objects();
        let _ = book.vector();
        Machine { volume, book }
    }

    /// The volume.
    pub(crate) fn volume(&self) -> &Volume
        ensures volume { result.now.state ≡ self.now.volume }
        ensures sound { IsSound self.now }
    {
        &self.volume
    }

    /// The book.
    pub(crate) fn book(&self) -> &Book
        ensures book { result.now.state ≡ self.now.book }
        ensures sound { IsSound self.now }
    {
        &self.book
    }

    /// An event, whose entry is at this place, with the sum of the contents that a local operation
    /// brings. After an error the machine is as it was. An agenda lasts from one step of the installer
    /// to the next; each other event forgets it.
    pub(crate) fn answer(
        &mut self,
        alloc: Global,
        at: u64,
        event: Event,
        sum: Option<Sum>,
        agenda: &mut Option<Agenda>,
    ) -> Result<Answer, AllocError>
        requires numbers { self.old.volume.next_usn < 2 ^ 64 - 1 }
        requires sum { sum ≡ noted_sum (note_of event) }
        requires planned { IsPlanned self.old agenda.old }
        ensures planned { IsPlanned self.new agenda.new }
        ensures answers { IfOk result (λ answer. Answers at self.old event answer.reply self.new) }
        ensures noted { IfOk result (λ answer. IsNoted answer self.old self.new) }
        ensures err { OnErr result (self.new ≡ self.old) }
    {
        let mut kept = agenda.take();
        match event {
            Event::Local(operation) => self.local(alloc, operation, sum),
            Event::Consume { moment } => self.consume(alloc, moment),
            Event::Vector => self.vector(alloc, at),
            Event::File { uid } => self.file(alloc, at, &uid),
            Event::Adopt {
                from: _,
                at: _,
                update,
                form,
            } => self.adopt(alloc, update, form),
            Event::Finish {
                from: _,
                at: _,
                sent,
                seen,
            } => self.finish(alloc, sent, seen.as_slice()),
            Event::Install => {
                let answer = self.install(alloc, &mut kept)?;
                *agenda = kept;
                Ok(answer)
            }
        }
    }
}
