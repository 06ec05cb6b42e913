// The folder of a member.
ghost use Rattle.std.specs.Prelude.{◌≡◌, if◌then◌else◌, IfOk, OnErr};
ghost use Rattle.frs_base.specs.Identifiers.{content_set};
ghost use Rattle.folder_core.specs.Replay.{Does, IsEarlyEvent, IsFolder, fresh_folder};
ghost use Rattle.folder_core.specs.Sound.{IsSound};

use crate::answer::Answer;
use crate::machine::Machine;
use crate::{Entry, Event, Note, Reply};
use frs_base::{Guid, MemberKind, ReservedVec};
use install_plan::Agenda;
use record_db::Book;
use std::alloc::{AllocError, Global};
use std::marker::Model;
use vol_state::Volume;

/// A member's volume and book, and the history of all that came to it.
///
/// It is the replay of its history from a fresh member. A contract sees both states, the history,
/// and the generation; what the installer has still to look at is its own affair.
#[derive(Drop)]
pub struct Folder {
    machine: Machine,
    agenda: Option<Agenda>,
    history: ReservedVec<Entry>,
    generation: u64,
}

/// The generation after the entry at this place.
fn generation_after(moved: bool, at: u64, before: u64) -> u64
    ensures { result ≡ (if moved then at else before) }
{
    if moved { at } else { before }
}

impl Model for Folder {
    ghost use Rattle.folder_core.specs.Install.{IsPlanned};
    ghost use Rattle.folder_core.specs.Replay.{IsFolder, Seen};

    ghost Value = { Seen };

    ghost view = { λ f. record { machine = f.machine; history = f.history.items; generation = f.generation } };

    ghost invariant = { λ f. IsFolder (record { machine = f.machine; history = f.history.items; generation = f.generation }) × IsPlanned f.machine f.agenda };
}

impl Folder {
    /// A member of this kind, with this database, of this content set, that has done nothing. The
    /// set is [`frs_base::content_set`], so that the root that the volume has is the one that the
    /// book refuses updates of. It takes no memory.
    pub fn new(kind: MemberKind, own: Guid, set: Guid) -> Folder
        requires { set ≡ content_set }
        ensures { result ≡ fresh_folder kind own set }
    {
        Folder {
            machine: Machine::new(kind, own, set),
            agenda: None,
            history: ReservedVec::empty(),
            generation: 0,
        }
    }

    /// The volume.
    pub fn volume(&self) -> &Volume
        ensures volume { result.now.state ≡ self.now.machine.volume }
        ensures sound { IsSound self.now.machine }
    {
        self.machine.volume()
    }

    /// The book.
    pub fn book(&self) -> &Book
        ensures book { result.now.state ≡ self.now.machine.book }
        ensures sound { IsSound self.now.machine }
    {
        self.machine.book()
    }

    /// All that came, in order, and what was answered.
    pub fn history(&self) -> &[Entry]
        ensures history { result.now ≡ self.now.history }
        ensures folder { IsFolder self.now }
    {
        self.history.as_slice()
    }

    /// The place of the last entry that changed the vector, counted from 1; 0 where none did.
    pub fn generation(&self) -> u64
        ensures { result ≡ self.now.generation }
    {
        self.generation
    }

    /// An event from a caller: it is answered, and entered in the history. A refused event changes
    /// nothing else.
    ///
    /// All memory is taken before anything changes, so after an error the folder is as it was.
    pub fn event(&mut self, alloc: Global, caller: u64, event: Event) -> Result<Reply, AllocError>
        requires { IsEarlyEvent event }
        ensures ok { IfOk result (λ reply. Does caller event reply self.old self.new) }
        ensures err { OnErr result (self.new ≡ self.old) }
    {
        let length = self.history.as_slice().len();
        let at = length as u64 + 1;
        let note = Note::of(alloc, &event)?;
        self.history.reserve_one(alloc)?;
        let sum = note.sum();
        let Answer { reply, mark, moved } = self
            .machine
            .answer(alloc, at, event, sum, &mut self.agenda)?;
        self.generation = generation_after(moved, at, self.generation);
        self.history.push(Entry {
            caller,
            note,
            reply: mark,
        });
        Ok(reply)
    }
}
