// A member's state, pinned.
ghost use Rattle.std.specs.Prelude.{◌≡◌, IfOk, find, option_copied};
ghost use Rattle.frs_base.specs.Versions.{same_uid};
ghost use Rattle.version_vector.specs.Versions.{covers};
ghost use Rattle.pinned_pages.specs.Pages.{IsPage};

use crate::page::add_interval;
use frs_base::Uid;
use record_db::{Book, Records};
use std::alloc::{AllocError, Global};
use version_vector::Vector;
use win_order::Update;

/// What a member covered and held when it was asked for its vector: later changes leave it as it
/// is, so that pages can be read from it.
#[derive(Drop)]
pub struct Pinned {
    /// The versions that the member covered.
    pub vector: Vector,
    /// The winners among them.
    pub records: Records,
    /// How long the member's history was.
    pub at: u64,
}

impl Pinned {
    /// The state of a book, pinned when its member's history has this length. What it costs grows
    /// with the intervals of the vector and with what changed since a state was last pinned. The
    /// book stays as it is, also after an error.
    pub fn of(alloc: Global, book: &mut Book, at: u64) -> Result<Pinned, AllocError>
        ensures pinned { IfOk result (λ pinned. pinned ≡ record { vector = book.old.state.vector; records = book.old.state.records; at = at }) }
        ensures same { book.new ≡ book.old }
    {
        let vector = book.vector().copy(alloc)?;
        let records = book.share(alloc)?;
        Ok(Pinned {
            vector,
            records,
            at,
        })
    }

    /// The pinned record of a file or directory.
    pub fn find(&self, uid: Uid) -> Option<&Update>
        ensures { option_copied result ≡ find (λ r. same_uid r.uid uid) self.now.records }
    {
        self.records.find(uid)
    }

    /// The pinned records whose versions are asked for, in order of their versions. What it costs
    /// grows with what is asked for and found, and not with what else was pinned.
    pub fn page(&self, alloc: Global, asked: &Vector) -> Result<Vec<Update>, AllocError>
        ensures { IfOk result (λ page. IsPage (covers asked.now) self.now.records page.items) }
    {
        let mut page = Vec::new(alloc);
        for interval in asked.intervals() {
            add_interval(&mut page, &self.records, interval)?;
        }
        Ok(page)
    }
}
