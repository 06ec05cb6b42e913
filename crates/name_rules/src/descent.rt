// Which records are shown: from the root down.
ghost use Rattle.std.specs.Prelude.{◌≡◌, ◌<◌, IfOk, OnOk, length, map};
ghost use Rattle.vol_state.specs.Conditions.{root_uid};
ghost use Rattle.name_rules.specs.Shown.{AreByPlace, AreChildren, AreDistinct, AreFlagged, AreNamed, AreShown, Descends, Finds, HangsMore, HasChildren, Reaches};

use crate::named::named;
use frs_base::{Uid, content_set};
use std::alloc::{AllocError, Global};
use win_order::Update;

/// The root's UID, as records name it.
fn root_uid() -> Uid
    ensures { result ≡ root_uid }
{
    Uid {
        db: content_set(),
        version: 1,
    }
}

/// The places of those that are in a directory: from the first up to the last one.
fn children(named: &[&Update], parent: Uid) -> (usize, usize)
    requires { AreByPlace (map (λ u. u.now) named.now) }
    ensures { AreChildren (map (λ u. u.now) named.now) parent result.0 result.1 }
{
    let first = named.partition_point(|u| u.parent < parent);
    let last = named.partition_point(|u| !(parent < u.parent));
    (first, last)
}

/// Which of those that have their names are shown, as far as they were found.
#[derive(Drop)]
pub(crate) struct Reached {
    /// Whether it was found, of each.
    flags: Vec<bool>,
    /// The places of those that were found.
    pub(crate) queue: Vec<usize>,
    /// Of each of these the directory that it is in, as its place in the queue; none for the root.
    pub(crate) above: Vec<Option<usize>>,
}

impl Reached {
    /// None of so many.
    fn none(alloc: Global, count: usize) -> Result<Reached, AllocError>
        ensures flagged { IfOk result (λ reached. AreFlagged count reached.flags.items reached.queue.items) }
        ensures none { IfOk result (λ reached. (length reached.queue.items ≡ 0) × (length reached.above.items ≡ 0)) }
    {
        let mut flags = Vec::new(alloc);
        for _place in 0..count {
            flags.push(false)?;
        }
        let queue = Vec::new(alloc);
        let above = Vec::new(alloc);
        Ok(Reached {
            flags,
            queue,
            above,
        })
    }

    /// Finds one in this directory, if it wasn't found before.
    fn find(&mut self, at: usize, above: Option<usize>) -> Result<(), AllocError>
        requires { at < length self.old.flags.items }
        ensures found { OnOk result (Finds at self.old.flags.items self.old.queue.items self.new.flags.items self.new.queue.items) }
        ensures above { OnOk result (HangsMore above self.old.queue.items self.old.above.items self.new.queue.items self.new.above.items) }
    {
        if !self.flags[at] {
            self.queue.push(at)?;
            self.above.push(above)?;
            self.flags[at] = true;
        }
        Ok(())
    }

    /// Finds those that are in a directory, which has this place in the queue.
    fn reach(
        &mut self,
        named: &[&Update],
        parent: Uid,
        above: Option<usize>,
    ) -> Result<(), AllocError>
        requires ordered { AreByPlace (map (λ u. u.now) named.now) }
        requires flagged { AreFlagged (length named.now) self.old.flags.items self.old.queue.items }
        ensures flagged { OnOk result (AreFlagged (length named.now) self.new.flags.items self.new.queue.items) }
        ensures children { OnOk result (HasChildren (map (λ u. u.now) named.now) parent self.new.flags.items) }
        ensures more { OnOk result (Reaches (map (λ u. u.now) named.now) parent
            self.old.flags.items self.old.queue.items self.new.flags.items self.new.queue.items) }
        ensures above { OnOk result (HangsMore above self.old.queue.items self.old.above.items self.new.queue.items self.new.above.items) }
    {
        let (first, last) = children(named, parent);
        for at in first..last {
            self.find(at, above)?;
        }
        Ok(())
    }
}

/// What is reached from the root, of those that have their names.
pub(crate) fn descend(alloc: Global, named: &[&Update]) -> Result<Reached, AllocError>
    requires { AreByPlace (map (λ u. u.now) named.now) }
    ensures { IfOk result (λ reached. Descends (map (λ u. u.now) named.now) reached.flags.items reached.queue.items reached.above.items) }
{
    let mut reached = Reached::none(alloc, named.len())?;
    reached.reach(named, root_uid(), None)?;
    for next in 0..named.len() {
        let Some(at) = reached.queue.get(next) else {
            break;
        };
        let update = named[*at];
        if update.is_directory() {
            reached.reach(named, update.uid, Some(next))?;
        }
    }
    Ok(reached)
}

/// The files and directories of the records that are shown, in order: a record is shown where it has
/// its name, and its parent is the root or a directory that is shown. What stands on a cycle of
/// parents, or in a directory that is removed, isn't.
///
/// With n records it takes the work of sorting them.
pub fn shown(alloc: Global, records: &[Update]) -> Result<Vec<Uid>, AllocError>
    requires { AreDistinct records.now }
    ensures { IfOk result (λ uids. AreShown records.now uids.items) }
{
    let named = named(alloc, records)?;
    let reached = descend(alloc, named.as_slice())?;
    let mut uids = Vec::new(alloc);
    for at in reached.queue.as_slice() {
        uids.push(named[*at].uid)?;
    }
    uids.sort_unstable();
    Ok(uids)
}
