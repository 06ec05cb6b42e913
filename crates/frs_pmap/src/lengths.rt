// How many entries there are.
ghost use Rattle.std.specs.Prelude.{◌≡◌, ◌-◌, ◌^◌, length, min};
ghost use Rattle.frs_pmap.specs.Nodes.{in_group, in_whole};
ghost use Rattle.frs_pmap.specs.Trees.{entries_of, flat};

use crate::group::Group;
use crate::row::{Middle, Root};
use crate::whole::Whole;

/// How many entries there are in rows of a row, or the most that a number tells.
fn middle_len<K: Ord + Copy, V: Drop>(middle: &Middle<K, V>) -> usize
    ensures { result ≡ min (length (flat middle.now)) (2 ^ 64 - 1) }
{
    let mut len: usize = 0;
    for at in 0..middle.len() {
        let (_, leaf) = middle.item(at);
        len = len.saturating_add(leaf.len());
    }
    len
}

/// How many entries there are, or the most that a number tells.
pub(crate) fn root_len<K: Ord + Copy, V: Drop>(root: &Root<K, V>) -> usize
    ensures { result ≡ min (length (entries_of root.now)) (2 ^ 64 - 1) }
{
    let mut len: usize = 0;
    for at in 0..root.len() {
        let (_, middle) = root.item(at);
        len = len.saturating_add(middle_len(middle));
    }
    len
}

/// How many entries there are in a group, or the most that a number tells.
fn group_len<K: Ord + Copy, V: Drop>(group: &Group<K, V>) -> usize
    ensures { result ≡ min (length (in_group group.now)) (2 ^ 64 - 1) }
{
    let mut len: usize = 0;
    for at in 0..group.items.len() {
        len = len.saturating_add(group.items[at].1.items.len());
    }
    len
}

/// How many entries there are in a table, or the most that a number tells.
pub(crate) fn whole_len<K: Ord + Copy, V: Drop>(whole: &Whole<K, V>) -> usize
    ensures { result ≡ min (length (in_whole whole.now)) (2 ^ 64 - 1) }
{
    let mut len: usize = 0;
    for at in 0..whole.items.len() {
        len = len.saturating_add(group_len(&whole.items[at].1));
    }
    len
}
