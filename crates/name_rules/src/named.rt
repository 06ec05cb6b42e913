// Which records have their names.
ghost use Rattle.std.specs.Prelude.{◌≡◌, IfOk, map};
ghost use Rattle.std.specs.Ordering.{nat_cmp};
ghost use Rattle.std.specs.Cmp.Lexicographic.{slice_cmp};
ghost use Rattle.frs_base.specs.Names.{fold_unit};
ghost use Rattle.name_rules.specs.Shown.{AreDistinct, AreNamed, IsRanked, rank_cmp, same_place};

use std::alloc::{AllocError, Global};
use std::cmp::Ordering;
use win_order::Update;

/// A to Z become a to z.
fn folded(unit: u16) -> u16
    ensures { result ≡ fold_unit unit }
{
    if unit >= 0x41 && unit <= 0x5a {
        unit + 0x20
    } else {
        unit
    }
}

/// Compares the units of two names once they are folded.
fn compare_folded(a: &[u16], b: &[u16]) -> Ordering
    ensures { result ≡ slice_cmp nat_cmp (map fold_unit a.now) (map fold_unit b.now) }
{
    for (at, unit) in a.iter().enumerate() {
        let Some(other) = b.get(at) else {
            return Ordering::Greater;
        };
        match folded(*unit).cmp(&folded(*other)) {
            Ordering::Equal => {}
            order => return order,
        }
    }
    if a.len() < b.len() {
        Ordering::Less
    } else {
        Ordering::Equal
    }
}

/// Compares two updates by their parents, then by their folded names, then by their keys.
fn by_rank(a: &Update, b: &Update) -> Ordering
    ensures { result ≡ rank_cmp a.now b.now }
{
    match a.parent.cmp(&b.parent) {
        Ordering::Equal => {}
        order => return order,
    }
    match compare_folded(a.name.units(), b.name.units()) {
        Ordering::Equal => {}
        order => return order,
    }
    a.key().cmp(&b.key())
}

/// The present records, by rank.
fn ranked<'a>(alloc: Global, records: &'a [Update]) -> Result<Vec<&'a Update>, AllocError>
    ensures { IfOk result (λ ranked. IsRanked records.now (map (λ u. u.now) ranked.items)) }
{
    let mut ranked = Vec::new(alloc);
    for update in records {
        if update.present {
            ranked.push(update)?;
        }
    }
    ranked.sort_unstable_by(|a, b| by_rank(a, b));
    Ok(ranked)
}

/// Whether two updates want the same place: they are of one directory, and their names match.
fn same_place(a: &Update, b: &Update) -> bool
    ensures { result ≡ same_place a.now b.now }
{
    a.parent == b.parent && a.name.matches(&b.name)
}

/// The records that have their names, in order of their parents.
pub(crate) fn named<'a>(alloc: Global, records: &'a [Update]) -> Result<Vec<&'a Update>, AllocError>
    requires { AreDistinct records.now }
    ensures { IfOk result (λ named. AreNamed records.now (map (λ u. u.now) named.items)) }
{
    let ranked = ranked(alloc, records)?;
    let mut named = Vec::new(alloc);
    for (at, update) in ranked.iter().enumerate() {
        let is_last = match ranked.get(at + 1) {
            None => true,
            Some(next) => !same_place(update, next),
        };
        if is_last {
            named.push(*update)?;
        }
    }
    Ok(named)
}
