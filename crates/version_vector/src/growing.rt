// Sets of versions that grow in their place.
ghost use Rattle.std.specs.Prelude.{◌≡◌, ◌<◌, ◌≤◌, ◌-◌, ◌^◌, ◌||◌, [], IfErr, IfOk, OnOk, length};
ghost use Rattle.frs_base.specs.Versions.{same_gvsn};
ghost use Rattle.frs_base.specs.declared.version.Gvsn.{Gvsn};
ghost use Rattle.version_vector.specs.Places.{one_version};
ghost use Rattle.version_vector.specs.Unions.{inserted};
ghost use Rattle.version_vector.specs.Versions.{IsCanonical, covers};

use crate::insertion::within_limit;
use crate::places::{is_covered, touched};
use crate::union::union;
use crate::{Interval, Vector, VectorError};
use frs_base::{Gvsn, ReservedVec};
use std::alloc::{AllocError, Global};
use std::marker::Model;

/// A set of versions to which versions are added in their place, in memory that was reserved.
///
/// A contract sees its intervals, sorted, none empty, none touching, and for how many more there
/// is room.
#[derive(Debug, Drop)]
pub struct GrowingVector {
    kept: ReservedVec<Interval>,
}

impl Model for GrowingVector {
    ghost use Rattle.frs_base.specs.Reserved.{Reserved};
    ghost use Rattle.version_vector.specs.declared.interval.Interval.{Interval};
    ghost use Rattle.version_vector.specs.Versions.{IsCanonical};

    ghost Value = { Reserved Interval };

    ghost view = { λ vector. vector.kept };

    ghost invariant = { λ vector. IsCanonical vector.kept.items };
}

/// How many intervals there are once another is among them.
fn count_with(intervals: &[Interval], new: &Interval) -> usize
    requires canonical { IsCanonical intervals.now }
    requires full { new.now.low < new.now.high }
    ensures { result ≡ length (inserted new.now intervals.now) }
{
    let (from, to) = touched(intervals, new);
    intervals.len() + 1 - (to - from)
}

/// Puts an interval among those of a set, joined with those that it touches, where there is room
/// for it.
fn insert_reserved(intervals: &mut ReservedVec<Interval>, new: Interval)
    requires canonical { IsCanonical intervals.old.items }
    requires full { new.low < new.high }
    requires room { 0 < intervals.old.room }
    ensures { intervals.new.items ≡ inserted new intervals.old.items }
{
    let all = intervals.as_slice();
    let (from, to) = touched(all, &new);
    if from == to {
        intervals.insert(from, new);
    } else {
        let joined = new.joined(&all[from]).joined(&all[to - 1]);
        intervals.set(from, joined);
        intervals.remove_range(from + 1, to);
    }
}

impl GrowingVector {
    ghost use Rattle.version_vector.specs.Limits.{IsTooLong};

    /// The empty set, which takes no memory.
    pub fn empty() -> GrowingVector
        ensures { result ≡ record { items = []; room = 0 } }
    {
        GrowingVector {
            kept: ReservedVec::empty(),
        }
    }

    /// The intervals of the set, sorted, none empty, none touching.
    pub fn intervals(&self) -> &[Interval]
        ensures intervals { result.now ≡ self.now.items }
        ensures canonical { IsCanonical self.now.items }
    {
        self.kept.as_slice()
    }

    /// Whether the version is in the set.
    pub fn covers(&self, g: Gvsn) -> bool
        ensures { result ≡ covers self.now.items g }
    {
        is_covered(self.intervals(), &g)
    }

    /// The same set as one that doesn't grow, in memory of its own.
    pub fn copy(&self, alloc: Global) -> Result<Vector, AllocError>
        ensures { IfOk result (λ vector. vector ≡ self.now.items) }
    {
        Vector::copy_of(alloc, self.intervals())
    }

    /// Takes the memory that one version more may need. The set stays as it is, also after an
    /// error.
    pub fn reserve(&mut self, alloc: Global, g: Gvsn) -> Result<(), VectorError>
        requires { g.version < 2 ^ 64 - 1 }
        ensures same { self.new.items ≡ self.old.items }
        ensures room { OnOk result (0 < self.new.room) }
        ensures within { OnOk result (length (inserted (one_version g) self.old.items) ≤ 65_536) }
        ensures full { IfErr result (λ e.
            IsTooLong e (λ h. same_gvsn g h || covers self.old.items h)) }
    {
        within_limit(count_with(self.intervals(), &Interval::of_version(g)))?;
        self.kept.reserve_one(alloc)?;
        Ok(())
    }

    /// Adds a version for which there is room, in its place.
    pub fn cover(&mut self, g: Gvsn)
        requires version { g.version < 2 ^ 64 - 1 }
        requires room { 0 < self.old.room }
        ensures form { self.new.items ≡ inserted (one_version g) self.old.items }
        ensures set { (h : Gvsn) →
            covers self.new.items h ≡ (same_gvsn g h || covers self.old.items h) }
        ensures canonical { IsCanonical self.new.items }
    {
        insert_reserved(&mut self.kept, Interval::of_version(g));
    }

    /// The set with the versions of another, in memory of its own.
    pub fn merged(&self, alloc: Global, other: &Vector) -> Result<GrowingVector, VectorError>
        ensures set { IfOk result (λ found. (h : Gvsn) →
            covers found.items h ≡ (covers other.now h || covers self.now.items h)) }
        ensures canonical { IfOk result (λ found. IsCanonical found.items) }
        ensures within { IfOk result (λ found. length found.items ≤ 65_536) }
        ensures full { IfErr result (λ e.
            IsTooLong e (λ h. covers other.now h || covers self.now.items h)) }
    {
        let found = union(alloc, self.intervals(), other.intervals())?;
        within_limit(found.len())?;
        Ok(GrowingVector {
            kept: ReservedVec::of(found),
        })
    }
}
