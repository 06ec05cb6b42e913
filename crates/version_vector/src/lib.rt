//! Version vectors: sets of versions, kept and sent as intervals (the FRS_VERSION_VECTOR of
//! [MS-FRS2]).
//!
//! A [`Vector`] is a set of versions. A contract sees it as its intervals, sorted, none empty, none
//! touching, and says of each call which versions the intervals then cover. [`one_form`] is the law
//! that one set has one such list. A [`GrowingVector`] is a set to which versions are added in their
//! place, in memory that was reserved.
#![tactic(auto)]

mod difference;
mod errors;
mod form;
mod growing;
mod insertion;
mod interval;
mod places;
#[cfg(test)]
mod tests;
mod union;
mod vector;

pub use errors::{OfError, VectorError};
pub use form::one_form;
pub use growing::GrowingVector;
pub use interval::Interval;
pub use vector::Vector;
