//! Where a program reads its bytes and where it writes them: sources and sinks, each with a count
//! of the calls on it that failed.
//!
//! Begin with [`Source`] and [`Sink`]. What they tell of their bytes, and what stands behind an
//! error, is said in `specs/Told.antt` and `specs/Causes.antt`.
#![tactic(auto)]

mod memory;
mod reading;
mod sink;
mod source;
mod standard;
#[cfg(test)]
mod tests;
mod writing;

pub use memory::{MemSink, MemSource, SteadySink, SteadySource};
pub use reading::{ReadError, read_to_limit};
pub use sink::{Sink, WriteError};
pub use source::{Failed, Source};
pub use standard::{StdSink, StdSource};
pub use writing::{PIECE, hand_on, write_all};
