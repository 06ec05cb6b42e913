// Sources and sinks in memory, which tell all their bytes. The steady ones never fail; the others fail at
// the calls that they are told.
mod schedule;
mod sink;
mod source;

pub use sink::{MemSink, SteadySink};
pub use source::{MemSource, SteadySource};
