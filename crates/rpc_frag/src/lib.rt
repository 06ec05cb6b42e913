//! Calls as fragments, and PDUs out of a stream that comes in pieces, after C706 chapter 12.
//!
//! Read [`Assembler`] first: it takes the fragments of calls one by one, and gives a call with its
//! last one. [`cut`] makes the fragments of a call. [`Splitter`] takes PDUs off a stream: however
//! the stream is cut into pieces, they are the same PDUs, and a refusal has the same place.
#![tactic(auto)]

mod assembler;
mod cutting;
mod fragment;
mod laws;
mod refusal;
mod splitting;

pub use assembler::Assembler;
pub use cutting::cut;
pub use fragment::Whole;
pub use laws::{any_cut_gives_the_same, any_cut_of_any_decoder, fragments_give_their_call};
pub use refusal::{FragBad, FragError, StreamBad, StreamError};
pub use splitting::Splitter;
