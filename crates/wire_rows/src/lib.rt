//! Rows that ask what bytes of the protocol are, and their answers.
//!
//! Read [`WireRow`] first. [`row_of`] reads one row of text, and [`answer`] gives the text that
//! answers it, without a line feed. What a row is, is said in `specs/Reading.antt`, and what
//! answers it in `specs/Answering.antt`.
#![tactic(auto)]

mod answering;
mod errors;
mod feeding;
mod hexing;
mod laws;
mod naming;
mod number;
mod reading;
mod row;

pub use answering::answer;
pub use errors::RowError;
pub use laws::one_answer;
pub use reading::row_of;
pub use row::WireRow;
