//! Network data representation: how numbers, identifiers, arrays and strings stand in the bytes of
//! a call, after C706 chapter 14.
//!
//! Read [`Reader`] first: a place in bytes, from which each call takes one item or says where there
//! is none. [`Writer`] is its mirror. A contract names the item that a call takes or writes; items
//! and the words that put them together are listed in `specs/Items.antt`. [`Wire`] is for what
//! stands in arrays.
#![tactic(auto)]

mod handle;
mod laws;
mod reader;
mod refusal;
mod strings;
mod wire;
mod writer;

pub use handle::ContextHandle;
pub use laws::{
    headers_are_lawful, identifiers_are_lawful, numbers_are_lawful, strings_are_lawful,
    values_have_one_spelling,
};
pub use reader::Reader;
pub use refusal::{NdrBad, NdrError};
pub use wire::{Wire, put_many, take_many};
pub use writer::Writer;
