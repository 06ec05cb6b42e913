//! The records of a member: of each file or directory the winner among all updates whose versions
//! the member covers; and what is staged of them: contents that aren't installed yet.
//!
//! Read [`Book`] first, then [`BookCmd`]: what is done to it. A change is made in two steps:
//! [`Book::ready`] takes the memory that a command needs, and [`Book::take`] does it. [`Records`]
//! are what a book held at one moment.
#![tactic(auto)]

mod book;
mod command;
mod laws;
mod past;
mod record_table;
mod records;
mod shared_update;
mod staged;

pub use book::Book;
pub use command::{BookCmd, Ready};
pub use laws::{
    adopting_books_stand, books_find_winners, books_of_one_set_are_alike, finishing_books_stand,
    fresh_books_stand, recording_books_stand, standing_books_stay, unstaging_books_stand,
};
pub use past::first_past;
pub use records::Records;
pub use staged::Staged;
