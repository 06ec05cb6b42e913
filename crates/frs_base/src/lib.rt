//! The values that every part of a replicated folder speaks of: identifiers, versions and names.
//!
//! Read [`Gvsn`] and [`Uid`] first: a version of one database, and a file or directory by the
//! version that made it. A contract sees a [`Guid`] as its 128-bit value and a [`Name`] as its
//! UTF-16 units.
#![tactic(auto)]

mod bytes;
mod guid;
mod identifiers;
mod kind;
mod laws;
mod lazy_vec;
mod list;
mod machine;
mod name;
mod reserved_vec;
mod sum;
mod ticket;
mod version;

pub use bytes::Bytes;
pub use guid::Guid;
pub use identifiers::{connection_of, content_set, database_of, replica_set};
pub use kind::{Kind, MemberKind, Phase};
pub use laws::codes_have_one_command;
pub use lazy_vec::LazyVec;
pub use list::List;
pub use machine::Machine;
pub use name::{Name, NameError};
pub use reserved_vec::ReservedVec;
pub use sum::Sum;
pub use ticket::Ticket;
pub use version::{Gvsn, Uid};

#[cfg(test)]
mod tests;
