//! Finite maps whose copies share memory.
//!
//! Read [`Pmap`]: a map that never changes, and of which a copy costs one count. Its entries are in
//! order of their keys, and a contract sees them as the list in that order. Then [`Table`]: a map
//! that is changed in its place, and that hands out its entries as a [`Pmap`].
#![tactic(auto)]

mod ahead;
mod beyond;
mod group;
mod join;
mod leaf;
mod lengths;
mod map;
mod middle;
mod node;
mod part;
mod root;
mod row;
mod table;
mod whole;

pub use map::Pmap;
pub use table::Table;

#[cfg(test)]
mod tests;
