//! The lines of a script, both ways.
//!
//! Read [`Line`] first. [`parse`] reads the bytes of a script as lines, or says which row is the
//! first that no line spells; [`print()`] writes the one row that spells a line.
//!
//! [`parse_prefix`] and [`row_number`] are for a program that does only some of the lines: they
//! give the lines before the first bad row, and the row that a line stands in.
#![tactic(auto)]

mod errors;
mod laws;
mod line;
mod number;
mod parsing;
mod path;
mod printing;
mod reading;
mod rows;
mod words;

pub use errors::ParseError;
pub use laws::{
    first_bad_rows_are_one, lines_stand_in_rows, scripts_have_no_bad_row, scripts_have_one_list,
    spellings_are_scripts,
};
pub use line::Line;
pub use parsing::{Prefix, parse, parse_prefix};
pub use printing::print;
pub use rows::row_number;

#[cfg(test)]
mod tests;
