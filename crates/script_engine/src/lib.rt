//! The engine of a script: its members, what each line does to them, and what it prints.
#![tactic(auto)]

mod consumed;
mod count;
mod engine;
mod laws;
mod lines;
mod names;
mod records;
mod refusal;
mod replies;
mod rows;
mod sums;
mod tree;
mod words;

pub use consumed::Consumed;
pub use engine::Engine;
pub use laws::{
    beginnings_go_on, beginnings_keep_scenes_sound, drains_leave_drained,
    equal_vectors_have_equal_records, equal_vectors_print_equal_trees, every_line_prints,
    every_script_prints, fresh_scenes_are_sound, lines_keep_scenes_sound, lines_print_one_text,
    one_text, pulls_are_rounds, recorded_is_covered, runs_keep_scenes_sound, runs_print_one_text,
    stays_covered, trees_are_one, volumes_have_trees,
};
pub use names::MemberName;
pub use records::records_text;
pub use refusal::Refusal;
pub use rows::{TreeRow, tree_rows};
pub use sums::sums_text;
pub use tree::tree_text;

#[cfg(test)]
mod tests;
