//! The world of a replicated folder: its members, what an event at one of them changes, and what
//! holds after every run of events.
#![tactic(auto)]

mod laws;
mod small_worlds;

pub use laws::{
    adoptions_are_fit, all_is_counted, at_most_four_are_done, at_most_four_are_due,
    cover_is_stable, drained_volumes_are_trees, drains_end, equal_vectors_have_equal_records,
    equal_vectors_have_equal_trees, events_are_one, events_keep_the_invariant,
    finished_rounds_are_held, flights_can_land, folders_begin_sound, folders_stay_sound,
    fresh_worlds_are_sound, lives_are_runs, lives_are_sound,
    members_are_drained_where_nothing_is_due, members_do_their_steps, members_have_one_answer,
    members_stop_and_start, next_steps_can_be_done, pending_objects_stay, quiet_members_go_on,
    rounds_stay_true, runs_keep_the_invariant, steps_lower_what_is_due, views_are_there,
    what_is_covered_is_held, what_is_sent_stays_covered,
};
pub use small_worlds::{
    a_cycle_of_parents_is_hidden, a_pulled_file_is_installed, a_tie_has_one_winner,
    superseded_is_adopted_and_finished, what_is_due_is_counted,
};
