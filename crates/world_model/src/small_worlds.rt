// Small worlds, computed.
ghost use Rattle.world_model.specs.Examples.{DueRows, Installs, ParentCycle, Superseded, Tie};

/// A change that is superseded between a poll and the fetch: the later one is adopted, and the round
/// over the earlier vector is finished.
pub fn superseded_is_adopted_and_finished()
    ensures { Superseded }
{}

/// Two changes of one file at one moment: the greater database wins at both members.
pub fn a_tie_has_one_winner()
    ensures { Tie }
{}

/// Two moves that make a cycle: neither directory is shown.
pub fn a_cycle_of_parents_is_hidden()
    ensures { ParentCycle }
{}

/// Of five files that are seen so: four things are due, three, two, one and none.
pub fn what_is_due_is_counted()
    ensures { DueRows }
{}

/// A member that has pulled a file makes it next, and when it has installed it, nothing is left.
pub fn a_pulled_file_is_installed()
    ensures { Installs }
{}
