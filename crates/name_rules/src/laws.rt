// Laws of the definitions.
ghost use Rattle.name_rules.specs.Examples.{AloneIsShown, ChildOfPresent, ChildOfRemoved, MatchingNames, PendingComesFirst};
ghost use Rattle.name_rules.specs.Recorded.{MakesOwnVersion, PassesReplicas};

/// An update that a journal record makes has the own database and the record's USN as its version.
pub fn made_updates_have_their_version()
    ensures { MakesOwnVersion }
{}

/// No update is made of what the installer did.
pub fn nothing_is_made_of_a_replica_record()
    ensures { PassesReplicas }
{}

/// Of two records with matching names in one directory the one with the greater key is shown, and
/// the other isn't; alone it is.
pub fn matching_names_show_the_greatest()
    ensures greatest { MatchingNames }
    ensures alone { AloneIsShown }
{}

/// What stands in a directory that was removed is hidden; while the directory is there, it is shown.
pub fn children_of_what_is_removed_are_hidden()
    ensures hidden { ChildOfRemoved }
    ensures shown { ChildOfPresent }
{}

/// While local records are pending, a member does no step, and the first of them is to be consumed.
pub fn pending_records_come_first()
    ensures { PendingComesFirst }
{}
