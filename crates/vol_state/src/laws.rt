// Laws of the definitions.
ghost use Rattle.vol_state.specs.Laws.{KeepsNumbering, LeavesNumbersFree, ObjectsAreSummed};
ghost use Rattle.vol_state.specs.Maps.{BeginsStanding, StandsOn};
ghost use Rattle.vol_state.specs.Pending.{PendingIsLast};
ghost use Rattle.vol_state.specs.Tables.{TablesAreTests, TestsAreTables};
ghost use Rattle.vol_state.specs.Ways.{ListsResolve, ResolvedMay, ResolvesToOne};

/// Each object of a volume has the sum of its contents, and a directory has no contents.
pub fn objects_have_the_sums_of_their_contents()
    ensures { ObjectsAreSummed }
{}

/// USNs that run from 9 without a gap go on so, whatever the command: a fact of volumes that began
/// fresh, which no type keeps.
pub fn steps_keep_the_numbering()
    ensures { KeepsNumbering }
{}

/// Where the numbers in use are below the next ones, they stay so, but for a command that makes an
/// object with a UID of the own database that isn't born yet. So a command that an operation
/// resolves to is done until the numbers of 64 bits run out.
pub fn steps_leave_numbers_free()
    ensures { LeavesNumbersFree }
{}

/// A fresh volume stands for two empty maps.
pub fn fresh_lists_stand_for_maps()
    ensures { BeginsStanding }
{}

/// A volume that stands for two finite maps, of objects by number and of journal records by USN,
/// goes on to: each command is one write of an object and of a record.
pub fn lists_stand_for_maps()
    ensures { StandsOn }
{}

/// A command whose condition holds may be done by the tables of operations over the maps for which
/// the volume stands.
pub fn tests_are_tables()
    ensures { TestsAreTables }
{}

/// And what the tables allow has its condition, where the next numbers are above all in use.
pub fn tables_are_tests()
    ensures { TablesAreTests }
{}

/// What a local operation comes to, its command or the first refusal, it comes to by the paths over
/// the maps for which the volume stands.
pub fn lists_resolve_as_maps()
    ensures { ListsResolve }
{}

/// A local operation comes to one thing.
pub fn operations_resolve_to_one()
    ensures { ResolvesToOne }
{}

/// A command that a local operation comes to may be done.
pub fn resolved_commands_may_be_done()
    ensures { ResolvedMay }
{}

/// The last local record of a UID at or past a USN is the last over the maps for which the volume
/// stands.
pub fn pending_records_are_last()
    ensures { PendingIsLast }
{}
