// What a crash may leave, computed of small disks, and which moments there are.
ghost use Rattle.frs_disk.specs.SmallDisks.{CutEnd, NewEnd, PresentIsMoment, SyncedByte, WrittenByte};

/// A byte that was written and not synced may be any after a crash, and the others stay.
pub fn a_written_byte_may_be_any()
    ensures { WrittenByte }
{}

/// A byte that was written behind the end and not synced may be any after a crash, or missing.
pub fn a_new_byte_may_be_missing()
    ensures { NewEnd }
{}

/// What was cut and not synced is gone, there in part or there after a crash.
pub fn a_cut_may_be_undone()
    ensures { CutEnd }
{}

/// What was synced is there after a crash, and nothing else.
pub fn what_is_synced_stays()
    ensures { SyncedByte }
{}

/// What a crash may leave now is among what a crash at some moment since might have left.
pub fn the_present_is_a_moment()
    ensures { PresentIsMoment }
{}
