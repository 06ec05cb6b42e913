// Laws of what a book stands for.
ghost use Rattle.record_db.specs.Standing.{AdoptsOn, AreAlike, BeginsStanding, FindsRecords, FinishesOn, RecordsOn, StaysStanding, UnstagesOn};

/// A fresh book stands for a member that covers nothing.
pub fn fresh_books_stand()
    ensures { BeginsStanding }
{}

/// A book that stands for the updates recorded and the versions covered goes on to when its member
/// consumes a journal record: what the record makes is recorded, and its version is covered.
pub fn recording_books_stand()
    ensures { RecordsOn }
{}

/// So does a book whose member adopts a recorded update that is better than what it holds.
pub fn adopting_books_stand()
    ensures { AdoptsOn }
{}

/// So does a book whose member finishes a round over a set of which each winner is held or beaten.
pub fn finishing_books_stand()
    ensures { FinishesOn }
{}

/// So does a book whose member lets go of what is staged of a file.
pub fn unstaging_books_stand()
    ensures { UnstagesOn }
{}

/// A book stays standing while other members record updates that it doesn't cover.
pub fn standing_books_stay()
    ensures { StaysStanding }
{}

/// What a book finds by a UID is the winner of that file.
pub fn books_find_winners()
    ensures { FindsRecords }
{}

/// Members that cover the same versions have the same records and the same vector.
pub fn books_of_one_set_are_alike()
    ensures { AreAlike }
{}
