// The answer to a request for a file.
use crate::Body;
use win_order::Update;

/// What a member answers when it is asked for a file.
#[derive(Debug, Drop, PartialEq, Eq)]
pub enum FileAnswer {
    /// Its record, as it was when the member's history had this length, and the form of its
    /// contents, which only a present file has.
    Found {
        at: u64,
        update: Update,
        body: Option<Body>,
    },
    /// The file was changed, and the journal record with this USN isn't consumed yet.
    NotYet {
        usn: u64,
    },
    /// No record is of the file.
    NoRecord,
}
