// What comes of a journal record that a member consumes.

/// What came of consuming a journal record.
#[derive(Clone, Copy, Debug, PartialEq, Eq)]
pub enum Consumed {
    /// The record with this USN made an update.
    Made { usn: u64 },
    /// It made none.
    Skipped { usn: u64 },
}
