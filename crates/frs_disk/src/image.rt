// What a stop leaves of the call that it came to.

/// Whether a stop leaves the call that it came to done, with what was done since the last sync, or
/// neither.
#[derive(Clone, Copy, Debug, PartialEq, Eq)]
pub enum Image {
    With,
    Without,
}
