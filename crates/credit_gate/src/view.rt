// What a seat knows.
use std::collections::LinkedList;

/// What a contract knows of a seat. No value of it is made.
pub struct View {
    /// The places that it has.
    pub places: LinkedList<u32>,
    /// Each place that it tried, with the number that its step found there, the last one last.
    pub tried: LinkedList<(u32, u64)>,
    /// How often it entered.
    pub entered: u64,
    /// How often it found the gate busy.
    pub busy: u64,
    /// How many seats were split off it.
    pub splits: u64,
    /// Whether it is the seat that was made with the gate.
    pub first: bool,
}
