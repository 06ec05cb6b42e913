// The gate, and its seats.
ghost use Rattle.std.specs.Prelude.{◌≡◌, ◌<◌, ◌≤◌, IfOk, length};
ghost use Rattle.credit_gate.specs.Rule.{alone, first_view, fresh_view, times};
ghost use Rattle.credit_gate.specs.Steps.{Answers, HasEntered, IsEntered, Tried, joined, left, split_off};

use crate::View;
use crate::rule::{Enter, EnterLast, Joined, Leave, Places, SplitOff};
use atomic_table::{Seat, Table};
use std::alloc::{AllocError, Global};
use std::marker::Model;

/// The answer of the gate.
#[derive(Clone, Copy, Debug, PartialEq, Eq)]
pub enum Entry {
    /// The seat now has this place.
    Entered { place: u32 },
    /// Each place was taken when it was tried.
    Busy,
}

/// A gate with a limit, which threads share. Contracts see its name and its limit.
#[derive(Drop)]
pub struct Gate {
    table: Table<(), View, u64, Places, Global>,
    limit: u32,
}

impl Model for Gate {
    ghost use Rattle.std.specs.Prelude.{◌≡◌, ◌<◌};
    ghost use Rattle.credit_gate.specs.Seen.{GateSeen, gate_code};

    ghost Value = { GateSeen };

    ghost coded = { gate_code };

    ghost view = { λ g. record { name = g.table.shared.table_id; limit = g.limit } };

    ghost invariant = { λ g. (0 < g.limit)
        × (g.limit ≡ g.table.shared.table_id.words) × (g.limit ≡ g.table.shared.key) };
}

/// By what a thread enters and leaves a gate. Contracts see its gate's name and its view.
#[derive(Drop)]
pub struct GateSeat {
    seat: Seat<(), View>,
}

impl Model for GateSeat {
    ghost use Rattle.std.specs.Prelude.{◌≡◌, []};
    ghost use Rattle.credit_gate.specs.Rule.{Below};
    ghost use Rattle.credit_gate.specs.Seen.{SeatSeen, seat_code};

    ghost Value = { SeatSeen };

    ghost coded = { seat_code };

    ghost view = { λ s. record { name = s.seat.table_id; view = s.seat.me.0 } };

    ghost invariant = { λ s. (s.seat.me.1 ≡ []) × Below s.seat.table_id.words s.seat.me.0.places };
}

impl Gate {
    /// A gate with so many places, and its first seat.
    pub fn new(alloc: Global, limit: u32) -> Result<(Gate, GateSeat), AllocError>
        requires low { 0 < limit }
        requires high { limit ≤ 64 }
        ensures seat { IfOk result (λ r. (r.1.name ≡ r.0.name) × (r.1.view ≡ first_view)) }
        ensures limit { IfOk result (λ r. r.0.limit ≡ limit) }
    {
        let words = vec![in alloc; 0u64; limit as usize]?;
        let (table, seat) = Table::of_words(alloc, words.as_slice(), &u64::from(limit))?;
        Ok((Gate { table, limit }, GateSeat { seat }))
    }

    /// One step at a place that isn't the last one: whether it was free.
    fn try_place(&self, seat: &mut GateSeat, place: u32) -> bool
        requires seat { seat.old.name ≡ self.now.name }
        requires place { place < self.now.limit }
        ensures name { seat.new.name ≡ seat.old.name }
        ensures tried { IsEntered result 0 place seat.old.view seat.new.view }
    {
        let found = self
            .table
            .shared
            .swap::<Enter>(&mut seat.seat, place as usize, 1);
        found == 0
    }

    /// One step at the last place: whether it was free.
    fn try_last(&self, seat: &mut GateSeat, place: u32) -> bool
        requires seat { seat.old.name ≡ self.now.name }
        requires place { place < self.now.limit }
        ensures name { seat.new.name ≡ seat.old.name }
        ensures tried { IsEntered result 1 place seat.old.view seat.new.view }
    {
        let found = self
            .table
            .shared
            .swap::<EnterLast>(&mut seat.seat, place as usize, 1);
        found == 0
    }

    /// Tries one place after the other, and enters at the first that its step finds free.
    pub fn try_enter(&self, seat: &mut GateSeat) -> Entry
        requires { seat.old.name ≡ self.now.name }
        ensures name { seat.new.name ≡ seat.old.name }
        ensures answer { Answers result self.now.limit seat.old.view seat.new.view }
        ensures alone { alone seat.old.view ≡ 1
            → length seat.old.view.places < self.now.limit → HasEntered result }
    {
        for place in 0..self.limit {
            let is_free = if place + 1 == self.limit {
                self.try_last(seat, place)
            } else {
                self.try_place(seat, place)
            };
            if is_free {
                return Entry::Entered { place };
            }
        }
        Entry::Busy
    }

    /// Leaves a place of the seat.
    pub fn leave(&self, seat: &mut GateSeat, place: u32)
        requires seat { seat.old.name ≡ self.now.name }
        requires place { 0 < times place seat.old.view.places }
        ensures name { seat.new.name ≡ seat.old.name }
        ensures left { seat.new.view ≡ left place seat.old.view }
    {
        let found = self
            .table
            .shared
            .swap::<Leave>(&mut seat.seat, place as usize, 0);
        let _ = found;
    }

    /// A new seat of this gate, which has no place.
    pub fn split_seat(&self, seat: &mut GateSeat) -> GateSeat
        requires { seat.old.name ≡ self.now.name }
        ensures new { (result.name ≡ self.now.name) × (result.view ≡ fresh_view) }
        ensures old { (seat.new.name ≡ seat.old.name) × (seat.new.view ≡ split_off seat.old.view) }
    {
        GateSeat {
            seat: self.table.shared.split_seat::<SplitOff>(&mut seat.seat),
        }
    }

    /// Gives a seat the places of another.
    pub fn join_seat(&self, into: &mut GateSeat, from: GateSeat)
        requires into { into.old.name ≡ self.now.name }
        requires from { from.name ≡ self.now.name }
        ensures { (into.new.name ≡ into.old.name)
            × (into.new.view ≡ joined into.old.view from.view) }
    {
        let GateSeat { seat } = from;
        self.table.shared.join_seat::<Joined>(&mut into.seat, seat);
    }
}
