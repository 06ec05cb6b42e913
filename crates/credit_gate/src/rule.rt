// The rule of the gate, and its steps.
use crate::View;
use atomic_table::{Join, Play, Split, TableRule};

/// A word is 0 or 1, and is 1 exactly where one seat has its place, once; and while the first seat
/// has split none off, there is no other. The key is the number of places.
pub(crate) struct Places;

impl TableRule<(), View, u64> for Places {
    ghost use Rattle.credit_gate.specs.Rule.{Kept, first_view};

    ghost holds = { λ key s. Kept key s.words s.views };

    ghost first = { λ key. first_view };
}

/// A swap of 1 into a place that isn't the last one.
pub(crate) struct Enter;

impl Play<(), View> for Enter {
    ghost use Rattle.std.specs.Prelude.{◌≡◌};
    ghost use Rattle.credit_gate.specs.Steps.{Tried};

    ghost then = { λ s v found w. Tried 0 s.word v.0 found w.0 × (w.1 ≡ v.1) };
}

/// A swap of 1 into the last place, which finds the gate busy where it finds 1.
pub(crate) struct EnterLast;

impl Play<(), View> for EnterLast {
    ghost use Rattle.std.specs.Prelude.{◌≡◌};
    ghost use Rattle.credit_gate.specs.Steps.{Tried};

    ghost then = { λ s v found w. Tried 1 s.word v.0 found w.0 × (w.1 ≡ v.1) };
}

/// A swap of 0 into a place of the seat.
pub(crate) struct Leave;

impl Play<(), View> for Leave {
    ghost use Rattle.std.specs.Prelude.{◌≡◌};
    ghost use Rattle.credit_gate.specs.Steps.{left};

    ghost then = { λ s v found w. (w.0 ≡ left s.word v.0) × (w.1 ≡ v.1) };
}

/// A new seat has no place.
pub(crate) struct SplitOff;

impl Split<View> for SplitOff {
    ghost use Rattle.credit_gate.specs.Rule.{fresh_view};
    ghost use Rattle.credit_gate.specs.Steps.{split_off};

    ghost left = { split_off };

    ghost right = { λ v. fresh_view };
}

/// One seat has the places of two.
pub(crate) struct Joined;

impl Join<View> for Joined {
    ghost use Rattle.credit_gate.specs.Rule.{fresh_view};
    ghost use Rattle.credit_gate.specs.Steps.{joined};

    ghost both = { joined };

    ghost spent = { fresh_view };
}
