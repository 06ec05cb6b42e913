// What the rule of a gate says of its seats, each law the contract of a function that does nothing.
ghost use Rattle.credit_gate.specs.Laws.{NoneShared, NoneTooMany};

/// No two seats have one place, and all together have no more places than there are.
pub fn seats_have_places_of_their_own()
    ensures apart { NoneShared }
    ensures limit { NoneTooMany }
{}
