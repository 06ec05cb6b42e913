// What the order of updates is good for.
ghost use Rattle.win_order.specs.Laws.{NoneBeatsItself, BeatsAlong, OneOfTwoBeats};

/// To win is a strict order in which any two updates of one file by different versions are
/// decided, so that of all that are known of a file exactly one stands.
pub fn winning_is_an_order()
    ensures irreflexive { NoneBeatsItself }
    ensures transitive { BeatsAlong }
    ensures decided { OneOfTwoBeats }
{}
