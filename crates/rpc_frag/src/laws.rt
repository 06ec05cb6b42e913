// What holds of every stream and of every call, each law the contract of a function that does
// nothing.
ghost use Rattle.rpc_frag.specs.Assembling.{CutsGiveTheirCall, FragmentsGiveTheirCall, GivenForItsFragments};
ghost use Rattle.rpc_frag.specs.Streams.{AnyCut, IsSteady, Next, OneReading};
ghost use Rattle.rpc_pdu.specs.Decoding.{decoded};

/// Pieces one after the other give the PDUs that the whole stream gives, and a refusal at the same
/// place; and a stream has one reading.
pub fn any_cut_gives_the_same()
    ensures cut { AnyCut decoded }
    ensures one { OneReading decoded }
{}

/// The same of any decoder that more bytes don't change, whatever it takes off a stream.
pub fn any_cut_of_any_decoder<A, E>()
    ensures cut { (next : Next A E) → IsSteady next → AnyCut next }
    ensures one { (next : Next A E) → OneReading next }
{}

/// The fragments of a call give that call, and leave nothing begun, and no others give it; and what
/// is cut is such fragments.
pub fn fragments_give_their_call()
    ensures fragments { FragmentsGiveTheirCall }
    ensures only { GivenForItsFragments }
    ensures cuts { CutsGiveTheirCall }
{}
