// What holds of every PDU, each law the contract of a function that does nothing.
ghost use Rattle.rpc_pdu.specs.Laws.{MoreChangesNothing, NeverBoth, NoneBegins, PdusAreReadAsSpelled, PdusAreSpelled, PdusReadBack, WhatIsReadIsSpelled, WhatIsReadIsWritable};

/// What [`encode`] gives is a spelling of its PDU.
///
/// [`encode`]: crate::encode
pub fn pdus_are_spelled()
    ensures { PdusAreSpelled }
{}

/// A spelling is read as its PDU, whatever follows.
pub fn pdus_are_read_as_spelled()
    ensures { PdusAreReadAsSpelled }
{}

/// Bytes spell one PDU at most, no spelling begins another, and bytes that begin with one aren't
/// refused.
pub fn spellings_are_apart()
    ensures one { NoneBegins }
    ensures never_both { NeverBoth }
{}

/// What is read is a spelling of what it is read as.
pub fn what_is_read_is_spelled()
    ensures { WhatIsReadIsSpelled }
{}

/// What is written is read again, whatever follows.
pub fn pdus_read_back()
    ensures { PdusReadBack }
{}

/// More bytes change nothing of what [`decode`] said of some, but that there is no PDU yet.
///
/// [`decode`]: crate::decode
pub fn more_bytes_change_nothing()
    ensures { MoreChangesNothing }
{}

/// What is read of bytes meets all that [`encode`] asks.
///
/// [`encode`]: crate::encode
pub fn what_is_read_is_writable()
    ensures { WhatIsReadIsWritable }
{}
