// What holds of every stub, each law the contract of a function that does nothing.
ghost use Rattle.ndr_frs.specs.Laws.{RepliesAreExact, RequestsAreExact};

/// A stub is read as the request that it spells and as no other, and what is written is one of the
/// request's spellings, which differ only in bytes that the reader doesn't look at.
pub fn requests_are_exact()
    ensures { RequestsAreExact }
{}

/// The same of replies.
pub fn replies_are_exact()
    ensures { RepliesAreExact }
{}
