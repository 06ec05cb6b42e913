// What is given for an event, before its entry is made.
ghost use Rattle.std.specs.Prelude.{◌≡◌, false};
ghost use Rattle.folder_core.specs.declared.mark.Mark.TheVariants as mark;
ghost use Rattle.folder_core.specs.declared.reply.Reply.TheVariants as reply;

use crate::{Mark, Refusal, Reply};

/// A reply, its mark, and whether the vector changed.
#[derive(Drop)]
pub(crate) struct Answer {
    pub(crate) reply: Reply,
    pub(crate) mark: Mark,
    pub(crate) moved: bool,
}

impl Answer {
    /// The event changes nothing.
    pub(crate) fn refused(why: &Refusal) -> Answer
        ensures { result ≡ record { reply = reply.Refused why.now; mark = mark.Refused why.now; moved = false } }
    {
        Answer {
            reply: Reply::Refused(*why),
            mark: Mark::Refused(*why),
            moved: false,
        }
    }
}
