// What the replies to the events of lines say.
ghost use Rattle.std.specs.Prelude.{◌≡◌};
ghost use Rattle.script_engine.specs.Replies.{consumed_of, file_of, installed_of, pinned_of, taken_of, usn_of};

use crate::{Consumed, Refusal};
use folder_core::Reply;
use name_rules::Step;
use pinned_pages::{FileAnswer, Pinned};
use vol_state::Refused;

/// A local operation got a USN, or was refused.
pub(crate) fn usn_of(reply: Reply) -> Option<Result<u64, Refused>>
    ensures { result ≡ usn_of reply }
{
    match reply {
        Reply::Usn(usn) => Some(Ok(usn)),
        Reply::Refused(folder_core::Refusal::Local(why)) => Some(Err(why)),
        _ => None,
    }
}

/// A journal record was consumed, or none was left, or it was refused.
pub(crate) fn consumed_of(reply: &Reply) -> Option<Result<Option<Consumed>, Refusal>>
    ensures { result ≡ consumed_of reply.now }
{
    match reply {
        Reply::Made(gvsn) => Some(Ok(Some(Consumed::Made { usn: gvsn.version }))),
        Reply::Skipped(usn) => Some(Ok(Some(Consumed::Skipped { usn: *usn }))),
        Reply::Nothing => Some(Ok(None)),
        Reply::Refused(folder_core::Refusal::VectorFull { count }) => {
            Some(Err(Refusal::VectorFull { count: *count }))
        }
        _ => None,
    }
}

/// A vector was sent.
pub(crate) fn pinned_of(reply: Reply) -> Option<Pinned>
    ensures { result ≡ pinned_of reply }
{
    match reply {
        Reply::Sent(pinned) => Some(pinned),
        _ => None,
    }
}

/// A file was answered.
pub(crate) fn file_of(reply: Reply) -> Option<FileAnswer>
    ensures { result ≡ file_of reply }
{
    match reply {
        Reply::File(answer) => Some(answer),
        _ => None,
    }
}

/// An update was adopted or a round finished, or the vector would have too many intervals.
pub(crate) fn taken_of(reply: Reply) -> Option<Result<(), Refusal>>
    ensures { result ≡ taken_of reply }
{
    match reply {
        Reply::Adopted | Reply::Finished => Some(Ok(())),
        Reply::Refused(folder_core::Refusal::VectorFull { count }) => {
            Some(Err(Refusal::VectorFull { count }))
        }
        _ => None,
    }
}

/// The installer did a step, or had none to do, or was refused.
pub(crate) fn installed_of(reply: &Reply) -> Option<Result<Option<Step>, Refusal>>
    ensures { result ≡ installed_of reply.now }
{
    match reply {
        Reply::Did(step) => Some(Ok(Some(*step))),
        Reply::Drained => Some(Ok(None)),
        Reply::Refused(folder_core::Refusal::NotYet { usn }) => {
            Some(Err(Refusal::NotYet { usn: *usn }))
        }
        Reply::Refused(folder_core::Refusal::VectorFull { count }) => {
            Some(Err(Refusal::VectorFull { count: *count }))
        }
        _ => None,
    }
}
