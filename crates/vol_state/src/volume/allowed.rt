// Whether a command does anything.
ghost use Rattle.std.specs.Prelude.{◌≡◌, ◌<◌, ◌^◌, ◌-◌, nat_lt};
ghost use Rattle.vol_state.specs.Valid.{IsVolume};
ghost use Rattle.vol_state.specs.Numbers.{greatest_fid, greatest_usn, has_fid, has_numbers, has_usn, makes_object};
ghost use Rattle.vol_state.specs.Conditions.{can_make, is_allowed};

use crate::conditions::{
    can_move, can_stand, is_file_at, is_free, is_in_limbo_at, is_open_object, is_placed_at,
    is_reached, is_within, root_uid,
};
use crate::tree::is_directory;
use crate::{VolCmd, Volume};
use frs_base::{Bytes, Kind, Uid};

/// The command makes an object.
fn makes_object(cmd: &VolCmd) -> bool
    ensures { result ≡ makes_object cmd.now }
{
    match cmd {
        VolCmd::PutNew { .. } | VolCmd::Mkdir { .. } | VolCmd::Make { .. } => true,
        VolCmd::PutOver { .. }
        | VolCmd::Move { .. }
        | VolCmd::Remove { .. }
        | VolCmd::Park { .. }
        | VolCmd::Erase { .. }
        | VolCmd::Rewrite { .. }
        | VolCmd::Place { .. } => false,
    }
}

impl Volume {
    /// The object can be made.
    pub(crate) fn can_make(&self, uid: Uid, kind: Kind, bytes: &Bytes) -> bool
        ensures { result ≡ can_make uid kind bytes.now self.now.state }
    {
        uid != root_uid()
            && self.object_of(uid).is_none()
            && (!is_directory(kind) || bytes.as_slice().len() <= 0)
    }

    /// The condition of a command.
    pub(crate) fn is_allowed(&self, cmd: &VolCmd) -> bool
        ensures allowed { result ≡ is_allowed cmd.now self.now.state }
        ensures valid { IsVolume self.now.state }
    {
        let shelf = self.shelf();
        match cmd {
            VolCmd::PutNew {
                parent,
                name,
                bytes,
            } => is_within(bytes) && is_free(shelf, *parent, name),
            VolCmd::PutOver { fid, bytes } => {
                is_within(bytes) && is_file_at(shelf, *fid) && is_reached(shelf, *fid)
            }
            VolCmd::Mkdir { parent, name } => is_free(shelf, *parent, name),
            VolCmd::Move { fid, parent, name } => {
                is_open_object(shelf, *fid) && can_move(shelf, *fid, *parent, name)
            }
            VolCmd::Remove { fid } => is_open_object(shelf, *fid) && !shelf.has_children(*fid),
            VolCmd::Park { fid } => is_placed_at(shelf, *fid),
            VolCmd::Erase { fid } => is_in_limbo_at(shelf, *fid) && !shelf.has_children(*fid),
            VolCmd::Make { uid, kind, bytes } => self.can_make(*uid, *kind, bytes),
            VolCmd::Rewrite { fid, bytes: _ } => is_file_at(shelf, *fid),
            VolCmd::Place { fid, parent, name } => {
                is_in_limbo_at(shelf, *fid) && can_stand(shelf, *fid, *parent, name)
            }
        }
    }

    /// The next USN can be given out.
    fn has_usn(&self) -> bool
        ensures { result ≡ has_usn self.now.state }
    {
        self.next_usn < u64::MAX && self.top_usn < self.next_usn
    }

    /// The next number of an object can be given out.
    fn has_fid(&self) -> bool
        ensures { result ≡ has_fid self.now.state }
    {
        self.next_fid < u64::MAX && self.top_fid < self.next_fid
    }

    /// Each number that a command would give out can be given out.
    pub(crate) fn has_numbers(&self, cmd: &VolCmd) -> bool
        ensures { result ≡ has_numbers cmd.now self.now.state }
    {
        self.has_usn() && (!makes_object(cmd) || self.has_fid())
    }
}
