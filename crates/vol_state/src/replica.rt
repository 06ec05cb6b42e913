// The commands of replica operations.
ghost use Rattle.std.specs.Prelude.{◌≡◌, true, IsSome, Some, option_copied};
ghost use Rattle.vol_state.specs.Replica.{Erase, Make, Park, Place, Rewrite, parent_fid, replica};
ghost use Rattle.vol_state.specs.Conditions.{is_allowed};

use crate::conditions::root_uid;
use crate::{VolCmd, Volume};
use frs_base::{Bytes, Kind, Name, Uid};

impl Volume {
    /// The number of the directory with this UID.
    fn parent_fid(&self, parent: Uid) -> Option<u64>
        ensures { result ≡ parent_fid self.now.state parent }
    {
        if parent == root_uid() {
            return Some(0);
        }
        match self.object_of(parent) {
            None => None,
            Some(o) => Some(o.fid),
        }
    }

    /// The command that moves an object, which has a place, to limbo.
    pub fn park(&self, uid: Uid) -> VolCmd
        requires { IsSome (replica self.now.state (Park uid)) }
        ensures command { replica self.now.state (Park uid) ≡ Some result }
        ensures allowed { is_allowed result self.now.state ≡ true }
    {
        let Some(o) = self.object_of(uid) else {
            unreachable!()
        };
        VolCmd::Park { fid: o.fid }
    }

    /// The command that moves an object from limbo to a place: its parent is the root or a
    /// directory not beneath it, and no matching name is there.
    pub fn place(&self, uid: Uid, parent: Uid, name: Name) -> VolCmd
        requires { IsSome (replica self.now.state (Place uid parent name)) }
        ensures command { replica self.now.state (Place uid parent name) ≡ Some result }
        ensures allowed { is_allowed result self.now.state ≡ true }
    {
        let Some(o) = self.object_of(uid) else {
            unreachable!()
        };
        let Some(at) = self.parent_fid(parent) else {
            unreachable!()
        };
        VolCmd::Place {
            fid: o.fid,
            parent: at,
            name,
        }
    }

    /// The command that makes an object in limbo: no object has its UID, nor has the root, and a
    /// directory has no contents.
    pub fn make(&self, uid: Uid, kind: Kind, bytes: Vec<u8>) -> VolCmd
        requires { IsSome (replica self.now.state (Make uid kind bytes.items)) }
        ensures command { replica self.now.state (Make uid kind bytes.items) ≡ Some result }
        ensures allowed { is_allowed result self.now.state ≡ true }
    {
        VolCmd::Make {
            uid,
            kind,
            bytes: Bytes::of(bytes),
        }
    }

    /// The command that gives a file new contents.
    pub fn rewrite(&self, uid: Uid, bytes: Vec<u8>) -> VolCmd
        requires { IsSome (replica self.now.state (Rewrite uid bytes.items)) }
        ensures command { replica self.now.state (Rewrite uid bytes.items) ≡ Some result }
        ensures allowed { is_allowed result self.now.state ≡ true }
    {
        let Some(o) = self.object_of(uid) else {
            unreachable!()
        };
        VolCmd::Rewrite {
            fid: o.fid,
            bytes: Bytes::of(bytes),
        }
    }

    /// The command that removes an object in limbo with nothing placed beneath it.
    pub fn erase(&self, uid: Uid) -> VolCmd
        requires { IsSome (replica self.now.state (Erase uid)) }
        ensures command { replica self.now.state (Erase uid) ≡ Some result }
        ensures allowed { is_allowed result self.now.state ≡ true }
    {
        let Some(o) = self.object_of(uid) else {
            unreachable!()
        };
        VolCmd::Erase { fid: o.fid }
    }
}
