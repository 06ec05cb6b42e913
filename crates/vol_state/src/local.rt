// The commands of local operations.
ghost use Rattle.std.specs.Prelude.{◌≡◌, true, IfOk, IsOk, Ok, option_copied};
ghost use Rattle.vol_state.specs.declared.operation.LocalOp.TheVariants.{Mkdir, Move, Put, Remove};
ghost use Rattle.vol_state.specs.Paths.{check, resolve};
ghost use Rattle.vol_state.specs.Conditions.{is_allowed};
ghost use Rattle.vol_state.specs.Sums.{IsBrought, file_sum};

use crate::paths::{home, last_name, target};
use crate::{VolCmd, Volume};
use frs_base::{Bytes, Name};
use std::alloc::AllocError;

impl Volume {
    /// The command of a put that isn't refused.
    pub fn put(&self, path: &[Name], bytes: Vec<u8>) -> Result<VolCmd, AllocError>
        requires { IsOk (check self.now.state.objects (Put path.now bytes.items)) }
        ensures command { IfOk result (λ cmd. resolve self.now.state.objects (Put path.now bytes.items) ≡ Ok cmd) }
        ensures sum { IfOk result (λ cmd. IsBrought cmd (file_sum bytes.items)) }
        ensures allowed { IfOk result (λ cmd. is_allowed cmd self.now.state ≡ true) }
    {
        let shelf = self.shelf();
        let Ok(at) = home(shelf, path) else {
            unreachable!()
        };
        let name = last_name(path);
        let bytes = Bytes::of(bytes);
        if let Some(o) = shelf.child(at, name) {
            return Ok(VolCmd::PutOver { fid: o.fid, bytes });
        }
        let name = name.copy()?;
        Ok(VolCmd::PutNew {
            parent: at,
            name,
            bytes,
        })
    }

    /// The command of a mkdir that isn't refused.
    pub fn mkdir(&self, path: &[Name]) -> Result<VolCmd, AllocError>
        requires { IsOk (check self.now.state.objects (Mkdir path.now)) }
        ensures command { IfOk result (λ cmd. resolve self.now.state.objects (Mkdir path.now) ≡ Ok cmd) }
        ensures allowed { IfOk result (λ cmd. is_allowed cmd self.now.state ≡ true) }
    {
        let Ok(at) = home(self.shelf(), path) else {
            unreachable!()
        };
        let name = last_name(path).copy()?;
        Ok(VolCmd::Mkdir { parent: at, name })
    }

    /// The command of a move that isn't refused.
    pub fn move_to(&self, from: &[Name], to: &[Name]) -> Result<VolCmd, AllocError>
        requires { IsOk (check self.now.state.objects (Move from.now to.now)) }
        ensures command { IfOk result (λ cmd. resolve self.now.state.objects (Move from.now to.now) ≡ Ok cmd) }
        ensures allowed { IfOk result (λ cmd. is_allowed cmd self.now.state ≡ true) }
    {
        let shelf = self.shelf();
        let Ok(o) = target(shelf, from) else {
            unreachable!()
        };
        let Ok(at) = home(shelf, to) else {
            unreachable!()
        };
        let name = last_name(to).copy()?;
        Ok(VolCmd::Move {
            fid: o.fid,
            parent: at,
            name,
        })
    }

    /// The command of a remove that isn't refused.
    pub fn remove(&self, path: &[Name]) -> VolCmd
        requires { IsOk (check self.now.state.objects (Remove path.now)) }
        ensures command { resolve self.now.state.objects (Remove path.now) ≡ Ok result }
        ensures allowed { is_allowed result self.now.state ≡ true }
    {
        let Ok(o) = target(self.shelf(), path) else {
            unreachable!()
        };
        VolCmd::Remove { fid: o.fid }
    }
}
