// Lines that change a member's files.
ghost use Rattle.std.specs.Prelude.{◌≡◌, ◌<◌, ◌≤◌, ◌+◌, [], true, IfOk, OnErr, OnOk, string_bytes};
ghost use Rattle.script_engine.specs.Scene.{Scene};
ghost use Rattle.script_engine.specs.Text.{filled};
ghost use Rattle.vol_state.specs.declared.operation.LocalOp.TheVariants.{Mkdir, Move, Put, Remove};

use super::Engine;
use crate::lines::{local_text, unknown_text, usn_text};
use frs_base::{Bytes, List, Name};
use std::alloc::{AllocError, Global};
use vol_state::{LocalOp, Refused};

/// The most bytes that a put takes.
const LARGEST: u64 = 0x10_0000;

/// The bytes of `fill` repeat after so many.
const PATTERN: u64 = 251;

/// The same path in memory of its own.
fn copy_path(alloc: Global, path: &List<Name>) -> Result<List<Name>, AllocError>
    ensures { IfOk result (λ copy. copy ≡ path.now) }
{
    let mut copy = Vec::new(alloc);
    for name in path.as_slice() {
        copy.push(name.copy()?)?;
    }
    Ok(List::of(copy))
}

/// The same bytes in memory of their own.
pub(super) fn copy_bytes(alloc: Global, bytes: &Bytes) -> Result<Bytes, AllocError>
    ensures { IfOk result (λ copy. copy ≡ bytes.now) }
{
    Ok(Bytes::of(Vec::from_slice(alloc, bytes.as_slice())?))
}

/// One round of the pattern.
fn pattern(alloc: Global) -> Result<Vec<u8>, AllocError>
    ensures { IfOk result (λ bytes. bytes.items ≡ filled 251) }
{
    let mut bytes = Vec::with_capacity(alloc, PATTERN as usize)?;
    for i in 0..PATTERN {
        bytes.push(i as u8)?;
    }
    Ok(bytes)
}

/// Contents of a pattern: byte i is i mod 251.
fn filled_bytes(alloc: Global, length: u64) -> Result<Bytes, AllocError>
    ensures { IfOk result (λ bytes. bytes ≡ filled length) }
{
    let pattern = pattern(alloc)?;
    let mut bytes = Vec::with_capacity(alloc, length as usize)?;
    for _round in 0..length / PATTERN {
        bytes.extend_from_slice(pattern.as_slice())?;
    }
    let rest = (length % PATTERN) as usize;
    bytes.extend_from_slice(&pattern[..rest])?;
    Ok(Bytes::of(bytes))
}

/// A put of these contents.
pub(super) fn put_of(alloc: Global, path: &List<Name>, bytes: &Bytes) -> Result<LocalOp, AllocError>
    ensures { IfOk result (λ operation. operation ≡ Put path.now bytes.now) }
{
    Ok(LocalOp::Put {
        path: copy_path(alloc, path)?,
        bytes: copy_bytes(alloc, bytes)?,
    })
}

/// A put of contents of the pattern.
fn fill_of(alloc: Global, path: &List<Name>, length: u64) -> Result<LocalOp, AllocError>
    ensures { IfOk result (λ operation. operation ≡ Put path.now (filled length)) }
{
    Ok(LocalOp::Put {
        path: copy_path(alloc, path)?,
        bytes: filled_bytes(alloc, length)?,
    })
}

/// A put of no contents.
pub(super) fn empty_put_of(alloc: Global, path: &List<Name>) -> Result<LocalOp, AllocError>
    ensures { IfOk result (λ operation. operation ≡ Put path.now []) }
{
    Ok(LocalOp::Put {
        path: copy_path(alloc, path)?,
        bytes: Bytes::of(Vec::new(alloc)),
    })
}

/// A mkdir.
pub(super) fn mkdir_of(alloc: Global, path: &List<Name>) -> Result<LocalOp, AllocError>
    ensures { IfOk result (λ operation. operation ≡ Mkdir path.now) }
{
    Ok(LocalOp::Mkdir {
        path: copy_path(alloc, path)?,
    })
}

/// A move.
pub(super) fn move_of(
    alloc: Global,
    from: &List<Name>,
    to: &List<Name>,
) -> Result<LocalOp, AllocError>
    ensures { IfOk result (λ operation. operation ≡ Move from.now to.now) }
{
    Ok(LocalOp::Move {
        from: copy_path(alloc, from)?,
        to: copy_path(alloc, to)?,
    })
}

/// A remove.
pub(super) fn remove_of(alloc: Global, path: &List<Name>) -> Result<LocalOp, AllocError>
    ensures { IfOk result (λ operation. operation ≡ Remove path.now) }
{
    Ok(LocalOp::Remove {
        path: copy_path(alloc, path)?,
    })
}

impl Engine {
    ghost use Rattle.script_lang.specs.Grammar.{is_member_name};
    ghost use Rattle.script_engine.specs.Engines.{AtNamed, HasScene, Stands, local_by_all};
    ghost use Rattle.script_engine.specs.Text.{Operates};
    ghost use Rattle.script_engine.specs.Begun.{BeginsAt, OperatesOnce};

    /// A local operation at the member with this name.
    pub(super) fn local(
        &mut self,
        alloc: Global,
        name: &[u8],
        operation: LocalOp,
    ) -> Result<String, AllocError>
        requires name { is_member_name name.now ≡ true }
        requires scene { HasScene self.old }
        ensures ok { (s : Scene) → Stands self.old s → IfOk result (λ text. (new : Scene) × AtNamed s name.now (λ d said after. Operates s d operation said after) (string_bytes text) new × Stands self.new new) }
        ensures err { (s : Scene) → Stands self.old s → OnErr result ((new : Scene) × BeginsAt s name.now (λ d w. OperatesOnce s.world d operation w) new × Stands self.new new) }
        ensures made { OnOk result (local_by_all self.new ≤ local_by_all self.old + 1) }
    {
        let Some(at) = self.place_of(name) else {
            return unknown_text(alloc, name);
        };
        match self.operate(alloc, at, operation)? {
            Ok(usn) => usn_text(alloc, usn),
            Err(why) => local_text(alloc, why),
        }
    }

    /// A put of contents that are too many, which aren't made.
    fn fill_too_large(
        &self,
        alloc: Global,
        name: &[u8],
        path: &List<Name>,
        length: u64,
    ) -> Result<String, AllocError>
        requires name { is_member_name name.now ≡ true }
        requires large { 1048576 < length }
        ensures { (s : Scene) → Stands self.now s → IfOk result (λ text. AtNamed s name.now (λ d said after. Operates s d (Put path.now (filled length)) said after) (string_bytes text) s) }
    {
        let _ = path;
        match self.place_of(name) {
            None => unknown_text(alloc, name),
            Some(_) => local_text(alloc, Refused::TooLarge { length }),
        }
    }

    /// A put of contents of the pattern at the member with this name.
    pub(super) fn fill(
        &mut self,
        alloc: Global,
        name: &[u8],
        path: &List<Name>,
        length: u64,
    ) -> Result<String, AllocError>
        requires name { is_member_name name.now ≡ true }
        requires scene { HasScene self.old }
        ensures ok { (s : Scene) → Stands self.old s → IfOk result (λ text. (new : Scene) × AtNamed s name.now (λ d said after. Operates s d (Put path.now (filled length)) said after) (string_bytes text) new × Stands self.new new) }
        ensures err { (s : Scene) → Stands self.old s → OnErr result ((new : Scene) × BeginsAt s name.now (λ d w. OperatesOnce s.world d (Put path.now (filled length)) w) new × Stands self.new new) }
        ensures made { OnOk result (local_by_all self.new ≤ local_by_all self.old + 1) }
    {
        if length > LARGEST {
            return self.fill_too_large(alloc, name, path, length);
        }
        let operation = fill_of(alloc, path, length)?;
        self.local(alloc, name, operation)
    }
}
