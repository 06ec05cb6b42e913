// Calls put together of their fragments.
ghost use Rattle.std.specs.Prelude.{◌≡◌, ◌++◌, IfOk, None};
ghost use Rattle.rpc_frag.specs.Fragments.{IsPart, fragment_of, is_same};
ghost use Rattle.rpc_frag.specs.Assembling.{Feeds, Joins, begin, extended, feed_of, joined, within};

use crate::fragment::Fragment;
use crate::{FragBad, FragError, Whole};
use frs_base::Bytes;
use rpc_pdu::Pdu;
use std::alloc::AllocError;
use std::marker::Model;

/// How many bytes a stub has at most.
const LONGEST: usize = 8_388_608;

/// What has come of one call, or of one answer.
///
/// A contract sees what is begun.
#[derive(Debug, Drop)]
pub struct Assembler {
    begun: Option<Whole>,
}

impl Model for Assembler {
    ghost use Rattle.std.specs.Prelude.{Option};
    ghost use Rattle.rpc_frag.specs.declared.fragment.Whole.{Whole};

    ghost Value = { Option Whole };

    ghost view = { λ a. a.begun };
}

/// Whether a fragment is of this call.
fn is_same(whole: &Whole, f: &Fragment) -> bool
    ensures { result ≡ is_same whole.now f.now }
{
    whole.call == f.call && whole.context == f.context && whole.opnum == f.opnum
}

/// Refuses a stub of so many bytes where they are too many.
fn within(length: usize) -> Result<(), FragBad>
    ensures { result ≡ within length }
{
    if length > LONGEST {
        return Err(FragBad::FragTooLong { length });
    }
    Ok(())
}

/// What is begun with a first fragment.
fn begin(f: Fragment) -> Result<Whole, FragError>
    ensures { Joins result (begin f) }
{
    if !f.is_first() {
        return Err(FragError::Bad(FragBad::FragOrder));
    }
    within(f.stub.as_slice().len())?;
    Ok(Whole {
        call: f.call,
        context: f.context,
        opnum: f.opnum,
        stub: f.stub,
    })
}

/// Bytes behind others.
fn append(front: Bytes, behind: &Bytes) -> Result<Bytes, AllocError>
    ensures { IfOk result (λ both. both ≡ front ++ behind.now) }
{
    let mut both = front.into_vec();
    both.extend_from_slice(behind.as_slice())?;
    Ok(Bytes::of(both))
}

/// What is begun, with a further fragment.
fn extend(whole: Whole, f: &Fragment) -> Result<Whole, FragError>
    ensures { Joins result (extended whole f.now) }
{
    if f.is_first() || !is_same(&whole, f) {
        return Err(FragError::Bad(FragBad::FragOrder));
    }
    within(whole.stub.as_slice().len() + f.stub.as_slice().len())?;
    let stub = append(whole.stub, &f.stub)?;
    Ok(Whole {
        call: whole.call,
        context: whole.context,
        opnum: whole.opnum,
        stub,
    })
}

/// What has come, with this fragment.
fn join(begun: Option<Whole>, f: Fragment) -> Result<Whole, FragError>
    ensures { Joins result (joined begun f) }
{
    match begun {
        None => begin(f),
        Some(whole) => extend(whole, &f),
    }
}

impl Assembler {
    /// Nothing has come.
    pub fn new() -> Assembler
        ensures { result ≡ None }
    {
        Assembler { begun: None }
    }

    /// Takes the next fragment, and gives the call with its last one. After a refusal, and where
    /// there is no memory, nothing is begun.
    pub fn feed(&mut self, pdu: Pdu) -> Result<Option<Whole>, FragError>
        requires { IsPart pdu.body }
        ensures { Feeds result self.new (feed_of self.old (fragment_of pdu)) }
    {
        let f = Fragment::of(pdu);
        let is_last = f.is_last();
        let whole = join(self.begun.take(), f)?;
        if is_last {
            return Ok(Some(whole));
        }
        self.begun = Some(whole);
        Ok(None)
    }
}
