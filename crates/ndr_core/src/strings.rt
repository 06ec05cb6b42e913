// Strings of UTF-16 units.
ghost use Rattle.std.specs.Prelude.{◌≡◌, ◌+◌, ◌<◌, ◌^◌, OnOk, length};
ghost use Rattle.ndr_core.specs.Calls.{Answers, ReadsOrMemory, TakesOrMemory};
ghost use Rattle.ndr_core.specs.Strings.{HasNoZero, front, is_ended, raw_string, string, text_of};

use crate::{NdrBad, NdrError, Reader, Writer, put_many, take_many};
use std::alloc::{AllocError, Global};

/// Whether the first 0 is the last unit.
fn is_ended(units: &[u16]) -> bool
    ensures { result ≡ is_ended units.now }
{
    for (at, unit) in units.iter().enumerate() {
        if *unit == 0 {
            return units[at + 1..].is_empty();
        }
    }
    false
}

/// All units but the last.
fn without_last(mut units: Vec<u16>) -> Vec<u16>
    ensures { result.items ≡ front units.items }
{
    units.pop();
    units
}

/// The offset, the count and the units.
fn raw_of(alloc: Global, r: &mut Reader) -> Result<(u32, u32, Vec<u16>), NdrError>
    ensures { ReadsOrMemory (λ x. ((x.0, x.1), x.2.items)) raw_string result r.old r.new }
{
    let (offset, count) = r.span()?;
    let units = take_many::<u16>(alloc, r, count)?;
    Ok((offset, count, units))
}

/// The units of a string at a place, once they were read.
fn text_of(at: usize, limit: u32, raw: (u32, u32, Vec<u16>)) -> Result<Vec<u16>, NdrBad>
    ensures { Answers (λ x. x.items) result (text_of at limit ((raw.0, raw.1), raw.2.items)) }
{
    let (offset, count, units) = raw;
    if offset != 0 || count > limit {
        return Err(NdrBad::Count { at });
    }
    if !is_ended(&units) {
        return Err(NdrBad::Terminator { at });
    }
    Ok(without_last(units))
}

impl Reader<'_> {
    /// The units of a string that has at most `limit` of them with its terminator, which is taken
    /// off.
    pub fn take_string(&mut self, alloc: Global, limit: u32) -> Result<Vec<u16>, NdrError>
        ensures { TakesOrMemory (λ x. x.items) (string limit) result self.old self.new }
    {
        let before = self.here();
        let at = self.place_of(4);
        let bad = match raw_of(alloc, self) {
            Ok(raw) => match text_of(at, limit, raw) {
                Ok(units) => return Ok(units),
                Err(bad) => NdrError::Bad(bad),
            },
            Err(NdrError::Bad(_)) => NdrError::Bad(NdrBad::Short { at }),
            Err(NdrError::Memory) => NdrError::Memory,
        };
        *self = before;
        Err(bad)
    }
}

impl Writer {
    /// A string with its terminator. Where memory runs out, a part of it may have been written.
    pub fn put_string(&mut self, units: &[u16]) -> Result<(), AllocError>
        requires text { HasNoZero units.now }
        requires short { length units.now + 1 < 2 ^ 32 }
        ensures { OnOk result
            (self.new ≡ (string (length units.now + 1)).appends self.old units.now) }
    {
        self.put_varying(units.len() as u32 + 1)?;
        put_many::<u16>(self, units)?;
        self.put_u16(0)
    }
}
