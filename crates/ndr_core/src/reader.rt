// Taking items off bytes, one behind the other.
ghost use Rattle.std.specs.Prelude.{◌≡◌, ◌==◌, ◌+◌, ◌<◌, ◌^◌, ◌⊎◌, length};
ghost use Rattle.std.specs.Int.{w8, w16, w32, w64};
ghost use Rattle.ndr_core.specs.Items.{bytes_of, chunk, number, number_at, padded, padding, skip};
ghost use Rattle.ndr_core.specs.Calls.{Reads, Takes, TakesOrMemory};
ghost use Rattle.ndr_core.specs.Arrays.{conformant, span, varying};
ghost use Rattle.ndr_core.specs.Identifiers.{guid_item, handle_fields, handle_item, uuid_item};
ghost use Rattle.ndr_core.specs.Pointers.{unique};

use crate::{ContextHandle, NdrBad, NdrError};
use frs_base::Guid;
use std::alloc::Global;
use std::marker::Model;
use uuid::Uuid;

/// A place in the bytes of a stub or a PDU.
///
/// Each call takes the item at this place, behind its padding, and moves behind it. A call that
/// refuses leaves the reader where it was.
#[derive(Drop)]
pub struct Reader<'a> {
    /// How far the place is from where alignment is counted.
    at: usize,
    /// The bytes from there on.
    rest: &'a [u8],
}

impl<'a> Model for Reader<'a> {
    ghost use Rattle.std.specs.Prelude.{◌+◌, ◌<◌, ◌^◌, length};
    ghost use Rattle.ndr_core.specs.Cursor.{Cursor};

    ghost Value = { Cursor };

    ghost view = { λ r. record { at = r.at; rest = r.rest.now } };

    ghost invariant = { λ r. r.at + length r.rest.now < 2 ^ 63 };
}

impl<'a> Reader<'a> {
    /// Begins at the start of the bytes.
    pub fn new(bytes: &'a [u8]) -> Reader<'a>
        ensures { result ≡ record { at = 0; rest = bytes.now } }
    {
        Reader { at: 0, rest: bytes }
    }

    /// Begins at a place, of which the bytes from there on are given.
    pub fn behind(at: usize, rest: &'a [u8]) -> Reader<'a>
        requires { at + length rest.now < 2 ^ 63 }
        ensures { result ≡ record { at = at; rest = rest.now } }
    {
        Reader { at, rest }
    }

    /// The place.
    pub fn at(&self) -> usize
        ensures { result ≡ self.now.at }
    {
        self.at
    }

    /// A second reader at this place.
    #[inline(always)]
    pub(crate) fn here(&self) -> Reader<'a>
        ensures { result ≡ self.now }
    {
        Reader {
            at: self.at,
            rest: self.rest,
        }
    }

    /// Whether no bytes are left.
    pub fn is_done(&self) -> bool
        ensures { result ≡ (length self.now.rest == 0) }
    {
        self.rest.is_empty()
    }

    /// Where an item that is aligned so begins.
    #[inline(always)]
    pub fn place_of(&self, to: usize) -> usize
        requires some { 0 < to }
        requires small { to < 256 }
        ensures { result ≡ self.now.at + padding to self.now.at }
    {
        self.at + (to - self.at % to) % to
    }

    /// An array of bytes behind padding to a multiple of `size`.
    #[inline(always)]
    fn take_chunk<const N: usize>(&mut self, size: usize) -> Result<[u8; N], NdrBad>
        requires some { 0 < size }
        requires small { size < 256 }
        ensures { Takes (λ x. x) (chunk size N) result self.old self.new }
    {
        let pad = (size - self.at % size) % size;
        let Some(behind) = self.rest.get(pad..) else {
            return Err(NdrBad::Short { at: self.at + pad });
        };
        match behind.split_first_chunk() {
            None => Err(NdrBad::Short { at: self.at + pad }),
            Some((bytes, rest)) => {
                self.at += pad + N;
                self.rest = rest;
                Ok(*bytes)
            }
        }
    }

    /// A byte.
    #[inline(always)]
    pub fn take_u8(&mut self) -> Result<u8, NdrBad>
        ensures { Takes (λ x. x) (number w8) result self.old self.new }
    {
        Ok(u8::from_le_bytes(self.take_chunk(1)?))
    }

    /// A byte that is aligned like a longer item.
    #[inline(always)]
    pub fn take_u8_behind(&mut self, to: u32) -> Result<u8, NdrBad>
        requires { (to ≡ 4) ⊎ (to ≡ 8) }
        ensures { Takes (λ x. x) (number_at to w8) result self.old self.new }
    {
        Ok(u8::from_le_bytes(self.take_chunk(to as usize)?))
    }

    /// A number of two bytes.
    #[inline(always)]
    pub fn take_u16(&mut self) -> Result<u16, NdrBad>
        ensures { Takes (λ x. x) (number w16) result self.old self.new }
    {
        Ok(u16::from_le_bytes(self.take_chunk(2)?))
    }

    /// A number of four bytes.
    #[inline(always)]
    pub fn take_u32(&mut self) -> Result<u32, NdrBad>
        ensures { Takes (λ x. x) (number w32) result self.old self.new }
    {
        Ok(u32::from_le_bytes(self.take_chunk(4)?))
    }

    /// A number of eight bytes.
    #[inline(always)]
    pub fn take_u64(&mut self) -> Result<u64, NdrBad>
        ensures { Takes (λ x. x) (number w64) result self.old self.new }
    {
        Ok(u64::from_le_bytes(self.take_chunk(8)?))
    }

    /// The bytes of a UUID, in the order of its text.
    #[inline(always)]
    fn take_uuid(&mut self) -> Result<Uuid, NdrBad>
        ensures { Takes (λ x. x) uuid_item result self.old self.new }
    {
        Ok(Uuid::from_bytes_le(self.take_chunk(4)?))
    }

    /// A UUID: its first three fields are numbers, so their bytes stand in reverse.
    #[inline(always)]
    pub fn take_guid(&mut self) -> Result<Guid, NdrBad>
        ensures { Takes (λ x. x) guid_item result self.old self.new }
    {
        Ok(Guid::of(self.take_uuid()?))
    }

    /// A context handle, which is refused as a whole.
    pub fn take_handle(&mut self) -> Result<ContextHandle, NdrBad>
        ensures { Takes (λ x. x) handle_item result self.old self.new }
    {
        let before = self.here();
        let at = self.place_of(4);
        match self.handle_fields() {
            Ok(handle) => Ok(handle),
            Err(_) => {
                *self = before;
                Err(NdrBad::Short { at })
            }
        }
    }

    /// The fields of a context handle.
    fn handle_fields(&mut self) -> Result<ContextHandle, NdrBad>
        ensures { Reads (λ x. x) handle_fields result self.old self.new }
    {
        let attributes = self.take_u32()?;
        let id = self.take_guid()?;
        Ok(ContextHandle { attributes, id })
    }

    /// So many bytes without padding.
    #[inline]
    pub fn take_array<const N: usize>(&mut self) -> Result<[u8; N], NdrBad>
        ensures { Takes (λ x. x) (chunk 1 N) result self.old self.new }
    {
        self.take_chunk(1)
    }

    /// So many bytes, without padding, that aren't looked at.
    #[inline(always)]
    pub fn take_reserved(&mut self, count: usize) -> Result<(), NdrBad>
        ensures { Takes (λ x. tt) (skip count) result self.old self.new }
    {
        let Some(rest) = self.rest.get(count..) else {
            return Err(NdrBad::Short { at: self.at });
        };
        self.at += count;
        self.rest = rest;
        Ok(())
    }

    /// So many bytes without padding, copied once it is known that they are there.
    pub fn take_bytes(&mut self, alloc: Global, count: u32) -> Result<Vec<u8>, NdrError>
        ensures { TakesOrMemory (λ x. x.items) (bytes_of count) result self.old self.new }
    {
        let count = count as usize;
        let Some(rest) = self.rest.get(count..) else {
            return Err(NdrError::Bad(NdrBad::Short { at: self.at }));
        };
        let bytes = Vec::from_slice(alloc, &self.rest[..count])?;
        self.at += count;
        self.rest = rest;
        Ok(bytes)
    }

    /// The padding alone. It is refused at the reader's own place.
    #[inline(always)]
    pub fn align(&mut self, to: u32) -> Result<(), NdrBad>
        requires { (to ≡ 4) ⊎ (to ≡ 8) }
        ensures { Takes (λ x. tt) (padded to) result self.old self.new }
    {
        let to = to as usize;
        let pad = (to - self.at % to) % to;
        let Some(rest) = self.rest.get(pad..) else {
            return Err(NdrBad::Short { at: self.at });
        };
        self.at += pad;
        self.rest = rest;
        Ok(())
    }

    /// The count of a conformant array, at most `limit`.
    #[inline]
    pub fn take_conformant(&mut self, limit: u32) -> Result<u32, NdrBad>
        ensures { Takes (λ x. x) (conformant limit) result self.old self.new }
    {
        let before = self.here();
        let at = self.place_of(4);
        let count = self.take_u32()?;
        if count > limit {
            *self = before;
            return Err(NdrBad::Count { at });
        }
        Ok(count)
    }

    /// The offset and the count of a varying array.
    #[inline]
    pub(crate) fn span(&mut self) -> Result<(u32, u32), NdrBad>
        ensures { Reads (λ x. x) span result self.old self.new }
    {
        let offset = self.take_u32()?;
        let count = self.take_u32()?;
        Ok((offset, count))
    }

    /// The count of a varying array, at most `limit`, behind its offset 0. Both are refused as a
    /// whole.
    #[inline]
    pub fn take_varying(&mut self, limit: u32) -> Result<u32, NdrBad>
        ensures { Takes (λ x. x) (varying limit) result self.old self.new }
    {
        let before = self.here();
        let at = self.place_of(4);
        let bad = match self.span() {
            Ok((0, count)) if count <= limit => return Ok(count),
            Ok(_) => NdrBad::Count { at },
            Err(_) => NdrBad::Short { at },
        };
        *self = before;
        Err(bad)
    }

    /// Whether a unique pointer isn't null.
    #[inline]
    pub fn take_unique(&mut self) -> Result<bool, NdrBad>
        ensures { Takes (λ x. x) unique result self.old self.new }
    {
        Ok(self.take_u32()? != 0)
    }
}
