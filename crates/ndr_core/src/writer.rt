// Writing items, one behind the other.
ghost use Rattle.std.specs.Prelude.{◌≡◌, ◌<◌, ◌⊎◌, OnOk, [], length};
ghost use Rattle.std.specs.Int.{w8, w16, w32, w64};
ghost use Rattle.ndr_core.specs.Items.{bytes_of, chunk, number, number_at, padded, skip};
ghost use Rattle.ndr_core.specs.Calls.{Writes};
ghost use Rattle.ndr_core.specs.Arrays.{conformant, varying};
ghost use Rattle.ndr_core.specs.Identifiers.{guid_item, handle_item, uuid_item};
ghost use Rattle.ndr_core.specs.Pointers.{unique};

use crate::ContextHandle;
use frs_base::Guid;
use std::alloc::{AllocError, Global};
use std::marker::Model;
use uuid::Uuid;

/// What a pointer that isn't null is written as.
const REFERENT: u32 = 0x0002_0000;

/// The bytes that were written so far, which a contract sees as a list.
///
/// Each call writes an item behind them, with zeros as its padding. Where a call's doc says nothing
/// else, a call for which there is no memory leaves them as they were.
#[derive(Drop)]
pub struct Writer {
    bytes: Vec<u8>,
}

impl Model for Writer {
    ghost use Rattle.std.specs.Prelude.{List, ℕ};

    ghost Value = { List ℕ };

    ghost view = { λ w. w.bytes.items };
}

impl Writer {
    /// No bytes; takes no memory.
    pub fn new(alloc: Global) -> Writer
        ensures { result ≡ [] }
    {
        Writer {
            bytes: Vec::new(alloc),
        }
    }

    /// These bytes, behind which is written: a vector without any, but with room, spares what it takes
    /// to find the room bit by bit.
    pub fn over(bytes: Vec<u8>) -> Writer
        ensures { result ≡ bytes.items }
    {
        Writer { bytes }
    }

    /// The bytes.
    pub fn into_vec(self) -> Vec<u8>
        ensures { result.items ≡ self }
    {
        self.bytes
    }

    /// So many zeros.
    #[inline(always)]
    fn put_zeros(&mut self, count: usize) -> Result<(), AllocError>
        requires { count < 256 }
        ensures { Writes (skip count) tt result self.old self.new }
    {
        self.bytes.resize(self.bytes.len() + count, 0)
    }

    /// Bytes behind padding to a multiple of `size`.
    #[inline(always)]
    fn put_chunk(&mut self, size: usize, bytes: &[u8]) -> Result<(), AllocError>
        requires some { 0 < size }
        requires small { size < 256 }
        ensures { Writes (chunk size (length bytes.now)) bytes.now result self.old self.new }
    {
        let before = self.bytes.len();
        let pad = (size - before % size) % size;
        self.put_zeros(pad)?;
        let written = self.bytes.extend_from_slice(bytes);
        if written.is_err() {
            self.bytes.truncate(before);
        }
        written
    }

    /// A byte.
    #[inline(always)]
    pub fn put_u8(&mut self, value: u8) -> Result<(), AllocError>
        ensures { Writes (number w8) value result self.old self.new }
    {
        self.put_chunk(1, &value.to_le_bytes())
    }

    /// A byte that is aligned like a longer item.
    #[inline(always)]
    pub fn put_u8_behind(&mut self, to: u32, value: u8) -> Result<(), AllocError>
        requires { (to ≡ 4) ⊎ (to ≡ 8) }
        ensures { Writes (number_at to w8) value result self.old self.new }
    {
        self.put_chunk(to as usize, &value.to_le_bytes())
    }

    /// A number of two bytes.
    #[inline(always)]
    pub fn put_u16(&mut self, value: u16) -> Result<(), AllocError>
        ensures { Writes (number w16) value result self.old self.new }
    {
        self.put_chunk(2, &value.to_le_bytes())
    }

    /// A number of four bytes.
    #[inline(always)]
    pub fn put_u32(&mut self, value: u32) -> Result<(), AllocError>
        ensures { Writes (number w32) value result self.old self.new }
    {
        self.put_chunk(4, &value.to_le_bytes())
    }

    /// A number of eight bytes.
    #[inline(always)]
    pub fn put_u64(&mut self, value: u64) -> Result<(), AllocError>
        ensures { Writes (number w64) value result self.old self.new }
    {
        self.put_chunk(8, &value.to_le_bytes())
    }

    /// The bytes of a UUID, in the wire's order.
    #[inline(always)]
    fn put_uuid(&mut self, id: Uuid) -> Result<(), AllocError>
        ensures { Writes uuid_item id result self.old self.new }
    {
        self.put_chunk(4, &id.to_bytes_le())
    }

    /// A UUID.
    #[inline(always)]
    pub fn put_guid(&mut self, id: Guid) -> Result<(), AllocError>
        ensures { Writes guid_item id result self.old self.new }
    {
        self.put_uuid(Uuid::from_u128(id.number()))
    }

    /// A context handle. Where memory runs out, a part of it may have been written.
    pub fn put_handle(&mut self, handle: ContextHandle) -> Result<(), AllocError>
        ensures { OnOk result (self.new ≡ handle_item.appends self.old handle) }
    {
        self.put_u32(handle.attributes)?;
        self.put_guid(handle.id)
    }

    /// Bytes, which need no padding.
    pub fn put_bytes(&mut self, bytes: &[u8]) -> Result<(), AllocError>
        ensures { Writes (bytes_of (length bytes.now)) bytes.now result self.old self.new }
    {
        self.bytes.extend_from_slice(bytes)
    }

    /// An array of bytes, which needs no padding.
    #[inline(always)]
    pub fn put_array(&mut self, bytes: &[u8]) -> Result<(), AllocError>
        ensures { Writes (chunk 1 (length bytes.now)) bytes.now result self.old self.new }
    {
        self.put_chunk(1, bytes)
    }

    /// So many reserved bytes, which are zeros.
    #[inline(always)]
    pub fn put_reserved(&mut self, count: usize) -> Result<(), AllocError>
        requires { count < 256 }
        ensures { Writes (skip count) tt result self.old self.new }
    {
        self.put_zeros(count)
    }

    /// The padding alone.
    #[inline(always)]
    pub fn align(&mut self, to: u32) -> Result<(), AllocError>
        requires { (to ≡ 4) ⊎ (to ≡ 8) }
        ensures { Writes (padded to) tt result self.old self.new }
    {
        let to = to as usize;
        let pad = (to - self.bytes.len() % to) % to;
        self.put_zeros(pad)
    }

    /// The count of a conformant array.
    pub fn put_conformant(&mut self, count: u32) -> Result<(), AllocError>
        ensures { Writes (conformant count) count result self.old self.new }
    {
        self.put_u32(count)
    }

    /// The count of a varying array, behind its offset 0. Where memory runs out, a part may have
    /// been written.
    pub fn put_varying(&mut self, count: u32) -> Result<(), AllocError>
        ensures { OnOk result (self.new ≡ (varying count).appends self.old count) }
    {
        self.put_u32(0)?;
        self.put_u32(count)
    }

    /// A pointer, null or not.
    pub fn put_unique(&mut self, present: bool) -> Result<(), AllocError>
        ensures { Writes unique present result self.old self.new }
    {
        self.put_u32(if present { REFERENT } else { 0 })
    }
}
