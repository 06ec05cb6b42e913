// Values that stand in arrays.
ghost use Rattle.std.specs.Prelude.{◌≡◌, Bool, IfOk, List, OnOk, Result, length, true, ℕ};
ghost use Rattle.ndr_core.specs.Cursor.{Cursor};
ghost use Rattle.ndr_core.specs.Arrays.{all_fit, appends_many, reads_many};
ghost use Rattle.ndr_core.specs.Calls.{ReadsBy};
ghost use Rattle.ndr_core.specs.declared.refusal.NdrBad.{NdrBad};

use crate::{NdrError, Reader, Writer};
use std::alloc::{AllocError, Global};

/// A kind of item, as the elements of an array are. Mostly the type of the value itself.
pub trait Wire {
    /// What the item is the value of.
    type Value: Drop;

    /// How the item is read.
    ghost reads: { Cursor → Result (Self.Value × Cursor) NdrBad };

    /// How it is written behind bytes.
    ghost appends: { List ℕ → Self.Value → List ℕ };

    /// What it has room for.
    ghost fits: { Self.Value → Bool };

    /// Takes the item off the bytes.
    fn take(alloc: Global, r: &mut Reader) -> Result<Self::Value, NdrError>
        ensures { ReadsBy (λ x. x) reads result r.old r.new };

    /// Writes it.
    fn put(value: &Self::Value, out: &mut Writer) -> Result<(), AllocError>
        requires { fits value.now ≡ true }
        ensures { OnOk result (out.new ≡ appends out.old value.now) };
}

/// So many values, one behind the other. Memory is taken as they come.
pub fn take_many<T: Wire>(
    alloc: Global,
    r: &mut Reader,
    count: u32,
) -> Result<Vec<T::Value>, NdrError>
    ensures read { ReadsBy (λ x. x.items) (reads_many T.reads count) result r.old r.new }
    ensures counted { IfOk result (λ x. length x.items ≡ count) }
{
    let mut values = Vec::new(alloc);
    for _ in 0..count {
        let value = T::take(alloc, r)?;
        values.push(value)?;
    }
    Ok(values)
}

/// Each value of a list, one behind the other.
pub fn put_many<T: Wire>(out: &mut Writer, values: &[T::Value]) -> Result<(), AllocError>
    requires { all_fit T.fits values.now ≡ true }
    ensures { OnOk result (out.new ≡ appends_many T.appends out.old values.now) }
{
    for value in values {
        T::put(value, out)?;
    }
    Ok(())
}

impl Wire for u16 {
    type Value = u16;

    ghost use Rattle.std.specs.Prelude.{true};
    ghost use Rattle.std.specs.Int.{w16};
    ghost use Rattle.ndr_core.specs.Items.{number};

    ghost reads = { (number w16).reads };

    ghost appends = { (number w16).appends };

    ghost fits = { λ u. true };

    fn take(_alloc: Global, r: &mut Reader) -> Result<u16, NdrError> {
        Ok(r.take_u16()?)
    }

    fn put(value: &u16, out: &mut Writer) -> Result<(), AllocError> {
        out.put_u16(*value)
    }
}
