// Fields that several forms have.
ghost use Rattle.std.specs.Prelude.{◌≡◌, ◌<◌, OnOk};
ghost use Rattle.ndr_core.specs.Calls.{Reads, ReadsOrMemory};
ghost use Rattle.ndr_frs.specs.Shared.{below_item, flag_item, gvsn_item, name_item, number_of, uid_item};

use frs_base::{Gvsn, Name, NameError, Uid};
use ndr_core::{NdrBad, NdrError, Reader, Writer};
use std::alloc::{AllocError, Global};

/// How many units a name has at most with its terminator.
const LONGEST_NAME: u32 = 256;

/// A number below a limit.
pub(crate) fn take_below(r: &mut Reader, limit: u32) -> Result<u32, NdrBad>
    ensures { Reads (λ x. x) (below_item limit) result r.old r.new }
{
    let at = r.place_of(4);
    let number = r.take_u32()?;
    if number >= limit {
        return Err(NdrBad::Value { at });
    }
    Ok(number)
}

/// A number that is 0 or 1.
pub(crate) fn take_flag(r: &mut Reader) -> Result<bool, NdrBad>
    ensures { Reads (λ x. x) flag_item result r.old r.new }
{
    Ok(take_below(r, 2)? == 1)
}

/// Writes 0 or 1.
pub(crate) fn put_flag(out: &mut Writer, flag: bool) -> Result<(), AllocError>
    ensures { OnOk result (out.new ≡ flag_item.appends out.old flag) }
{
    out.put_u32(if flag { 1 } else { 0 })
}

/// A UID.
pub(crate) fn take_uid(r: &mut Reader) -> Result<Uid, NdrBad>
    ensures { Reads (λ x. x) uid_item result r.old r.new }
{
    let db = r.take_guid()?;
    let version = r.take_u64()?;
    Ok(Uid { db, version })
}

/// Writes a UID.
pub(crate) fn put_uid(out: &mut Writer, uid: Uid) -> Result<(), AllocError>
    ensures { OnOk result (out.new ≡ uid_item.appends out.old uid) }
{
    out.put_guid(uid.db)?;
    out.put_u64(uid.version)
}

/// A GVSN.
pub(crate) fn take_gvsn(r: &mut Reader) -> Result<Gvsn, NdrBad>
    ensures { Reads (λ x. x) gvsn_item result r.old r.new }
{
    let db = r.take_guid()?;
    let version = r.take_u64()?;
    Ok(Gvsn { db, version })
}

/// Writes a GVSN.
pub(crate) fn put_gvsn(out: &mut Writer, gvsn: Gvsn) -> Result<(), AllocError>
    ensures { OnOk result (out.new ≡ gvsn_item.appends out.old gvsn) }
{
    out.put_guid(gvsn.db)?;
    out.put_u64(gvsn.version)
}

/// A name. Units that are none are refused where their string begins.
pub(crate) fn take_name(alloc: Global, r: &mut Reader) -> Result<Name, NdrError>
    ensures { ReadsOrMemory (λ x. x) name_item result r.old r.new }
{
    let at = r.place_of(4);
    let units = r.take_string(alloc, LONGEST_NAME)?;
    match Name::from_vec(units) {
        Ok(name) => Ok(name),
        Err(NameError::Memory) => Err(NdrError::Memory),
        Err(NameError::NameBad { .. }) => Err(NdrError::Bad(NdrBad::Value { at })),
    }
}

/// Writes a name.
pub(crate) fn put_name(out: &mut Writer, name: &Name) -> Result<(), AllocError>
    ensures { OnOk result (out.new ≡ name_item.appends out.old name.now) }
{
    out.put_string(name.units())
}
