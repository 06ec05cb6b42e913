// Updates.
use crate::fields::{
    put_flag, put_gvsn, put_name, put_uid, take_flag, take_gvsn, take_name, take_uid,
};
use frs_base::Sum;
use ndr_core::{NdrError, Reader, Wire, Writer};
use std::alloc::{AllocError, Global};
use win_order::Update;

/// The item of an update.
pub(crate) struct UpdateItem;

impl Wire for UpdateItem {
    type Value = Update;

    ghost use Rattle.std.specs.Prelude.{true};
    ghost use Rattle.ndr_frs.specs.Shared.{update_item};

    ghost reads = { update_item.reads };

    ghost appends = { update_item.appends };

    ghost fits = { λ u. true };

    #[tactic(auto, unfolding(crate::specs::Shared::update_item))]
    fn take(alloc: Global, r: &mut Reader) -> Result<Update, NdrError> {
        r.align(8)?;
        let present = take_flag(r)?;
        let name_conflict = take_flag(r)?;
        let attributes = r.take_u32()?;
        let fence = r.take_u64()?;
        let clock = r.take_u64()?;
        let created = r.take_u64()?;
        let set = r.take_guid()?;
        let hash = Sum(r.take_array()?);
        let similarity = r.take_array()?;
        let uid = take_uid(r)?;
        let gvsn = take_gvsn(r)?;
        let parent = take_uid(r)?;
        let name = take_name(alloc, r)?;
        let flags = r.take_u32()?;
        Ok(Update {
            present,
            name_conflict,
            attributes,
            fence,
            clock,
            created,
            set,
            hash,
            similarity,
            uid,
            gvsn,
            parent,
            name,
            flags,
        })
    }

    fn put(update: &Update, out: &mut Writer) -> Result<(), AllocError> {
        out.align(8)?;
        put_flag(out, update.present)?;
        put_flag(out, update.name_conflict)?;
        out.put_u32(update.attributes)?;
        out.put_u64(update.fence)?;
        out.put_u64(update.clock)?;
        out.put_u64(update.created)?;
        out.put_guid(update.set)?;
        out.put_array(&update.hash.0)?;
        out.put_array(&update.similarity)?;
        put_uid(out, update.uid)?;
        put_gvsn(out, update.gvsn)?;
        put_uid(out, update.parent)?;
        put_name(out, &update.name)?;
        out.put_u32(update.flags)
    }
}
