//! What is written of a unit's backup.
ghost use Rattle.std.specs.Prelude.{◌≡◌, ◌≤◌, IsTrue, IfOk, is_some};
ghost use Rattle.newt_host.specs.Meanings.{device_on};
ghost use Rattle.newt_host.specs.Moments.{IsDurable, image};
ghost use Rattle.newt_host.specs.Outside.{OnlyReads};
ghost use Rattle.newt_store_catalog.specs.Readable.{readable};
ghost use Rattle.newt_store_catalog.specs.Reading.{ReadEnds};
ghost use Rattle.newt_store_backup.specs.Written.{backed_up, store_text};

use crate::backup::backup_of;
use newt_base::Refusal;
use newt_host::{Host, Unit};
use newt_nsof_write::encode;
use newt_pagebook::{BookFault, LEAST_BLOCKS, MOST_BLOCKS, PageBook, Stop};
use newt_reply::{Reply, write_reply};
use std::alloc::Global;

/// The text of the backup of the store on a unit with banks, or the line that it has none.
fn store_text<P: PageBook, H: Host>(
    alloc: Global,
    host: &mut H,
    unit: Unit,
) -> Result<Vec<u8>, Stop>
    requires enough { 13 ≤ (H.outside host.old).blocks unit }
    requires not_too_many { (H.outside host.old).blocks unit ≤ 4099 }
    requires at_rest { IsTrue H.told → IsDurable unit (H.outside host.old).now }
    ensures text { IsTrue H.told → IfOk result (λ text. text.items
        ≡ store_text (readable (image unit (H.outside host.old).now))) }
    ensures looks { OnlyReads unit (H.outside host.old) (H.outside host.new) }
    ensures ends { ReadEnds unit (H.outside host.old) (H.outside host.new) result }
{
    match backup_of::<P, H>(alloc, host, unit) {
        Ok(graph) => Ok(encode(alloc, &graph)?),
        Err(BookFault::NotStore) => Ok(write_reply(alloc, &Reply::Refused(Refusal::Nostore))?),
        Err(BookFault::Memory) => Err(Stop::Memory),
        Err(BookFault::Device) => Err(Stop::Device(unit)),
    }
}

/// The text of the backup of the store on a unit, or the line that says why there is none: it has
/// no device, or one of fewer than 13 or more than 4,099 blocks, or no readable store.
pub fn backup_text<P: PageBook, H: Host>(
    alloc: Global,
    host: &mut H,
    unit: Unit,
    is_attached: bool,
) -> Result<Vec<u8>, Stop>
    requires attached { is_attached ≡ is_some ((H.outside host.old).card unit) }
    requires at_rest { IsTrue H.told → IsDurable unit (H.outside host.old).now }
    ensures text { IsTrue H.told → IfOk result (λ text. text.items
        ≡ backed_up (device_on unit (H.outside host.old))) }
    ensures looks { OnlyReads unit (H.outside host.old) (H.outside host.new) }
    ensures ends { ReadEnds unit (H.outside host.old) (H.outside host.new) result }
{
    if !is_attached {
        return Ok(write_reply(alloc, &Reply::Refused(Refusal::Unit))?);
    }
    let blocks = host.blocks(unit);
    if blocks < LEAST_BLOCKS || MOST_BLOCKS < blocks {
        return Ok(write_reply(alloc, &Reply::Refused(Refusal::Blocks))?);
    }
    store_text::<P, H>(alloc, host, unit)
}
