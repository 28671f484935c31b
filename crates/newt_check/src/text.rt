//! What is written of a unit whose image is looked through.
ghost use Rattle.std.specs.Prelude.{◌≡◌, ◌≤◌, IsTrue, IfOk, is_some};
ghost use Rattle.newt_host.specs.Meanings.{device_on};
ghost use Rattle.newt_host.specs.Moments.{IsDurable, image};
ghost use Rattle.newt_host.specs.Outside.{OnlyReads};
ghost use Rattle.newt_store_catalog.specs.Reading.{ReadEnds};
ghost use Rattle.newt_check.specs.Lines.{IsChecked, IsReported};

use crate::line::report_line;
use crate::rows::check;
use newt_base::Refusal;
use newt_host::{Host, Unit};
use newt_pagebook::{LEAST_BLOCKS, MOST_BLOCKS, Stop};
use newt_reply::{Reply, write_reply};
use std::alloc::Global;

/// The line of the report on the image of a unit of 13 to 4,099 blocks.
fn report_text<H: Host>(alloc: Global, host: &mut H, unit: Unit) -> Result<Vec<u8>, Stop>
    requires enough { 13 ≤ (H.outside host.old).blocks unit }
    requires not_too_many { (H.outside host.old).blocks unit ≤ 4099 }
    requires at_rest { IsTrue H.told → IsDurable unit (H.outside host.old).now }
    ensures text { IsTrue H.told → IfOk result (λ text.
        IsReported (image unit (H.outside host.old).now) text.items) }
    ensures looks { OnlyReads unit (H.outside host.old) (H.outside host.new) }
    ensures ends { ReadEnds unit (H.outside host.old) (H.outside host.new) result }
{
    let report = check(alloc, host, unit)?;
    Ok(report_line(alloc, report)?)
}

/// The line of the report on a unit's image, with the byte 10 at its end. It says that the image is
/// clean exactly where it is read as a store. Where the unit has no device, or one of fewer than 13
/// or more than 4,099 blocks, the line says so instead.
pub fn check_text<H: Host>(
    alloc: Global,
    host: &mut H,
    unit: Unit,
    is_attached: bool,
) -> Result<Vec<u8>, Stop>
    requires attached { is_attached ≡ is_some ((H.outside host.old).card unit) }
    requires at_rest { IsTrue H.told → IsDurable unit (H.outside host.old).now }
    ensures text { IsTrue H.told → IfOk result (λ text.
        IsChecked (device_on unit (H.outside host.old)) text.items) }
    ensures looks { OnlyReads unit (H.outside host.old) (H.outside host.new) }
    ensures ends { ReadEnds unit (H.outside host.old) (H.outside host.new) result }
{
    if !is_attached {
        return Ok(write_reply(alloc, &Reply::Refused(Refusal::Unit))?);
    }
    let blocks = host.blocks(unit);
    if blocks < LEAST_BLOCKS || MOST_BLOCKS < blocks {
        return Ok(write_reply(alloc, &Reply::Refused(Refusal::Blocks))?);
    }
    report_text(alloc, host, unit)
}
