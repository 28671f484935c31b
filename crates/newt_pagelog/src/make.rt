//! A unit is made one that holds pages.
ghost use Rattle.std.specs.Prelude.{◌≡◌, ◌≤◌, [], length};
ghost use Rattle.newt_spec_image.specs.Pages.{cap as cap_of};
ghost use Rattle.newt_pagebook.specs.Calls.{Formats};

use crate::write::written;
use newt_host::{Failed, Host, Unit};
use newt_journal::Journal;
use newt_pagebook::{Batch, Stop};
use std::alloc::Global;

/// Makes a unit's image one whose pages are those that the batch puts. After out of memory nothing
/// has happened; after a fault of the device nothing is said of the first bank and of the votes.
pub fn format<H: Host>(alloc: Global, host: &mut H, unit: Unit, batch: &Batch) -> Result<(), Stop>
    requires enough { 13 ≤ (H.outside host.old).blocks unit }
    requires not_too_many { (H.outside host.old).blocks unit ≤ 4099 }
    requires no_deletes { batch.now.deletes ≡ [] }
    requires few { length batch.now.puts ≤ cap_of ((H.outside host.old).blocks unit) }
    ensures { Formats H.told unit batch.now (H.outside host.old) (H.outside host.new) result }
{
    let payload = written(alloc, batch)?;
    match Journal::format(host, unit, &payload) {
        Ok(_) => Ok(()),
        Err(Failed) => Err(Stop::Device(unit)),
    }
}
