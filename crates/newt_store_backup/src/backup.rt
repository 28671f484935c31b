//! The backup of a unit's store.
ghost use Rattle.std.specs.Prelude.{◌≡◌, ◌≤◌, IsTrue};
ghost use Rattle.newt_host.specs.Moments.{IsDurable};
ghost use Rattle.newt_pagebook.specs.declared.book.BookFault.TheVariants.{Memory};
ghost use Rattle.newt_store_backup.specs.Backed.{BacksUp};

use crate::gather::entries_of;
use newt_backup::{is_store, pack_backup};
use newt_graph::Graph;
use newt_host::{Host, Unit};
use newt_pagebook::{BookFault, PageBook, Stop};
use newt_store::Store;
use std::alloc::Global;

/// The device gave other bytes than were written. Over a host that tells its bytes this is never
/// called; over another the run ends out of memory, since no fault was counted.
fn lies<H: Host>() -> BookFault
    requires { IsTrue H.told → ⊥ }
    ensures { result ≡ Memory }
{
    BookFault::Memory
}

/// The backup of the store of a unit on which nothing is pending.
pub(crate) fn backup_of<P: PageBook, H: Host>(
    alloc: Global,
    host: &mut H,
    unit: Unit,
) -> Result<Graph, BookFault>
    requires enough { 13 ≤ (H.outside host.old).blocks unit }
    requires not_too_many { (H.outside host.old).blocks unit ≤ 4099 }
    requires at_rest { IsTrue H.told → IsDurable unit (H.outside host.old).now }
    ensures { BacksUp H.told unit (H.outside host.old) (H.outside host.new) result }
{
    let mut store = Store::<P>::open(alloc, host, unit)?;
    let entries = match entries_of(&mut store, host) {
        Ok(entries) => entries,
        Err(Stop::Memory) => return Err(BookFault::Memory),
        Err(Stop::Device(_)) => return Err(BookFault::Device),
    };
    if !is_store(alloc, store.directory(), &entries)? {
        return Err(lies::<H>());
    }
    Ok(pack_backup(alloc, store.directory(), &entries)?)
}
