//! A unit's store made of what a backup has.
ghost use Rattle.std.specs.Prelude.{◌≡◌, ◌≤◌, IsTrue, IfOk};
ghost use Rattle.newt_spec_store.specs.Valid.{fits};
ghost use Rattle.newt_backup.specs.Contents.{AreKept, store_in};
ghost use Rattle.newt_store.specs.Calls.{FormatsUnit};

use newt_backup::{FullEntry, costs_at_most};
use newt_host::{Host, Unit};
use newt_pagebook::{PageBook, Stop, cap};
use newt_soupdir::Directory;
use newt_store::Store;
use std::alloc::{AllocError, Global};

/// Whether the store of a directory and entries fits on a unit of so many blocks.
pub(crate) fn fits_on(
    alloc: Global,
    directory: &Directory,
    entries: &[FullEntry],
    blocks: u32,
) -> Result<bool, AllocError>
    requires enough { 13 ≤ blocks }
    requires not_too_many { blocks ≤ 4099 }
    requires kept { AreKept directory.now entries.now }
    ensures { IfOk result (λ yes. yes ≡ fits blocks (store_in directory.now entries.now)) }
{
    let most = cap(blocks);
    costs_at_most(alloc, directory, entries, most)
}

/// Makes a unit's image that of the store of a directory and entries, as `read_backup` gives them.
/// After want of memory nothing has happened; after a fault of the device nothing is said of the
/// unit.
pub(crate) fn restore_store<P: PageBook, H: Host>(
    alloc: Global,
    host: &mut H,
    unit: Unit,
    directory: &Directory,
    entries: &[FullEntry],
) -> Result<(), Stop>
    requires enough { 13 ≤ (H.outside host.old).blocks unit }
    requires not_too_many { (H.outside host.old).blocks unit ≤ 4099 }
    requires kept { AreKept directory.now entries.now }
    requires fits { IsTrue (fits ((H.outside host.old).blocks unit)
        (store_in directory.now entries.now)) }
    ensures { FormatsUnit H.told unit (store_in directory.now entries.now)
        (H.outside host.old) (H.outside host.new) result }
{
    match Store::<P>::fill(alloc, host, unit, directory, entries) {
        Ok(()) => Ok(()),
        Err(stop) => Err(stop),
    }
}
