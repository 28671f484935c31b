//! A stop at each call of a restoring.

use crate::backups::{STORE, backup_after, filled};
use newt_host::{Host, Unit};
use newt_memhost::{Crash, MemHost, Pick};
use newt_test_scripts::{backed_up, expect_status, over, restored};
use newt_top::Status;
use std::alloc::Global;
use std::test::Fail;

/// What is tried of each call.
const PICKS: [Pick; 6] = [
    Pick::Old,
    Pick::New,
    Pick::Half,
    Pick::Fill(0),
    Pick::Fill(1),
    Pick::Fill(255),
];

/// How many images a stop left, and how many of them were read as the store.
#[derive(Clone, Copy)]
struct StopCounts {
    images: u32,
    stores: u32,
}

impl StopCounts {
    fn add(&mut self, is_store: bool) {
        self.images = self.images.saturating_add(1);
        if is_store {
            self.stores = self.stores.saturating_add(1);
        }
    }
}

/// Whether a device of these bytes reads as the store of a backup. Where it does not, no store is
/// read, and the backup is restored to it. Where it does, the backup is not restored.
fn is_store(alloc: Global, bytes: &[u8], input: &[u8]) -> Result<bool, Fail> {
    let found = backed_up(alloc, bytes)?;
    if found.as_slice() == input {
        restored(alloc, input, bytes, b"error 26 store\n")?;
        return Ok(true);
    }
    if !found.starts_with(b"error 22 nostore\n") {
        return Err(Fail::new("another store is left"));
    }
    let again = restored(alloc, input, bytes, b"ok 7 Internal\n")?;
    if backed_up(alloc, &again)?.as_slice() != input {
        return Err(Fail::new("another store is restored after a stop"));
    }
    Ok(false)
}

/// A stop within each call of a restoring of this input leaves no store, or the store; once a byte
/// of the reply is out, it leaves the store. Before the input was read the device is not attached.
fn stop_at_each(
    alloc: Global,
    host: &MemHost,
    input: &[u8],
    pick: Pick,
    found: &mut StopCounts,
) -> Result<(), Fail> {
    if host.blocks(Unit(0)) == 0 {
        return Err(Fail::new("a unit without a device"));
    }
    for call in 0..host.calls() {
        let Crash { image, out } = host.images(Unit(0), call, pick)?;
        if image.is_empty() {
            continue;
        }
        let is_store = is_store(alloc, &image, input)?;
        if out > 0 && !is_store {
            return Err(Fail::new(format_args!("no store is left at call {call}")));
        }
        found.add(is_store);
    }
    Ok(())
}

/// The same for a restoring to a device of these bytes, whose reply is written a byte at a time.
fn stop_restoring(alloc: Global, device: &[u8]) -> Result<StopCounts, Fail> {
    let input = backup_after(alloc, STORE)?;
    let mut host = over(alloc, &input, device, &[])?;
    host.piece(1);
    expect_status(alloc, "restore a", &mut host, Status::Ok)?;
    let mut found = StopCounts {
        images: 0,
        stores: 0,
    };
    for pick in PICKS {
        stop_at_each(alloc, &host, &input, pick, &mut found)?;
    }
    Ok(found)
}

fn expect_found(found: StopCounts, images: u32, stores: u32) -> Result<(), Fail> {
    if found.images != images || found.stores != stores {
        return Err(Fail::new(format_args!("{} images, {} stores", found.images, found.stores)));
    }
    Ok(())
}

#[test]
fn a_stop_leaves_no_store_or_the_store(rt: HostRuntime) -> Result<(), Fail> {
    let alloc = rt.alloc();
    expect_found(stop_restoring(alloc, &filled(alloc, 0)?)?, 246, 158)?;
    expect_found(stop_restoring(alloc, &filled(alloc, 0x55)?)?, 240, 138)
}
