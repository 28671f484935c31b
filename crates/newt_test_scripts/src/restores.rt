//! Stores that are backed up and restored.

use crate::crashes::look;
use crate::hosts::blocks;
use crate::runs::{has_device, image, is_clean, run_over, run_table_on, run_writing};
use newt_host::Unit;
use newt_memhost::MemHost;
use std::alloc::Global;
use std::test::Fail;

/// What the mode `backup` writes of a device of these bytes: the backup of its store, or a line.
pub fn backed_up(alloc: Global, bytes: &[u8]) -> Result<Vec<u8>, Fail> {
    let host = run_over(alloc, "backup a", b"", bytes, &[])?;
    Ok(Vec::from_slice(alloc, host.output())?)
}

/// What a device of these bytes holds once an input was to be restored to it, with this reply.
pub fn restored(alloc: Global, input: &[u8], bytes: &[u8], reply: &[u8]) -> Result<Vec<u8>, Fail> {
    let host = run_writing(alloc, "restore a", input, bytes, &[], reply)?;
    image(alloc, &host, Unit(0))
}

/// An input is not restored to a device of these bytes, which stay.
pub fn expect_unrestored(
    alloc: Global,
    input: &[u8],
    bytes: &[u8],
    reply: &[u8],
) -> Result<(), Fail> {
    if restored(alloc, input, bytes, reply)?.as_slice() != bytes {
        return Err(Fail::new("a refused restoring changes the device"));
    }
    Ok(())
}

/// What so many blank blocks hold once the store of a card was restored to them. They are backed up
/// with the same bytes, and mounted as the card is.
pub fn copied(alloc: Global, card: &[u8], count: u32) -> Result<Vec<u8>, Fail> {
    let input = backed_up(alloc, card)?;
    let found = look(alloc, b"mount 0\n", card)?;
    let copy = restored(alloc, &input, &blocks(alloc, count)?, &found.answers)?;
    let again = look(alloc, b"mount 0\n", &copy)?;
    if again.left != input || again.answers != found.answers {
        return Err(Fail::new("another store is restored"));
    }
    Ok(copy)
}

/// As many blank blocks as a card has take its store.
fn copied_alike(alloc: Global, card: &[u8]) -> Result<Vec<u8>, Fail> {
    let count = u32::try_from(card.len() / 4096).unwrap_or(u32::MAX);
    copied(alloc, card, count)
}

/// Each store that a host has is restored to another device.
pub(crate) fn expect_all_restored(alloc: Global, host: &MemHost) -> Result<(), Fail> {
    for number in 0..5u8 {
        let unit = Unit(number);
        if has_device(host, unit) && is_clean(alloc, host.bytes(unit))? {
            copied_alike(alloc, host.bytes(unit))?;
        }
    }
    Ok(())
}

/// The backup of what a device of these bytes holds after a table, which gives its replies.
fn played(alloc: Global, table: &str, bytes: &[u8]) -> Result<Vec<u8>, Fail> {
    let host = run_table_on(alloc, "run a", table, bytes, &[])?;
    backed_up(alloc, &image(alloc, &host, Unit(0))?)
}

/// The store of a card is restored, and goes on there as it does on the card: a table gives its
/// replies over both, and both are then backed up with the same bytes.
pub fn expect_goes_on(alloc: Global, card: &[u8], table: &str) -> Result<(), Fail> {
    let copy = copied_alike(alloc, card)?;
    if played(alloc, table, card)? != played(alloc, table, &copy)? {
        return Err(Fail::new("a restored store goes on otherwise"));
    }
    Ok(())
}
