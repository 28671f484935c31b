//! What a stop within an add leaves, among 200 entries.

use crate::names::card;
use crate::sessions::{InMemory, OnDevice, run_over};
use newt_host::{Host, Unit};
use newt_memhost::{Crash, MemHost, Pick};
use newt_script_session::Interpreter;
use newt_test_scripts::{expect_said, image};
use std::alloc::Global;
use std::test::Fail;

/// What is tried of each call, beside each byte.
const PICKS: [Pick; 6] = [
    Pick::Old,
    Pick::New,
    Pick::Half,
    Pick::Fill(0),
    Pick::Fill(1),
    Pick::Fill(255),
];

/// A mount and an add, and the replies before that of the add.
const MOUNT: &[u8] = b"mount 0\n";

const MOUNTED: &[u8] = b"ok 1 Gen\n";

const ADD: &[u8] =
    b"mount 0\nadd 0 Names {name: {first: \"Ada\", last: \"Z\"}, labels: 'personal}\n";

/// How many entries a next run finds on a card of these bytes.
fn found<I: Interpreter>(alloc: Global, bytes: &[u8]) -> Result<u32, Fail> {
    let host = run_over::<I>(alloc, b"mount 0\nsoups 0\n", bytes)?;
    match host.output() {
        b"ok 1 Gen\nok Names 0 200\n" => Ok(200),
        b"ok 1 Gen\nok Names 0 201\n" => Ok(201),
        _ => Err(Fail::new("neither 200 nor 201 names")),
    }
}

/// A run that adds an entry to the card, the first of its calls after the reply to its mount, and
/// what the card holds before the add and after it.
#[derive(Drop)]
struct AddRun {
    host: MemHost,
    first: u64,
    before: Vec<u8>,
    after: Vec<u8>,
}

fn add_run<I: Interpreter>(alloc: Global) -> Result<AddRun, Fail> {
    let before = card(alloc)?;
    let mounted = run_over::<I>(alloc, MOUNT, &before)?;
    let host = run_over::<I>(alloc, ADD, &before)?;
    let after = image(alloc, &host, Unit(0))?;
    if found::<I>(alloc, &before)? != 200 || found::<I>(alloc, &after)? != 201 {
        return Err(Fail::new("the add does not add one name"));
    }
    // the last call of the first run looks for more input
    let first = mounted.calls().saturating_sub(1);
    Ok(AddRun {
        host,
        first,
        before,
        after,
    })
}

/// A stop within each call of the add leaves the card with all entries or with all but the added
/// one. Where the reply to the add had begun, the added one is there. Answers how many of the
/// images were mounted: each that is neither that after the add nor the same as the one before.
fn stop_at_each<I: Interpreter>(alloc: Global, added: &AddRun, pick: Pick) -> Result<u32, Fail> {
    let host = &added.host;
    if host.blocks(Unit(0)) == 0 {
        return Err(Fail::new("a unit without a device"));
    }
    let mut mounts = 0u32;
    let mut left = Vec::from_slice(alloc, &added.before)?;
    let mut names = 200;
    for call in added.first..host.calls() {
        let Crash { image, out } = host.images(Unit(0), call, pick)?;
        if image == added.after {
            names = 201;
        } else if image != left {
            names = found::<I>(alloc, &image)?;
            mounts = mounts.saturating_add(1);
        }
        left = image;
        if names == 200 && out > MOUNTED.len() as u64 {
            return Err(Fail::new(format_args!("an entry is lost at call {call}")));
        }
    }
    Ok(mounts)
}

/// The same with each of these picks.
fn stop_add<I: Interpreter>(alloc: Global, picks: &[Pick], wanted: u32) -> Result<(), Fail> {
    let added = add_run::<I>(alloc)?;
    let mut mounts = 0u32;
    for pick in picks {
        mounts = mounts.saturating_add(stop_at_each::<I>(alloc, &added, *pick)?);
    }
    expect_mounts(mounts, wanted)
}

/// The same with each byte in what a stop has torn.
fn stop_add_by_bytes(alloc: Global, wanted: u32) -> Result<(), Fail> {
    let added = add_run::<OnDevice>(alloc)?;
    let mut mounts = 0u32;
    for byte in 0..256u32 {
        let pick = Pick::Fill(byte as u8);
        mounts = mounts.saturating_add(stop_at_each::<OnDevice>(alloc, &added, pick)?);
    }
    expect_mounts(mounts, wanted)
}

fn expect_mounts(mounts: u32, wanted: u32) -> Result<(), Fail> {
    if mounts != wanted {
        return Err(Fail::new(format_args!("{mounts} images were mounted")));
    }
    Ok(())
}

#[test]
fn a_check_counts_the_names(rt: HostRuntime) -> Result<(), Fail> {
    let alloc = rt.alloc();
    let added = add_run::<OnDevice>(alloc)?;
    expect_said(alloc, &added.before, b"ok clean 1 200 201\n")?;
    expect_said(alloc, &added.after, b"ok clean 1 201 202\n")
}

#[test]
fn a_stop_within_an_add_loses_nothing(rt: HostRuntime) -> Result<(), Fail> {
    stop_add::<InMemory>(rt.alloc(), &PICKS, 24)?;
    stop_add::<OnDevice>(rt.alloc(), &PICKS, 24)
}

#[test]
fn a_stop_loses_nothing_whatever_byte_it_leaves(rt: HostRuntime) -> Result<(), Fail> {
    stop_add_by_bytes(rt.alloc(), 1_530)
}
