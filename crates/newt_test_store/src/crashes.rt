//! What a crash leaves within the calls of a change.
ghost use Rattle.std.specs.Prelude.{true};
ghost use Rattle.newt_memhost.specs.Outside.{outside_of};
ghost use Rattle.newt_store.specs.Calls.{IsOpen};

use crate::card::{CARD, has_card, host_of, opened};
use crate::contents::contents_on;
use crate::made::{Trace, changed, expect_found};
use newt_memhost::{MemHost, Pick};
use newt_pagebook::PageBook;
use newt_store::Store;
use std::alloc::Global;
use std::test::Fail;

/// What is tried of each call.
const PICKS: [Pick; 5] = [
    Pick::Old,
    Pick::New,
    Pick::Half,
    Pick::Fill(0),
    Pick::Fill(255),
];

/// And of each call after which the store goes on.
const FEW_PICKS: [Pick; 2] = [Pick::Half, Pick::Fill(0)];

fn another_store(call: u64) -> Fail {
    Fail::new(format_args!("a crash within call {call} leaves another store"))
}

/// An image that a crash might have left within a call opens as one of the two.
fn expect_one<P: PageBook>(
    alloc: Global,
    image: &[u8],
    trace: &Trace,
    call: u64,
) -> Result<(), Fail> {
    let found = contents_on::<P>(alloc, image)?;
    if found != trace.before && found != trace.after {
        return Err(another_store(call));
    }
    Ok(())
}

/// Every image that a crash might have left within a change opens as the store before it or as the
/// one after it, which is another.
pub(crate) fn expect_either<P: PageBook>(
    alloc: Global,
    host: &MemHost,
    trace: &Trace,
) -> Result<(), Fail> {
    if !has_card(host) || trace.after == trace.before {
        return Err(Fail::new("no card, or no other store"));
    }
    for call in trace.from..host.calls() {
        for pick in PICKS {
            let crash = host.images(CARD, call, pick)?;
            expect_one::<P>(alloc, &crash.image, trace, call)?;
        }
    }
    Ok(())
}

/// An entry was taken, and is found by another run.
fn expect_taken<P: PageBook>(alloc: Global, host: &MemHost, trace: &Trace) -> Result<(), Fail> {
    if trace.after.len() <= trace.before.len() {
        return Err(Fail::new("a store takes no entry after a crash"));
    }
    expect_found::<P>(alloc, host, &trace.after)
}

/// A store takes an entry in its soup 0.
fn expect_one_more<P: PageBook>(
    alloc: Global,
    host: &mut MemHost,
    store: &mut Store<P>,
) -> Result<(), Fail>
    requires is_open { IsOpen P.place P.numbers P.stands true store.old (outside_of host.old) }
{
    let trace = changed(alloc, host, store, "add 0 020600 @99")?;
    expect_taken::<P>(alloc, host, &trace)
}

/// The store on these bytes takes an entry in its soup 0.
fn expect_more<P: PageBook>(alloc: Global, bytes: &[u8]) -> Result<(), Fail> {
    let mut host = host_of(alloc, bytes)?;
    let mut store: Store<P> = opened(alloc, &mut host)?;
    expect_one_more(alloc, &mut host, &mut store)
}

/// The store on each image that a crash might have left within a change takes a further change.
pub(crate) fn expect_goes_on<P: PageBook>(
    alloc: Global,
    host: &MemHost,
    from: u64,
) -> Result<(), Fail> {
    if !has_card(host) {
        return Err(Fail::new("no card"));
    }
    for call in from..host.calls() {
        for pick in FEW_PICKS {
            let crash = host.images(CARD, call, pick)?;
            expect_more::<P>(alloc, &crash.image)?;
        }
    }
    Ok(())
}
