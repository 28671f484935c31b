//! Changes that are made.
ghost use Rattle.std.specs.Prelude.{true, OnOk};
ghost use Rattle.newt_memhost.specs.Outside.{outside_of};
ghost use Rattle.newt_store.specs.Calls.{IsOpen};

use crate::card::card_bytes;
use crate::changes::{add_empty, change_of};
use crate::contents::{contents, contents_on};
use newt_base::Refusal;
use newt_memhost::MemHost;
use newt_pagebook::PageBook;
use newt_store::{Change, Store, StoreFault};
use std::alloc::Global;
use std::test::Fail;

/// What a change came to.
#[derive(Clone, Copy, PartialEq, Eq)]
pub(crate) enum Outcome {
    /// Its answer.
    Done(u32),
    /// Why it is refused.
    Refused(Refusal),
}

/// A change that was made: what it came to, the number of its first call on the card, and what the
/// store had before it and after it.
#[derive(Drop)]
pub(crate) struct Trace {
    pub(crate) outcome: Outcome,
    pub(crate) from: u64,
    pub(crate) before: Vec<u8>,
    pub(crate) after: Vec<u8>,
}

/// Makes a change.
fn outcome_of<P: PageBook>(
    host: &mut MemHost,
    store: &mut Store<P>,
    change: Change,
    minute: u32,
) -> Result<Outcome, Fail>
    requires is_open { IsOpen P.place P.numbers P.stands true store.old (outside_of host.old) }
    ensures is_open { OnOk result (IsOpen P.place P.numbers P.stands true store.new
        (outside_of host.new)) }
{
    match store.apply(host, &change, minute) {
        Ok(answer) => Ok(Outcome::Done(answer)),
        Err(StoreFault::Refused(refusal)) => Ok(Outcome::Refused(refusal)),
        Err(fault) => Err(Fail::from(fault)),
    }
}

/// Makes the change of a line.
fn traced<P: PageBook>(
    alloc: Global,
    host: &mut MemHost,
    store: &mut Store<P>,
    line: &str,
) -> Result<Trace, Fail>
    requires is_open { IsOpen P.place P.numbers P.stands true store.old (outside_of host.old) }
    ensures is_open { OnOk result (IsOpen P.place P.numbers P.stands true store.new
        (outside_of host.new)) }
{
    let before = contents(alloc, host, store)?;
    let from = host.calls();
    let (change, minute) = change_of(alloc, line)?;
    let outcome = outcome_of(host, store, change, minute)?;
    let after = contents(alloc, host, store)?;
    Ok(Trace {
        outcome,
        from,
        before,
        after,
    })
}

/// Another run finds this on the card.
pub(crate) fn expect_found<P: PageBook>(
    alloc: Global,
    host: &MemHost,
    wanted: &[u8],
) -> Result<(), Fail> {
    let found = contents_on::<P>(alloc, &card_bytes(alloc, host)?)?;
    if found.as_slice() != wanted {
        return Err(Fail::new("another run finds another store"));
    }
    Ok(())
}

/// Makes the change of a line. Where it is refused, it changes nothing.
pub(crate) fn changed<P: PageBook>(
    alloc: Global,
    host: &mut MemHost,
    store: &mut Store<P>,
    line: &str,
) -> Result<Trace, Fail>
    requires is_open { IsOpen P.place P.numbers P.stands true store.old (outside_of host.old) }
    ensures is_open { OnOk result (IsOpen P.place P.numbers P.stands true store.new
        (outside_of host.new)) }
{
    let trace = traced(alloc, host, store, line)?;
    if matches!(trace.outcome, Outcome::Refused(_)) && trace.after != trace.before {
        return Err(Fail::new("a refused change changes the store"));
    }
    Ok(trace)
}

/// What the store has, which another run finds as well.
pub(crate) fn rows<P: PageBook>(
    alloc: Global,
    host: &mut MemHost,
    store: &mut Store<P>,
) -> Result<Vec<u8>, Fail>
    requires is_open { IsOpen P.place P.numbers P.stands true store.old (outside_of host.old) }
    ensures is_open { IsOpen P.place P.numbers P.stands true store.new (outside_of host.new) }
{
    let rows = contents(alloc, host, store)?;
    expect_found::<P>(alloc, host, &rows)?;
    Ok(rows)
}

/// The three numbers of a line.
fn three_numbers(line: &str) -> Result<(u32, u32, u32), Fail> {
    let (first, rest) = line.split_once(' ').ok_or("no second number")?;
    let (second, third) = rest.split_once(' ').ok_or("no third number")?;
    Ok((first.parse()?, second.parse()?, third.parse()?))
}

fn not_added(uid: u32) -> Fail {
    Fail::new(format_args!("entry {uid} is not added"))
}

/// Adds so many empty frames to a soup, whose ids rise from the first.
pub(crate) fn fill<P: PageBook>(
    alloc: Global,
    host: &mut MemHost,
    store: &mut Store<P>,
    line: &str,
) -> Result<Vec<u8>, Fail>
    requires is_open { IsOpen P.place P.numbers P.stands true store.old (outside_of host.old) }
    ensures is_open { OnOk result (IsOpen P.place P.numbers P.stands true store.new
        (outside_of host.new)) }
{
    let (soup, first, count) = three_numbers(line)?;
    for uid in first..first.saturating_add(count) {
        if outcome_of(host, store, add_empty(alloc, soup)?, 0)? != Outcome::Done(uid) {
            return Err(not_added(uid));
        }
    }
    Ok(Vec::new(alloc))
}
