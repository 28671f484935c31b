//! Tables of what is done with the store with ranges. A row is one of these:
//! - a change of `tables`;
//! - `each WORD UID COUNT STEP`: changes of so many entries, from this id on in such steps;
//! - `range BY STATE`, then ` => ` and the ids of a range, by `id` or the number of an index,
//!   `before` or `after` each third was changed;
//! - `masks SOUP COUNT`, then ` => ` and the masks of so many ids.
ghost use Rattle.std.specs.Prelude.{true, OnOk};
ghost use Rattle.newt_memhost.specs.Outside.{outside_of};
ghost use Rattle.newt_store_indexed.specs.Stands.{StandsOn};

use crate::card::{card_bytes, formatted, host_of};
use crate::changes::change_of;
use crate::entries::change_by;
use crate::indexed::{accept, opened};
use crate::masks::masks_text;
use crate::walks::range_text;
use newt_memhost::MemHost;
use newt_pagebook::PageBook;
use newt_store_indexed::IndexedStore;
use std::alloc::Global;
use std::test::Fail;

/// A number, and what follows it.
fn number(text: &str) -> Result<(u32, &str), Fail> {
    let (number, rest) = text.split_once(' ').unwrap_or((text, ""));
    Ok((number.parse()?, rest))
}

/// A word, the first id, how many, and the step between them.
fn steps(text: &str) -> Result<(&str, u32, u32, u32), Fail> {
    let (word, rest) = text.split_once(' ').ok_or("no steps")?;
    let (first, rest) = number(rest)?;
    let (count, rest) = number(rest)?;
    let (step, _) = number(rest)?;
    Ok((word, first, count, step))
}

/// Makes the changes of the entries of these ids.
fn change_each<P: PageBook>(
    alloc: Global,
    host: &mut MemHost,
    store: &mut IndexedStore<P>,
    text: &str,
) -> Result<(), Fail>
    requires { StandsOn P.place P.numbers P.stands true store.old (outside_of host.old) }
    ensures { OnOk result (StandsOn P.place P.numbers P.stands true store.new
        (outside_of host.new)) }
{
    let (word, first, count, step) = steps(text)?;
    for place in 0..count {
        let uid = first.saturating_add(step.saturating_mul(place));
        accept(host, store, change_by(alloc, word, uid)?)?;
    }
    Ok(())
}

/// The range of a row is the list after it.
fn expect_range<P: PageBook>(
    alloc: Global,
    store: &IndexedStore<P>,
    text: &str,
) -> Result<(), Fail> {
    let (line, wanted) = text.split_once(" => ").ok_or("no list")?;
    let (by, state) = line.split_once(' ').ok_or("no state")?;
    let found = range_text(alloc, store, by, state == "after")?;
    if found.as_str() != wanted {
        return Err(Fail::new(format_args!("another range {line}: {found}")));
    }
    Ok(())
}

/// The masks of a row are those after it.
fn expect_masks<P: PageBook>(
    alloc: Global,
    store: &IndexedStore<P>,
    text: &str,
) -> Result<(), Fail> {
    let (line, wanted) = text.split_once(" => ").ok_or("no masks")?;
    let (soup, rest) = number(line)?;
    let (count, _) = number(rest)?;
    let found = masks_text(alloc, store, soup, count)?;
    if found.as_str() != wanted {
        return Err(Fail::new(format_args!("other masks {line}: {found}")));
    }
    Ok(())
}

/// Plays a row.
fn play_row<P: PageBook>(
    alloc: Global,
    host: &mut MemHost,
    store: &mut IndexedStore<P>,
    row: &str,
) -> Result<(), Fail>
    requires { StandsOn P.place P.numbers P.stands true store.old (outside_of host.old) }
    ensures { OnOk result (StandsOn P.place P.numbers P.stands true store.new
        (outside_of host.new)) }
{
    match row.split_once(' ') {
        Some(("range", rest)) => expect_range(alloc, store, rest),
        Some(("masks", rest)) => expect_masks(alloc, store, rest),
        Some(("each", rest)) => change_each(alloc, host, store, rest),
        _ => {
            let (change, _) = change_of(alloc, row)?;
            accept(host, store, change)
        }
    }
}

/// Plays the rows of one run.
fn play_rows<P: PageBook>(
    alloc: Global,
    host: &mut MemHost,
    store: &mut IndexedStore<P>,
    rows: &str,
) -> Result<(), Fail>
    requires { StandsOn P.place P.numbers P.stands true store.old (outside_of host.old) }
{
    for row in rows.lines() {
        if !row.is_empty() {
            play_row(alloc, host, store, row)?;
        }
    }
    Ok(())
}

/// Plays the rows of one run on a card of these bytes, and answers what the card has then.
fn run<P: PageBook>(alloc: Global, bytes: &[u8], rows: &str) -> Result<Vec<u8>, Fail> {
    let mut host = host_of(alloc, bytes)?;
    let mut store: IndexedStore<P> = opened(alloc, &mut host)?;
    play_rows(alloc, &mut host, &mut store, rows)?;
    card_bytes(alloc, &host)
}

/// Plays a table on a card of so many blocks, formatted as a store. After a row `reopen` another
/// run goes on.
pub(crate) fn play<P: PageBook>(alloc: Global, blocks: u32, table: &str) -> Result<(), Fail> {
    let host = formatted::<P>(alloc, blocks)?;
    let mut bytes = card_bytes(alloc, &host)?;
    for rows in table.split("reopen\n") {
        bytes = run::<P>(alloc, &bytes, rows)?;
    }
    Ok(())
}
