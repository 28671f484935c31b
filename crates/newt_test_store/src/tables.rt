//! Tables of what is done with the store on a card, and how they are played. A table is one text.
//! Each of its rows is a line and, after ` => `, its reply. A row that is answered otherwise, or
//! that finds something that is not as it should be, is a test's failure.
//!
//! A line that is a change is one of these:
//! - `make NAME`, `drop SOUP`;
//! - `add SOUP TEXT`, `remove SOUP UID`, `move SOUP UID SOUP`, `replace SOUP UID TEXT`;
//! - `index SOUP DECLARED`, `unindex SOUP DECLARED`, `tags SOUP DECLARED`;
//! - `info SOUP TEXT`, or `info SOUP` for no info frame.
//!
//! The minute follows as ` @MINUTE` where it is not 0. The reply is the change's answer or the word
//! of its refusal. Bytes are spelt in digits, `00*3` for `000000`. A change that is refused changes
//! nothing.
//!
//! A change after `cut` changes something, and a crash within each of its calls leaves the store
//! before it or after it. After `resume` that store also takes an entry. After `record` the reply
//! goes on with the length of the change's record in the journal of bank 0, and the object of the
//! record's last page.
//!
//! The other lines are these:
//! - `fill SOUP UID COUNT` adds so many empty frames, the first with this id;
//! - after `reopen` another run goes on;
//! - `rows` asks for all that the store has, which another run finds as well, as at the end of a
//!   table;
//! - `has SOUP UID`, `count SOUP` and `uids SOUP` ask for entries;
//! - `declared SOUP` asks for the numbers of indexes and tags;
//! - `vote` asks for the bank that the card votes for.
ghost use Rattle.std.specs.Prelude.{true, OnOk};
ghost use Rattle.newt_host.specs.Moments.{IsDurable};
ghost use Rattle.newt_memhost.specs.Outside.{outside_of};
ghost use Rattle.newt_store.specs.Calls.{IsOpen};

use crate::asked::asked;
use crate::card::{card_bytes, formatted, host_of, opened};
use crate::made::{changed, fill, rows};
use crate::modes::{mode_reply, split_mode, vote};
use newt_memhost::MemHost;
use newt_pagebook::PageBook;
use newt_store::Store;
use std::alloc::Global;
use std::test::Fail;

/// The reply to a line that is a change.
fn change_reply<P: PageBook>(
    alloc: Global,
    host: &mut MemHost,
    store: &mut Store<P>,
    line: &str,
) -> Result<Vec<u8>, Fail>
    requires is_open { IsOpen P.place P.numbers P.stands true store.old (outside_of host.old) }
    ensures is_open { OnOk result (IsOpen P.place P.numbers P.stands true store.new
        (outside_of host.new)) }
{
    let (mode, line) = split_mode(alloc, host, line)?;
    let trace = changed(alloc, host, store, line)?;
    mode_reply::<P>(alloc, host, mode, &trace)
}

/// The reply to a line.
fn reply_to<P: PageBook>(
    alloc: Global,
    host: &mut MemHost,
    store: &mut Store<P>,
    line: &str,
) -> Result<Vec<u8>, Fail>
    requires is_open { IsOpen P.place P.numbers P.stands true store.old (outside_of host.old) }
    ensures is_open { OnOk result (IsOpen P.place P.numbers P.stands true store.new
        (outside_of host.new)) }
{
    let (word, rest) = line.split_once(' ').unwrap_or((line, ""));
    match word {
        "rows" => rows(alloc, host, store),
        "vote" => vote(alloc, host),
        "fill" => fill(alloc, host, store, rest),
        "has" | "count" | "uids" | "declared" => asked(alloc, store, word, rest),
        _ => change_reply(alloc, host, store, line),
    }
}

fn another_reply(line: &str, reply: &[u8]) -> Fail {
    Fail::new(format_args!("another reply: {line:.200} => {reply:?}"))
}

/// Plays a row, which is answered as it says.
fn play_row<P: PageBook>(
    alloc: Global,
    host: &mut MemHost,
    store: &mut Store<P>,
    row: &str,
) -> Result<(), Fail>
    requires is_open { IsOpen P.place P.numbers P.stands true store.old (outside_of host.old) }
    ensures is_open { OnOk result (IsOpen P.place P.numbers P.stands true store.new
        (outside_of host.new)) }
{
    let (line, wanted) = row.split_once(" => ").unwrap_or((row, ""));
    let reply = reply_to(alloc, host, store, line)?;
    if reply.as_slice() != wanted.as_bytes() {
        return Err(another_reply(line, &reply));
    }
    Ok(())
}

/// Plays the rows of one run, after which another run finds what the store has.
fn play_rows<P: PageBook>(
    alloc: Global,
    host: &mut MemHost,
    store: &mut Store<P>,
    table: &str,
) -> Result<(), Fail>
    requires is_open { IsOpen P.place P.numbers P.stands true store.old (outside_of host.old) }
{
    for row in table.lines() {
        if !row.is_empty() {
            play_row(alloc, host, store, row)?;
        }
    }
    rows(alloc, host, store)?;
    Ok(())
}

/// Plays the rows of one run on the card.
fn play_run<P: PageBook>(alloc: Global, host: &mut MemHost, rows: &str) -> Result<(), Fail>
    requires { IsDurable 0 (outside_of host.old).now }
{
    let mut store: Store<P> = opened(alloc, host)?;
    play_rows(alloc, host, &mut store, rows)
}

/// Plays the rows of one run on a card of these bytes, and answers what the card has then.
fn run<P: PageBook>(alloc: Global, bytes: &[u8], rows: &str) -> Result<Vec<u8>, Fail> {
    let mut host = host_of(alloc, bytes)?;
    play_run::<P>(alloc, &mut host, rows)?;
    card_bytes(alloc, &host)
}

/// Plays a table on a card of these bytes.
pub(crate) fn play_on<P: PageBook>(alloc: Global, bytes: &[u8], table: &str) -> Result<(), Fail> {
    let mut bytes = bytes.to_vec(alloc)?;
    for rows in table.split("reopen\n") {
        bytes = run::<P>(alloc, &bytes, rows)?;
    }
    Ok(())
}

/// Plays a table on a card of so many blocks, formatted as the store `Internal` of signature 7.
pub(crate) fn play<P: PageBook>(alloc: Global, blocks: u32, table: &str) -> Result<(), Fail> {
    let host = formatted::<P>(alloc, blocks)?;
    play_on::<P>(alloc, &card_bytes(alloc, &host)?, table)
}
