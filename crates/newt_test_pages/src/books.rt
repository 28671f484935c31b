//! Tables of rows, each played on a book on one card of 13 blocks. A row is one of these:
//!
//! - `commit FROM GONE COUNT BYTE`: so many puts of a byte, after so many deletes from a number on.
//!   What a crash leaves within each call of it holds the pages before or those after.
//! - `write FROM GONE COUNT`: the same with the byte 1, and without a crash.
//! - `refuse FROM GONE COUNT BYTE`: such a batch is refused, since too many pages would be live,
//!   and the book is as it was.
//! - `live PAGES`: so many pages are live.
//! - `vote BANK`: the bank that the card votes for.
//! - `calls COUNT`: so many calls it takes to look at all pages, and none to look at them again.
ghost use Rattle.std.specs.Prelude.{◌≡◌, ◌≤◌, ◌+◌, true, length, OnOk};
ghost use Rattle.newt_memhost.specs.Outside.{outside_of};

use crate::batches::{batch_of, changed};
use crate::card::{
    CARD, Pages, assert_pages, committed, expect, fresh, has_card, numbers, opened, pages_in,
};
use crate::crashes::assert_either;
use newt_host::Host;
use newt_memhost::MemHost;
use newt_pagebook::{Batch, CommitFault, PageBook};
use newt_pageplain::PlainBook;
use newt_pages::DiskBook;
use std::alloc::Global;
use std::process::Abort;
use std::test::Fail;

/// The bank that the card votes for.
pub(crate) fn vote_of(rt: &impl Abort, host: &MemHost) -> u8 {
    assert!(rt; has_card(host));
    let bytes = host.bytes(CARD);
    assert!(rt; bytes.len() == 13 * 4096);
    bytes[0]
}

/// Commits a batch, for which room is made first, and checks what a crash leaves within each call.
fn commit<P: PageBook>(
    rt: &impl Abort,
    alloc: Global,
    host: &mut MemHost,
    book: &mut P,
    batch: &Batch,
) -> Result<(), Fail>
    requires book { P.stands true book.old (outside_of host.old) × (P.place book.old ≡ 0) }
    requires few { length batch.now.puts ≤ 64 }
    ensures { OnOk result (P.stands true book.new (outside_of host.new) × (P.place book.new ≡ 0)) }
{
    let before = pages_in(alloc, host, book)?;
    let after = changed(alloc, &before, batch)?;
    commit_between(rt, alloc, host, book, batch, &before, &after)
}

/// The same for a book that has the pages before it, and then those after it.
fn commit_between<P: PageBook>(
    rt: &impl Abort,
    alloc: Global,
    host: &mut MemHost,
    book: &mut P,
    batch: &Batch,
    before: &Pages,
    after: &Pages,
) -> Result<(), Fail>
    requires book { P.stands true book.old (outside_of host.old) × (P.place book.old ≡ 0) }
    requires few { length batch.now.puts ≤ 64 }
    ensures { OnOk result (P.stands true book.new (outside_of host.new) × (P.place book.new ≡ 0)) }
{
    book.reserve(batch.puts().len() as u32)?;
    let from = host.calls();
    book.commit(host, batch)?;
    assert_either::<P>(rt, alloc, host, from, 2, before, after)?;
    assert_pages(rt, alloc, host, book, after)
}

/// A batch after which too many pages would be live is refused, and the book is as it was.
fn refuse<P: PageBook>(
    rt: &impl Abort,
    alloc: Global,
    host: &mut MemHost,
    book: &mut P,
    batch: &Batch,
) -> Result<(), Fail>
    requires book { P.stands true book.old (outside_of host.old) × (P.place book.old ≡ 0) }
    requires few { length batch.now.puts ≤ 64 }
    ensures { OnOk result (P.stands true book.new (outside_of host.new) × (P.place book.new ≡ 0)) }
{
    let before = pages_in(alloc, host, book)?;
    refuse_in(rt, alloc, host, book, batch, &before)
}

/// The same for a book that has these pages.
fn refuse_in<P: PageBook>(
    rt: &impl Abort,
    alloc: Global,
    host: &mut MemHost,
    book: &mut P,
    batch: &Batch,
    before: &Pages,
) -> Result<(), Fail>
    requires book { P.stands true book.old (outside_of host.old) × (P.place book.old ≡ 0) }
    requires few { length batch.now.puts ≤ 64 }
    ensures { OnOk result (P.stands true book.new (outside_of host.new) × (P.place book.new ≡ 0)) }
{
    book.reserve(batch.puts().len() as u32)?;
    let from = host.calls();
    match book.commit(host, batch) {
        Err(CommitFault::Full) => {}
        _ => panic!(rt; "the batch is not refused"),
    }
    assert!(rt; host.calls() == from);
    assert_pages(rt, alloc, host, book, before)
}

/// Commits `count` puts after `gone` deletes, from a number on.
fn commit_pages<P: PageBook>(
    rt: &impl Abort,
    alloc: Global,
    host: &mut MemHost,
    book: &mut P,
    from: u32,
    gone: u32,
    count: u32,
    byte: u8,
) -> Result<(), Fail>
    requires book { P.stands true book.old (outside_of host.old) × (P.place book.old ≡ 0) }
    requires numbers { from + gone + count ≤ 65536 }
    requires few { count ≤ 64 }
    ensures { OnOk result (P.stands true book.new (outside_of host.new) × (P.place book.new ≡ 0)) }
{
    let batch = batch_of(alloc, from, gone, count, byte)?;
    commit(rt, alloc, host, book, &batch)
}

/// So many puts after `gone` deletes are refused.
fn refuse_pages<P: PageBook>(
    rt: &impl Abort,
    alloc: Global,
    host: &mut MemHost,
    book: &mut P,
    from: u32,
    gone: u32,
    count: u32,
    byte: u8,
) -> Result<(), Fail>
    requires book { P.stands true book.old (outside_of host.old) × (P.place book.old ≡ 0) }
    requires numbers { from + gone + count ≤ 65536 }
    requires few { count ≤ 64 }
    ensures { OnOk result (P.stands true book.new (outside_of host.new) × (P.place book.new ≡ 0)) }
{
    let batch = batch_of(alloc, from, gone, count, byte)?;
    refuse(rt, alloc, host, book, &batch)
}

/// Commits `count` puts after `gone` deletes, from a number on, and looks at no crash.
fn write_pages<P: PageBook>(
    alloc: Global,
    host: &mut MemHost,
    book: &mut P,
    from: u32,
    gone: u32,
    count: u32,
) -> Result<(), Fail>
    requires book { P.stands true book.old (outside_of host.old) × (P.place book.old ≡ 0) }
    requires numbers { from + gone + count ≤ 65536 }
    ensures { OnOk result (P.stands true book.new (outside_of host.new) × (P.place book.new ≡ 0)) }
{
    let batch = batch_of(alloc, from, gone, count, 1)?;
    committed(host, book, &batch)
}

/// How many calls it takes to look at all pages.
fn calls_to_read<P: PageBook>(alloc: Global, host: &mut MemHost, book: &mut P) -> Result<u64, Fail>
    requires book { P.stands true book.old (outside_of host.old) × (P.place book.old ≡ 0) }
    ensures book { P.stands true book.new (outside_of host.new) × (P.place book.new ≡ 0) }
{
    let before = host.calls();
    pages_in(alloc, host, book)?;
    Ok(host.calls().saturating_sub(before))
}

/// The same twice, one time after the other.
fn calls_to_read_twice<P: PageBook>(
    alloc: Global,
    host: &mut MemHost,
    book: &mut P,
) -> Result<[u64; 2], Fail>
    requires book { P.stands true book.old (outside_of host.old) × (P.place book.old ≡ 0) }
    ensures book { P.stands true book.new (outside_of host.new) × (P.place book.new ≡ 0) }
{
    let first = calls_to_read(alloc, host, book)?;
    let second = calls_to_read(alloc, host, book)?;
    Ok([first, second])
}

/// Looks for what a row says of pages, votes or calls.
fn look<P: PageBook>(
    rt: &impl Abort,
    alloc: Global,
    host: &mut MemHost,
    book: &mut P,
    row: &str,
) -> Result<(), Fail>
    requires { P.stands true book.old (outside_of host.old) × (P.place book.old ≡ 0) }
    ensures { OnOk result (P.stands true book.new (outside_of host.new) × (P.place book.new ≡ 0)) }
{
    let (word, wanted) = row.split_once(' ').unwrap_or((row, ""));
    let wanted: u32 = wanted.parse()?;
    match word {
        "live" => expect(book.live() == wanted, row),
        "vote" => expect(u32::from(vote_of(rt, host)) == wanted, row),
        "calls" => {
            let took = calls_to_read_twice(alloc, host, book)?;
            expect(took == [u64::from(wanted), 0], row)
        }
        _ => Err(Fail::new("no row")),
    }
}

/// Plays one row.
fn play_row<P: PageBook>(
    rt: &impl Abort,
    alloc: Global,
    host: &mut MemHost,
    book: &mut P,
    row: &str,
) -> Result<(), Fail>
    requires { P.stands true book.old (outside_of host.old) × (P.place book.old ≡ 0) }
    ensures { OnOk result (P.stands true book.new (outside_of host.new) × (P.place book.new ≡ 0)) }
{
    let (word, rest) = row.split_once(' ').unwrap_or((row, ""));
    let (from, gone, count, byte) = numbers(rest);
    if from > 100 || gone > 64 || count > 64 || byte > 255 {
        return Err(Fail::new("too large a number"));
    }
    match word {
        "commit" => commit_pages(rt, alloc, host, book, from, gone, count, byte as u8),
        "refuse" => refuse_pages(rt, alloc, host, book, from, gone, count, byte as u8),
        "write" => write_pages(alloc, host, book, from, gone, count),
        _ => look(rt, alloc, host, book, row),
    }
}

/// Plays the rows of a table, one after another.
fn play_rows<P: PageBook>(
    rt: &impl Abort,
    alloc: Global,
    host: &mut MemHost,
    book: &mut P,
    table: &str,
) -> Result<(), Fail>
    requires { P.stands true book.old (outside_of host.old) × (P.place book.old ≡ 0) }
{
    for row in table.lines() {
        play_row(rt, alloc, host, book, row)?;
    }
    Ok(())
}

/// Plays a table.
fn play<P: PageBook>(rt: &impl Abort, alloc: Global, table: &str) -> Result<(), Fail> {
    let mut host = fresh::<P>(rt, alloc, 13)?;
    let mut book: P = opened(rt, alloc, &mut host)?;
    play_rows(rt, alloc, &mut host, &mut book, table)
}

/// A bank takes three records of ten puts and two deletes, and one more after a record of all
/// pages.
const SWITCHES: &str = "commit 0 2 10 0
vote 0
commit 7 2 10 1
vote 0
commit 14 2 10 2
vote 0
commit 21 2 10 3
vote 1
commit 2 2 10 4
vote 1
commit 9 2 10 5
vote 0
commit 16 2 10 6
vote 0
commit 23 2 10 7
vote 1
commit 4 2 10 8
vote 1
commit 11 2 10 9
vote 0";

#[test]
fn a_crash_leaves_the_pages_before_or_after(rt: HostRuntime) -> Result<(), Fail> {
    play::<PlainBook>(&rt, rt.alloc(), SWITCHES)?;
    play::<DiskBook>(&rt, rt.alloc(), SWITCHES)
}

/// Thirteen blocks take 38 pages, and not one more.
const FULL: &str = "refuse 0 0 39 1
commit 0 0 38 2
live 38
refuse 38 0 1 3
commit 0 1 38 4
live 38";

#[test]
fn a_batch_fills_the_unit_exactly(rt: HostRuntime) -> Result<(), Fail> {
    play::<PlainBook>(&rt, rt.alloc(), FULL)?;
    play::<DiskBook>(&rt, rt.alloc(), FULL)
}

/// Each record of ten puts takes a quarter of a bank. The second one is appended, with two of the
/// pages and eight others: what was put is read, and what stays is cached. The last one goes to the
/// other bank, where all pages stand elsewhere.
const READS: &str = "write 0 0 10
live 10
calls 10
write 8 0 10
live 18
calls 10
write 0 1 10
live 17
calls 10
write 11 1 10
live 20
calls 20";

#[test]
fn pages_are_read_once(rt: HostRuntime) -> Result<(), Fail> {
    play::<DiskBook>(&rt, rt.alloc(), READS)
}
