//! Tables of rows, each played on the journal of one card. A row is one of these:
//!
//! - `append PAYLOAD`, `replace PAYLOAD`, `repair`: a change, after which the journal holds what it
//!   should.
//! - `cut`, `cut few`: what a crash leaves within each device call of the last change reads as
//!   before that change or as after it.
//! - `version => NUMBER`: the version of the bank.
//! - `room => BYTES`: the longest payload that may be appended.
//! - `erases => COUNT`, `syncs => COUNT`: how many blocks the last change erased, and how often it
//!   synced. Before the first change these are the counts of the format.
//! - `all FROM TO => BYTE`: each byte of the card between two places.
//! - `reads PLACE=BYTE .. => PAYLOAD ..`: what is read where the card's bytes stand with these
//!   others: records, `no record` or `no journal`.
ghost use Rattle.std.specs.Prelude.{◌≡◌, true, IfOk};
ghost use Rattle.newt_host.specs.Moments.{IsDurable};
ghost use Rattle.newt_memhost.specs.Outside.{outside_of};
ghost use Rattle.newt_journal.specs.Journal.{Stands};

use crate::card::{CARD, Wear, has_card, held_on, host_of, opened, wear_of};
use crate::crashes::{expect_either, images};
use crate::records::{Held, changed, held_by};
use crate::row_fault::RowFault;
use crate::texts::{around, filled, payload_of, poked, records_of};
use newt_host::Host;
use newt_journal::Journal;
use newt_memhost::MemHost;
use std::alloc::{AllocError, Global};
use std::mem;
use std::process::Abort;
use std::test::Fail;

/// The last change: the number of its first call, what the card had gone through before it, what
/// the journal held before it and after it, and the room after it.
#[derive(Drop)]
struct Last {
    from: u64,
    wear: Wear,
    before: Held,
    held: Held,
    room: u32,
}

impl Last {
    /// No change yet.
    fn new(alloc: Global, held: Held, room: u32) -> Last {
        Last {
            from: 0,
            wear: Wear::default(),
            before: Held {
                version: held.version,
                records: Vec::new(alloc),
            },
            held,
            room,
        }
    }
}

/// What a change makes of what the journal holds. A bank is written with version 2.
fn after(alloc: Global, held: &Held, word: &str, payload: &[u8]) -> Result<Held, RowFault> {
    let mut version = held.version;
    let mut records = Vec::new(alloc);
    if word != "replace" {
        for record in &held.records {
            records.push(record.to_vec(alloc)?)?;
        }
    }
    if word != "repair" {
        version = 2;
        records.push(payload.to_vec(alloc)?)?;
    }
    Ok(Held { version, records })
}

/// Carries a change out, after which the journal holds what it should.
fn change(
    alloc: Global,
    journal: Journal,
    host: &mut MemHost,
    last: &mut Last,
    word: &str,
    payload: &[u8],
) -> Result<Journal, RowFault>
    requires { Stands true journal (outside_of host.old) × (journal.unit ≡ 0) }
    ensures { IfOk result (λ after. Stands true after (outside_of host.new) × (after.unit ≡ 0)) }
{
    let held = after(alloc, &last.held, word, payload)?;
    last.before = mem::replace(&mut last.held, held);
    last.from = host.calls();
    last.wear = wear_of(host);
    let journal = changed(journal, host, word, payload)?;
    last.room = journal.room();
    if held_by(alloc, &journal, host)? != last.held {
        return Err(RowFault::Other);
    }
    Ok(journal)
}

/// The version after the last change.
fn expect_version(last: &Last, want: &str) -> Result<(), RowFault> {
    let version: u16 = want.parse()?;
    if last.held.version != version {
        return Err(RowFault::Other);
    }
    Ok(())
}

/// The room after the last change.
fn expect_room(last: &Last, want: &str) -> Result<(), RowFault> {
    let room: u32 = want.parse()?;
    if last.room != room {
        return Err(RowFault::Other);
    }
    Ok(())
}

/// What the last change took of the card: erases or syncs.
fn expect_wear(host: &MemHost, last: &Last, word: &str, want: &str) -> Result<(), RowFault> {
    let now = wear_of(host);
    let took = if word == "erases" {
        now.erased.checked_sub(last.wear.erased)
    } else {
        now.synced.checked_sub(last.wear.synced)
    };
    if took != Some(want.parse()?) {
        return Err(RowFault::Other);
    }
    Ok(())
}

fn expect_byte(part: &[u8], byte: u8) -> Result<(), RowFault> {
    for held in part {
        if *held != byte {
            return Err(RowFault::Other);
        }
    }
    Ok(())
}

/// Each byte between two places.
fn expect_all(host: &MemHost, places: &str, want: &str) -> Result<(), RowFault> {
    if !has_card(host) {
        return Err(RowFault::Row);
    }
    let (from, to) = around(places, " ");
    let (from, to): (usize, usize) = (from.parse()?, to.parse()?);
    let byte: u8 = want.parse()?;
    match host.bytes(CARD).get(from..to) {
        Some(part) => expect_byte(part, byte),
        None => Err(RowFault::Row),
    }
}

/// What is read where the card's bytes stand with some others.
fn expect_read(
    rt: &impl Abort,
    alloc: Global,
    host: &MemHost,
    pokes: &str,
    want: &str,
) -> Result<(), RowFault> {
    if !has_card(host) {
        return Err(RowFault::Row);
    }
    let bytes = poked(alloc, host.bytes(CARD), pokes)?;
    let found = match held_on(rt, alloc, &bytes)? {
        Some(held) => Some(held.records),
        None => None,
    };
    if found != records_of(alloc, want)? {
        return Err(RowFault::Other);
    }
    Ok(())
}

/// Looks for what a row says, and changes nothing.
fn look(
    rt: &impl Abort,
    alloc: Global,
    host: &MemHost,
    last: &Last,
    asked: (&str, &str),
    want: &str,
) -> Result<(), RowFault> {
    match asked.0 {
        "cut" => {
            let images = images(alloc, host, last.from, asked.1 == "few")?;
            expect_either(rt, alloc, &images, &last.before, &last.held)
        }
        "version" => expect_version(last, want),
        "room" => expect_room(last, want),
        "erases" | "syncs" => expect_wear(host, last, asked.0, want),
        "all" => expect_all(host, asked.1, want),
        "reads" => expect_read(rt, alloc, host, asked.1, want),
        _ => Err(RowFault::Row),
    }
}

/// Plays one row.
fn play_row(
    rt: &impl Abort,
    alloc: Global,
    journal: Journal,
    host: &mut MemHost,
    last: &mut Last,
    row: &str,
) -> Result<Journal, RowFault>
    requires { Stands true journal (outside_of host.old) × (journal.unit ≡ 0) }
    ensures { IfOk result (λ after. Stands true after (outside_of host.new) × (after.unit ≡ 0)) }
{
    let (asked, want) = around(row, " => ");
    let (word, rest) = around(asked, " ");
    match word {
        "append" | "replace" | "repair" => {
            let payload = payload_of(alloc, rest)?;
            change(alloc, journal, host, last, word, &payload)
        }
        _ => {
            look(rt, alloc, host, last, (word, rest), want)?;
            Ok(journal)
        }
    }
}

/// Plays the rows of a table, one after another.
fn play_rows(
    rt: &impl Abort,
    alloc: Global,
    journal: Journal,
    host: &mut MemHost,
    last: &mut Last,
    table: &str,
) -> Result<(), Fail>
    requires { Stands true journal (outside_of host.old) × (journal.unit ≡ 0) }
{
    let mut journal = journal;
    for row in table.lines() {
        match play_row(rt, alloc, journal, host, last, row) {
            Ok(after) => journal = after,
            Err(fault) => return Err(Fail::new(format_args!("{fault:?} at {row}"))),
        }
    }
    Ok(())
}

/// Plays a table on a card that is formatted with one record, `first`. Answers the number of the
/// first call of its last change.
fn play_formatted(
    rt: &impl Abort,
    alloc: Global,
    host: &mut MemHost,
    table: &str,
) -> Result<u64, Fail> {
    if host.blocks(CARD) < 13 || host.blocks(CARD) > 4099 {
        return Err(Fail::new("a size that no unit has"));
    }
    let journal = Journal::format(host, CARD, b"first")?;
    let mut records = Vec::new(alloc);
    records.push(b"first".to_vec(alloc)?)?;
    let held = Held {
        version: 2,
        records,
    };
    let mut last = Last::new(alloc, held, journal.room());
    play_rows(rt, alloc, journal, host, &mut last, table)?;
    Ok(last.from)
}

/// Opens the journal of a card, and plays a table on it. Answers the number of the first call of
/// its last change.
fn play_opened(rt: &impl Abort, alloc: Global, host: &mut MemHost, table: &str) -> Result<u64, Fail>
    requires { IsDurable 0 (outside_of host.old).now }
{
    let Some(journal) = opened(host)? else {
        return Err(Fail::new("no journal"));
    };
    let held = held_by(alloc, &journal, host)?;
    let mut last = Last::new(alloc, held, journal.room());
    play_rows(rt, alloc, journal, host, &mut last, table)?;
    Ok(last.from)
}

/// Plays a table on the journal that stands on these bytes.
fn play_on(rt: &impl Abort, alloc: Global, bytes: &[u8], table: &str) -> Result<(), Fail> {
    let mut host = host_of(rt, alloc, bytes);
    play_opened(rt, alloc, &mut host, table)?;
    Ok(())
}

/// A host with a card of so many blocks, all of one byte.
fn blank(rt: &impl Abort, alloc: Global, blocks: u32, byte: u8) -> Result<MemHost, AllocError> {
    let bytes = filled(alloc, byte, blocks as usize * 4096)?;
    Ok(host_of(rt, alloc, &bytes))
}

/// Plays a table on a card of so many blocks that is formatted with one record, `first`. Before the
/// format each byte of the card was this one.
pub(crate) fn play(
    rt: &impl Abort,
    alloc: Global,
    blocks: u32,
    byte: u8,
    table: &str,
) -> Result<(), Fail> {
    let mut host = blank(rt, alloc, blocks, byte)?;
    play_formatted(rt, alloc, &mut host, table)?;
    Ok(())
}

/// Plays a table on a card of 13 blocks, and another on each card that a crash might have left
/// within its last change.
pub(crate) fn play_and_mend(
    rt: &impl Abort,
    alloc: Global,
    table: &str,
    mending: &str,
) -> Result<(), Fail> {
    let mut host = blank(rt, alloc, 13, 0x5A)?;
    let from = play_formatted(rt, alloc, &mut host, table)?;
    for left in &images(alloc, &host, from, false)? {
        play_on(rt, alloc, &left.image, mending)?;
    }
    Ok(())
}

/// The bytes of a card of 13 blocks whose first bank has one record, `first`, and version 1.
fn old_card(rt: &impl Abort, alloc: Global) -> Result<Vec<u8>, Fail> {
    let mut host = blank(rt, alloc, 13, 0x5A)?;
    play_formatted(rt, alloc, &mut host, "version => 2")?;
    assert!(rt; has_card(&host));
    Ok(poked(alloc, host.bytes(CARD), "12295=1")?)
}

/// Plays a table on a card of 13 blocks that has one record, `first`, in a bank of version 1. Plays
/// another on each card that a crash might have left within its last change. At first the card is
/// opened, which leaves each byte of it.
pub(crate) fn play_old(
    rt: &impl Abort,
    alloc: Global,
    table: &str,
    mending: &str,
) -> Result<(), Fail> {
    let bytes = old_card(rt, alloc)?;
    let mut host = host_of(rt, alloc, &bytes);
    play_opened(rt, alloc, &mut host, "version => 1")?;
    assert!(rt; has_card(&host));
    assert!(rt; host.bytes(CARD) == bytes.as_slice());
    let mut host = host_of(rt, alloc, &bytes);
    let from = play_opened(rt, alloc, &mut host, table)?;
    for left in &images(alloc, &host, from, false)? {
        play_on(rt, alloc, &left.image, mending)?;
    }
    Ok(())
}
