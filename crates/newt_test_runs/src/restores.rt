//! Stores that are restored from their backups, and what is refused. The texts were written by
//! hand.

use crate::backups::{ENTRY, FRESH};
use crate::crashes::EVERY;
use crate::versions::{BEFORE, FRESH as OLD_FRESH, GOES_ON};
use newt_host::{Host, Unit};
use newt_memhost::MemHost;
use newt_test_scripts::{
    backed_up, blocks, card_after, copied, expect_end, expect_goes_on, expect_unrestored, image,
    over, restored, run_on, run_table, run_table_on, run_writing,
};
use newt_test_tables::bytes_of;
use newt_top::Status;
use std::alloc::Global;
use std::process::Abort;
use std::test::Fail;

#[test]
fn restores_a_fresh_store_as_it_is_formatted(rt: HostRuntime) -> Result<(), Fail> {
    let alloc = rt.alloc();
    let card = restored(alloc, FRESH, &blocks(alloc, 13)?, b"ok 7 Internal\n")?;
    assert!(rt; card == card_after(alloc, "run a", "format 0 Internal 7 => ok")?);
    expect_unrestored(alloc, FRESH, &card, b"error 26 store\n")
}

/// Restores an input that comes in pieces of this size to 13 blank blocks.
fn expect_in_pieces(alloc: Global, piece: u32) -> Result<(), Fail> {
    let mut host = over(alloc, ENTRY, &blocks(alloc, 13)?, &[])?;
    host.piece(piece.max(1));
    expect_end(
        alloc,
        "restore a",
        &mut host,
        Status::Ok,
        b"ok 7 Internal\n",
    )?;
    if backed_up(alloc, &image(alloc, &host, Unit(0))?)?.as_slice() != ENTRY {
        return Err(Fail::new("another store is restored"));
    }
    Ok(())
}

#[test]
fn restores_an_entry_whose_backup_comes_in_pieces(rt: HostRuntime) -> Result<(), Fail> {
    for piece in [1u32, 7, 100_000] {
        expect_in_pieces(rt.alloc(), piece)?;
    }
    Ok(())
}

/// Inputs that are refused whatever the device is, with their lines: they end too early, have a
/// large binary that is compressed, or are no backup.
const REFUSED: [(&[u8], &[u8]); 4] = [
    (b"", b"error 1 malformed\n"),
    (b"\x02", b"error 1 malformed\n"),
    (
        b"\x02\x0C\x07\x03foo\x01\0\0\0\x01\0\0\0\0\0\0\0\0\0\0\0\0A",
        b"error 2 compressed\n",
    ),
    (b"\x02\x0A", b"error 51 backup\n"),
];

/// The backup of what 15 blocks hold after a table.
fn backup_after(alloc: Global, table: &str) -> Result<Vec<u8>, Fail> {
    let host = run_table_on(alloc, "run a", table, &blocks(alloc, 15)?, &[])?;
    backed_up(alloc, &image(alloc, &host, Unit(0))?)
}

/// The backup of a soup with so many entries, which has a page for each and one for the directory.
fn backup_of_entries(alloc: Global, count: u32) -> Result<Vec<u8>, Fail> {
    let mut table = String::from_str(
        alloc,
        "format 0 Internal 7 => ok\nmount 0 => ok 7 Internal\nsoup 0 S => ok 0\n",
    )?;
    for id in 0..count {
        table.push_str(&format!(in alloc; "add 0 S {{}} => ok {id}\n")?)?;
    }
    backup_after(alloc, &table)
}

/// A device of these bytes gives these lines for a fresh store and for one of 39 pages, after the
/// refusals that come first.
fn expect_refusals(
    alloc: Global,
    bytes: &[u8],
    large: &[u8],
    lines: [&[u8]; 2],
) -> Result<(), Fail> {
    for (input, line) in REFUSED {
        expect_unrestored(alloc, input, bytes, line)?;
    }
    for (input, line) in [(FRESH, lines[0]), (large, lines[1])] {
        expect_unrestored(alloc, input, bytes, line)?;
    }
    Ok(())
}

/// What is refused where the device is blank, has a store, or has too few blocks or too many.
fn expect_all_refused(alloc: Global, large: &[u8], blank: &[u8], card: &[u8]) -> Result<(), Fail> {
    let (store, full): (&[u8], &[u8]) = (b"error 26 store\n", b"error 33 full\n");
    let size: &[u8] = b"error 27 blocks\n";
    let cut = FRESH.get(..FRESH.len().saturating_sub(2)).unwrap_or(FRESH);
    expect_unrestored(alloc, cut, blank, b"error 1 malformed\n")?;
    expect_refusals(alloc, &blocks(alloc, 12)?, large, [size, size])?;
    expect_refusals(alloc, card, large, [store, store])?;
    expect_unrestored(alloc, large, blank, full)?;
    expect_unrestored(alloc, FRESH, &blocks(alloc, 4100)?, size)
}

#[test]
fn refuses_in_order(rt: HostRuntime) -> Result<(), Fail> {
    let alloc = rt.alloc();
    let large = backup_of_entries(alloc, 38)?;
    let blank = blocks(alloc, 13)?;
    let card = restored(alloc, FRESH, &blank, b"ok 7 Internal\n")?;
    expect_all_refused(alloc, &large, &blank, &card)
}

/// Where there is no device, only the line is written.
fn expect_alone(alloc: Global, input: &[u8], line: &[u8]) -> Result<(), Fail> {
    let blank = blocks(alloc, 13)?;
    run_writing(alloc, "restore c", input, &blank, &blank, line)?;
    Ok(())
}

#[test]
fn refuses_where_there_is_no_device(rt: HostRuntime) -> Result<(), Fail> {
    for (input, line) in REFUSED {
        expect_alone(rt.alloc(), input, line)?;
    }
    expect_alone(rt.alloc(), FRESH, b"error 20 unit\n")
}

/// A unit of 13 blocks that is full to its last page.
const FULL: &str = "
mount 0 => ok 7 Internal
soups 0 => ok S 0 37
add 0 S {} => error 33 full
remove 0 S 0 => ok
add 0 S {} => ok 37
get 0 S 37 => ok 0 {}
";

/// 13 blocks just take a backup, and 15 blocks take another, which has a page more.
fn expect_just_taken(alloc: Global, most: &[u8], more: &[u8]) -> Result<(), Fail> {
    let blank = blocks(alloc, 13)?;
    let card = restored(alloc, most, &blank, b"ok 7 Internal\n")?;
    run_table_on(alloc, "run a", FULL, &card, &[])?;
    expect_unrestored(alloc, more, &blank, b"error 33 full\n")?;
    restored(alloc, more, &blocks(alloc, 15)?, b"ok 7 Internal\n")?;
    Ok(())
}

#[test]
fn restores_what_a_unit_just_takes(rt: HostRuntime) -> Result<(), Fail> {
    let alloc = rt.alloc();
    let most = backup_of_entries(alloc, 37)?;
    expect_just_taken(alloc, &most, &backup_of_entries(alloc, 38)?)
}

/// A large binary of 36 pages, and one of a page more.
const LARGE: [(&str, &[u8]); 2] = [
    ("add 0 S {v: <<wave:*18000>>} => ok 0", b"ok 7 Internal\n"),
    ("add 0 S {v: <<wave:*18001>>} => ok 0", b"error 33 full\n"),
];

#[test]
fn counts_the_pages_of_large_binaries(rt: HostRuntime) -> Result<(), Fail> {
    let alloc = rt.alloc();
    for (row, reply) in LARGE {
        let table = format!(in alloc;
            "format 0 Internal 7 => ok
mount 0 => ok 7 Internal
soup 0 S => ok 0
{row}"
        )?;
        let input = backup_after(alloc, &table)?;
        restored(alloc, &input, &blocks(alloc, 13)?, reply)?;
    }
    Ok(())
}

/// Entries of several soups that were added and removed in turn, among them all those of a soup
/// that is dropped.
const SEVERAL: &str = "
format 0 Internal 7 => ok
mount 0 => ok 7 Internal
soup 0 S => ok 0
soup 0 Gone => ok 1
soup 0 \"To Do\" => ok 2
index 0 \"To Do\" n:int:descend => ok
tags 0 S labels work => ok
info 0 \"To Do\" {owner: \"Ann\"} => ok
time 5 => ok
add 0 \"To Do\" {n: 0} => ok 0
add 0 S {n: 1, labels: 'work} => ok 0
add 0 Gone {n: 2} => ok 0
time 4294967295 => ok
add 0 S {n: 3} => ok 1
add 0 \"To Do\" {n: 4} => ok 1
add 0 S {v: <<wave:*700>>, w: <<w:0102>>} => ok 2
time 6 => ok
add 0 S {n: 5} => ok 3
add 0 \"To Do\" {n: 6} => ok 2
remove 0 S 1 => ok
remove 0 S 3 => ok
remove 0 \"To Do\" 0 => ok
drop 0 Gone => ok
";

/// Ids, minutes and the next numbers go on where they were.
const GO_ON: &str = "
mount 0 => ok 7 Internal
soups 0 => ok S 0 2, \"To Do\" 2 2
get 0 S 0 => ok 5 {n: 1, labels: 'work}
get 0 S 1 => error 32 entry
get 0 \"To Do\" 1 => ok 4294967295 {n: 4}
vread 0 S 2 v 698 2 => ok 0000
vread 0 S 2 w 0 2 => ok 0102
indexes 0 \"To Do\" => ok n:int:descend
tags 0 S => ok labels work
info 0 \"To Do\" => ok {owner: \"Ann\"}
info 0 S => ok nil
query 0 \"To Do\" {indexPath: 'n} => ok 0
entry 0 => ok 0 2 6 {n: 6}
next 0 => ok 0 1 4294967295 {n: 4}
query 0 S {tagSpec: {all: 'work}} => ok 1
entry 1 => ok 0 0 5 {n: 1, labels: 'work}
add 0 S {n: 7} => ok 4
add 0 \"To Do\" {n: 8} => ok 3
soup 0 Gone => ok 3
add 0 Gone {n: 9} => ok 0
vwrite 0 S 2 v 499 4142 => ok
move 0 S 2 0 Gone => ok 1
vread 0 Gone 1 v 498 4 => ok 00414200
alias 0 \"To Do\" 1 => ok [alias: 7, 2, 1]
resolve [alias: 7, 2, 1] => ok 0 \"To Do\" 1
unmount 0 => ok
mount 0 => ok 7 Internal
soups 0 => ok S 0 2, \"To Do\" 2 3, Gone 3 2
";

/// What goes on over each of the units of a script of every command.
const EVERY_0: &str = "
mount 0 => ok 7 Internal
soups 0 => ok Notes 0 0
add 0 Notes {n: 3} => ok 2
soup 0 Next => ok 2
";

const EVERY_1: &str = "
mount 0 => ok 9 Card
soups 0 => ok \"To Do\" 0 2
get 0 \"To Do\" 0 => ok 100 {done: nil}
add 0 \"To Do\" {n: 4} => ok 3
soup 0 Next => ok 1
";

#[test]
fn goes_on_where_the_store_was(rt: HostRuntime) -> Result<(), Fail> {
    let alloc = rt.alloc();
    expect_goes_on(alloc, &card_after(alloc, "run a", SEVERAL)?, GO_ON)?;
    let every = run_table(alloc, "run a b", EVERY)?;
    expect_goes_on(alloc, &image(alloc, &every, Unit(0))?, EVERY_0)?;
    expect_goes_on(alloc, &image(alloc, &every, Unit(1))?, EVERY_1)
}

#[test]
fn goes_on_where_a_store_of_version_1_was(rt: HostRuntime) -> Result<(), Fail> {
    let alloc = rt.alloc();
    copied(alloc, &bytes_of(alloc, OLD_FRESH)?, 13)?;
    expect_goes_on(alloc, &bytes_of(alloc, BEFORE)?, GOES_ON)
}

/// The backup of a store that has given its last numbers, and an entry of the last minute.
const LAST: &str = "
020602 0709 'directory 0707 'entries
0501 031A 0705 'bytes 08 'Internal 00000007 FFFF 01 01 'S FFFE 1FFFFFFF 00 00
0501 0501 0312 0905 FFFE 1FFFFFFE FFFFFFFF 0206010701 'a 0004
";

const NO_MORE: &str = "
mount 0 => ok 7 Internal
soups 0 => ok S 65534 1
get 0 S 536870910 => ok 4294967295 {a: 1}
soup 0 T => error 35 ids
add 0 S {} => error 35 ids
";

#[test]
fn restores_the_last_numbers(rt: HostRuntime) -> Result<(), Fail> {
    let alloc = rt.alloc();
    let input = bytes_of(alloc, LAST)?;
    let card = restored(alloc, &input, &blocks(alloc, 13)?, b"ok 7 Internal\n")?;
    if backed_up(alloc, &card)? != input {
        return Err(Fail::new("another store is restored"));
    }
    expect_goes_on(alloc, &card, NO_MORE)
}

/// Restores the store with an entry to 13 blank blocks. The input and the output move at most three
/// bytes at once, and this call fails, if there is one.
fn restoring(alloc: Global, failing: Option<u64>) -> Result<(Status, MemHost), Fail> {
    let mut host = over(alloc, ENTRY, &blocks(alloc, 13)?, &[])?;
    host.piece(3);
    if let Some(call) = failing {
        host.fail(call)?;
    }
    let status = run_on(alloc, "restore a", &mut host)?;
    Ok((status, host))
}

/// What is written is then what was written before the call. Before the input was read to its end,
/// the device is not even attached; after the last call on the device, the store is there.
fn expect_halted(alloc: Global, sound: &MemHost, call: u64, wanted: Status) -> Result<(), Fail> {
    let (status, host) = restoring(alloc, Some(call))?;
    if sound.calls() <= call {
        return Ok(());
    }
    let is_begun = sound.output().starts_with(host.output())
        && host.output().len() as u64 == sound.out_before(call);
    if status != wanted || !is_begun || host.calls() != call.saturating_add(1) {
        return Err(Fail::new(format_args!("a restoring is not halted at call {call}")));
    }
    expect_left(alloc, &host, wanted)
}

/// What a restoring leaves that is halted: with a fault of the input a device that is not attached,
/// and with one of the output the store.
fn expect_left(alloc: Global, host: &MemHost, status: Status) -> Result<(), Fail> {
    let is_left = match status {
        Status::Source => host.blocks(Unit(0)) == 0,
        Status::Sink => backed_up(alloc, &image(alloc, host, Unit(0))?)?.as_slice() == ENTRY,
        _ => host.output().is_empty(),
    };
    if !is_left {
        return Err(Fail::new(format_args!("another device is left with {status:?}")));
    }
    Ok(())
}

#[test]
fn halts_at_each_call_that_fails(rt: HostRuntime) -> Result<(), Fail> {
    let alloc = rt.alloc();
    let (status, sound) = restoring(alloc, None)?;
    if status != Status::Ok {
        return Err(Fail::new("a restoring does not end well"));
    }
    let mut stream = Status::Source;
    for call in 0..sound.calls() {
        let wanted = match sound.unit_of(call) {
            Some(unit) => {
                stream = Status::Sink;
                Status::Device(unit)
            }
            None => stream,
        };
        expect_halted(alloc, &sound, call, wanted)?;
    }
    Ok(())
}
