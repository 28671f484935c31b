//! What a command settles: all cursors on the entries that it can give another key, and no others.

use newt_test_scripts::{expect, expect_end, lines_of, over_blocks};
use newt_top::Status;
use std::alloc::Global;
use std::test::Fail;

/// How many cursors there can be.
const CURSORS: u32 = 32;

/// Two stores, one of four entries.
const TWO: &str = "format 0 A 7 => ok
mount 0 => ok 7 A
soup 0 S => ok 0
index 0 S k:int:ascend => ok
add 0 S {k: 1} => ok 0
add 0 S {k: 2} => ok 1
add 0 S {k: 3} => ok 2
add 0 S {k: 6} => ok 3
format 1 B 9 => ok
mount 1 => ok 9 B
soup 1 S => ok 0
";

/// A row for each cursor: a word before its number, and what is replied.
fn push_all(alloc: Global, table: &mut String, word: &str, reply: &str) -> Result<(), Fail> {
    for cursor in 0..CURSORS {
        table.push_str(&format!(in alloc; "{word} {cursor} => {reply}\n")?)?;
    }
    Ok(())
}

/// All cursors are opened on the second entry.
fn open_on_one(alloc: Global, table: &mut String) -> Result<(), Fail> {
    for cursor in 0..CURSORS {
        let row = format!(in alloc; "query 0 S {{indexPath: 'k, beginKey: 2}} => ok {cursor}\n")?;
        table.push_str(&row)?;
    }
    Ok(())
}

/// The rows by which all cursors follow one entry.
fn push_following(alloc: Global, table: &mut String) -> Result<(), Fail> {
    table.push_str(TWO)?;
    open_on_one(alloc, table)?;
    table.push_str("time 4 => ok\nset 0 S 1 k 9 => ok\n")?;
    push_all(alloc, table, "entry", "ok 0 1 4 {k: 9}")?;
    table.push_str("change 0 S 1 {k: 4} => ok\n")?;
    push_all(alloc, table, "entry", "ok 0 1 4 {k: 4}")?;
    table.push_str("move 0 S 1 1 S => ok 0\n")?;
    push_all(alloc, table, "entry", "ok deleted")?;
    push_all(alloc, table, "next", "ok 0 3 0 {k: 6}")?;
    table.push_str("remove 0 S 3 => ok\n")?;
    push_all(alloc, table, "entry", "ok deleted")?;
    push_all(alloc, table, "prev", "ok 0 2 0 {k: 3}")
}

#[test]
fn follow_one_entry(rt: HostRuntime) -> Result<(), Fail> {
    let alloc = rt.alloc();
    let mut table = String::new(alloc);
    push_following(alloc, &mut table)?;
    expect(alloc, "run a b", table.as_str())
}

/// Each command that can give an entry another key, with a cursor on that entry. Units 0 and 1 have
/// stores of one signature, so that an entry of the one is an entry of the other.
const SETTLED: &str = "
format 0 A 7 => ok
mount 0 => ok 7 A
soup 0 S => ok 0
index 0 S k:int:ascend => ok
add 0 S {k: 1} => ok 0
add 0 S {k: 5} => ok 1
add 0 S {k: 6} => ok 2
add 0 S {k: 7} => ok 3
add 0 S {k: 8} => ok 4
format 2 C 3 => ok
mount 2 => ok 3 C
soup 2 S => ok 0
add 2 S {k: 33} => ok 0
query 0 S {indexPath: 'k} => ok 0
query * S {indexPath: 'k} => ok 1
query * S {indexPath: 'k, beginKey: 5} => ok 2
query * S {indexPath: 'k, beginKey: 6} => ok 3
query * S {indexPath: 'k, beginKey: 7} => ok 4
query * S {indexPath: 'k, beginKey: 8} => ok 5
unmount 0 => ok
format 1 B 7 => ok
mount 1 => ok 7 B
soup 1 S => ok 0
index 1 S k:int:ascend => ok
add 1 S {k: 9} => ok 0
entry 1 => ok 1 0 0 {k: 9}
add 1 S {k: 11} => ok 1
entry 2 => ok 1 1 0 {k: 11}
addx 1 S 02060107016B000C => ok 2
copy 1 S 0 1 S => ok 3
entry 4 => ok 1 3 0 {k: 9}
move 2 S 0 1 S => ok 4
entry 5 => ok 1 4 0 {k: 33}
get 2 S 0 => error 32 entry
set 1 S 0 k 12 => ok
entry 1 => ok 1 0 0 {k: 12}
change 1 S 0 {k: 13, large: 1} => ok
entry 1 => ok 1 0 0 {k: 13, large: 1}
unmount 1 => ok
entry 1 => ok deleted
mount 0 => ok 7 A
entry 1 => ok 0 0 0 {k: 1}
next 1 => ok 0 1 0 {k: 5}
unmount 0 => ok
mount 1 => ok 7 B
entry 1 => ok 1 1 0 {k: 11}
";

#[test]
fn follow_an_entry_that_comes_back(rt: HostRuntime) -> Result<(), Fail> {
    expect(rt.alloc(), "run a b c", SETTLED)
}

/// An entry is a hit again by another declaration.
const DECLARED: &str = "
format 0 A 7 => ok
mount 0 => ok 7 A
soup 0 S => ok 0
index 0 S k:int:ascend => ok
tags 0 S labels work => ok
add 0 S {k: 1, labels: 'work, other: 'work} => ok 0
add 0 S {k: 5, labels: 'work, other: 'work} => ok 1
query 0 S {indexPath: 'k, tagSpec: {any: ['work]}} => ok 0
set 0 S 0 labels 'play => ok
entry 0 => ok deleted
set 0 S 0 k 9 => ok
next 0 => ok 0 1 0 {k: 5, labels: 'work, other: 'work}
prev 0 => ok nil
next 0 => ok 0 1 0 {k: 5, labels: 'work, other: 'work}
set 0 S 1 labels 'play => ok
set 0 S 1 k 12 => ok
entry 0 => ok deleted
tags 0 S other work => ok
entry 0 => ok 0 1 0 {k: 12, labels: 'play, other: 'work}
prev 0 => ok 0 0 0 {k: 9, labels: 'play, other: 'work}
";

#[test]
fn follow_an_entry_by_other_tags(rt: HostRuntime) -> Result<(), Fail> {
    expect(rt.alloc(), "run a", DECLARED)
}

/// The entries of each of four stores.
const ENTRIES: u32 = 8;

/// Four stores, whose entries have more pages together than are cached of a unit.
fn add_all(alloc: Global, table: &mut String) -> Result<(), Fail> {
    for unit in 0u32..4 {
        let rows = format!(in alloc;
            "format {unit} A {unit} => ok
mount {unit} => ok {unit} A
soup {unit} N => ok 0
index {unit} N k:int:ascend => ok\n"
        )?;
        table.push_str(&rows)?;
        for uid in 0..ENTRIES {
            let entry = format!(in alloc; "{{k: {uid}, t: \"word ~x*2200~\"}}")?;
            table.push_str(&format!(in alloc; "add {unit} N {entry} => ok {uid}\n")?)?;
        }
    }
    Ok(())
}

/// A cursor on each entry. All but that on the first ask for a word.
fn open_on_all(alloc: Global, table: &mut String) -> Result<(), Fail> {
    for place in 0..CURSORS {
        let unit = place / ENTRIES;
        let uid = place % ENTRIES;
        let words = if place == 0 { "" } else { ", words: \"word\"" };
        let spec = format!(in alloc; "{{indexPath: 'k, beginKey: {uid}{words}}}")?;
        table.push_str(&format!(in alloc; "query {unit} N {spec} => ok {place}\n")?)?;
    }
    Ok(())
}

/// How many calls of the host a run of a table takes.
fn calls_of(alloc: Global, table: &str) -> Result<u64, Fail> {
    let (script, output) = lines_of(alloc, table)?;
    let mut host = over_blocks(alloc, &script, 64)?;
    expect_end(alloc, "run a b c d", &mut host, Status::Ok, &output)?;
    Ok(host.calls())
}

/// How many calls a row takes after a table and the same row.
fn calls_again(alloc: Global, table: &str, row: &str) -> Result<u64, Fail> {
    let once = format!(in alloc; "{table}{row}")?;
    let twice = format!(in alloc; "{table}{row}{row}")?;
    Ok(calls_of(alloc, &twice)?.saturating_sub(calls_of(alloc, &once)?))
}

/// A row that changes the first entry takes as many calls with a cursor on each as with none.
fn expect_as_many(alloc: Global, row: &str) -> Result<(), Fail> {
    let mut table = String::new(alloc);
    add_all(alloc, &mut table)?;
    let alone = calls_again(alloc, table.as_str(), row)?;
    open_on_all(alloc, &mut table)?;
    if calls_again(alloc, table.as_str(), row)? != alone {
        return Err(Fail::new(format_args!("cursors on other entries cost calls: {row}")));
    }
    Ok(())
}

#[test]
fn a_change_costs_no_more_with_other_cursors(rt: HostRuntime) -> Result<(), Fail> {
    expect_as_many(rt.alloc(), "set 0 N 0 n 1 => ok\n")?;
    expect_as_many(rt.alloc(), "set 0 N 0 k 0 => ok\n")
}
