//! Changes of stores on a card in memory.
use crate::digits::spelt;
use crate::flips::patched;
use crate::small::{IMAGE, SMALL};
use crate::tables::{play, play_on};
use newt_pageplain::PlainBook;
use std::alloc::{AllocError, Global};
use std::test::Fail;

/// Thirteen blocks take 38 pages: the directory and 37 entries. The removed id is not given again.
const FILLED: &str = "
make S => 0
fill 0 0 37
count 0 => 37
count 1 => 0
add 0 020600 => full
has 0 0 => true
remove 0 0 => 0
reopen
add 0 020600 => 37
has 0 0 => false
has 0 37 => true
count 0 => 37
rows => Internal 7 1; S 0 38; \
    0 1 0 020600; 0 2 0 020600; 0 3 0 020600; 0 4 0 020600; 0 5 0 020600; 0 6 0 020600; 0 7 0 020600; \
    0 8 0 020600; 0 9 0 020600; 0 10 0 020600; 0 11 0 020600; 0 12 0 020600; 0 13 0 020600; 0 14 0 020600; \
    0 15 0 020600; 0 16 0 020600; 0 17 0 020600; 0 18 0 020600; 0 19 0 020600; 0 20 0 020600; 0 21 0 020600; \
    0 22 0 020600; 0 23 0 020600; 0 24 0 020600; 0 25 0 020600; 0 26 0 020600; 0 27 0 020600; 0 28 0 020600; \
    0 29 0 020600; 0 30 0 020600; 0 31 0 020600; 0 32 0 020600; 0 33 0 020600; 0 34 0 020600; 0 35 0 020600; \
    0 36 0 020600; 0 37 0 020600
";

#[test]
fn a_unit_takes_what_it_should_and_ids_rise(rt: HostRuntime) -> Result<(), Fail> {
    play::<PlainBook>(rt.alloc(), 13, FILLED)
}

/// A soup comes again with another signature, and takes as many entries.
const FREED: &str = "
make S => 0
fill 0 0 37
drop 0 => 0
make S => 1
has 1 0 => false
fill 1 0 37
add 1 020600 => full
";

#[test]
fn a_soup_that_goes_frees_its_pages(rt: HostRuntime) -> Result<(), Fail> {
    play::<PlainBook>(rt.alloc(), 13, FREED)
}

/// A table that makes so many soups, and then plays these rows.
fn with_soups(alloc: Global, count: u32, rows: &str) -> Result<String, AllocError> {
    let mut table = String::new(alloc);
    for number in 0..count {
        let row = format!(in alloc; "make S{number} => {number}\n")?;
        table.push_str(row.as_str())?;
    }
    table.push_str(rows)?;
    Ok(table)
}

/// A store of 250 soups takes another only in the place of one of them.
const SOUPS: &str = "make one more => limit
make S7 => exists
drop 9 => 0
make one more => 250
reopen
make another => limit
drop 0 => 0
make S0 => 251
";

#[test]
fn a_store_has_at_most_250_soups(rt: HostRuntime) -> Result<(), Fail> {
    let alloc = rt.alloc();
    let table = with_soups(alloc, 250, SOUPS)?;
    play::<PlainBook>(alloc, 33, table.as_str())
}

/// The info frame of a soup is set, found again, replaced and removed.
const INFOS: &str = "
make S => 0
make T => 1
info 0 0206010701610004 => 0
rows => Internal 7 2; S 0 0 info 0206010701610004; T 1 0
reopen
rows => Internal 7 2; S 0 0 info 0206010701610004; T 1 0
info 0 => 0
info 1 020600 => 0
info 1 020004 => info
info 2 020600 => soup
reopen
rows => Internal 7 2; S 0 0; T 1 0 info 020600
";

#[test]
fn a_soup_has_an_info_frame_or_none(rt: HostRuntime) -> Result<(), Fail> {
    play::<PlainBook>(rt.alloc(), 13, INFOS)
}

/// Names that differ in case are two names.
const CASES: &str = "
make S => 0
make s => 1
add 1 020600 => 0
has 0 0 => false
has 1 0 => true
make s => exists
";

#[test]
fn soups_whose_names_differ_in_case_are_two(rt: HostRuntime) -> Result<(), Fail> {
    play::<PlainBook>(rt.alloc(), 13, CASES)
}

/// The changes that make the small store.
const MAKING: &str = "
make S => 0
make T => 1
add 0 0206010701610004 @10 => 0
add 1 020600 @3 => 0
add 1 020600 @11 => 1
remove 1 0 @4 => 0
add 0 020600 @5 => 1
remove 0 1 @6 => 0
add 0 0206010701730806006800690000 @12 => 2
uids 0 => [Uid(0), Uid(2)]
uids 2 => []
";

#[test]
fn calls_make_the_store_that_is_spelt_by_hand(rt: HostRuntime) -> Result<(), Fail> {
    let alloc = rt.alloc();
    let table = format!(in alloc; "{MAKING}rows => {SMALL}")?;
    play::<PlainBook>(alloc, 13, table.as_str())
}

/// Soups and entries that are not there.
const MISSED: &str = "
make S => 0
make T => 1
add 0 020600 @5 => 0
add 2 020600 => soup
drop 2 => soup
remove 2 0 => soup
move 2 0 0 => soup
move 0 0 2 => soup
remove 0 1 => entry
move 0 1 1 => entry
";

#[test]
fn what_is_not_there_is_refused(rt: HostRuntime) -> Result<(), Fail> {
    play::<PlainBook>(rt.alloc(), 13, MISSED)
}

/// The text of a number, and those of two frames of one slot. With a string of 63,988 bytes these
/// have 64,001 bytes and 64,000.
const LONGEST: &str = "
make S => 0
make T => 1
add 0 020600 @5 => 0
add 0 020004 => notframe
add 0 0206010702737308FF0000F9F4 00*63988 => size
add 0 02060107017308FF0000F9F4 00*63988 @8 => 1
rows => Internal 7 2; S 0 2; T 1 0; 0 0 5 020600; 0 1 8 02060107017308FF0000F9F4 00*63988
";

#[test]
fn an_entry_has_at_most_64_000_bytes(rt: HostRuntime) -> Result<(), Fail> {
    play::<PlainBook>(rt.alloc(), 53, LONGEST)
}

/// No further signature, and no further id of the first soup.
const LAST: &str = "
make U => ids
add 0 020600 => ids
move 1 1 0 => ids
move 0 2 1 => 2
";

/// The small store with the last numbers given: the next soup signature, and the next id of the
/// first soup.
fn last_image(alloc: Global) -> Result<Vec<u8>, Fail> {
    let image = patched(alloc, &spelt(alloc, IMAGE)?, 13899, "FFFF")?;
    patched(alloc, &image, 13906, "1FFFFFFF")
}

#[test]
fn the_last_number_is_not_passed(rt: HostRuntime) -> Result<(), Fail> {
    let alloc = rt.alloc();
    play_on::<PlainBook>(alloc, &last_image(alloc)?, LAST)
}
