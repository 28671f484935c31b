//! What a change writes, and what a crash leaves of it.
use crate::tables::play;
use newt_pageplain::PlainBook;
use std::test::Fail;

/// An entry gets a new id and minute where it moves to, and is gone where it was. It takes one
/// record: 9 bytes, 516 for each of two pages that it puts, and 4 for each of two that it lets go.
const MOVED: &str = "
make S => 0
make T => 1
add 0 020600 @5 => 0
add 1 020600 @6 => 0
record move 0 0 1 @7 => 1 1049 00000005
rows => Internal 7 2; S 0 1; T 1 2; 1 0 6 020600; 1 1 7 020600
";

#[test]
fn an_entry_moves_in_one_record(rt: HostRuntime) -> Result<(), Fail> {
    play::<PlainBook>(rt.alloc(), 13, MOVED)
}

/// What comes, moves and goes, cut by a crash within each call.
const CUT: &str = "
cut make S @1 => 0
cut make T @2 => 1
cut add 0 020600 @3 => 0
cut move 0 0 1 @4 => 0
cut remove 1 0 @5 => 0
cut drop 1 @6 => 0
";

#[test]
fn a_crash_leaves_the_store_before_or_after(rt: HostRuntime) -> Result<(), Fail> {
    play::<PlainBook>(rt.alloc(), 13, CUT)
}

/// Changes until the next one finds no room in the bank, and writes the other one.
const SWITCHED: &str = "
make S => 0
add 0 020600 => 0
remove 0 0 => 0
add 0 020600 => 1
remove 0 1 => 0
add 0 020600 => 2
remove 0 2 => 0
add 0 020600 => 3
remove 0 3 => 0
add 0 020600 => 4
remove 0 4 => 0
add 0 020600 => 5
remove 0 5 => 0
add 0 020600 => 6
remove 0 6 => 0
add 0 020600 => 7
remove 0 7 => 0
add 0 020600 => 8
remove 0 8 => 0
add 0 020600 => 9
remove 0 9 => 0
add 0 020600 => 10
remove 0 10 => 0
add 0 020600 => 11
remove 0 11 => 0
add 0 020600 => 12
remove 0 12 => 0
add 0 020600 => 13
remove 0 13 => 0
add 0 020600 => 14
remove 0 14 => 0
add 0 020600 => 15
remove 0 15 => 0
add 0 020600 => 16
remove 0 16 => 0
add 0 020600 => 17
remove 0 17 => 0
vote => 00
resume add 0 020600 @1 => 18
vote => 01
";

#[test]
fn a_crash_while_the_bank_changes_leaves_the_store_before_or_after(
    rt: HostRuntime,
) -> Result<(), Fail> {
    play::<PlainBook>(rt.alloc(), 13, SWITCHED)
}
