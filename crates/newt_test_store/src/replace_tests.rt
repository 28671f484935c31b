//! Entries whose graphs are replaced.
use crate::tables::play;
use newt_pageplain::PlainBook;
use std::test::Fail;

/// An entry gets texts at minutes, each by one record of the journal over its own object. The texts
/// are a longer one of one page, one of the same length, one of three pages, one of the same
/// length, and, in another run, one of one page. A record has 9 bytes, 516 for each page that it
/// puts, and 4 for each that it lets go. The directory is not among them, since it stays.
const REPLACED: &str = "
make S => 0
make T => 1
add 0 020600 @5 => 0
record replace 0 0 0206010701610004 @10 => 0 529 00000001
rows => Internal 7 2; S 0 1; T 1 0; 0 0 10 0206010701610004
record replace 0 0 0206010701610008 @11 => 0 529 00000001
rows => Internal 7 2; S 0 1; T 1 0; 0 0 11 0206010701610008
record replace 0 0 02060107017308FF000004B0 00*1200 @12 => 0 1561 00000001
rows => Internal 7 2; S 0 1; T 1 0; 0 0 12 02060107017308FF000004B0 00*1200
record replace 0 0 02060107017308FF000004B0 00*1200 @13 => 0 1569 00000001
rows => Internal 7 2; S 0 1; T 1 0; 0 0 13 02060107017308FF000004B0 00*1200
reopen
record replace 0 0 020600 @14 => 0 537 00000001
rows => Internal 7 2; S 0 1; T 1 0; 0 0 14 020600
";

#[test]
fn an_entry_is_replaced_over_its_own_object(rt: HostRuntime) -> Result<(), Fail> {
    play::<PlainBook>(rt.alloc(), 13, REPLACED)
}

/// Thirteen blocks take 38 pages: the directory and 37 entries. So an entry cannot grow, but it can
/// change. It grows by two pages, as many as two entries have.
const GROWN: &str = "
make S => 0
fill 0 0 37
replace 0 0 02060107017308FF000004B0 00*1200 => full
replace 0 0 0206010701610004 @9 => 0
remove 0 36 => 0
replace 0 0 02060107017308FF000004B0 00*1200 => full
remove 0 35 => 0
replace 0 0 02060107017308FF000004B0 00*1200 @9 => 0
replace 0 1 02060107017308FF000004B0 00*1200 => full
";

#[test]
fn an_entry_grows_only_where_its_pages_fit(rt: HostRuntime) -> Result<(), Fail> {
    play::<PlainBook>(rt.alloc(), 13, GROWN)
}

/// The text of a number is put where there is nothing, and then in the place of an entry. The
/// refusals come in their order.
const REFUSED: &str = "
make S => 0
make T => 1
add 0 020600 @5 => 0
replace 2 0 020004 => soup
replace 0 1 020004 => entry
replace 1 0 020004 => entry
replace 0 0 020004 => notframe
";

#[test]
fn what_cannot_be_replaced_is_refused(rt: HostRuntime) -> Result<(), Fail> {
    play::<PlainBook>(rt.alloc(), 13, REFUSED)
}

/// The entry grows to three pages, and is one page again, cut by a crash within each call.
const CUT: &str = "
make S => 0
make T => 1
add 0 020600 @5 => 0
resume replace 0 0 02060107017308FF000004B0 00*1200 @6 => 0
resume replace 0 0 0206010701610004 @7 => 0
";

#[test]
fn a_crash_leaves_the_old_entry_or_the_new_one(rt: HostRuntime) -> Result<(), Fail> {
    play::<PlainBook>(rt.alloc(), 13, CUT)
}
