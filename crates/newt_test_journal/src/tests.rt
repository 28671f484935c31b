//! Journals on a card in memory.
use crate::rows::{play, play_and_mend, play_old};
use std::test::Fail;

#[test]
fn votes_choose_a_bank(rt: HostRuntime) -> Result<(), Fail> {
    play(
        &rt,
        rt.alloc(),
        13,
        0x5A,
        "replace second
reads => second
reads 0=0 4096=1 8192=1 => second
reads 0=0 4096=1 8192=255 => first
reads 0=1 4096=255 8192=0 => second
reads 0=255 4096=1 8192=1 => second
reads 0=255 4096=1 8192=0 => no journal",
    )
}

/// The second bank begins at block 8, which is at byte 32768; its one record has its gate at byte
/// 16. The card ends at byte 53248.
#[test]
fn records_end_at_a_gate_that_is_not_open(rt: HostRuntime) -> Result<(), Fail> {
    play(
        &rt,
        rt.alloc(),
        13,
        0x5A,
        "replace second
reads 0=0 => second
reads 32784=255 => no record
reads 32784=1 => no record
reads 32768=88 => no journal
reads 32785=1 => no journal
reads 53247=0 => second",
    )
}

/// The last record that is appended ends with the bank.
#[test]
fn a_crash_leaves_the_records_before_or_after(rt: HostRuntime) -> Result<(), Fail> {
    play_and_mend(
        &rt,
        rt.alloc(),
        "append 1*4096
cut
append 2*4096
cut
append 3*4096
cut
append 4*4096
cut
append 5*4045
cut
room => 0
reads => first 1*4096 2*4096 3*4096 4*4096 5*4045
replace whole
cut",
        "repair
cut few
replace mended
cut few",
    )
}

#[test]
fn works_on_the_least_and_on_the_greatest_unit(rt: HostRuntime) -> Result<(), Fail> {
    let alloc = rt.alloc();
    play(
        &rt,
        alloc,
        13,
        0,
        "room => 20449
append second
reads => first second
replace third
reads => third",
    )?;
    play(
        &rt,
        alloc,
        4099,
        0,
        "room => 8388577
append second
reads => first second
replace third
reads => third",
    )
}

#[test]
fn a_commit_with_room_syncs_twice_and_erases_nothing(rt: HostRuntime) -> Result<(), Fail> {
    play(
        &rt,
        rt.alloc(),
        13,
        0x5A,
        "append second
erases => 0
syncs => 2
append 1*4096
erases => 0
syncs => 2",
    )
}

/// The least unit has three votes and two banks of five blocks.
#[test]
fn a_switch_and_a_format_erase_their_bank_and_the_votes_once(rt: HostRuntime) -> Result<(), Fail> {
    play(
        &rt,
        rt.alloc(),
        13,
        0x5A,
        "erases => 8
replace second
erases => 8
replace third
erases => 8
append fourth
replace fifth
erases => 8",
    )
}

/// The second bank is from byte 32768 to the end of the card at byte 53248.
#[test]
fn a_format_leaves_the_other_bank(rt: HostRuntime) -> Result<(), Fail> {
    play(
        &rt,
        rt.alloc(),
        13,
        0x5A,
        "all 32768 53248 => 90
append second
all 32768 53248 => 90
replace third
reads => third",
    )
}

/// The first bank begins at byte 12288, with the version in its bytes 6 and 7.
#[test]
fn a_bank_has_version_1_or_2(rt: HostRuntime) -> Result<(), Fail> {
    play(
        &rt,
        rt.alloc(),
        13,
        0x5A,
        "version => 2
reads 12295=1 => first
reads 12295=0 => no journal
reads 12295=3 => no journal
reads 12294=1 12295=0 => no journal
reads 12294=1 => no journal
reads 12295=1 12296=1 => no journal
replace second
version => 2
reads 32775=1 => second
reads 32775=0 => no journal",
    )
}

/// An old bank takes no record, although what stands after it is blank.
#[test]
fn the_first_commit_on_an_old_bank_is_a_switch(rt: HostRuntime) -> Result<(), Fail> {
    play_old(
        &rt,
        rt.alloc(),
        "version => 1
room => 0
reads => first
repair
version => 1
cut
replace second
version => 2
erases => 8
room => 20448
reads => second
cut",
        "repair
cut few
replace mended
version => 2
cut few",
    )
}
