//! Commands on units, with replies that were written by hand.

use newt_test_scripts::{blocks, card_after, expect, run_table_on};
use newt_top::Status;
use std::process::Abort;
use std::test::Fail;

/// A unit is formatted, mounted and taken away.
const MOUNTED: &str = "
mount 0 => error 22 nostore
format 0 Internal 7 => ok
mount 0 => ok 7 Internal
mount 0 => error 21 mounted
format 0 Again 8 => error 21 mounted
unmount 0 => ok
format 0 Again 8 => error 26 store
mount 1 => error 20 unit
";

#[test]
fn formats_and_mounts_a_unit(rt: HostRuntime) -> Result<(), Fail> {
    expect(rt.alloc(), "run a", MOUNTED)
}

/// The first record of a bank: a store of this name and signature without soups.
const FIRST_RECORD: &[u8] =
    b"NSTORE\x00\x02\x00\x00\x00\x00\x00\x00\x00\x00\x00\x00\x00\x02\x08\x00\x01\x00\x00\x00\x00\x00\x00\x00\x00\x00\x00\x00\x00\x00\x00\x00\x00\x00\x10\x08Internal\x00\x00\x00\x07\x00\x00\x00";

fn are_all(bytes: &[u8], byte: u8) -> bool {
    for other in bytes {
        if *other != byte {
            return false;
        }
    }
    true
}

/// Whether the first bank of a unit of 13 blocks has the first record alone, and the votes are for
/// it.
fn is_fresh(image: &[u8]) -> bool {
    if image.len() != 53_248 {
        return false;
    }
    let (votes, banks) = image.split_at(12_288);
    let (record, rest) = banks.split_at(57);
    let (zeros, rest) = rest.split_at(484);
    let (tail, _) = rest.split_at(19_939);
    let votes = [votes[0], votes[4096], votes[8192]];
    votes == [0, 0, 0] && record == FIRST_RECORD && are_all(zeros, 0) && are_all(tail, 0xFF)
}

#[test]
fn writes_a_store_where_the_formats_say(rt: HostRuntime) -> Result<(), Fail> {
    let alloc = rt.alloc();
    let card = card_after(alloc, "run a", "format 0 Internal 7 => ok")?;
    assert!(rt; is_fresh(&card));
    Ok(())
}

/// A unit of 13 blocks has a page for the directory and 37 for entries.
const FULL: &str = "
format 0 Internal 7 => ok
mount 0 => ok 7 Internal
soup 0 S => ok 0
add 0 S {} => ok 0
add 0 S {} => ok 1
add 0 S {} => ok 2
add 0 S {} => ok 3
add 0 S {} => ok 4
add 0 S {} => ok 5
add 0 S {} => ok 6
add 0 S {} => ok 7
add 0 S {} => ok 8
add 0 S {} => ok 9
add 0 S {} => ok 10
add 0 S {} => ok 11
add 0 S {} => ok 12
add 0 S {} => ok 13
add 0 S {} => ok 14
add 0 S {} => ok 15
add 0 S {} => ok 16
add 0 S {} => ok 17
add 0 S {} => ok 18
add 0 S {} => ok 19
add 0 S {} => ok 20
add 0 S {} => ok 21
add 0 S {} => ok 22
add 0 S {} => ok 23
add 0 S {} => ok 24
add 0 S {} => ok 25
add 0 S {} => ok 26
add 0 S {} => ok 27
add 0 S {} => ok 28
add 0 S {} => ok 29
add 0 S {} => ok 30
add 0 S {} => ok 31
add 0 S {} => ok 32
add 0 S {} => ok 33
add 0 S {} => ok 34
add 0 S {} => ok 35
add 0 S {} => ok 36
add 0 S {} => error 33 full
get 0 S 0 => ok 0 {}
remove 0 S 0 => ok
add 0 S {} => ok 37
get 0 S 0 => error 32 entry
soups 0 => ok S 0 37
";

#[test]
fn fills_a_unit(rt: HostRuntime) -> Result<(), Fail> {
    expect(rt.alloc(), "run a", FULL)
}

/// Names with spaces, and lines without their form.
const NAMES: &str = "
format 0 \"My Store\" 0 => ok
mount 0 => ok 0 \"My Store\"
soup 0 \"To Do List\" => ok 0
soup 0 \"To Do List\" => error 31 exists
soups 0 => ok \"To Do List\" 0 0
get 0 S => error 11 line
quit now => error 11 line
stores => ok 0 0 \"My Store\"
";

#[test]
fn takes_names_with_spaces_and_refuses_lines_without_their_form(
    rt: HostRuntime,
) -> Result<(), Fail> {
    expect(rt.alloc(), "run a", NAMES)
}

/// Of three units the second has a device.
const SECOND: &str = "
mount 0 => error 20 unit
mount 1 => error 22 nostore
mount 2 => error 20 unit
format 1 Card 3 => ok
mount 1 => ok 3 Card
";

#[test]
fn attaches_only_devices_that_are_there(rt: HostRuntime) -> Result<(), Fail> {
    expect(rt.alloc(), "run other a third", SECOND)
}

/// A device of too few blocks, or of too many.
const WRONG: &str = "
format 0 A 1 => error 27 blocks
mount 0 => error 27 blocks
unmount 0 => error 25 notmounted
";

#[test]
fn refuses_devices_of_a_wrong_size(rt: HostRuntime) -> Result<(), Fail> {
    let alloc = rt.alloc();
    for count in [0u32, 1, 12, 4100] {
        run_table_on(alloc, "run a", WRONG, &blocks(alloc, count)?, &[])?;
    }
    Ok(())
}

/// The default store goes, and there is another.
const DEFAULTS: &str = "
addu S {} => error 25 notmounted
format 0 A 7 => ok
format 1 B 7 => ok
default 1 => error 25 notmounted
mount 1 => ok 7 B
mount 0 => error 24 signature
soup 1 S => ok 0
addu S {} => ok 1 0
unmount 1 => ok
addu S {} => error 25 notmounted
mount 0 => ok 7 A
soup 0 S => ok 0
addu S {} => ok 0 0
stores => ok 0 7 A
";

#[test]
fn passes_the_default_store_on(rt: HostRuntime) -> Result<(), Fail> {
    expect(rt.alloc(), "run a b", DEFAULTS)
}

/// What is refused, in order.
const REFUSED: &str = "
add 2 S x => error 3 literal
add 2 S {} => error 20 unit
addx 2 S 02 => error 1 malformed
add 0 S 1 => error 25 notmounted
format 0 A 7 => ok
mount 0 => ok 7 A
add 0 S 1 => error 30 soup
soup 0 S => ok 0
add 0 S 1 => error 37 notframe
add 0 S <<wave:*1>> => error 37 notframe
addu S {v: <<wave:*1000000>>} => error 33 full
get 0 S 0 => error 32 entry
getx 0 T 0 => error 30 soup
remove 0 S 0 => error 32 entry
copy 0 S 0 1 S => error 25 notmounted
copy 0 S 0 2 S => error 20 unit
move 0 S 0 0 T => error 30 soup
move 0 S 0 0 S => error 32 entry
drop 0 T => error 30 soup
alias 0 S 0 => error 32 entry
resolve 1 => error 41 spec
resolve [alias: 7, 0] => error 41 spec
resolve [alias: 7, 0, 0] => ok nil
resolve => error 11 line
soups 0 => ok S 0 0
index 0 S k:int:ascend => ok
";

#[test]
fn refuses_in_order(rt: HostRuntime) -> Result<(), Fail> {
    expect(rt.alloc(), "run a b", REFUSED)
}

/// More devices than stores can be mounted.
const FIVE: &str = "
format 0 A 1 => ok
format 1 B 2 => ok
format 2 C 3 => ok
format 3 D 4 => ok
format 4 E 5 => ok
mount 3 => ok 4 D
mount 0 => ok 1 A
mount 1 => ok 2 B
mount 2 => ok 3 C
mount 4 => error 23 stores
stores => ok 0 1 A, 1 2 B, 2 3 C, 3 4 D
soup 4 S => error 25 notmounted
soup 3 S => ok 0
addu S {n: 1} => ok 3 0
unmount 3 => ok
addu S {n: 2} => error 30 soup
mount 4 => ok 5 E
mount 3 => error 23 stores
format 3 D 5 => error 26 store
unmount 0 => ok
mount 3 => ok 4 D
get 3 S 0 => ok 0 {n: 1}
stores => ok 1 2 B, 2 3 C, 3 4 D, 4 5 E
";

#[test]
fn mounts_four_of_five_stores(rt: HostRuntime) -> Result<(), Fail> {
    expect(rt.alloc(), "run a b c d e", FIVE)
}
