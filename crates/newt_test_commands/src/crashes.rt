//! What a next run finds where the power failed while entries with large binaries were changed.

use newt_host::Unit;
use newt_memhost::Pick;
use newt_test_scripts::{card_after, expect_all_safe, expect_halts, expect_thrown};
use std::test::Fail;

/// What a next run is asked, and how it is told to go on.
const LOOK: &[u8] = b"mount 0
soups 0
get 0 S 0
get 0 S 1
get 0 S 2
vread 0 S 0 v 495 10
vwrite 0 S 0 v 499 5152
get 0 S 0
add 0 S {v: <<wave:07>>}
unmount 0
mount 0
get 0 S 0
soups 0
";

/// What a next run reads, and how it goes on, which tells the next numbers.
const READ: &[u8] = b"mount 0
soups 0
getx 0 S 0
getx 0 S 1
vread 0 S 0 v 0 2
time 5
soup 0 Next
add 0 S {}
add 0 Next {}
";

const PICKS: &[Pick] = &[Pick::Old, Pick::New, Pick::Half, Pick::Fill(0xFF)];

/// Every change of an entry with a large binary of three pages.
const LINES: &str = "
format 0 A 7 => ok
mount 0 => ok 7 A
soup 0 S => ok 0
add 0 S {v: <<wave:*1200>>} => ok 0
vwrite 0 S 0 v 499 4142 => ok
vwrite 0 S 0 v 100 => ok
vwrite 0 S 0 v 1000 43 => ok
set 0 S 0 w <<wave:0102>> => ok
copy 0 S 0 0 S => ok 1
vwrite 0 S 1 w 1 FF => ok
move 0 S 0 0 S => ok 2
change 0 S 1 {v: <<wave:*600>>} => ok
remove 0 S 2 => ok
drop 0 S => ok
";

#[test]
fn leaves_a_store_before_or_after_each_change(rt: HostRuntime) -> Result<(), Fail> {
    expect_all_safe(rt.alloc(), LINES, LOOK, &[Unit(0)], PICKS)
}

/// Each save of a working copy, while a watch notes it.
const SAVES: &str = "
format 0 A 7 => ok
mount 0 => ok 7 A
soup 0 S => ok 0
watch S 2 => ok 0
add 0 S {v: <<wave:*600>>, n: 1} => ok 0
open 0 S 0 => ok 0
edit 0 n 2 => ok
save 0 => ok
edit 0 v <<wave:0102>> => ok
save 0 => ok
set 0 S 0 n 3 => ok
save 0 => error 45 changed 0
revert 0 => ok
edit 0 n 4 => ok
save 0 => ok
notes 0 => ok 3 change 0 0 0, change 0 0 0
";

#[test]
fn leaves_a_store_before_or_after_each_save(rt: HostRuntime) -> Result<(), Fail> {
    expect_all_safe(rt.alloc(), SAVES, LOOK, &[Unit(0)], PICKS)
}

#[test]
fn goes_on_after_each_call_of_a_save_that_fails(rt: HostRuntime) -> Result<(), Fail> {
    if expect_thrown(rt.alloc(), SAVES, READ)? == 0 {
        return Err(Fail::new("no call of a device"));
    }
    Ok(())
}

/// Patches that fill the first bank, so that one of them goes on in the other bank.
const PATCHES: &str = "
format 0 A 7 => ok
mount 0 => ok 7 A
soup 0 S => ok 0
add 0 S {v: <<wave:*1200>>} => ok 0
vwrite 0 S 0 v 499 0101 => ok
vwrite 0 S 0 v 499 0202 => ok
vwrite 0 S 0 v 499 0303 => ok
vwrite 0 S 0 v 499 0404 => ok
vwrite 0 S 0 v 499 0505 => ok
vwrite 0 S 0 v 499 0606 => ok
vwrite 0 S 0 v 499 0707 => ok
vwrite 0 S 0 v 499 0808 => ok
vwrite 0 S 0 v 499 0909 => ok
vwrite 0 S 0 v 499 0A0A => ok
vwrite 0 S 0 v 499 0B0B => ok
vwrite 0 S 0 v 499 0C0C => ok
vwrite 0 S 0 v 499 0D0D => ok
vwrite 0 S 0 v 499 0E0E => ok
vwrite 0 S 0 v 499 0F0F => ok
vwrite 0 S 0 v 499 1010 => ok
vwrite 0 S 0 v 499 1111 => ok
vwrite 0 S 0 v 499 1212 => ok
";

#[test]
fn leaves_a_store_before_or_after_a_patch_while_banks_change(rt: HostRuntime) -> Result<(), Fail> {
    let alloc = rt.alloc();
    let card = card_after(alloc, "run a b", PATCHES)?;
    if card.first() != Some(&1) {
        return Err(Fail::new("no vote for the second bank"));
    }
    expect_all_safe(alloc, PATCHES, LOOK, &[Unit(0)], PICKS)
}

/// A store with a large binary, that is read and overwritten.
const SHORT: &str = "
format 0 A 7 => ok
mount 0 => ok 7 A
soup 0 S => ok 0
add 0 S {v: <<wave:*1200>>} => ok 0
unmount 0 => ok
mount 0 => ok 7 A
vread 0 S 0 v 498 4 => ok 00000000
vwrite 0 S 0 v 499 4142 => ok
get 0 S 1 => error 32 entry
vread 0 S 0 v 498 4 => ok 00414200
";

#[test]
fn halts_at_each_call_that_fails(rt: HostRuntime) -> Result<(), Fail> {
    expect_halts(rt.alloc(), SHORT, LOOK)
}
