//! Watches and working copies where a card fails: what was not done is not noted, and a copy stays.

use crate::thrown::{Place, expect_each_failing, expect_failing};
use newt_host::Unit;
use std::test::Fail;

/// The bytes of an entry do not come onto the card, and nothing is noted.
const NOT_ADDED: &str = "
format 0 A 7 => ok
mount 0 => ok 7 A
soup 0 S => ok 0
watch S 8 => ok 0
add 0 S {} => error 50 device 0
notes 0 => ok 0
mount 0 => ok 7 A
add 0 S {} => ok 0
notes 0 => ok 0 add 0 0 0
";

/// An entry is on its new card, and could not be taken from the other. Only the add is noted.
const MOVED: &str = "
format 0 A 7 => ok
format 1 B 9 => ok
mount 0 => ok 7 A
mount 1 => ok 9 B
soup 0 N => ok 0
soup 1 N => ok 0
add 0 N {k: 1} => ok 0
watch N 8 => ok 0
move 0 N 0 1 N => error 50 device 0
notes 0 => ok 0 add 1 0 0
get 1 N 0 => ok 0 {k: 1}
";

#[test]
fn tells_what_was_done_before_a_card_failed(rt: HostRuntime) -> Result<(), Fail> {
    let alloc = rt.alloc();
    expect_each_failing(alloc, NOT_ADDED, Unit(0), 4, 7)?;
    expect_failing(alloc, MOVED, Unit(0), 8, Place::FromLast(1))
}

/// A save does not come onto the card. The draft stays, and is saved once the card is back.
const NOT_SAVED: &str = "
format 0 A 7 => ok
mount 0 => ok 7 A
soup 0 S => ok 0
add 0 S {n: 1} => ok 0
open 0 S 0 => ok 0
edit 0 n 2 => ok
watch S 8 => ok 0
save 0 => error 50 device 0
draft 0 => ok {n: 2}
save 0 => error 32 entry
revert 0 => error 32 entry
mount 0 => ok 7 A
get 0 S 0 => ok 0 {n: 1}
save 0 => ok
notes 0 => ok 0 change 0 0 0
";

/// A save comes onto the card, and the last sync fails: then the entry is not as the copy's base.
const SAVED: &str = "
format 0 A 7 => ok
mount 0 => ok 7 A
soup 0 S => ok 0
add 0 S {n: 1} => ok 0
open 0 S 0 => ok 0
edit 0 n 2 => ok
watch S 8 => ok 0
save 0 => error 50 device 0
mount 0 => ok 7 A
get 0 S 0 => ok 0 {n: 2}
save 0 => error 45 changed 0
revert 0 => ok
save 0 => ok
notes 0 => ok 0 change 0 0 0
";

#[test]
fn a_copy_outlives_its_card(rt: HostRuntime) -> Result<(), Fail> {
    let alloc = rt.alloc();
    expect_each_failing(alloc, NOT_SAVED, Unit(0), 7, 6)?;
    expect_failing(alloc, SAVED, Unit(0), 7, Place::FromLast(0))
}
