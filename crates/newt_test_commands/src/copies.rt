//! Working copies: opened, edited apart, and saved over what was read. The replies are those of the
//! rules.

use newt_test_scripts::expect;
use std::test::Fail;

/// Two copies of one entry. The second save is refused, with the minute of the entry, until its
/// copy begins again from the entry as it is.
const SAVED: &str = "
format 0 A 7 => ok
mount 0 => ok 7 A
soup 0 S => ok 0
time 5 => ok
add 0 S {a: 1} => ok 0
watch S 8 => ok 0
open 0 S 0 => ok 0
open 0 S 0 => ok 1
edit 0 a 2 => ok
draft 0 => ok {a: 2}
time 6 => ok
save 0 => ok
save 0 => ok
edit 1 a 3 => ok
save 1 => error 45 changed 6
draft 1 => ok {a: 3}
revert 1 => ok
draft 1 => ok {a: 2}
edit 1 a 3 => ok
edit 1 b {c: nil} => ok
edit 1 b.c \"x\" => ok
time 7 => ok
save 1 => ok
get 0 S 0 => ok 7 {a: 3, b: {c: \"x\"}}
save 0 => error 45 changed 7
notes 0 => ok 0 change 0 0 0, change 0 0 0, change 0 0 0
";

#[test]
fn saves_only_over_what_was_read(rt: HostRuntime) -> Result<(), Fail> {
    expect(rt.alloc(), "run a", SAVED)
}

/// A change that is undone leaves the graph and not the minute; one within a minute leaves neither.
const SAME: &str = "
format 0 A 7 => ok
mount 0 => ok 7 A
soup 0 S => ok 0
add 0 S {a: 1} => ok 0
open 0 S 0 => ok 0
set 0 S 0 a 2 => ok
save 0 => error 45 changed 0
set 0 S 0 a 1 => ok
save 0 => ok
time 1 => ok
set 0 S 0 a 2 => ok
set 0 S 0 a 1 => ok
save 0 => error 45 changed 1
revert 0 => ok
save 0 => ok
vwrite 0 S 0 a 0 00 => error 38 path
discard 0 => ok
discard 0 => error 46 copy
save 0 => error 46 copy
";

#[test]
fn compares_the_minute_and_the_graph(rt: HostRuntime) -> Result<(), Fail> {
    expect(rt.alloc(), "run a", SAME)
}

/// A copy names its entry by its alias. It outlives the card that is away, and not an entry that is
/// removed or moved.
const AWAY: &str = "
format 0 A 7 => ok
format 1 B 9 => ok
mount 0 => ok 7 A
mount 1 => ok 9 B
soup 0 S => ok 0
soup 1 S => ok 0
add 0 S {a: 1} => ok 0
add 0 S {a: 2} => ok 1
open 0 S 0 => ok 0
open 0 S 1 => ok 1
edit 0 a 5 => ok
unmount 0 => ok
save 0 => error 32 entry
revert 0 => error 32 entry
edit 0 b 6 => ok
draft 0 => ok {a: 5, b: 6}
mount 0 => ok 7 A
save 0 => ok
get 0 S 0 => ok 0 {a: 5, b: 6}
move 0 S 0 1 S => ok 0
save 0 => error 32 entry
draft 0 => ok {a: 5, b: 6}
remove 0 S 1 => ok
revert 1 => error 32 entry
draft 1 => ok {a: 2}
drop 0 S => ok
soup 0 S => ok 1
add 0 S {a: 1} => ok 0
save 0 => error 32 entry
revert 0 => error 32 entry
";

#[test]
fn keeps_a_copy_while_its_card_is_away(rt: HostRuntime) -> Result<(), Fail> {
    expect(rt.alloc(), "run a b", AWAY)
}

/// The refusals, each before the next, and each without a change.
const REFUSED: &str = "
open 0 S 0 => error 25 notmounted
format 0 A 7 => ok
open 0 S 0 => error 25 notmounted
mount 0 => ok 7 A
open 0 S 0 => error 30 soup
soup 0 S => ok 0
open 0 S 0 => error 32 entry
add 0 S {a: 1} => ok 0
open 0 S 0 => ok 0
edit 0 q.x 1 => error 38 path
edit 0 a.x 1 => error 38 path
edit 0 a <b => error 3 literal
edit 1 a <b => error 3 literal
edit 1 a 2 => error 46 copy
edit 0 t \"~0*40000~\" => error 34 size
draft 0 => ok {a: 1}
edit 0 b {c: 1} => ok
edit 0 b.c ~[*199~nil~]*199~ => error 36 limit
draft 0 => ok {a: 1, b: {c: 1}}
discard 0 => ok
open 0 S 0 => ok 0
edit 0 v <<w:*100000>> => ok
save 0 => error 33 full
get 0 S 0 => ok 0 {a: 1}
edit 0 v nil => ok
save 0 => ok
get 0 S 0 => ok 0 {a: 1, v: nil}
draft 1 => error 46 copy
save 1 => error 46 copy
revert 1 => error 46 copy
discard 1 => error 46 copy
draft 16 => error 11 line
edit 16 a 1 => error 11 line
edit 0 a => error 11 line
save => error 11 line
revert 0 0 => error 11 line
discard -1 => error 11 line
open 8 S 0 => error 11 line
open 0 S 0 0 => error 11 line
";

#[test]
fn refuses_without_a_change(rt: HostRuntime) -> Result<(), Fail> {
    expect(rt.alloc(), "run a", REFUSED)
}

/// There are sixteen copies, and a number is free again once its copy is discarded.
const PLACES: &str = "
format 0 A 7 => ok
mount 0 => ok 7 A
soup 0 S => ok 0
add 0 S {} => ok 0
open 0 S 0 => ok 0
open 0 S 0 => ok 1
open 0 S 0 => ok 2
open 0 S 0 => ok 3
open 0 S 0 => ok 4
open 0 S 0 => ok 5
open 0 S 0 => ok 6
open 0 S 0 => ok 7
open 0 S 0 => ok 8
open 0 S 0 => ok 9
open 0 S 0 => ok 10
open 0 S 0 => ok 11
open 0 S 0 => ok 12
open 0 S 0 => ok 13
open 0 S 0 => ok 14
open 0 S 0 => ok 15
open 0 S 0 => error 36 limit
open 0 S 1 => error 32 entry
discard 3 => ok
discard 12 => ok
open 0 S 0 => ok 3
open 0 S 0 => ok 12
open 0 S 0 => error 36 limit
save 15 => ok
draft 15 => ok {}
";

#[test]
fn has_sixteen_copies(rt: HostRuntime) -> Result<(), Fail> {
    expect(rt.alloc(), "run a", PLACES)
}

/// Two copies of one entry within one minute, saved in turn, and what is no copy.
const TWO: &str = "
format 0 A 7 => ok
mount 0 => ok 7 A
soup 0 S => ok 0
time 5 => ok
add 0 S {a: 1} => ok 0
open 0 S 0 => ok 0
open 0 S 0 => ok 1
edit 0 a 2 => ok
draft 0 => ok {a: 2}
save 0 => ok
edit 1 a 3 => ok
save 1 => error 45 changed 5
revert 1 => ok
draft 1 => ok {a: 2}
edit 1 a 3 => ok
save 1 => ok
get 0 S 0 => ok 5 {a: 3}
save 0 => error 45 changed 5
edit 1 q.x 1 => error 38 path
remove 0 S 0 => ok
save 1 => error 32 entry
draft 9 => error 46 copy
draft 16 => error 11 line
";

#[test]
fn saves_in_turn_within_a_minute(rt: HostRuntime) -> Result<(), Fail> {
    expect(rt.alloc(), "run a", TWO)
}
