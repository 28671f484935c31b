//! Watches: what they note, and what they keep of it. The replies are those of the rules.

use newt_test_scripts::expect;
use std::test::Fail;

/// Each change of a soup of the name is noted, in order, on both cards, and no other change.
const TOLD: &str = "
format 0 A 7 => ok
format 1 B 9 => ok
mount 0 => ok 7 A
mount 1 => ok 9 B
watch S 64 => ok 0
soup 0 S => ok 0
soup 1 T => ok 0
soup 1 S => ok 1
add 0 S {v: <<w:01>>} => ok 0
addx 0 S 020601070161000B => ok 1
addu S {n: 2} => ok 0 2
add 1 T {} => ok 0
set 0 S 1 n 3 => ok
change 0 S 2 {n: 4} => ok
vwrite 0 S 0 v 0 FF => ok
copy 0 S 1 1 S => ok 0
move 0 S 1 1 S => ok 1
move 0 S 2 1 T => ok 1
move 1 T 0 0 S => ok 3
move 1 S 0 1 S => ok 2
remove 0 S 0 => ok
drop 1 S => ok
notes 0 => ok 0 make 0 0, make 1 1, add 0 0 0, add 0 0 1, add 0 0 2, change 0 0 1, change 0 0 2, change 0 0 0, add 1 1 0, add 1 1 1, remove 0 0 1, remove 0 0 2, add 0 0 3, add 1 1 2, remove 1 1 0, remove 0 0 0, drop 1 1
notes 0 => ok 0
";

#[test]
fn tells_each_change_of_its_soups(rt: HostRuntime) -> Result<(), Fail> {
    expect(rt.alloc(), "run a b", TOLD)
}

/// What is refused, shown or declared is no change of a soup.
const UNTOLD: &str = "
format 0 A 7 => ok
mount 0 => ok 7 A
soup 0 S => ok 0
watch S 8 => ok 0
soup 0 S => error 31 exists
add 0 S 5 => error 37 notframe
add 0 T {} => error 30 soup
set 0 S 0 a 1 => error 32 entry
remove 0 S 0 => error 32 entry
index 0 S k:string:ascend => ok
tags 0 S t a b => ok
info 0 S {n: 1} => ok
query 0 S {indexPath: 'k} => ok 0
next 0 => ok nil
soups 0 => ok S 0 0
unmount 0 => ok
add 0 S {} => error 25 notmounted
mount 0 => ok 7 A
default 0 => ok
time 5 => ok
notes 0 => ok 0
";

#[test]
fn tells_nothing_of_what_is_no_change(rt: HostRuntime) -> Result<(), Fail> {
    expect(rt.alloc(), "run a", UNTOLD)
}

/// The last notes are kept, and the others counted. Once they are taken, the count begins again
/// from nothing.
const LOST: &str = "
format 0 A 7 => ok
mount 0 => ok 7 A
soup 0 S => ok 0
watch S 3 => ok 0
watch S 1 => ok 1
add 0 S {} => ok 0
add 0 S {} => ok 1
notes 0 => ok 0 add 0 0 0, add 0 0 1
add 0 S {} => ok 2
add 0 S {} => ok 3
add 0 S {} => ok 4
notes 0 => ok 0 add 0 0 2, add 0 0 3, add 0 0 4
add 0 S {} => ok 5
add 0 S {} => ok 6
add 0 S {} => ok 7
add 0 S {} => ok 8
add 0 S {} => ok 9
notes 0 => ok 2 add 0 0 7, add 0 0 8, add 0 0 9
notes 0 => ok 0
notes 1 => ok 9 add 0 0 9
notes 1 => ok 0
";

#[test]
fn keeps_the_last_notes_and_counts_those_it_lost(rt: HostRuntime) -> Result<(), Fail> {
    expect(rt.alloc(), "run a", LOST)
}

/// There are eight watches, and a number is free again once its watch is taken away.
const PLACES: &str = "
watch S 1 => ok 0
watch S 2 => ok 1
watch \"S\" 3 => ok 2
watch S 4 => ok 3
watch S 5 => ok 4
watch S 6 => ok 5
watch S 7 => ok 6
watch T 64 => ok 7
watch T 64 => error 36 limit
unwatch 3 => ok
unwatch 3 => error 47 watch
notes 3 => error 47 watch
unwatch 1 => ok
watch U 64 => ok 1
watch U 64 => ok 3
watch U 64 => error 36 limit
watch U 0 => error 11 line
watch U 65 => error 11 line
watch U => error 11 line
notes 8 => error 11 line
notes => error 11 line
unwatch 8 => error 11 line
";

#[test]
fn has_eight_watches(rt: HostRuntime) -> Result<(), Fail> {
    expect(rt.alloc(), "run a", PLACES)
}

/// A watch of two notes over five changes, its soup dropped, and what is no watch.
const TWO: &str = "
format 0 A 7 => ok
mount 0 => ok 7 A
soup 0 S => ok 0
watch S 2 => ok 0
add 0 S {} => ok 0
add 0 S {} => ok 1
add 0 S {} => ok 2
remove 0 S 1 => ok
notes 0 => ok 2 add 0 0 2, remove 0 0 1
notes 0 => ok 0
drop 0 S => ok
notes 0 => ok 0 drop 0 0
notes 5 => error 47 watch
watch S 0 => error 11 line
";

#[test]
fn keeps_two_notes(rt: HostRuntime) -> Result<(), Fail> {
    expect(rt.alloc(), "run a", TWO)
}

/// A walk over the union of two cards, of which one comes, goes and comes back, and a move from the
/// one to the other, which a watch is told of.
const MOVED: &str = "
format 0 A 7 => ok
format 1 B 9 => ok
mount 0 => ok 7 A
mount 1 => ok 9 B
soup 0 N => ok 0
soup 1 N => ok 0
index 0 N k:string:ascend => ok
index 1 N k:string:ascend => ok
add 0 N {k: \"a\"} => ok 0
add 0 N {k: \"m\"} => ok 1
add 1 N {k: \"m\"} => ok 0
add 1 N {k: \"z\"} => ok 1
unmount 1 => ok
query * N {indexPath: 'k, beginExclKey: \"a\"} => ok 0
entry 0 => ok 0 1 0 {k: \"m\"}
mount 1 => ok 9 B
next 0 => ok 1 0 0 {k: \"m\"}
next 0 => ok 1 1 0 {k: \"z\"}
next 0 => ok nil
which 0 => ok end
query * N {indexPath: 'k, beginExclKey: \"m\"} => ok 1
count 1 => ok 1
alias 1 N 1 => ok [alias: 9, 0, 1]
unmount 1 => ok
prev 0 => ok 0 1 0 {k: \"m\"}
resolve [alias: 9, 0, 1] => ok nil
mount 1 => ok 9 B
resolve [alias: 9, 0, 1] => ok 1 N 1
watch N 8 => ok 0
move 0 N 0 1 N => ok 2
notes 0 => ok 0 add 1 0 2, remove 0 0 0
";

#[test]
fn tells_a_move_between_two_cards(rt: HostRuntime) -> Result<(), Fail> {
    expect(rt.alloc(), "run a b", MOVED)
}

/// Nine watches of one name.
const NINE: &str = "
format 0 A 7 => ok
mount 0 => ok 7 A
soup 0 S => ok 0
watch S 2 => ok 0
watch S 2 => ok 1
watch S 2 => ok 2
watch S 2 => ok 3
watch S 2 => ok 4
watch S 2 => ok 5
watch S 2 => ok 6
watch S 2 => ok 7
watch S 2 => error 36 limit
add 0 S {} => ok 0
notes 7 => ok 0 add 0 0 0
";

#[test]
fn a_ninth_watch_is_refused(rt: HostRuntime) -> Result<(), Fail> {
    expect(rt.alloc(), "run a", NINE)
}
