//! Walks over what changes, and at the limits, with replies that were written by hand.

use newt_test_scripts::expect;
use std::test::Fail;

/// All 32 cursors are open.
const MANY: &str = "
format 0 A 7 => ok
mount 0 => ok 7 A
soup 0 S => ok 0
index 0 S k:int:ascend => ok
add 0 S {k: 1} => ok 0
add 0 S {k: 2} => ok 1
query 0 S {indexPath: 'k} => ok 0
query 0 S {indexPath: 'k} => ok 1
query 0 S {indexPath: 'k} => ok 2
query 0 S {indexPath: 'k} => ok 3
query 0 S {indexPath: 'k} => ok 4
query 0 S {indexPath: 'k} => ok 5
query 0 S {indexPath: 'k} => ok 6
query 0 S {indexPath: 'k} => ok 7
query 0 S {indexPath: 'k} => ok 8
query 0 S {indexPath: 'k} => ok 9
query 0 S {indexPath: 'k} => ok 10
query 0 S {indexPath: 'k} => ok 11
query 0 S {indexPath: 'k} => ok 12
query 0 S {indexPath: 'k} => ok 13
query 0 S {indexPath: 'k} => ok 14
query 0 S {indexPath: 'k} => ok 15
query 0 S {indexPath: 'k} => ok 16
query 0 S {indexPath: 'k} => ok 17
query 0 S {indexPath: 'k} => ok 18
query 0 S {indexPath: 'k} => ok 19
query 0 S {indexPath: 'k} => ok 20
query 0 S {indexPath: 'k} => ok 21
query 0 S {indexPath: 'k} => ok 22
query 0 S {indexPath: 'k} => ok 23
query 0 S {indexPath: 'k} => ok 24
query 0 S {indexPath: 'k} => ok 25
query 0 S {indexPath: 'k} => ok 26
query 0 S {indexPath: 'k} => ok 27
query 0 S {indexPath: 'k} => ok 28
query 0 S {indexPath: 'k} => ok 29
query 0 S {indexPath: 'k} => ok 30
clone 0 => ok 31
query 0 S {} => error 36 limit
clone 31 => error 36 limit
next 31 => ok 0 1 0 {k: 2}
entry 30 => ok 0 0 0 {k: 1}
remove 0 S 0 => ok
entry 30 => ok deleted
next 30 => ok 0 1 0 {k: 2}
entry 31 => ok 0 1 0 {k: 2}
close 7 => ok
entry 7 => error 42 cursor
clone 31 => ok 7
entry 7 => ok 0 1 0 {k: 2}
close 32 => error 11 line
";

#[test]
fn opens_all_cursors(rt: HostRuntime) -> Result<(), Fail> {
    expect(rt.alloc(), "run a b c d", MANY)
}

/// Two cursors on one entry that moves.
const TOGETHER: &str = "
format 0 A 7 => ok
mount 0 => ok 7 A
soup 0 S => ok 0
index 0 S k:int:ascend => ok
add 0 S {k: 1} => ok 0
add 0 S {k: 2} => ok 1
add 0 S {k: 3} => ok 2
query 0 S {indexPath: 'k} => ok 0
next 0 => ok 0 1 0 {k: 2}
clone 0 => ok 1
time 4 => ok
set 0 S 1 k 9 => ok
entry 0 => ok 0 1 4 {k: 9}
entry 1 => ok 0 1 4 {k: 9}
next 0 => ok nil
prev 1 => ok 0 2 0 {k: 3}
which 0 => ok end
which 1 => ok nil
copy 0 S 1 0 S => ok 3
prev 0 => ok 0 3 4 {k: 9}
count 1 => ok 4
";

#[test]
fn moves_two_cursors_with_their_entry(rt: HostRuntime) -> Result<(), Fail> {
    expect(rt.alloc(), "run a b c d", TOGETHER)
}

/// A store goes from under its cursors and comes back.
const AWAY: &str = "
format 0 A 7 => ok
format 1 B 9 => ok
mount 0 => ok 7 A
mount 1 => ok 9 B
soup 0 S => ok 0
soup 1 S => ok 0
add 0 S {n: 0} => ok 0
add 1 S {n: 1} => ok 0
add 1 S {n: 2} => ok 1
query * S {} => ok 0
query 1 S {} => ok 1
end 0 => ok 1 1 0 {n: 2}
unmount 1 => ok
entry 0 => ok deleted
entry 1 => ok deleted
count 0 => ok 1
count 1 => ok 0
which 1 => ok nil
mount 1 => ok 9 B
entry 0 => ok 1 1 0 {n: 2}
entry 1 => ok 1 0 0 {n: 1}
next 1 => ok 1 1 0 {n: 2}
prev 0 => ok 1 0 0 {n: 1}
prev 0 => ok 0 0 0 {n: 0}
drop 1 S => ok
entry 1 => ok deleted
next 0 => ok nil
";

#[test]
fn walks_on_when_a_store_comes_back(rt: HostRuntime) -> Result<(), Fail> {
    expect(rt.alloc(), "run a b c d", AWAY)
}

/// The index of a walk is removed under it, and declared again.
const UNINDEXED: &str = "
format 0 A 7 => ok
mount 0 => ok 7 A
soup 0 S => ok 0
index 0 S k:int:ascend => ok
add 0 S {k: 1} => ok 0
add 0 S {k: 2} => ok 1
query 0 S {indexPath: 'k} => ok 0
next 0 => ok 0 1 0 {k: 2}
unindex 0 S k => ok
entry 0 => ok deleted
count 0 => ok 0
query 0 S {indexPath: 'k} => error 40 index
index 0 S k:int:descend => ok
entry 0 => ok deleted
query 0 S {indexPath: 'k} => ok 1
entry 1 => ok 0 1 0 {k: 2}
unindex 0 S k => ok
set 0 S 1 k 0 => ok
index 0 S k:int:ascend => ok
entry 0 => ok 0 1 0 {k: 0}
next 0 => ok 0 0 0 {k: 1}
entry 1 => ok deleted
";

#[test]
fn stands_on_no_entry_without_its_index(rt: HostRuntime) -> Result<(), Fail> {
    expect(rt.alloc(), "run a b c d", UNINDEXED)
}

/// Four stores whose entries have one key.
const FOUR: &str = "
format 0 A 7 => ok
mount 0 => ok 7 A
soup 0 N => ok 0
index 0 N k:int:ascend => ok
add 0 N {k: 1} => ok 0
format 1 B 9 => ok
mount 1 => ok 9 B
soup 1 N => ok 0
index 1 N k:int:ascend => ok
add 1 N {k: 1} => ok 0
format 2 C 3 => ok
mount 2 => ok 3 C
soup 2 N => ok 0
index 2 N k:int:ascend => ok
add 2 N {k: 1} => ok 0
format 3 D 5 => ok
mount 3 => ok 5 D
soup 3 N => ok 0
index 3 N k:int:ascend => ok
add 3 N {k: 1} => ok 0
query * N {indexPath: 'k} => ok 0
entry 0 => ok 2 0 0 {k: 1}
next 0 => ok 3 0 0 {k: 1}
next 0 => ok 0 0 0 {k: 1}
next 0 => ok 1 0 0 {k: 1}
next 0 => ok nil
prev 0 => ok 1 0 0 {k: 1}
reset 0 => ok 2 0 0 {k: 1}
end 0 => ok 1 0 0 {k: 1}
count 0 => ok 4
reset 0 => ok 2 0 0 {k: 1}
unmount 3 => ok
next 0 => ok 0 0 0 {k: 1}
goto 0 3 0 => error 25 notmounted
goto 0 1 0 => ok 1 0 0 {k: 1}
goto 0 1 1 => error 32 entry
gotokey 0 1 => ok 2 0 0 {k: 1}
gotokey 0 2 => ok nil
prev 0 => ok 1 0 0 {k: 1}
count 0 => ok 3
";

#[test]
fn walks_over_four_stores(rt: HostRuntime) -> Result<(), Fail> {
    expect(rt.alloc(), "run a b c d", FOUR)
}

/// Steps past both ends, and to a key.
const ENDS: &str = "
format 0 A 7 => ok
mount 0 => ok 7 A
soup 0 S => ok 0
index 0 S k:int:ascend => ok
add 0 S {k: 1} => ok 0
add 0 S {k: 2} => ok 1
add 0 S {k: 3} => ok 2
query 0 S {indexPath: 'k} => ok 0
moveby 0 2 => ok 0 2 0 {k: 3}
moveby 0 -1 => ok 0 1 0 {k: 2}
moveby 0 5 => ok nil
which 0 => ok end
moveby 0 -2 => ok 0 1 0 {k: 2}
moveby 0 -10 => ok nil
which 0 => ok begin
moveby 0 3 => ok 0 2 0 {k: 3}
moveby 0 0 => ok 0 2 0 {k: 3}
moveby 0 2147483647 => ok nil
moveby 0 -2147483648 => ok nil
which 0 => ok begin
moveby 0 2147483648 => error 11 line
gotokey 0 2 => ok 0 1 0 {k: 2}
gotokey 0 \"x\" => error 43 key
gotokey 0 7 => ok nil
which 0 => ok end
entry 1 => error 42 cursor
close 0 => ok
close 0 => error 42 cursor
";

#[test]
fn steps_past_both_ends_and_to_a_key(rt: HostRuntime) -> Result<(), Fail> {
    expect(rt.alloc(), "run a b c d", ENDS)
}

/// What is refused, in order.
const REFUSED: &str = "
query 5 S {x: 1} => error 20 unit
query 0 S {x: 1} => error 25 notmounted
query * S {x: 1} => error 30 soup
format 0 A 7 => ok
mount 0 => ok 7 A
soup 0 S => ok 0
query 0 T {x: 1} => error 30 soup
query 0 S {x: 1} => error 41 spec
query 0 S {indexPath: 'k, beginKey: \"a\"} => error 40 index
index 0 S k:int:ascend => ok
query 0 S {indexPath: 'k, beginKey: \"a\"} => error 43 key
query 0 S {beginKey: 1} => error 41 spec
query 0 S => error 11 line
query 0 S { => error 3 literal
query * S {} => ok 0
gotokey 0 1 => error 43 key
goto 0 5 0 => error 20 unit
goto 0 1 0 => error 25 notmounted
goto 1 0 0 => error 42 cursor
goto 0 0 0 => error 32 entry
next 0 => ok nil
which 0 => ok end
prev 0 => ok nil
which 0 => ok begin
count 0 => ok 0
clone 4 => error 42 cursor
next => error 11 line
";

#[test]
fn refuses_in_order(rt: HostRuntime) -> Result<(), Fail> {
    expect(rt.alloc(), "run a b c d", REFUSED)
}
