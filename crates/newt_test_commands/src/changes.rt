//! Entries with large binaries that change, move and are walked over, with replies that were
//! written by hand.

use newt_test_scripts::expect;
use std::test::Fail;

/// What is written in place leaves the time of the entry; every other change sets it.
const CHANGED: &str = "
format 0 A 7 => ok
mount 0 => ok 7 A
soup 0 S => ok 0
time 100 => ok
add 0 S {v: <<Wave:0102>>, n: 1} => ok 0
time 200 => ok
vwrite 0 S 0 v 1 FF => ok
get 0 S 0 => ok 100 {v: <<Wave:01FF>>, n: 1}
vwrite 0 S 0 v 2 => ok
get 0 S 0 => ok 100 {v: <<Wave:01FF>>, n: 1}
set 0 S 0 n 2 => ok
get 0 S 0 => ok 200 {v: <<Wave:01FF>>, n: 2}
time 300 => ok
set 0 S 0 t <<WAVE:*3>> => ok
get 0 S 0 => ok 300 {v: <<Wave:01FF>>, n: 2, t: <<Wave:000000>>}
vwrite 0 S 0 t 0 112233 => ok
set 0 S 0 v {w: <<u:44>>, x: 5} => ok
get 0 S 0 => ok 300 {v: {w: <<u:44>>, x: 5}, n: 2, t: <<Wave:112233>>}
set 0 S 0 v.x <<u:55>> => ok
vread 0 S 0 v.x 0 1 => ok 55
vread 0 S 0 v.w 0 1 => ok 44
vread 0 S 0 t 0 3 => ok 112233
set 0 S 0 t.x 1 => error 38 path
set 0 S 0 v nil => ok
get 0 S 0 => ok 300 {v: nil, n: 2, t: <<Wave:112233>>}
time 400 => ok
change 0 S 0 {u: <<u:*2>>} => ok
get 0 S 0 => ok 400 {u: <<u:0000>>}
vread 0 S 0 t 0 3 => error 38 path
vwrite 0 S 0 u 0 AABB => ok
change 0 S 0 5 => error 37 notframe
get 0 S 0 => ok 400 {u: <<u:AABB>>}
change 0 S 0 {u: 1} => ok
vread 0 S 0 u 0 0 => error 38 path
remove 0 S 0 => ok
vread 0 S 0 u 0 0 => error 32 entry
vwrite 0 S 0 u 0 00 => error 32 entry
";

#[test]
fn sets_the_time_but_where_bytes_are_overwritten(rt: HostRuntime) -> Result<(), Fail> {
    expect(rt.alloc(), "run a b", CHANGED)
}

/// Entries with large binaries go within a store and from card to card.
const MOVED: &str = "
format 0 A 7 => ok
format 1 B 9 => ok
mount 0 => ok 7 A
mount 1 => ok 9 B
soup 0 S => ok 0
soup 0 T => ok 1
soup 1 N => ok 0
add 0 S {v: <<wave:010203>>, w: <<wave:*600>>} => ok 0
vwrite 0 S 0 w 498 AABBCCDD => ok
time 5 => ok
copy 0 S 0 0 S => ok 1
vwrite 0 S 1 v 0 FF => ok
vread 0 S 0 v 0 3 => ok 010203
vread 0 S 1 v 0 3 => ok FF0203
vread 0 S 1 w 497 6 => ok 00AABBCCDD00
move 0 S 1 0 T => ok 0
vread 0 S 1 v 0 3 => error 32 entry
vread 0 T 0 v 0 3 => ok FF0203
vread 0 T 0 w 497 6 => ok 00AABBCCDD00
copy 0 T 0 1 N => ok 0
move 0 S 0 1 N => ok 1
vread 1 N 0 v 0 3 => ok FF0203
vread 1 N 1 v 0 3 => ok 010203
vread 1 N 1 w 497 6 => ok 00AABBCCDD00
vwrite 1 N 0 w 499 EE => ok
vread 0 T 0 w 497 6 => ok 00AABBCCDD00
vread 1 N 0 w 497 6 => ok 00AAEECCDD00
soups 0 => ok S 0 0, T 1 1
soups 1 => ok N 0 2
drop 1 N => ok
vread 1 N 0 v 0 3 => error 30 soup
soup 1 N => ok 1
move 0 T 0 1 N => ok 0
vread 1 N 0 w 497 6 => ok 00AABBCCDD00
unmount 1 => ok
vread 1 N 0 v 0 3 => error 25 notmounted
mount 1 => ok 9 B
vread 1 N 0 v 0 3 => ok FF0203
soups 0 => ok S 0 0, T 1 0
";

#[test]
fn moves_and_copies_large_binaries(rt: HostRuntime) -> Result<(), Fail> {
    expect(rt.alloc(), "run a b", MOVED)
}

/// Cursors stand on entries whose large binaries are overwritten.
const WALKED: &str = "
format 0 A 7 => ok
mount 0 => ok 7 A
soup 0 S => ok 0
index 0 S k:int:ascend => ok
index 0 S v:string:ascend => ok
tags 0 S labels work home => ok
add 0 S {k: 1, v: <<w:6162>>, t: \"ab\"} => ok 0
add 0 S {k: 2, v: <<w:6364>>, labels: 'work} => ok 1
add 0 S {k: 3, v: \"ab\"} => ok 2
add 0 S {k: 4, v: <<w:00610062>>} => ok 3
query 0 S {indexPath: 'k, endKey: 2} => ok 0
query 0 S {indexPath: 'v} => ok 1
query 0 S {text: \"ab\"} => ok 2
query 0 S {tagSpec: {any: 'work}} => ok 3
query 0 S {} => ok 4
count 0 => ok 2
count 1 => ok 1
count 2 => ok 2
count 3 => ok 1
count 4 => ok 4
next 0 => ok 0 1 0 {k: 2, v: <<w:6364>>, labels: 'work}
entry 2 => ok 0 0 0 {k: 1, v: <<w:6162>>, t: \"ab\"}
time 9 => ok
vwrite 0 S 1 v 0 FFFE => ok
vwrite 0 S 0 v 1 00 => ok
entry 0 => ok 0 1 0 {k: 2, v: <<w:FFFE>>, labels: 'work}
entry 3 => ok 0 1 0 {k: 2, v: <<w:FFFE>>, labels: 'work}
entry 2 => ok 0 0 0 {k: 1, v: <<w:6100>>, t: \"ab\"}
prev 0 => ok 0 0 0 {k: 1, v: <<w:6100>>, t: \"ab\"}
next 2 => ok 0 2 0 {k: 3, v: \"ab\"}
next 2 => ok nil
entry 1 => ok 0 2 0 {k: 3, v: \"ab\"}
set 0 S 0 v \"aa\" => ok
prev 1 => ok 0 0 9 {k: 1, v: \"aa\", t: \"ab\"}
set 0 S 0 v <<w:6161>> => ok
entry 1 => ok deleted
count 1 => ok 1
end 4 => ok 0 3 0 {k: 4, v: <<w:00610062>>}
vwrite 0 S 3 v 3 63 => ok
entry 4 => ok 0 3 0 {k: 4, v: <<w:00610063>>}
remove 0 S 3 => ok
entry 4 => ok deleted
count 0 => ok 2
";

#[test]
fn walks_over_what_is_overwritten(rt: HostRuntime) -> Result<(), Fail> {
    expect(rt.alloc(), "run a b", WALKED)
}
