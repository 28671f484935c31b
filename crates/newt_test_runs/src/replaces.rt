//! Entries whose graphs are replaced, with replies that were written by hand.

use newt_test_scripts::expect;
use std::test::Fail;

/// A frame that two slots hold is changed.
const SHARED: &str = "
format 0 A 7 => ok
mount 0 => ok 7 A
soup 0 S => ok 0
time 5 => ok
add 0 S {a: #1={x: 1}, b: #1#} => ok 0
add 0 S {a: {x: 1}} => ok 1
time 6 => ok
set 0 S 0 a.x 2 => ok
get 0 S 0 => ok 6 {a: #0={x: 2}, b: #0#}
get 0 S 1 => ok 5 {a: {x: 1}}
set 0 S 0 c 'X => ok
get 0 S 0 => ok 6 {a: #0={x: 2}, b: #0#, c: 'x}
set 0 S 0 B.X #1=[#1#] => ok
get 0 S 0 => ok 6 {a: #0={x: #1=[#1#]}, b: #0#, c: 'x}
time 7 => ok
set 0 S 0 a nil => ok
get 0 S 0 => ok 7 {a: nil, b: {x: #0=[#0#]}, c: 'x}
set 0 S 0 q.x 1 => error 38 path
set 0 S 0 a.x 1 => error 38 path
time 8 => ok
change 0 S 0 {N: 'n, b: 2} => ok
get 0 S 0 => ok 8 {N: 'N, b: 2}
soups 0 => ok S 0 2
unmount 0 => ok
mount 0 => ok 7 A
get 0 S 0 => ok 8 {N: 'N, b: 2}
get 0 S 1 => ok 5 {a: {x: 1}}
add 0 S {} => ok 2
";

#[test]
fn changes_a_shared_frame_where_it_stands(rt: HostRuntime) -> Result<(), Fail> {
    expect(rt.alloc(), "run a", SHARED)
}

/// What is refused, in order.
const REFUSED: &str = "
set 2 S 0 a { => error 3 literal
set 2 S 0 a 1 => error 20 unit
change 2 S 0 { => error 3 literal
change 2 S 0 1 => error 20 unit
set 0 S 0 a 1 => error 25 notmounted
change 0 S 0 1 => error 25 notmounted
format 0 A 7 => ok
mount 0 => ok 7 A
set 0 S 0 a 1 => error 30 soup
change 0 S 0 1 => error 30 soup
soup 0 S => ok 0
set 0 S 0 q.x 1 => error 32 entry
change 0 S 0 1 => error 32 entry
soups 0 => ok S 0 0
add 0 S {a: 1} => ok 0
set 0 S 0 q.x <<wave:*1>> => error 38 path
set 0 S 0 a.x <<wave:*1>> => error 38 path
set 0 S 0 a <<wave:*1000000>> => error 33 full
change 0 S 0 [<<wave:*1>>] => error 37 notframe
change 0 S 0 {v: <<wave:*1000000>>} => error 33 full
set 0 S 0 a => error 11 line
set 0 S 0 1a 1 => error 11 line
set 0 S 0 a. 1 => error 11 line
set 0 S 0 a.b.c.d.e.f.g.h.i 1 => error 11 line
change 0 S 0 => error 11 line
get 0 S 0 => ok 0 {a: 1}
";

#[test]
fn refuses_in_order(rt: HostRuntime) -> Result<(), Fail> {
    expect(rt.alloc(), "run a b", REFUSED)
}

/// Graphs of 199 arrays within one another, alone and in two frames. What is refused leaves the
/// entry.
const DEEP: &str = "
format 0 A 7 => ok
mount 0 => ok 7 A
soup 0 S => ok 0
add 0 S {a: {b: 1}} => ok 0
set 0 S 0 a.b ~[*199~nil~]*199~ => error 36 limit
get 0 S 0 => ok 0 {a: {b: 1}}
set 0 S 0 a.b ~[*199~<<wave:*1>>~]*199~ => error 36 limit
get 0 S 0 => ok 0 {a: {b: 1}}
set 0 S 0 q.b ~[*199~nil~]*199~ => error 38 path
get 0 S 0 => ok 0 {a: {b: 1}}
set 0 S 0 a ~[*199~nil~]*199~ => ok
change 0 S 0 {n: ~[*199~nil~]*199~} => ok
";

#[test]
fn refuses_what_passes_a_limit_of_one_graph(rt: HostRuntime) -> Result<(), Fail> {
    expect(rt.alloc(), "run a", DEEP)
}

/// Strings of which a record is too large, does not fit, or fits.
const LONG: &str = "
format 0 A 7 => ok
mount 0 => ok 7 A
soup 0 S => ok 0
add 0 S {a: {b: 1}} => ok 0
set 0 S 0 a.b \"~x*32000~\" => error 34 size
get 0 S 0 => ok 0 {a: {b: 1}}
set 0 S 0 a.b \"~x*12000~\" => error 33 full
get 0 S 0 => ok 0 {a: {b: 1}}
change 0 S 0 {s: \"~x*32000~\"} => error 34 size
get 0 S 0 => ok 0 {a: {b: 1}}
change 0 S 0 {s: \"~x*12000~\"} => error 33 full
get 0 S 0 => ok 0 {a: {b: 1}}
change 0 S 0 [\"~x*32000~\"] => error 37 notframe
get 0 S 0 => ok 0 {a: {b: 1}}
set 0 S 0 a.b \"~x*1000~\" => ok
change 0 S 0 {s: \"~x*1000~\"} => ok
";

#[test]
fn refuses_what_is_too_large_or_does_not_fit(rt: HostRuntime) -> Result<(), Fail> {
    expect(rt.alloc(), "run a", LONG)
}
