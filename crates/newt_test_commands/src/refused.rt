//! What is refused of large binaries, in order.

use newt_test_scripts::expect;
use std::test::Fail;

/// What is refused, in order.
const REFUSED: &str = "
vwrite 5 S 0 v 0 4 => error 1 malformed
vwrite 5 S 0 v 0 41 => error 20 unit
vwrite 0 S 0 v 0 41 => error 25 notmounted
vread 5 S 0 v 0 1 => error 20 unit
vread 0 S 0 v 0 1 => error 25 notmounted
format 0 A 7 => ok
mount 0 => ok 7 A
vread 0 S 0 v 0 1 => error 30 soup
vwrite 0 S 0 v 0 41 => error 30 soup
soup 0 S => ok 0
vread 0 S 0 v 0 1 => error 32 entry
vwrite 0 S 0 v 0 41 => error 32 entry
add 0 S {v: <<wave:0011>>, b: <bits:0011>, n: 1, f: {v: <<wave:22>>}, a: [<<wave:33>>], s: \"v\", y: 'v} => ok 0
vread 0 S 0 w 0 1 => error 38 path
vread 0 S 0 b 0 1 => error 38 path
vread 0 S 0 n 0 1 => error 38 path
vread 0 S 0 f 0 0 => error 38 path
vread 0 S 0 a 0 0 => error 38 path
vread 0 S 0 s 0 0 => error 38 path
vread 0 S 0 y 0 0 => error 38 path
vread 0 S 0 n.v 0 1 => error 38 path
vread 0 S 0 v.v 0 1 => error 38 path
vread 0 S 0 f.v.v 0 1 => error 38 path
vread 0 S 0 w.v 9 1 => error 38 path
vwrite 0 S 0 w 9 41 => error 38 path
vwrite 0 S 0 b 0 41 => error 38 path
vwrite 0 S 0 f 0 => error 38 path
vread 0 S 0 f.v 0 1 => ok 22
vread 0 S 0 F.V 0 1 => ok 22
vread 0 S 0 v 0 3 => error 39 range
vread 0 S 0 v 2 1 => error 39 range
vread 0 S 0 v 3 0 => error 39 range
vread 0 S 0 v 4294967295 0 => error 39 range
vread 0 S 0 v 4294967295 60000 => error 39 range
vread 0 S 0 v 2 0 => ok
vread 0 S 0 v 0 0 => ok
vread 0 S 0 v 0 2 => ok 0011
vread 0 S 0 v 0 60001 => error 11 line
vread 0 S 0 v 4294967296 0 => error 11 line
vread 0 S 0 v -1 0 => error 11 line
vread 0 S 0 v 0 => error 11 line
vread 0 S 0 v 0 0 0 => error 11 line
vread 0 S 0 1v 0 0 => error 11 line
vread 8 S 0 v 0 0 => error 11 line
vwrite 0 S 0 v => error 11 line
vwrite 0 S 0 v x 41 => error 11 line
vwrite 0 S 0 v 0 4 => error 1 malformed
vwrite 0 S 0 v 0 4G => error 1 malformed
vwrite 0 S 0 v 0 41 42 => error 1 malformed
vwrite 0 S 0 v 1 4142 => error 39 range
vwrite 0 S 0 v 2 41 => error 39 range
vwrite 0 S 0 v 3 => error 39 range
vwrite 0 S 0 v 4294967295 4142 => error 39 range
vwrite 0 S 0 v 2 => ok
vwrite 0 S 0 v 0 => ok
get 0 S 0 => ok 0 {v: <<wave:0011>>, b: <bits:0011>, n: 1, f: {v: <<wave:22>>}, a: [<<wave:33>>], s: \"v\", y: 'v}
vwrite 0 S 0 v 0 \t4142  => ok
vread 0 S 0 v 0 2 => ok 4142
add 0 S {v: <<wave:*1000000>>} => error 33 full
add 0 S {v: <<wave:*1000001>>} => error 3 literal
set 0 S 0 n <<wave:*1000000>> => error 33 full
change 0 S 0 {n: <<wave:*1000000>>} => error 33 full
vread 0 S 0 v 0 2 => ok 4142
";

#[test]
fn refuses_in_order(rt: HostRuntime) -> Result<(), Fail> {
    expect(rt.alloc(), "run a b", REFUSED)
}
