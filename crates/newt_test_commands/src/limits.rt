//! Large binaries of the greatest length, and the longest lines of their bytes.

use newt_host::Unit;
use newt_test_scripts::{blocks, copied, image, run_table_on};
use std::test::Fail;

/// A large binary of the greatest length is overwritten in its middle and at both ends.
const FIRST: &str = "
format 0 A 7 => ok
mount 0 => ok 7 A
soup 0 S => ok 0
add 0 S {v: <<wave:*1000000>>, n: 1} => ok 0
vwrite 0 S 0 v 499998 A1A2A3A4 => ok
vwrite 0 S 0 v 999999 B1 => ok
vwrite 0 S 0 v 0 C1C2 => ok
vwrite 0 S 0 v 999999 B1B2 => error 39 range
vread 0 S 0 v 499997 6 => ok 00A1A2A3A400
vread 0 S 0 v 1000000 0 => ok
vread 0 S 0 v 1000000 1 => error 39 range
add 0 S {v: <<wave:*1000000>>} => error 33 full
";

/// A next run shows it whole.
const WHOLE: &str = "
mount 0 => ok 7 A
get 0 S 0 => ok 0 {v: <<wave:C1C2~0*999992~A1A2A3A4~0*999994~B1>>, n: 1}
";

/// Another reads it, and moves it where there is room for one alone.
const MOVED: &str = "
mount 0 => ok 7 A
vread 0 S 0 v 499997 6 => ok 00A1A2A3A400
vread 0 S 0 v 999997 3 => ok 0000B1
vread 0 S 0 v 0 3 => ok C1C200
set 0 S 0 n 2 => ok
vread 0 S 0 v 499997 6 => ok 00A1A2A3A400
copy 0 S 0 0 S => error 33 full
move 0 S 0 0 S => ok 1
vread 0 S 1 v 499997 6 => ok 00A1A2A3A400
set 0 S 1 v nil => ok
get 0 S 1 => ok 0 {v: nil, n: 2}
add 0 S {v: <<wave:*1000000>>} => ok 2
vread 0 S 2 v 499997 6 => ok 000000000000
";

#[test]
fn holds_a_large_binary_of_the_greatest_length(rt: HostRuntime) -> Result<(), Fail> {
    let alloc = rt.alloc();
    let (blank, small) = (blocks(alloc, 520)?, blocks(alloc, 13)?);
    let first = run_table_on(alloc, "run a b", FIRST, &blank, &small)?;
    let card = image(alloc, &first, Unit(0))?;
    run_table_on(alloc, "run a b", WHOLE, &card, &small)?;
    run_table_on(alloc, "run a b", MOVED, &copied(alloc, &card, 520)?, &small)?;
    Ok(())
}

/// A large binary does not count in the text that may have 64,000 bytes, and a binary does.
const LONG: &str = "
format 0 A 7 => ok
mount 0 => ok 7 A
soup 0 S => ok 0
add 0 S {v: <<wave:~7*130000~>>} => ok 0
add 0 S {v: <wave:~7*130000~>} => error 34 size
vread 0 S 0 v 64996 4 => ok 77777777
vread 0 S 0 v 5000 60000 => ok ~7*120000~
vwrite 0 S 0 v 250 ~8*100000~ => ok
vread 0 S 0 v 5000 60000 => ok ~8*90500~~7*29500~
vread 0 S 0 v 5001 60000 => error 39 range
info 0 S {v: <<wave:00>>} => error 44 info
info 0 S {v: <wave:~7*7966~>} => error 34 size
info 0 S => ok nil
info 0 S {v: <wave:~7*7964~>} => ok
info 0 S {v: <wave:~7*7966~>} => error 34 size
info 0 S => ok {v: <wave:~7*7964~>}
";

#[test]
fn takes_long_literals(rt: HostRuntime) -> Result<(), Fail> {
    let alloc = rt.alloc();
    let (card, small) = (blocks(alloc, 64)?, blocks(alloc, 13)?);
    let host = run_table_on(alloc, "run a b", LONG, &card, &small)?;
    copied(alloc, &image(alloc, &host, Unit(0))?, 64)?;
    Ok(())
}
