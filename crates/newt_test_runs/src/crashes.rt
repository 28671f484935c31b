//! What a next run finds where the power failed.

use newt_host::Unit;
use newt_memhost::Pick;
use newt_test_scripts::{expect_all_safe, expect_halts, expect_thrown, image, run_table};
use std::alloc::Global;
use std::test::Fail;

/// What a crash within any call of a run leaves of both units is the store before or after a
/// command.
fn expect_both_safe(alloc: Global, table: &str) -> Result<(), Fail> {
    let picks = [Pick::New, Pick::Half];
    expect_all_safe(alloc, table, LOOK, &[Unit(0), Unit(1)], &picks)
}

/// Every command on units, soups and entries, on two units.
pub(crate) const EVERY: &str = "
format 0 Internal 7 => ok
format 1 Card 9 => ok
mount 0 => ok 7 Internal
mount 1 => ok 9 Card
stores => ok 0 7 Internal, 1 9 Card
time 100 => ok
soup 0 Notes => ok 0
soup 1 \"To Do\" => ok 0
soup 0 Old => ok 1
add 0 Notes {title: \"a\"} => ok 0
addx 0 Notes 0206010701610004 => ok 1
addu \"To Do\" {} => error 30 soup
default 1 => ok
addu \"To Do\" {done: nil} => ok 1 0
get 0 Notes 0 => ok 100 {title: \"a\"}
getx 0 Notes 1 => ok 100 0206010701610004
time 200 => ok
set 0 Notes 0 title \"b\" => ok
get 0 Notes 0 => ok 200 {title: \"b\"}
change 0 Notes 1 {a: 2, b: 'A} => ok
copy 0 Notes 0 1 \"To Do\" => ok 1
move 0 Notes 1 0 Old => ok 0
move 0 Notes 0 1 \"To Do\" => ok 2
get 0 Notes 0 => error 32 entry
get 0 Old 0 => ok 200 {a: 2, b: 'a}
alias 1 \"To Do\" 1 => ok [alias: 9, 0, 1]
resolve [alias: 9, 0, 1] => ok 1 \"To Do\" 1
remove 1 \"To Do\" 1 => ok
resolve [alias: 9, 0, 1] => ok nil
soups 1 => ok \"To Do\" 0 2
soups 0 => ok Notes 0 0, Old 1 1
drop 0 Old => ok
nsof 020A => ok 020A
lit nil => ok nil
unmount 1 => ok
stores => ok 0 7 Internal
quit => ok
";

/// What a next run is asked over one of the devices, and how it is told to go on.
const LOOK: &[u8] = b"mount 0
soups 0
get 0 Notes 0
get 0 Notes 1
get 0 Old 0
get 0 \"To Do\" 0
get 0 \"To Do\" 1
get 0 \"To Do\" 2
resolve [alias: 9, 0, 1]
soup 0 Next
add 0 Next {n: 1}
add 0 Old {n: 2}
add 0 Notes {n: 3}
add 0 \"To Do\" {n: 4}
get 0 Next 0
unmount 0
mount 0
soups 0
";

#[test]
fn leaves_each_store_before_or_after_each_command(rt: HostRuntime) -> Result<(), Fail> {
    expect_both_safe(rt.alloc(), EVERY)
}

/// A script that fills the first bank of a card and goes on in the other one.
const ADDS: &str = "
format 1 Card 9 => ok
mount 1 => ok 9 Card
soup 1 Notes => ok 0
add 1 Notes {n: 0} => ok 0
add 1 Notes {n: 1} => ok 1
remove 1 Notes 0 => ok
add 1 Notes {n: 2} => ok 2
add 1 Notes {n: 3} => ok 3
add 1 Notes {n: 4} => ok 4
remove 1 Notes 1 => ok
add 1 Notes {n: 5} => ok 5
add 1 Notes {n: 6} => ok 6
add 1 Notes {n: 7} => ok 7
remove 1 Notes 4 => ok
add 1 Notes {n: 8} => ok 8
add 1 Notes {n: 9} => ok 9
add 1 Notes {n: 10} => ok 10
add 1 Notes {n: 11} => ok 11
move 1 Notes 11 1 Notes => ok 12
copy 1 Notes 12 1 Notes => ok 13
add 1 Notes {n: 14} => ok 14
add 1 Notes {n: 15} => ok 15
add 1 Notes {n: 16} => ok 16
add 1 Notes {n: 17} => ok 17
add 1 Notes {n: 18} => ok 18
add 1 Notes {n: 19} => ok 19
";

#[test]
fn leaves_each_store_while_banks_change(rt: HostRuntime) -> Result<(), Fail> {
    let alloc = rt.alloc();
    let card = image(alloc, &run_table(alloc, "run a b", ADDS)?, Unit(1))?;
    if card.first() != Some(&1) {
        return Err(Fail::new("no vote for the second bank"));
    }
    expect_both_safe(alloc, ADDS)
}

/// A script of which each call is to fail once.
const SHORT: &str = "
format 0 Internal 7 => ok
mount 0 => ok 7 Internal
soup 0 Notes => ok 0
add 0 Notes {n: 0} => ok 0
get 0 Notes 0 => ok 0 {n: 0}
remove 0 Notes 0 => ok
";

#[test]
fn halts_at_each_call_of_a_stream_that_fails(rt: HostRuntime) -> Result<(), Fail> {
    expect_halts(rt.alloc(), SHORT, LOOK)
}

#[test]
fn goes_on_after_each_call_of_a_device_that_fails(rt: HostRuntime) -> Result<(), Fail> {
    expect_thrown(rt.alloc(), SHORT, LOOK)?;
    Ok(())
}
