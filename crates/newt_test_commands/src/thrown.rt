//! Cards that fail: each is thrown out, and the run goes on.

use newt_host::Unit;
use newt_memhost::MemHost;
use newt_script_generator::gen_script;
use newt_test_scripts::{
    blocks, calls_after, expect_end, image, lines_of, over, run_failing, run_over,
};
use newt_top::Status;
use std::alloc::Global;
use std::test::Fail;

/// One of the calls on a unit that a line makes.
#[derive(Clone, Copy)]
pub(crate) enum Place {
    /// The first of them.
    First,
    /// So many from the last one on.
    FromLast(usize),
}

impl Place {
    fn of(self, calls: &[u64]) -> Option<u64> {
        let place = match self {
            Place::First => 0,
            Place::FromLast(back) => calls.len().checked_sub(back)?.checked_sub(1)?,
        };
        calls.get(place).copied()
    }

    /// The call of this place among those on a unit that one line makes: the line after so many
    /// replies.
    fn call(self, alloc: Global, script: &[u8], unit: Unit, replies: usize) -> Result<u64, Fail> {
        let calls = calls_after(alloc, FIVE, script, &[], unit, replies)?;
        Ok(self.of(&calls).ok_or("no such call")?)
    }
}

/// The words of a run over five devices.
const FIVE: &str = "run a b c d e";

/// Runs a table over five devices of 13 blocks of zero bytes, and looks for its replies. One call
/// on this unit fails, made by the line after so many replies.
pub(crate) fn expect_failing(
    alloc: Global,
    table: &str,
    unit: Unit,
    replies: usize,
    place: Place,
) -> Result<(), Fail> {
    let (script, output) = lines_of(alloc, table)?;
    let call = place.call(alloc, &script, unit, replies)?;
    let host = run_failing(alloc, FIVE, &script, &[call])?;
    if host.output() != output.as_slice() {
        return Err(Fail::new(format_args!("other replies where call {call} fails")));
    }
    Ok(())
}

/// The same where each call of that line but the last one fails, in turn. There are so many.
pub(crate) fn expect_each_failing(
    alloc: Global,
    table: &str,
    unit: Unit,
    replies: usize,
    count: usize,
) -> Result<(), Fail> {
    let (script, _) = lines_of(alloc, table)?;
    let calls = calls_after(alloc, FIVE, &script, &[], unit, replies)?.len();
    if calls != count.saturating_add(1) {
        return Err(Fail::new(format_args!("{calls} calls")));
    }
    for back in 1..calls {
        expect_failing(alloc, table, unit, replies, Place::FromLast(back))?;
    }
    Ok(())
}

/// The bytes of an entry do not come onto the card.
const NOT_ADDED: &str = "
format 0 Internal 7 => ok
mount 0 => ok 7 Internal
soup 0 S => ok 0
add 0 S {} => error 50 device 0
get 0 S 0 => error 25 notmounted
mount 0 => ok 7 Internal
soups 0 => ok S 0 0
";

/// They do, and the last sync fails.
const ADDED: &str = "
format 0 Internal 7 => ok
mount 0 => ok 7 Internal
soup 0 S => ok 0
add 0 S {} => error 50 device 0
get 0 S 0 => error 25 notmounted
mount 0 => ok 7 Internal
soups 0 => ok S 0 1
";

#[test]
fn tells_which_store_a_card_holds(rt: HostRuntime) -> Result<(), Fail> {
    let alloc = rt.alloc();
    // All but the last sync: what is read, the record after its gate, a sync, and the gate.
    expect_each_failing(alloc, NOT_ADDED, Unit(0), 3, 7)?;
    expect_failing(alloc, ADDED, Unit(0), 3, Place::FromLast(0))
}

#[test]
fn goes_on_after_a_device_that_failed(rt: HostRuntime) -> Result<(), Fail> {
    let alloc = rt.alloc();
    let script: &[u8] = b"nsof 020A\nmount 0\nnsof 020A\n";
    let mut host = over(alloc, script, &blocks(alloc, 13)?, &[])?;
    // The first call takes the input, the second writes a reply, and the third is the first one on
    // the device.
    host.fail(2)?;
    let output = b"ok 020A\nerror 50 device 0\nok 020A\n";
    expect_end(alloc, "run a", &mut host, Status::Ok, output)
}

/// A card of 200 generated names, of 64 blocks.
fn names(alloc: Global) -> Result<Vec<u8>, Fail> {
    let mut script = gen_script(alloc, 1, 200)?;
    script.truncate(script.len().saturating_sub(b"quit\n".len()));
    let host = run_over(alloc, "run a", &script, &blocks(alloc, 64)?, &[])?;
    image(alloc, &host, Unit(0))
}

/// Gets all entries but the first, which is then no longer cached, and the first one after them.
fn gets(alloc: Global) -> Result<Vec<u8>, Fail> {
    let mut script = Vec::from_slice(alloc, b"mount 0\nquery 0 Names {}\n")?;
    for id in 1u32..200 {
        script.extend_from_slice(format!(in alloc; "get 0 Names {id}\n")?.as_bytes())?;
    }
    script.extend_from_slice(b"get 0 Names 0\nentry 0\nmount 0\nentry 0\n")?;
    Ok(script)
}

/// What is answered where the first one cannot be read.
const UNREAD: &[u8] = b"error 50 device 0
ok deleted
ok 1 Gen
ok 0 0 0 {name: {first: \"F8\", last: \"L838\"}, labels: 'business, n: 0}
";

/// The last call on a device.
fn last_read(host: &MemHost) -> Option<u64> {
    let mut last = None;
    for call in 0..host.calls() {
        if host.unit_of(call).is_some() {
            last = Some(call);
        }
    }
    last
}

/// What a run writes whose call of a number fails, which reads the first entry.
fn unread(alloc: Global, sound: &MemHost, read: u64) -> Result<Vec<u8>, Fail> {
    if read >= sound.calls() {
        return Err(Fail::new("no such call"));
    }
    let end = sound.output().len().min(sound.out_before(read) as usize);
    let mut output = Vec::from_slice(alloc, &sound.output()[..end])?;
    output.extend_from_slice(UNREAD)?;
    Ok(output)
}

/// The last call on the card fails.
fn expect_unread(alloc: Global, script: &[u8], card: &[u8]) -> Result<(), Fail> {
    let sound = run_over(alloc, "run a", script, card, &[])?;
    let read = last_read(&sound).ok_or("nothing is read")?;
    let output = unread(alloc, &sound, read)?;
    let mut host = over(alloc, script, card, &[])?;
    host.fail(read)?;
    expect_end(alloc, "run a", &mut host, Status::Ok, &output)
}

#[test]
fn a_cursor_waits_for_its_card(rt: HostRuntime) -> Result<(), Fail> {
    let alloc = rt.alloc();
    expect_unread(alloc, &gets(alloc)?, &names(alloc)?)
}

/// An entry is on its new card, and could not be taken from the other.
const MOVED: &str = "
format 0 A 7 => ok
format 1 B 9 => ok
mount 0 => ok 7 A
mount 1 => ok 9 B
soup 0 N => ok 0
soup 1 N => ok 0
index 0 N k:string:ascend => ok
index 1 N k:string:ascend => ok
add 0 N {k: \"a\"} => ok 0
add 0 N {k: \"m\"} => ok 1
add 1 N {k: \"m\"} => ok 0
add 1 N {k: \"z\"} => ok 1
move 0 N 0 1 N => error 50 device 0
get 1 N 2 => ok 0 {k: \"a\"}
mount 0 => ok 7 A
get 0 N 0 => ok 0 {k: \"a\"}
";

#[test]
fn what_moved_stays_where_it_went(rt: HostRuntime) -> Result<(), Fail> {
    // The last but one programs what makes the removal hold.
    expect_failing(rt.alloc(), MOVED, Unit(0), 12, Place::FromLast(1))
}

/// One of four cards fails under a cursor, and comes back.
const FOUR: &str = "
format 0 A 7 => ok
format 1 B 9 => ok
format 2 C 3 => ok
format 3 D 5 => ok
mount 0 => ok 7 A
mount 1 => ok 9 B
mount 2 => ok 3 C
mount 3 => ok 5 D
soup 0 N => ok 0
soup 1 N => ok 0
soup 2 N => ok 0
soup 3 N => ok 0
index 0 N k:int:ascend => ok
index 1 N k:int:ascend => ok
index 2 N k:int:ascend => ok
index 3 N k:int:ascend => ok
add 0 N {k: 1} => ok 0
add 1 N {k: 2} => ok 0
add 2 N {k: 3} => ok 0
add 3 N {k: 4} => ok 0
query * N {indexPath: 'k} => ok 0
count 0 => ok 4
end 0 => ok 3 0 0 {k: 4}
prev 0 => ok 2 0 0 {k: 3}
add 2 N {k: 5} => error 50 device 2
entry 0 => ok deleted
stores => ok 0 7 A, 1 9 B, 3 5 D
count 0 => ok 3
next 0 => ok 3 0 0 {k: 4}
prev 0 => ok 1 0 0 {k: 2}
mount 2 => ok 3 C
count 0 => ok 4
next 0 => ok 2 0 0 {k: 3}
next 0 => ok 3 0 0 {k: 4}
add 2 N {k: 6} => ok 1
count 0 => ok 5
";

#[test]
fn a_union_goes_on_without_a_card(rt: HostRuntime) -> Result<(), Fail> {
    expect_failing(rt.alloc(), FOUR, Unit(2), 24, Place::First)
}

/// A blank card fails while it is formatted.
const BLANK: &str = "
format 0 A 7 => error 50 device 0
mount 0 => error 22 nostore
format 0 A 7 => ok
mount 0 => ok 7 A
";

/// A card that has a store fails while it is formatted.
const FORMATTED: &str = "
format 0 A 7 => ok
format 0 B 9 => error 50 device 0
mount 0 => ok 7 A
";

#[test]
fn a_format_fails(rt: HostRuntime) -> Result<(), Fail> {
    let alloc = rt.alloc();
    expect_failing(alloc, BLANK, Unit(0), 0, Place::First)?;
    expect_failing(alloc, FORMATTED, Unit(0), 1, Place::First)
}

/// The default store is then the next one, and stays it.
const DEFAULTS: &str = "
format 0 A 7 => ok
format 1 B 9 => ok
mount 0 => ok 7 A
mount 1 => ok 9 B
soup 0 S => ok 0
soup 1 S => ok 0
addu S {} => error 50 device 0
addu S {} => ok 1 0
mount 0 => ok 7 A
addu S {} => ok 1 1
default 0 => ok
addu S {} => ok 0 0
";

#[test]
fn the_default_store_is_the_next_one(rt: HostRuntime) -> Result<(), Fail> {
    expect_failing(rt.alloc(), DEFAULTS, Unit(0), 6, Place::First)
}

/// A card that never works again.
const FOR_EVER: &str = "
format 0 A 7 => ok
format 1 B 9 => ok
mount 0 => ok 7 A
mount 1 => ok 9 B
soup 0 S => ok 0
soup 1 S => ok 0
add 0 S {} => error 50 device 0
mount 0 => error 50 device 0
format 0 A 7 => error 50 device 0
add 1 S {} => ok 0
mount 0 => error 50 device 0
unmount 0 => error 25 notmounted
stores => ok 1 9 B
mount 0 => error 50 device 0
get 1 S 0 => ok 0 {}
quit => ok
";

/// The first call on the card by each line, where all those before it failed.
fn failing_calls(alloc: Global, script: &[u8]) -> Result<Vec<u64>, Fail> {
    let mut failing: Vec<u64> = Vec::new(alloc);
    for replies in 6usize..14 {
        let calls = calls_after(alloc, "run a b", script, &failing, Unit(0), replies)?;
        if let Some(call) = calls.first() {
            failing.push(*call)?;
        }
    }
    Ok(failing)
}

#[test]
fn a_card_fails_for_ever(rt: HostRuntime) -> Result<(), Fail> {
    let alloc = rt.alloc();
    let (script, output) = lines_of(alloc, FOR_EVER)?;
    let failing = failing_calls(alloc, &script)?;
    let host = run_failing(alloc, "run a b", &script, &failing)?;
    if failing.len() != 5 || host.output() != output.as_slice() {
        return Err(Fail::new(format_args!("{} calls fail", failing.len())));
    }
    Ok(())
}
