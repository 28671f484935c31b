//! Runs in which a write to the output fails.

ghost use Rattle.newt_memhost.specs.Outside.{outside_of};
ghost use Rattle.newt_test_scripts.specs.Free.{IsFree};

use newt_memhost::MemHost;
use newt_test_scripts::{expect_end, lines_of, over_blank};
use newt_top::Status;
use std::alloc::Global;
use std::test::Fail;

/// Commands that each write a reply, two of which write to a unit.
const TABLE: &str = "
mount 0 => error 22 nostore
format 0 Internal 7 => ok
mount 0 => ok 7 Internal
soup 0 S => ok 0
stores => ok 0 7 Internal
quit now => error 11 line
quit => ok
";

/// How much of the output a call of a run found and left, where it wrote to the output.
fn written(host: &MemHost, call: u64) -> Option<usize> {
    let next = call.saturating_add(1);
    if call >= host.calls() || host.unit_of(call).is_some() {
        return None;
    }
    let before = host.out_before(call);
    let after = match next < host.calls() {
        true => host.out_before(next),
        false => host.output().len() as u64,
    };
    (before < after).then_some(before as usize)
}

/// A run with a call that fails ends with a fault of the output, and has written so many of these
/// bytes.
fn expect_cut(alloc: Global, host: &mut MemHost, call: u64, output: &[u8]) -> Result<(), Fail>
    requires { IsFree (outside_of host.old) }
{
    host.fail(call)?;
    expect_end(alloc, "run a", host, Status::Sink, output)
}

/// The same, where each call in turn fails that wrote to the output.
fn expect_all_cut(
    alloc: Global,
    script: &[u8],
    output: &[u8],
    sound: &MemHost,
) -> Result<u32, Fail> {
    let mut writes = 0u32;
    for call in 0..sound.calls() {
        if let Some(before) = written(sound, call) {
            let mut host = over_blank(alloc, script)?;
            let part = output.get(..before).ok_or("no such output")?;
            expect_cut(alloc, &mut host, call, part)?;
            writes = writes.saturating_add(1);
        }
    }
    Ok(writes)
}

#[test]
fn a_write_that_fails_ends_the_run(rt: HostRuntime) -> Result<(), Fail> {
    let alloc = rt.alloc();
    let (script, output) = lines_of(alloc, TABLE)?;
    let mut sound = over_blank(alloc, &script)?;
    expect_end(alloc, "run a", &mut sound, Status::Ok, &output)?;
    if expect_all_cut(alloc, &script, &output, &sound)? != 7 {
        return Err(Fail::new("a reply was not one write"));
    }
    Ok(())
}
