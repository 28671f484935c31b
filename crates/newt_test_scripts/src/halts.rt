//! Runs in which a call of a stream fails.

ghost use Rattle.std.specs.Prelude.{◌<◌};
ghost use Rattle.newt_memhost.specs.Outside.{outside_of};
ghost use Rattle.newt_memhost.specs.Words.{calls_of};
ghost use Rattle.newt_test_scripts.specs.Free.{IsFree};

use crate::crashes::{Looks, begun, expect_found, look, looks_from_blank};
use crate::hosts::{blocks, over_blank};
use crate::runs::{has_device, run_on, run_table};
use crate::tables::lines_of;
use newt_host::Unit;
use newt_memhost::{Crash, MemHost, Pick};
use newt_top::Status;
use std::alloc::Global;
use std::test::Fail;

/// The length of the output when the call after this one began.
fn out_after(host: &MemHost, call: u64) -> u64 {
    let next = call.saturating_add(1);
    if next < host.calls() {
        host.out_before(next)
    } else {
        host.output().len() as u64
    }
}

/// How a run ends where this call of a stream of a sound run fails: by the output, if the call
/// wrote to it, and otherwise by the input.
fn wanted(sound: &MemHost, call: u64) -> Status
    requires { call < calls_of sound.now }
{
    if sound.out_before(call) < out_after(sound, call) {
        Status::Sink
    } else {
        Status::Source
    }
}

/// Whether a run has ended at a call, and has written what a sound run had written when that call
/// began.
fn has_halted(host: &MemHost, sound: &MemHost, call: u64) -> bool
    requires { call < calls_of sound.now }
{
    host.calls() == call.saturating_add(1)
        && host.output().len() as u64 == sound.out_before(call)
        && sound.output().starts_with(host.output())
}

/// Where the call of a number fails, the run of a host ends there, with the status of the call and
/// what was written before it.
fn expect_status(alloc: Global, sound: &MemHost, call: u64, host: &mut MemHost) -> Result<(), Fail>
    requires free { IsFree (outside_of host.old) }
    requires call { call < calls_of sound.now }
{
    host.fail(call)?;
    let status = run_on(alloc, "run a b", host)?;
    if status != wanted(sound, call) {
        return Err(Fail::new(format_args!("{status:?} at call {call}")));
    }
    if !has_halted(host, sound, call) {
        return Err(Fail::new(format_args!("not halted at call {call}")));
    }
    Ok(())
}

/// What the run of a host left is the store before or after the next command.
fn expect_left(
    alloc: Global,
    host: &MemHost,
    ask: &[u8],
    left: &[u8],
    looks: &Looks,
) -> Result<(), Fail> {
    let found = look(alloc, ask, left)?;
    expect_found(
        begun(host.output()),
        left,
        &blocks(alloc, 13)?,
        &found,
        looks,
    )
}

/// What it leaves, with a crash and without one, is the store before or after the next command,
/// too.
fn expect_halted_on(
    alloc: Global,
    ask: &[u8],
    sound: &MemHost,
    call: u64,
    looks: &Looks,
    host: &mut MemHost,
) -> Result<(), Fail>
    requires free { IsFree (outside_of host.old) }
    requires call { call < calls_of sound.now }
{
    expect_status(alloc, sound, call, host)?;
    if call >= host.calls() || !has_device(host, Unit(0)) {
        return Err(Fail::new("no such call"));
    }
    expect_left(alloc, host, ask, host.bytes(Unit(0)), looks)?;
    let Crash { image, .. } = host.images(Unit(0), call, Pick::Half)?;
    expect_left(alloc, host, ask, &image, looks)
}

/// The same for a run of this script.
fn expect_halted(
    alloc: Global,
    script: &[u8],
    ask: &[u8],
    sound: &MemHost,
    call: u64,
    looks: &Looks,
) -> Result<(), Fail>
    requires { call < calls_of sound.now }
{
    let mut host = over_blank(alloc, script)?;
    expect_halted_on(alloc, ask, sound, call, looks, &mut host)
}

/// The same where each call of a stream fails that the run of a sound host made.
fn expect_all_halted(
    alloc: Global,
    script: &[u8],
    ask: &[u8],
    sound: &MemHost,
) -> Result<(), Fail> {
    let looks = looks_from_blank(alloc, script, ask, Unit(0))?;
    for call in 0..sound.calls() {
        if sound.unit_of(call).is_none() {
            expect_halted(alloc, script, ask, sound, call, &looks)?;
        }
    }
    Ok(())
}

/// Runs a table over the devices `a` and `b` of 13 blocks of zero bytes, once for each of its calls
/// of a stream, which fails. The run ends there with the status of the call, after what it had
/// written so far. A next run that is asked these lines finds the store of the first unit before or
/// after the command whose reply is the next to begin.
pub fn expect_halts(alloc: Global, table: &str, ask: &[u8]) -> Result<(), Fail> {
    let sound = run_table(alloc, "run a b", table)?;
    let (script, _) = lines_of(alloc, table)?;
    expect_all_halted(alloc, &script, ask, &sound)
}

/// The run of this script ends at a call that fails.
fn expect_ended(alloc: Global, script: &[u8], sound: &MemHost, call: u64) -> Result<(), Fail>
    requires { call < calls_of sound.now }
{
    let mut host = over_blank(alloc, script)?;
    expect_status(alloc, sound, call, &mut host)
}

/// The same where each call of a stream fails. Answers how many there are.
fn expect_all_ended(alloc: Global, script: &[u8], sound: &MemHost) -> Result<u32, Fail> {
    let mut count: u32 = 0;
    for call in 0..sound.calls() {
        if sound.unit_of(call).is_none() {
            expect_ended(alloc, script, sound, call)?;
            count = count.saturating_add(1);
        }
    }
    Ok(count)
}

/// The same without a next run: the run ends there with the status of the call, after what it had
/// written so far. Answers how many such calls there are.
pub fn expect_statuses(alloc: Global, table: &str) -> Result<u32, Fail> {
    let sound = run_table(alloc, "run a b", table)?;
    let (script, _) = lines_of(alloc, table)?;
    expect_all_ended(alloc, &script, &sound)
}
