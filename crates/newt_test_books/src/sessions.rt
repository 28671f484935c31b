//! Runs and single commands over either engine.
ghost use Rattle.std.specs.Prelude.{true, IfOk, OnOk, IsTrue};
ghost use Rattle.newt_laws_world.specs.Worlds.{has_form};
ghost use Rattle.newt_memhost.specs.Outside.{outside_of};
ghost use Rattle.newt_test_scripts.specs.Free.{IsFree};

use newt_engine_whole::Whole;
use newt_memhost::MemHost;
use newt_pageplain::PlainBook;
use newt_pages::DiskBook;
use newt_reply::write_reply;
use newt_script::{Command, line};
use newt_script_session::{Interpreter, run_named};
use newt_store_indexed::IndexedStore;
use newt_test_scripts::{lines_of, over};
use std::alloc::{AllocError, Global};
use std::test::Fail;

/// The engine over pages in memory.
pub(crate) type InMemory = Whole<IndexedStore<PlainBook>>;

/// The engine over pages on the device.
pub(crate) type OnDevice = Whole<IndexedStore<DiskBook>>;

/// More bytes than the input of any test here.
const LIMIT: usize = 1 << 24;

/// The names of a run over one device.
fn names(alloc: Global) -> Result<[String; 1], AllocError> {
    Ok([String::from_str(alloc, "a")?])
}

/// Answers the input of a host over its device `a`, to its end.
pub(crate) fn run<I: Interpreter>(alloc: Global, host: &mut MemHost) -> Result<(), Fail>
    requires free { IsFree (outside_of host.old) }
{
    let names = names(alloc)?;
    match run_named::<MemHost, I>(alloc, host, &names, LIMIT) {
        Ok(()) => Ok(()),
        Err(_) => Err(Fail::new("a run is halted")),
    }
}

/// The host of a run over a device `a` of these bytes.
pub(crate) fn run_over<I: Interpreter>(
    alloc: Global,
    script: &[u8],
    bytes: &[u8],
) -> Result<MemHost, Fail> {
    let mut host = over(alloc, script, bytes, &[])?;
    run::<I>(alloc, &mut host)?;
    Ok(host)
}

/// Plays a table over a device `a` of these bytes, and looks for its replies.
pub(crate) fn expect_over<I: Interpreter>(
    alloc: Global,
    table: &str,
    bytes: &[u8],
) -> Result<MemHost, Fail> {
    let (script, output) = lines_of(alloc, table)?;
    let host = run_over::<I>(alloc, &script, bytes)?;
    if host.output() != output.as_slice() {
        return Err(Fail::new("other bytes are written"));
    }
    Ok(host)
}

/// An engine over the device `a` of a host, if it has one. Nothing is mounted.
pub(crate) fn started<I: Interpreter>(alloc: Global, host: &mut MemHost) -> Result<I, Fail>
    requires { IsFree (outside_of host.old) }
    ensures { IfOk result (λ it. I.stands true it (outside_of host.new)) }
{
    let names = names(alloc)?;
    Ok(I::new(alloc, host, &names)?)
}

/// What is answered to a command.
fn answered<I: Interpreter>(
    alloc: Global,
    host: &mut MemHost,
    it: &mut I,
    command: Command,
) -> Result<Vec<u8>, Fail>
    requires stands { I.stands true it.old (outside_of host.old) }
    requires form { IsTrue (has_form command) }
    ensures { OnOk result (I.stands true it.new (outside_of host.new)) }
{
    match it.apply(host, command) {
        Ok(reply) => Ok(write_reply(alloc, &reply)?),
        Err(_) => Err(Fail::new("no reply")),
    }
}

/// What is answered to a line.
pub(crate) fn ask<I: Interpreter>(
    alloc: Global,
    host: &mut MemHost,
    it: &mut I,
    text: &str,
) -> Result<Vec<u8>, Fail>
    requires { I.stands true it.old (outside_of host.old) }
    ensures { OnOk result (I.stands true it.new (outside_of host.new)) }
{
    match line(alloc, text.as_bytes()) {
        Ok(Some(command)) => answered(alloc, host, it, command),
        _ => Err(Fail::new("no command")),
    }
}
