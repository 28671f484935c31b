//! Reads of the input in order, and counts of erases and of syncs.
ghost use Rattle.std.specs.Prelude.{IfOk, IsSome};
ghost use Rattle.newt_memhost.specs.Outside.{outside_of};

use crate::steps::{CARD, check, check_at, erase, host_of, print, read, sync, take};
use newt_host::Host;
use newt_memhost::MemHost;
use std::alloc::{AllocError, Global};
use std::process::Abort;
use std::test::Fail;

/// Takes the input of four bytes in pieces of three; the calls 1 and 4 are to fail.
fn prepare(host: &mut MemHost) -> Result<(), AllocError>
    requires { IsSome ((outside_of host.old).card 0) }
    ensures { IsSome ((outside_of host.new).card 0) }
{
    host.input(b"abcd")?;
    host.piece(3);
    host.fail(1)?;
    host.fail(4)
}

/// A card of one block, prepared.
fn prepared(rt: &impl Abort, alloc: Global) -> Result<MemHost, Fail>
    ensures { IfOk result (λ host. IsSome ((outside_of host).card 0)) }
{
    let mut host = host_of(rt, alloc, &[7; 4096])?;
    prepare(&mut host)?;
    Ok(host)
}

/// Whether one `read_in` gives these bytes.
fn takes(host: &mut MemHost, wanted: &[u8]) -> bool
    requires { IsSome ((outside_of host.old).card 0) }
    ensures { IsSome ((outside_of host.new).card 0) }
{
    let mut buf = [0; 8];
    match host.read_in(&mut buf) {
        Ok(count) => buf.get(..count) == Some(wanted),
        Err(_) => false,
    }
}

/// All of the input, with a call that fails and a piece of output between.
fn take_all(rt: &impl Abort, host: &mut MemHost)
    requires { IsSome ((outside_of host.old).card 0) }
    ensures { IsSome ((outside_of host.new).card 0) }
{
    check(rt, takes(host, b"abc"), "the first piece");
    check(rt, take(host).is_err(), "the call 1");
    check(rt, print(host, b"x") == Ok(1), "the output");
    check(rt, takes(host, b"d"), "the second piece");
    check(rt, take(host).is_err(), "the call 4");
    check(rt, takes(host, b""), "the end");
}

/// How much of the input was taken when each call began.
fn assert_taken(rt: &impl Abort, host: &MemHost, before: [u64; 6]) {
    for call in 0..6u64 {
        let taken = before[call as usize];
        assert!(rt; call < host.calls());
        check_at(rt, host.in_before(call) == taken, call);
        check_at(rt, host.unit_of(call).is_none(), call);
    }
}

#[test]
fn reads_of_the_input_are_events_in_order(rt: HostRuntime) -> Result<(), Fail> {
    let mut host = prepared(&rt, rt.alloc())?;
    take_all(&rt, &mut host);
    assert_taken(&rt, &host, [0, 3, 3, 3, 4, 4]);
    Ok(())
}

/// The counts of the card: of its erases, of its syncs, and of the bytes that were read.
fn counts(host: &MemHost) -> [u64; 3]
    requires { IsSome ((outside_of host.now).card 0) }
{
    [host.erased(CARD), host.synced(CARD), host.fetched(CARD)]
}

fn assert_counts(rt: &impl Abort, host: &MemHost, wanted: [u64; 3])
    requires { IsSome ((outside_of host.now).card 0) }
{
    assert!(rt; counts(host) == wanted, "{wanted:?}");
}

/// Two erases and three syncs, one of each of which fails.
fn erase_and_sync(rt: &impl Abort, host: &mut MemHost)
    requires { IsSome ((outside_of host.old).card 0) }
    ensures { IsSome ((outside_of host.new).card 0) }
{
    check(rt, erase(rt, host, 0).is_ok(), "the call 0");
    assert_counts(rt, host, [1, 0, 0]);
    check(rt, erase(rt, host, 0).is_err(), "the call 1");
    assert_counts(rt, host, [2, 0, 0]);
    check(rt, sync(host).is_ok(), "the call 2");
    assert_counts(rt, host, [2, 1, 0]);
    check(rt, read(rt, host, 8).is_ok(), "the call 3");
    assert_counts(rt, host, [2, 1, 8]);
    check(rt, sync(host).is_err(), "the call 4");
    assert_counts(rt, host, [2, 2, 8]);
    check(rt, sync(host).is_ok(), "the call 5");
    assert_counts(rt, host, [2, 3, 8]);
}

#[test]
fn each_erase_and_sync_is_counted_and_so_is_one_that_fails(rt: HostRuntime) -> Result<(), Fail> {
    let mut host = prepared(&rt, rt.alloc())?;
    erase_and_sync(&rt, &mut host);
    check(&rt, host.programmed(CARD) == 0, "no program");
    Ok(())
}
