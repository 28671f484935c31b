//! Runs in which a call of the host fails.

use newt_test_scripts::{expect_end, host, run_on};
use newt_top::Status;
use std::alloc::Global;
use std::test::Fail;

const SCRIPT: &[u8] = b"nsof 020A\ntime 5\nquit now";

const OUTPUT: &[u8] = b"ok 020A\nok\nerror 11 line\n";

/// The number of a call that fails, how the run ends then, and what it has written.
type Case = (u64, Status, &'static [u8]);

fn expect_each(alloc: Global, text: &str, input: &[u8], cases: &[Case]) -> Result<(), Fail> {
    for (call, status, output) in cases {
        let mut host = host(alloc, input, 100)?;
        host.fail(*call)?;
        expect_end(alloc, text, &mut host, *status, output)?;
    }
    Ok(())
}

#[test]
fn tells_which_call_failed(rt: HostRuntime) -> Result<(), Fail> {
    let cases = [
        (0u64, Status::Source, b"".as_slice()),
        (1, Status::Sink, b""),
        (2, Status::Sink, b"ok 020A\n"),
        (3, Status::Source, b"ok 020A\nok\n"),
        (4, Status::Sink, b"ok 020A\nok\n"),
        (5, Status::Ok, OUTPUT),
    ];
    expect_each(rt.alloc(), "run", SCRIPT, &cases)
}

#[test]
fn writes_nothing_of_a_whole_input_that_fails(rt: HostRuntime) -> Result<(), Fail> {
    // two calls take the input, and the third writes
    let cases = [
        (0u64, Status::Source, b"".as_slice()),
        (1, Status::Source, b""),
        (2, Status::Sink, b""),
    ];
    expect_each(rt.alloc(), "show", b"\x02\x0A", &cases)?;
    expect_each(rt.alloc(), "pack", b"nil", &cases)
}

/// Where the call of a number fails the run ends there.
fn expect_halted(alloc: Global, piece: u32, call: u64) -> Result<(), Fail> {
    let mut host = host(alloc, SCRIPT, piece)?;
    host.fail(call)?;
    let status = run_on(alloc, "run", &mut host)?;
    let failed = status == Status::Source || status == Status::Sink;
    if !failed || !OUTPUT.starts_with(host.output()) || host.calls() != call.saturating_add(1) {
        return Err(Fail::new(format_args!("not halted at call {call}")));
    }
    Ok(())
}

#[test]
fn halts_at_each_call_that_fails(rt: HostRuntime) -> Result<(), Fail> {
    let alloc = rt.alloc();
    for piece in [1u32, 4, 11] {
        let mut sound = host(alloc, SCRIPT, piece)?;
        expect_end(alloc, "run", &mut sound, Status::Ok, OUTPUT)?;
        for call in 0..sound.calls() {
            expect_halted(alloc, piece, call)?;
        }
    }
    Ok(())
}
