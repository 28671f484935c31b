//! Lines and inputs at their limits and beyond.

use newt_test_scripts::{expanded, expect_end, host};
use newt_top::Status;
use std::alloc::Global;
use std::test::Fail;

/// An input, how the run ends, and what it writes.
type Case = (&'static str, Status, &'static str);

fn expect_each(alloc: Global, text: &str, cases: &[Case]) -> Result<(), Fail> {
    for (input, status, output) in cases {
        let mut host = host(alloc, &expanded(alloc, input)?, u32::MAX)?;
        expect_end(alloc, text, &mut host, *status, output.as_bytes())?;
    }
    Ok(())
}

/// Lines of 140,000 bytes and of one more.
#[test]
fn reads_lines_up_to_their_limit(rt: HostRuntime) -> Result<(), Fail> {
    let cases = [
        ("time 5~ *139994~\n", Status::Ok, "ok\n"),
        ("time 5~ *139994~\r\n", Status::Ok, "ok\n"),
        ("time 5~ *139995~\n", Status::Ok, "error 12 longline\n"),
        ("nsof 02~0*139994~", Status::Ok, "error 12 longline\n"),
        (
            "walk~x*139997~\nquit\n",
            Status::Ok,
            "error 12 longline\nok\n",
        ),
        (
            "quit~ *139997~\nquit\n",
            Status::Ok,
            "error 12 longline\nok\n",
        ),
        ("%~x*140000~\nquit\n", Status::Ok, "ok\n"),
        ("~ *140001~\nquit\n", Status::Ok, "ok\n"),
        ("~\t*140001~quit\n", Status::Ok, "error 12 longline\n"),
    ];
    expect_each(rt.alloc(), "run", &cases)
}

/// Inputs of comment around 16,777,216 bytes.
#[test]
fn reads_inputs_up_to_their_limit(rt: HostRuntime) -> Result<(), Fail> {
    let cases = [
        ("~%*16777216~", Status::Ok, ""),
        ("~%*16777217~", Status::TooLong, ""),
        ("quit\n~%*16777212~", Status::Ok, "ok\n"),
        ("quit now\n~%*16777208~", Status::TooLong, "error 11 line\n"),
        ("nsof 020A\n~%*16777205~\nx", Status::TooLong, "ok 020A\n"),
        (
            "nsof 020A\n~%*16777200~\nquit\nx",
            Status::Ok,
            "ok 020A\nok\n",
        ),
        (
            "nsof 020A\n~%*16777201~\nquit\n",
            Status::TooLong,
            "ok 020A\n",
        ),
        ("nsof 020A\n~%*16777201~\nquit", Status::Ok, "ok 020A\nok\n"),
    ];
    expect_each(rt.alloc(), "run", &cases)
}

/// The same, for inputs that are taken as a whole.
#[test]
fn converts_inputs_up_to_their_limit(rt: HostRuntime) -> Result<(), Fail> {
    let cases = [
        ("~%*16777216~", Status::Ok, "error 1 malformed\n"),
        ("~%*16777217~", Status::TooLong, ""),
    ];
    expect_each(rt.alloc(), "show", &cases)?;
    expect_each(rt.alloc(), "pack", &[("~%*16777217~", Status::TooLong, "")])
}
