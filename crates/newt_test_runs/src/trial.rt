//! Runs whose input comes in pieces, and the numbers of statuses.

use newt_host::Unit;
use newt_memhost::MemHost;
use newt_test_scripts::{expect_end, expect_status, host, image, lines_of, over, run_on};
use newt_top::Status;
use std::alloc::Global;
use std::process::Abort;
use std::test::Fail;

/// Runs an input in pieces of several sizes, and looks each time for its output and the status Ok.
pub(crate) fn expect_in_pieces(
    alloc: Global,
    text: &str,
    input: &[u8],
    output: &[u8],
) -> Result<(), Fail> {
    for piece in [1u32, 2, 7, 100_000] {
        let mut host = host(alloc, input, piece)?;
        expect_end(alloc, text, &mut host, Status::Ok, output)?;
    }
    Ok(())
}

/// The same for a table.
pub(crate) fn expect_lines(alloc: Global, table: &str) -> Result<(), Fail> {
    let (script, output) = lines_of(alloc, table)?;
    expect_in_pieces(alloc, "run", &script, &output)
}

/// The same for each of some inputs.
pub(crate) fn expect_outputs(
    alloc: Global,
    text: &str,
    cases: &[(&'static [u8], &'static [u8])],
) -> Result<(), Fail> {
    for (input, output) in cases {
        expect_in_pieces(alloc, text, input, output)?;
    }
    Ok(())
}

#[test]
fn numbers_the_statuses(rt: HostRuntime) {
    assert_exit(&rt, Status::Ok, 0);
    assert_exit(&rt, Status::Usage, 2);
    assert_exit(&rt, Status::Memory, 3);
    assert_exit(&rt, Status::Device(Unit(7)), 4);
    assert_exit(&rt, Status::Source, 5);
    assert_exit(&rt, Status::Sink, 6);
    assert_exit(&rt, Status::TooLong, 7);
}

fn assert_exit(rt: &impl Abort, status: Status, number: u8) {
    assert!(rt; status.exit() == number, "at {number}");
}

/// Where the call of a number fails, words that read the device `a` of these bytes end there: with
/// `Device` where the call is on the device, and otherwise with `Sink`. They have written what the
/// sound run had written before, and the device stays.
fn expect_reading_halted(
    alloc: Global,
    text: &str,
    bytes: &[u8],
    sound: &MemHost,
    call: u64,
) -> Result<(), Fail> {
    if sound.calls() <= call {
        return Ok(());
    }
    let wanted = match sound.unit_of(call) {
        Some(unit) => Status::Device(unit),
        None => Status::Sink,
    };
    let mut host = over(alloc, b"", bytes, &[])?;
    host.piece(40);
    host.fail(call)?;
    let status = run_on(alloc, text, &mut host)?;
    let is_begun = sound.output().starts_with(host.output())
        && host.output().len() as u64 == sound.out_before(call);
    if status != wanted || !is_begun || image(alloc, &host, Unit(0))?.as_slice() != bytes {
        return Err(Fail::new(format_args!("{text} is not halted at call {call}")));
    }
    Ok(())
}

/// The same for each call of a run of these words.
pub(crate) fn expect_reading_halts(alloc: Global, text: &str, bytes: &[u8]) -> Result<(), Fail> {
    let mut sound = over(alloc, b"", bytes, &[])?;
    sound.piece(40);
    expect_status(alloc, text, &mut sound, Status::Ok)?;
    for call in 0..sound.calls() {
        expect_reading_halted(alloc, text, bytes, &sound, call)?;
    }
    Ok(())
}
