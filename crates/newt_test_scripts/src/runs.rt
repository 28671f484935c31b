//! Runs and what they write.
ghost use Rattle.std.specs.Prelude.{◌≡◌, IsSome, IsTrue, OnOk};
ghost use Rattle.newt_host.specs.Meanings.{out_of};
ghost use Rattle.newt_memhost.specs.Outside.{outside_of};
ghost use Rattle.newt_test_scripts.specs.Free.{IsFree};

use crate::hosts::{over, over_blank, over_blocks};
use crate::restores::expect_all_restored;
use crate::tables::lines_of;
use newt_host::{Host, Unit};
use newt_memhost::MemHost;
use newt_top::{Status, run};
use std::alloc::{AllocError, Global};
use std::test::Fail;

/// The words of a run.
fn words(alloc: Global, text: &str) -> Result<Vec<String>, AllocError> {
    let mut words = Vec::new(alloc);
    for word in text.split_whitespace() {
        let word = String::from_str(alloc, word)?;
        if words.push(word).is_err() {
            return Err(AllocError);
        }
    }
    Ok(words)
}

/// Runs these words over a host.
pub fn run_on(alloc: Global, text: &str, host: &mut MemHost) -> Result<Status, AllocError>
    requires { IsFree (outside_of host.old) }
{
    Ok(run(alloc, &words(alloc, text)?, host))
}

/// How many lines two outputs have before the first byte that differs.
fn equal_lines(output: &[u8], wanted: &[u8]) -> usize {
    let mut lines: usize = 0;
    let mut place: usize = 0;
    for byte in output {
        if wanted.get(place) != Some(byte) {
            break;
        }
        if *byte == b'\n' {
            lines = lines.saturating_add(1);
        }
        place = place.saturating_add(1);
    }
    lines
}

/// Runs these words over a host, and looks for the status.
pub fn expect_status(
    alloc: Global,
    text: &str,
    host: &mut MemHost,
    status: Status,
) -> Result<(), Fail>
    requires { IsFree (outside_of host.old) }
{
    let ended = run_on(alloc, text, host)?;
    if ended != status {
        return Err(Fail::new(format_args!("{text} ends with {ended:?}")));
    }
    Ok(())
}

/// Runs these words over a host, and looks for the status and the output.
pub fn expect_end(
    alloc: Global,
    text: &str,
    host: &mut MemHost,
    status: Status,
    output: &[u8],
) -> Result<(), Fail>
    requires { IsFree (outside_of host.old) }
    ensures { OnOk result (out_of (outside_of host.new) ≡ output.now) }
{
    expect_status(alloc, text, host, status)?;
    if host.output() != output {
        let lines = equal_lines(host.output(), output);
        return Err(Fail::new(format_args!("{text} writes other bytes after {lines} lines")));
    }
    Ok(())
}

/// Runs these words with an input over the devices `a` and `b` of these bytes, which are whole
/// blocks, and looks for the status Ok.
pub fn run_over(
    alloc: Global,
    text: &str,
    input: &[u8],
    a: &[u8],
    b: &[u8],
) -> Result<MemHost, Fail> {
    let mut host = over(alloc, input, a, b)?;
    expect_status(alloc, text, &mut host, Status::Ok)?;
    Ok(host)
}

/// The same, and looks for the output.
pub fn run_writing(
    alloc: Global,
    text: &str,
    input: &[u8],
    a: &[u8],
    b: &[u8],
    output: &[u8],
) -> Result<MemHost, Fail> {
    let mut host = over(alloc, input, a, b)?;
    expect_end(alloc, text, &mut host, Status::Ok, output)?;
    Ok(host)
}

/// Runs a table over the devices `a` and `b` of these bytes, which are whole blocks, and looks for
/// its replies.
pub fn run_table_on(
    alloc: Global,
    text: &str,
    table: &str,
    a: &[u8],
    b: &[u8],
) -> Result<MemHost, Fail> {
    let (script, output) = lines_of(alloc, table)?;
    run_writing(alloc, text, &script, a, b, &output)
}

/// Runs a table over five devices `a` to `e` of 13 blocks of zero bytes, and looks for its replies.
pub fn run_table(alloc: Global, text: &str, table: &str) -> Result<MemHost, Fail> {
    let (script, output) = lines_of(alloc, table)?;
    let mut host = over_blank(alloc, &script)?;
    expect_end(alloc, text, &mut host, Status::Ok, &output)?;
    Ok(host)
}

/// The bytes of the first unit after such a run.
pub fn card_after(alloc: Global, text: &str, table: &str) -> Result<Vec<u8>, Fail> {
    let host = run_table(alloc, text, table)?;
    image(alloc, &host, Unit(0))
}

/// Runs a table in the same way. Each store that is left is restored from its backup.
pub fn expect(alloc: Global, text: &str, table: &str) -> Result<(), Fail> {
    expect_all_restored(alloc, &run_table(alloc, text, table)?)
}

/// Runs a table over five devices `a` to `e` of so many blocks of zero bytes, and looks for its
/// replies. Each store that is left is restored from its backup.
pub fn expect_over(alloc: Global, text: &str, table: &str, count: u32) -> Result<(), Fail> {
    let (script, output) = lines_of(alloc, table)?;
    let mut host = over_blocks(alloc, &script, count)?;
    expect_end(alloc, text, &mut host, Status::Ok, &output)?;
    expect_all_restored(alloc, &host)
}

/// Whether the mode `check` finds nothing damaged on a device of these bytes.
pub fn is_clean(alloc: Global, bytes: &[u8]) -> Result<bool, Fail> {
    let host = run_over(alloc, "check a", b"", bytes, &[])?;
    Ok(host.output().starts_with(b"ok clean "))
}

/// Looks for what `check` writes of a device of these bytes, which stay.
pub fn expect_said(alloc: Global, bytes: &[u8], output: &[u8]) -> Result<(), Fail> {
    let host = run_writing(alloc, "check a", b"", bytes, &[], output)?;
    if image(alloc, &host, Unit(0))?.as_slice() != bytes {
        return Err(Fail::new("the device is changed"));
    }
    Ok(())
}

/// Whether the unit has a device.
pub(crate) fn has_device(host: &MemHost, unit: Unit) -> bool
    ensures { IsTrue result → IsSome ((outside_of host.now).card unit) }
{
    host.blocks(unit) > 0
}

/// The bytes of a unit.
pub fn image(alloc: Global, host: &MemHost, unit: Unit) -> Result<Vec<u8>, Fail> {
    if !has_device(host, unit) {
        return Err(Fail::new("a unit without a device"));
    }
    Ok(Vec::from_slice(alloc, host.bytes(unit))?)
}
