//! The backup of the store on a device, with texts that were written by hand.

use crate::trial::expect_reading_halts;
use newt_test_scripts::{blocks, card_after, run_writing};
use std::alloc::Global;
use std::test::Fail;

/// Runs a table over the device `a` of 13 blocks of zero bytes, and then looks for its backup.
fn expect_backup(alloc: Global, table: &str, output: &[u8]) -> Result<(), Fail> {
    let bytes = card_after(alloc, "run a", table)?;
    run_writing(alloc, "backup a", b"", &bytes, &[], output)?;
    Ok(())
}

/// The backup of a store as it is formatted.
pub(crate) const FRESH: &[u8] =
    b"\x02\x06\x02\x07\x09directory\x07\x07entries\x05\x01\x03\x10\x07\x05bytes\
    \x08Internal\0\0\0\x07\0\0\0\x05\0";

#[test]
fn writes_a_fresh_store(rt: HostRuntime) -> Result<(), Fail> {
    expect_backup(rt.alloc(), "format 0 Internal 7 => ok", FRESH)
}

/// A soup with one entry of minute 5.
const ONE_ENTRY: &str = "
format 0 Internal 7 => ok
mount 0 => ok 7 Internal
soup 0 S => ok 0
time 5 => ok
add 0 S {a: 1} => ok 0
";

/// Its backup.
pub(crate) const ENTRY: &[u8] =
    b"\x02\x06\x02\x07\x09directory\x07\x07entries\x05\x01\x03\x1a\x07\x05bytes\
    \x08Internal\0\0\0\x07\0\x01\x01\x01S\0\0\0\0\0\x01\0\0\
    \x05\x01\x05\x01\x03\x12\x09\x05\0\0\0\0\0\0\0\0\0\x05\x02\x06\x01\x07\x01a\0\x04";

#[test]
fn writes_an_entry_with_its_id_and_its_minute(rt: HostRuntime) -> Result<(), Fail> {
    expect_backup(rt.alloc(), ONE_ENTRY, ENTRY)
}

#[test]
fn says_why_there_is_none(rt: HostRuntime) -> Result<(), Fail> {
    let alloc = rt.alloc();
    let (small, blank) = (blocks(alloc, 12)?, blocks(alloc, 13)?);
    let cases: [(&str, &[u8]); 3] = [
        ("backup c", b"error 20 unit\n"),
        ("backup a", b"error 27 blocks\n"),
        ("backup b", b"error 22 nostore\n"),
    ];
    for (text, output) in cases {
        run_writing(alloc, text, b"", &small, &blank, output)?;
    }
    let large = blocks(alloc, 4100)?;
    run_writing(alloc, "backup a", b"", &large, &[], b"error 27 blocks\n")?;
    Ok(())
}

#[test]
fn halts_at_each_call_that_fails(rt: HostRuntime) -> Result<(), Fail> {
    let alloc = rt.alloc();
    expect_reading_halts(alloc, "backup a", &card_after(alloc, "run a", ONE_ENTRY)?)
}
