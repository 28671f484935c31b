//! What an overwritten large binary writes on the device.

use newt_test_scripts::card_after;
use std::process::Abort;
use std::test::Fail;

/// A large binary of three pages.
const ADDED: &str = "
format 0 A 7 => ok
mount 0 => ok 7 A
soup 0 S => ok 0
add 0 S {v: <<wave:*1200>>} => ok 0
";

/// The same, overwritten where two pages meet.
const WRITTEN: &str = "
format 0 A 7 => ok
mount 0 => ok 7 A
soup 0 S => ok 0
add 0 S {v: <<wave:*1200>>} => ok 0
vwrite 0 S 0 v 499 4142 => ok
";

/// The gate, the length and the counts of a record that puts two pages and removes none; and its
/// length.
const HEAD: &[u8] = b"\x00\x00\x00\x04\x0C\x00\x02\x00\x00";

const RECORD: usize = 1041;

/// Where the records of the first bank of a unit of 13 blocks end. The last byte of a record is not
/// FF.
fn tail(image: &[u8]) -> usize {
    let mut tail: usize = 0;
    let mut end: usize = 0;
    for byte in image {
        end = end.saturating_add(1);
        if end <= 32_768 && *byte != 0xFF {
            tail = end;
        }
    }
    tail
}

/// Whether an image is another with one more record of two pages.
fn has_two_pages_more(before: &[u8], after: &[u8]) -> bool {
    let tail = tail(before);
    if before.len() != 53_248 || after.len() != 53_248 || tail > 30_000 {
        return false;
    }
    let (first, others) = after.split_at(tail);
    let (record, rest) = others.split_at(RECORD);
    first == &before[..tail] && record.starts_with(HEAD) && rest == &before[tail + RECORD..]
}

#[test]
fn writes_two_pages_where_two_are_met(rt: HostRuntime) -> Result<(), Fail> {
    let alloc = rt.alloc();
    let before = card_after(alloc, "run a b", ADDED)?;
    let after = card_after(alloc, "run a b", WRITTEN)?;
    assert!(rt; has_two_pages_more(&before, &after));
    Ok(())
}
