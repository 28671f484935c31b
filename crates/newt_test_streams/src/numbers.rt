//! Numbers in text and bytes, names, hexadecimal text and refusals.
use crate::calls::Call;
use newt_base::{Refusal, be16, be32, set16, set32};
use newt_test_tables::{expect, expect_rows};
use std::alloc::{AllocError, Global};
use std::test::*;

const DECIMALS: &str = "
0 => Some(0)
0000000007 => Some(7)
4294967295 => Some(4294967295)
4294967296 => None
00000000007 => None
 => None
+1 => None
-1 => None
 1 => None
";

const SIGNED: &str = "
-0 => Some(0)
12 => Some(12)
2147483647 => Some(2147483647)
2147483648 => None
-2147483648 => Some(-2147483648)
-2147483649 => None
- => None
--1 => None
 => None
";

const NAMES: &str = "
To Do List => [84, 111, 32, 68, 111, 32, 76, 105, 115, 116]
 => name
tab␉here => name
caf\u{e9} => name
a name of forty bytes, which is too long => name
";

const HEXADECIMAL: &str = "
0a0BfF => [10, 11, 255] [48, 65, 48, 66, 70, 70]
0 => not hex
0g => not hex
0  => not hex
0x => not hex
";

/// Eight bytes in which two numbers are set, and the numbers that stand there.
fn set_numbers(alloc: Global) -> Result<String, AllocError> {
    let mut bytes = [9u8; 8];
    set16(&mut bytes, 1, 0x0102);
    set32(&mut bytes, 3, 0xFFFEFDFC);
    format!(in alloc; "{bytes:?} {:X} {:X}", be16(&bytes, 1), be32(&bytes, 3))
}

/// Numbers and words of refusals.
fn refusals(alloc: Global) -> Result<String, AllocError> {
    let mut out = String::new(alloc);
    for refusal in [
        Refusal::Malformed,
        Refusal::Longline,
        Refusal::Unit,
        Refusal::Full,
        Refusal::Key,
    ] {
        let told = format!(in alloc; " {} {}", refusal.number(), refusal.word())?;
        out.push_str(&told)?;
    }
    Ok(out)
}

#[test]
fn numbers_without_a_sign(rt: HostRuntime) -> Result<(), Fail> {
    expect_rows(rt.alloc(), &Call::Decimal, DECIMALS)
}

#[test]
fn numbers_with_a_sign(rt: HostRuntime) -> Result<(), Fail> {
    expect_rows(rt.alloc(), &Call::Signed, SIGNED)
}

#[test]
fn numbers_in_bytes(rt: HostRuntime) -> Result<(), Fail> {
    expect(
        "setting numbers",
        &set_numbers(rt.alloc())?,
        "[9, 1, 2, 255, 254, 253, 252, 9] 102 FFFEFDFC",
    )
}

#[test]
fn names_are_read(rt: HostRuntime) -> Result<(), Fail> {
    expect_rows(rt.alloc(), &Call::Name, NAMES)
}

#[test]
fn hexadecimal_text_is_read_and_written(rt: HostRuntime) -> Result<(), Fail> {
    expect_rows(rt.alloc(), &Call::Hex, HEXADECIMAL)
}

#[test]
fn refusals_have_numbers_and_words(rt: HostRuntime) -> Result<(), Fail> {
    expect(
        "refusals",
        &refusals(rt.alloc())?,
        " 1 malformed 12 longline 20 unit 33 full 43 key",
    )
}
