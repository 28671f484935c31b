//! The words of a run, and inputs that are taken as a whole.

use crate::trial::expect_outputs;
use newt_test_scripts::{expect_end, host};
use newt_top::Status;
use std::test::Fail;

const OTHERS: &[&str] = &[
    "",
    "walk",
    "Run",
    "run a a",
    "run a b c d e f g h i",
    "show x",
    "pack x",
    "--help",
    "backup",
    "backup a b",
    "check",
    "check a b",
    "Check a",
    "restore",
    "restore a b",
    "Restore a",
    "gen",
    "gen 1 1",
    "gen 1 1 a b",
    "gen 1 10001 a",
    "gen 4294967296 1 a",
    "gen 00000000001 1 a",
    "gen -1 1 a",
    "gen 1 x a",
];

#[test]
fn refuses_other_words(rt: HostRuntime) -> Result<(), Fail> {
    let alloc = rt.alloc();
    for text in OTHERS {
        let mut host = host(alloc, b"nsof 020A\n", 100)?;
        expect_end(alloc, text, &mut host, Status::Usage, b"")?;
        if host.calls() > 0 {
            return Err(Fail::new(format_args!("{text} reads or writes")));
        }
    }
    Ok(())
}

#[test]
fn takes_names_that_differ(rt: HostRuntime) -> Result<(), Fail> {
    let alloc = rt.alloc();
    for text in ["run", "run card", "run run", "run a b c d e f g h"] {
        let mut host = host(alloc, b"nsof 020A\n", 100)?;
        expect_end(alloc, text, &mut host, Status::Ok, b"ok 020A\n")?;
    }
    Ok(())
}

const FRAME: &[u8] = b"\x02\x06\x01\x07\x01a\x00\x04";

#[test]
fn shows_object_streams(rt: HostRuntime) -> Result<(), Fail> {
    let cases: &[(&[u8], &[u8])] = &[
        (b"\x02\x0A", b"ok nil\n"),
        (FRAME, b"ok {a: 1}\n"),
        (b"\x02\x0A\x0A", b"error 1 malformed\n"),
        (b"", b"error 1 malformed\n"),
        (
            b"\x02\x0C\x07\x03foo\x01\x00\x00\x00\x01\x00\x00\x00\x00\x00\x00\x00\x00\x00\x00\x00\x00A",
            b"error 2 compressed\n",
        ),
    ];
    expect_outputs(rt.alloc(), "show", cases)
}

#[test]
fn packs_literals(rt: HostRuntime) -> Result<(), Fail> {
    let cases: &[(&[u8], &[u8])] = &[
        (b"{a: 1}", FRAME),
        (b" \r\n{ a\t:1 }\n", FRAME),
        (b"{a 1}", b"error 3 literal\n"),
        (b"\"\xC3\"", b"error 3 literal\n"),
        (b"", b"error 3 literal\n"),
    ];
    expect_outputs(rt.alloc(), "pack", cases)
}
