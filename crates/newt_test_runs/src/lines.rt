//! Lines and their replies.

use crate::trial::{expect_in_pieces, expect_lines, expect_outputs};
use std::test::Fail;

/// Object streams, and what is none.
const STREAMS: &str = "
nsof 0206010701610004 => ok 0206010701610004
nsof 0200FF00000014 => ok 020014
nsof 0200FF00000100 => ok 0200FF00000100
nsof 020002 => ok 020A
nsof 02020041 => ok 020141
nsof 020601070473656C660900 => ok 020601070473656C660900
nsof 0205020703466F6F0703666F6F => ok 0205020703466F6F0901
nsof 020905 => error 1 malformed
nsof 020A0A => error 1 malformed
nsof 0 => error 1 malformed
nsof => error 1 malformed
nosf 020A => error 10 command
nsof 02060107 => error 1 malformed
";

#[test]
fn answers_object_streams(rt: HostRuntime) -> Result<(), Fail> {
    expect_lines(rt.alloc(), STREAMS)
}

/// Streams of large binaries, of which one is compressed.
const COMPRESSED: &str = "
nsof 020C0703666F6F01000000010000000000000000000000004 => error 1 malformed
nsof 020C0703666F6F010000000100000000000000000000000041 => error 2 compressed
nsof 020C0703666F6F000000000100000000000000000000000041 => ok 020C0703666F6F000000000100000000000000000000000041
nsof 020C0703666F6F0000000001000000020000000000000000616241 => ok 020C0703666F6F000000000100000000000000000000000041
";

#[test]
fn tells_a_compressed_stream(rt: HostRuntime) -> Result<(), Fail> {
    expect_lines(rt.alloc(), COMPRESSED)
}

#[test]
fn passes_over_blank_and_comment_lines(rt: HostRuntime) -> Result<(), Fail> {
    let script = b"\n  \t \n% nsof 020A\n\t % quit\n\r\n\r\r\n%\r\n nsof \t 020a \t\r\n%";
    let output = b"error 10 command\nok 020A\n";
    expect_in_pieces(rt.alloc(), "run", script, output)
}

#[test]
fn answers_a_last_line_without_its_end(rt: HostRuntime) -> Result<(), Fail> {
    let cases: &[(&[u8], &[u8])] = &[
        (b"nsof 020A", b"ok 020A\n"),
        (b"nsof 020A\r", b"ok 020A\n"),
        (b"nsof 020A\nquit", b"ok 020A\nok\n"),
        (b"nsof 020A\nqui", b"ok 020A\nerror 10 command\n"),
        (b"nsof 020A\n\r", b"ok 020A\n"),
        (b"", b""),
    ];
    expect_outputs(rt.alloc(), "run", cases)
}

#[test]
fn takes_any_byte_in_a_line(rt: HostRuntime) -> Result<(), Fail> {
    let cases: &[(&[u8], &[u8])] = &[
        (
            b"\x00\nnsof 02\x000A\n",
            b"error 10 command\nerror 1 malformed\n",
        ),
        (
            b"\xFF\xFE\nnsof 020A\xFF\n",
            b"error 10 command\nerror 1 malformed\n",
        ),
        (b"nsof\x00020A\n", b"error 10 command\n"),
        (
            b"nsof 020A\rx\nnsof 020A\r\r\n",
            b"error 1 malformed\nerror 1 malformed\n",
        ),
        (b"lit \"\xC3\"\n", b"error 3 literal\n"),
    ];
    expect_outputs(rt.alloc(), "run", cases)
}

/// Literals, and what is none.
const LITERALS: &str = "
lit {A: 1, B: 'a} => ok {A: 1, B: 'A}
lit #3={me: #3#} => ok #0={me: #0#}
lit [\"x\",\"x\"] => ok [\"x\", \"x\"]
lit [#1=\"x\", #1#] => ok [#0=\"x\", #0#]
lit -536870912 => ok -536870912
 lit \t nil \t => ok nil
lit \"Straße\" => ok \"Stra\\u00DFe\"
lit 536870912 => error 3 literal
lit #1=5 => error 3 literal
lit => error 11 line
lit\t => error 11 line
lit {a 1} => error 3 literal
";

#[test]
fn prints_literals(rt: HostRuntime) -> Result<(), Fail> {
    expect_lines(rt.alloc(), LITERALS)
}

/// Minutes, and what is none.
const MINUTES: &str = "
time 0 => ok
 time\t4294967295 => ok
time 0000000005 => ok
time 4294967296 => error 11 line
time 00000000005 => error 11 line
time => error 11 line
time 5 6 => error 11 line
time -5 => error 11 line
time five => error 11 line
time 5x => error 11 line
Time 5 => error 10 command
";

#[test]
fn reads_the_minute(rt: HostRuntime) -> Result<(), Fail> {
    expect_lines(rt.alloc(), MINUTES)
}

#[test]
fn ends_at_a_well_formed_quit(rt: HostRuntime) -> Result<(), Fail> {
    let cases: &[(&[u8], &[u8])] = &[
        (b"nsof 020A\nquit\nnsof 020A\n", b"ok 020A\nok\n"),
        (b" quit \t\r\nnsof 020A\n", b"ok\n"),
        (b"quit now\nnsof 020A\n", b"error 11 line\nok 020A\n"),
        (
            b"% quit\nQuit\nquit.\n",
            b"error 10 command\nerror 10 command\n",
        ),
    ];
    expect_outputs(rt.alloc(), "run", cases)
}
