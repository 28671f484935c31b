//! Lines that are no streams, and streams at their limits.

use newt_test_scripts::{expect_end, host, lines_of};
use newt_top::Status;
use std::test::Fail;

/// Streams that end too early; that have an unknown tag, a pointer, a count below 0, a string of an
/// odd length or without its end, or equal tags; an array that holds itself; and 200 and 201 arrays
/// within one another.
const LINES: &str = "
nsof 02 => error 1 malformed
nsof 010A => error 1 malformed
nsof 020D => error 1 malformed
nsof 020005 => error 1 malformed
nsof 0205FFFFFFFFFF => error 1 malformed
nsof 02080141 => error 1 malformed
nsof 02080400410042 => error 1 malformed
nsof 0206020701610701410A0A => error 1 malformed
nsof 0205010900 => ok 0205010900
nsof 02~0501*200~0A => ok 02~0501*200~0A
nsof 02~0501*201~0A => error 1 malformed
";

#[test]
fn lines_that_are_no_streams_are_refused(rt: HostRuntime) -> Result<(), Fail> {
    let alloc = rt.alloc();
    let (script, output) = lines_of(alloc, LINES)?;
    let mut host = host(alloc, &script, u32::MAX)?;
    expect_end(alloc, "run", &mut host, Status::Ok, &output)
}
