//! Generated scripts, whose replies are counted.

use newt_script_generator::gen_script;
use newt_test_scripts::{blocks, run_over, run_writing};
use std::alloc::Global;
use std::test::Fail;

/// Runs these words with an input over a device `a` of 64 blocks of zero bytes, and looks for the
/// output.
fn expect_summary(alloc: Global, text: &str, input: &[u8], output: &[u8]) -> Result<(), Fail> {
    run_writing(alloc, text, input, &blocks(alloc, 64)?, &[], output)?;
    Ok(())
}

#[test]
fn writes_the_summary(rt: HostRuntime) -> Result<(), Fail> {
    let cases: &[(&str, &[u8])] = &[
        ("gen 1 0 a", b"commands 10\nok 10\nerrors 0\nbytes 46\n"),
        ("gen 1 1 a", b"commands 12\nok 12\nerrors 0\nbytes 121\n"),
        (
            "gen 0000000001 01 a",
            b"commands 12\nok 12\nerrors 0\nbytes 121\n",
        ),
        // there is no device of this name, and all but `quit` is refused
        (
            "gen 1 1 other",
            b"commands 12\nok 1\nerrors 11\nbytes 163\n",
        ),
    ];
    for (text, summary) in cases {
        expect_summary(rt.alloc(), text, b"nsof 020A\n", summary)?;
    }
    Ok(())
}

#[test]
fn counts_what_a_run_of_the_script_writes(rt: HostRuntime) -> Result<(), Fail> {
    let alloc = rt.alloc();
    let script = gen_script(alloc, 1, 200)?;
    let written = run_over(alloc, "run a", &script, &blocks(alloc, 64)?, &[])?;
    let size = written.output().len();
    let summary = format!(in alloc; "commands 410\nok 410\nerrors 0\nbytes {size}\n")?;
    expect_summary(alloc, "gen 1 200 a", b"", summary.as_bytes())
}
