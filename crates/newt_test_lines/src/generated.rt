//! Generated scripts.
use newt_script_generator::gen_script;
use std::alloc::Global;
use std::test::Fail;

/// The script of seed 1 and one name.
const ONE: &str = "format 0 Gen 1
mount 0
soup 0 Names
index 0 Names name.last:string:ascend
tags 0 Names labels business personal
add 0 Names {name: {first: \"F8\", last: \"L838\"}, labels: 'business, n: 0}
query 0 Names {indexPath: [pathExpr: 'name, 'last]}
entry 0
next 0
count 0
unmount 0
quit
";

/// Looks for that script.
fn expect_one(alloc: Global, seed: u32) -> Result<(), Fail> {
    let script = gen_script(alloc, seed, 1)?;
    if script.as_slice() != ONE.as_bytes() {
        return Err(Fail::new(format_args!("another script of {seed}")));
    }
    Ok(())
}

fn lines_of(script: &[u8]) -> usize {
    let mut lines: usize = 0;
    for byte in script {
        if *byte == b'\n' {
            lines = lines.saturating_add(1);
        }
    }
    lines
}

/// Looks for two lines for each name, beside the ten others.
fn expect_lines(alloc: Global, count: u32) -> Result<(), Fail> {
    let script = gen_script(alloc, 7, count)?;
    let lines = lines_of(&script);
    if lines != 10 + 2 * count as usize {
        return Err(Fail::new(format_args!("{lines} lines of {count} names")));
    }
    Ok(())
}

#[test]
fn scripts_of_one_name(rt: HostRuntime) -> Result<(), Fail> {
    expect_one(rt.alloc(), 1)?;
    // only the low 31 bits of a seed count
    expect_one(rt.alloc(), (1 << 31) + 1)
}

#[test]
fn scripts_grow_by_two_lines_a_name(rt: HostRuntime) -> Result<(), Fail> {
    for count in [0u32, 1, 2, 1000] {
        expect_lines(rt.alloc(), count)?;
    }
    Ok(())
}
