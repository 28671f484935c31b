//! A walk over four stores of 50 entries each, all of one key: by the signatures of the stores, and
//! then by the ids.

use newt_test_scripts::expect_over;
use std::alloc::Global;
use std::test::Fail;

/// The entries of each store.
const ENTRIES: u32 = 50;

/// The entries of all four.
const ALL: u32 = 200;

/// The units in the order of the signatures of their stores.
const IN_ORDER: [u32; 4] = [2, 3, 0, 1];

const STORES: &str = "format 0 A 7 => ok
mount 0 => ok 7 A
soup 0 N => ok 0
index 0 N k:int:ascend => ok
format 1 B 9 => ok
mount 1 => ok 9 B
soup 1 N => ok 0
index 1 N k:int:ascend => ok
format 2 C 3 => ok
mount 2 => ok 3 C
soup 2 N => ok 0
index 2 N k:int:ascend => ok
format 3 D 5 => ok
mount 3 => ok 5 D
soup 3 N => ok 0
index 3 N k:int:ascend => ok
";

/// The rows that add the entries, one to each store in turn.
fn add_all(alloc: Global, table: &mut String) -> Result<(), Fail> {
    for uid in 0..ENTRIES {
        for unit in 0u32..4 {
            table.push_str(&format!(in alloc; "add {unit} N {{k: 1}} => ok {uid}\n")?)?;
        }
    }
    Ok(())
}

/// The row of a step to the entry of this place among all.
fn step_to(alloc: Global, table: &mut String, line: &str, place: u32) -> Result<(), Fail> {
    let unit = IN_ORDER[(place / ENTRIES % 4) as usize];
    let uid = place % ENTRIES;
    table.push_str(&format!(in alloc; "{line} 0 => ok {unit} {uid} 0 {{k: 1}}\n")?)?;
    Ok(())
}

/// The rows of the walk from the first entry to nil, and back.
fn walk_all(alloc: Global, table: &mut String) -> Result<(), Fail> {
    step_to(alloc, table, "reset", 0)?;
    for place in 1..ALL {
        step_to(alloc, table, "next", place)?;
    }
    table.push_str("next 0 => ok nil\nwhich 0 => ok end\n")?;
    for before in 0..ALL {
        step_to(alloc, table, "prev", ALL - 1 - before)?;
    }
    table.push_str("prev 0 => ok nil\nwhich 0 => ok begin\n")?;
    Ok(())
}

/// The rows of all that.
fn push_all(alloc: Global, table: &mut String) -> Result<(), Fail> {
    table.push_str(STORES)?;
    add_all(alloc, table)?;
    table.push_str("query * N {indexPath: 'k} => ok 0\ncount 0 => ok 200\n")?;
    walk_all(alloc, table)
}

#[test]
fn walks_over_200_entries_of_one_key(rt: HostRuntime) -> Result<(), Fail> {
    let alloc = rt.alloc();
    let mut table = String::new(alloc);
    push_all(alloc, &mut table)?;
    expect_over(alloc, "run a b c d", table.as_str(), 20)
}
