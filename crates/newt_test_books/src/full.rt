//! Units that are full to their last page: filled, walked and changed in one run, and again in the
//! next.

use crate::sessions::{InMemory, OnDevice, expect_over};
use newt_host::Unit;
use newt_script_session::Interpreter;
use newt_test_scripts::{blocks, image};
use std::alloc::Global;
use std::test::Fail;

/// A card that is made, with a soup of no entries.
const MADE: &str = "
format 0 Card 9 => ok
mount 0 => ok 9 Card
soup 0 S => ok 0
";

/// What is asked of a card once nothing more fits. The first entry goes, so that another one fits,
/// under an id of its own.
const FULL: &str = "
add 0 S {} => error 33 full
get 0 S 0 => ok 0 {}
remove 0 S 0 => ok
";

/// What is asked then.
const FULL_AGAIN: &str = "
get 0 S 0 => error 32 entry
add 0 S {} => error 33 full
set 0 S 1 a 2 => ok
get 0 S 1 => ok 0 {a: 2}
set 0 S 1 a 3 => ok
get 0 S 1 => ok 0 {a: 3}
change 0 S 1 {} => ok
unmount 0 => ok
";

/// What the next run asks first, before it walks.
const WALKED: &str = "
mount 0 => ok 9 Card
query 0 S {} => ok 0
";

/// What it asks after the last entry.
const ENDED: &str = "
next 0 => ok nil
which 0 => ok end
add 0 S {} => error 33 full
set 0 S 2 a 2 => ok
";

/// A table of a card that takes so many entries and not one more.
fn filled(alloc: Global, count: u32) -> Result<String, Fail> {
    let mut table = String::from_str(alloc, MADE)?;
    for id in 0..count {
        let row = format!(in alloc; "add 0 S {{}} => ok {id}\n")?;
        table.push_str(row.as_str())?;
    }
    table.push_str(FULL)?;
    let row = format!(in alloc; "add 0 S {{}} => ok {count}\n")?;
    table.push_str(row.as_str())?;
    table.push_str(FULL_AGAIN)?;
    Ok(table)
}

/// A table of the next run over that card, which walks over all of its entries.
fn walked(alloc: Global, count: u32) -> Result<String, Fail> {
    let mut table = String::from_str(alloc, WALKED)?;
    let row = format!(in alloc; "count 0 => ok {count}\nentry 0 => ok 0 1 0 {{}}\n")?;
    table.push_str(row.as_str())?;
    for step in 1..count {
        let row = format!(in alloc; "next 0 => ok 0 {} 0 {{}}\n", step.saturating_add(1))?;
        table.push_str(row.as_str())?;
    }
    table.push_str(ENDED)?;
    Ok(table)
}

/// Fills a unit of so many blocks with so many entries, and walks over them in a next run.
fn fills<I: Interpreter>(alloc: Global, size: u32, count: u32) -> Result<(), Fail> {
    let blank = blocks(alloc, size)?;
    let table = filled(alloc, count)?;
    let host = expect_over::<I>(alloc, table.as_str(), &blank)?;
    let table = walked(alloc, count)?;
    expect_over::<I>(alloc, table.as_str(), &image(alloc, &host, Unit(0))?)?;
    Ok(())
}

/// The least unit takes 38 pages: the directory and 37 entries.
#[test]
fn fills_the_least_unit(rt: HostRuntime) -> Result<(), Fail> {
    fills::<InMemory>(rt.alloc(), 13, 37)?;
    fills::<OnDevice>(rt.alloc(), 13, 37)
}

/// The greatest unit takes 15,978 pages.
#[test]
fn fills_the_greatest_unit(rt: HostRuntime) -> Result<(), Fail> {
    fills::<OnDevice>(rt.alloc(), 4099, 15_977)
}
