//! How many bytes of its unit each command programs, where the directory has one page and where it
//! has three. A batch has 9 bytes, 516 for each page that it puts, and 4 for each that it lets go.

use newt_host::Unit;
use newt_test_scripts::{expect_end, image, lines_of, over_blocks};
use newt_top::Status;
use std::alloc::Global;
use std::test::Fail;

/// A store with two soups, and an entry that has a large binary. Its directory has one page.
const SMALL: &str = "
format 0 Internal 7 => ok
mount 0 => ok 7 Internal
soup 0 S => ok 0
soup 0 T => ok 1
add 0 S {v: <<wave:0011>>} => ok 0
";

/// The same with an info frame, by which its directory has three pages.
const LARGE: &str = "
format 0 Internal 7 => ok
mount 0 => ok 7 Internal
soup 0 S => ok 0
soup 0 T => ok 1
add 0 S {v: <<wave:0011>>} => ok 0
info 0 T {x: <wave:~00*1200~>} => ok
";

/// Commands that go on with such a store, with their replies. Each has how many bytes it programs
/// with a directory of one page, and with one of three.
const PROGRAMS: &str = "
soup 0 U => ok 2 | 529 1569
add 0 S {a: 1} => ok 1 | 1045 2085
set 0 S 1 a 2 => ok | 529 529
change 0 S 1 {a: 3} => ok | 529 529
vwrite 0 S 0 v 1 FF => ok | 525 525
copy 0 S 1 0 U => ok 0 | 1045 2085
move 0 S 1 0 U => ok 1 | 1049 2089
remove 0 U 0 => ok | 13 13
index 0 S a:int:ascend => ok | 529 1569
unindex 0 S a => ok | 529 1569
tags 0 U labels a => ok | 529 1569
info 0 U {n: 1} => ok | 529 1569
drop 0 U => ok | 533 1573
get 0 S 0 => ok 0 {v: <<wave:00FF>>} | 0 0
set 0 S 1 a 2 => error 32 entry | 0 0
";

/// The first byte of the first bank, and the first after it, on a card of 33 blocks.
const BANK: usize = 3 * 4096;

const BANK_END: usize = 18 * 4096;

/// How many bytes come before the last blank ones.
fn used(bytes: &[u8]) -> usize {
    let mut used: usize = 0;
    let mut count: usize = 0;
    for byte in bytes {
        count = count.saturating_add(1);
        if *byte != 255 {
            used = count;
        }
    }
    used
}

/// How many bytes of the first bank are programmed after a run of a table.
fn programmed(alloc: Global, table: &str) -> Result<usize, Fail> {
    let (script, output) = lines_of(alloc, table)?;
    let mut host = over_blocks(alloc, &script, 33)?;
    expect_end(alloc, "run a", &mut host, Status::Ok, &output)?;
    let card = image(alloc, &host, Unit(0))?;
    Ok(used(card.get(BANK..BANK_END).ok_or("the card is too small")?))
}

/// After these lines each command programs as many bytes as the column says.
fn expect_programs(alloc: Global, before: &str, is_large: bool) -> Result<(), Fail> {
    let mut table = String::new(alloc);
    table.push_str(before)?;
    let mut so_far = programmed(alloc, before)?;
    for row in PROGRAMS.lines() {
        let Some((line, counts)) = row.split_once(" | ") else {
            continue;
        };
        let (small, large) = counts.split_once(' ').ok_or("no counts")?;
        let wanted = if is_large { large } else { small };
        let wanted: usize = wanted.parse()?;
        table.push_str(line)?;
        table.push_str("\n")?;
        let now = programmed(alloc, table.as_str())?;
        let count = now.saturating_sub(so_far);
        if count != wanted {
            return Err(Fail::new(format_args!("{count} bytes are programmed: {line}")));
        }
        so_far = now;
    }
    Ok(())
}

#[test]
fn programs_the_directory_where_it_has_changed(rt: HostRuntime) -> Result<(), Fail> {
    expect_programs(rt.alloc(), SMALL, false)
}

#[test]
fn leaves_a_large_directory_where_it_has_not(rt: HostRuntime) -> Result<(), Fail> {
    expect_programs(rt.alloc(), LARGE, true)
}
