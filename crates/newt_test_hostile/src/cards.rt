//! A card with a fresh store, some bytes of which are changed.

use newt_host::Unit;
use newt_test_scripts::{card_after, image, is_clean, run_table_on};
use newt_test_tables::bytes_of;
use std::alloc::Global;
use std::test::Fail;

/// The image of a unit of 13 blocks that was formatted once.
fn base(alloc: Global) -> Result<Vec<u8>, Fail> {
    card_after(alloc, "run a", "format 0 Internal 7 => ok")
}

/// What a card opens as. A row begins with the changes of the image, with `, ` between them: each
/// is where its bytes begin, and what they are. After ` : ` comes a table of lines and replies,
/// with ` / ` between its lines, which a run over the card gives. Rows after a `#` say what they
/// are.
const CARDS: &str = "
# The votes: three that differ, one for a bank that was never written, none of block 0.
0 00, 4096 01, 8192 FF : mount 0 => ok 7 Internal
0 00, 4096 01, 8192 01, 32768 FF*20480 : mount 0 => error 22 nostore
0 FF, 4096 01, 8192 00 : mount 0 => error 22 nostore
# The gate, the length, the put count.
12304 FF : mount 0 => error 22 nostore
12305 0000FFFF : mount 0 => error 22 nostore
12309 0002 : mount 0 => error 22 nostore
# The last byte of the page, which is not used.
12828 55 : mount 0 => ok 7 Internal
# The next gate: a record that is not begun closes the bank, and one that is whole must fit.
12829 01 : mount 0 => ok 7 Internal / soup 0 S => ok 0 / soups 0 => ok S 0 0
12829 00 : mount 0 => error 22 nostore
# The next soup signature is the greatest.
12342 FFFF : mount 0 => ok 7 Internal / soup 0 S => error 35 ids
";

/// Writes bytes over those from a place on.
pub(crate) fn patch(bytes: &mut Vec<u8>, at: usize, new: &[u8]) -> Result<(), Fail> {
    if at > bytes.len() || new.len() > bytes.len() - at {
        return Err(Fail::new("a change after the image"));
    }
    bytes[at..at + new.len()].copy_from_slice(new);
    Ok(())
}

/// The image with these changes.
fn changed(alloc: Global, image: &[u8], changes: &str) -> Result<Vec<u8>, Fail> {
    let mut bytes = image.to_vec(alloc)?;
    for change in changes.split(", ") {
        let (at, new) = change.split_once(' ').ok_or("a change without bytes")?;
        patch(&mut bytes, at.parse()?, &bytes_of(alloc, new)?)?;
    }
    Ok(bytes)
}

/// A run over a card of these bytes gives the replies of a table, whose lines have ` / ` between
/// them. The card is mounted exactly where the mode `check` finds nothing damaged.
pub(crate) fn expect_opened(alloc: Global, card: &[u8], lines: &str) -> Result<(), Fail> {
    let mut table = String::new(alloc);
    for line in lines.split(" / ") {
        table.push_str(line)?;
        table.push('\n')?;
    }
    run_table_on(alloc, "run a", &table, card, b"")?;
    if is_clean(alloc, card)? != lines.starts_with("mount 0 => ok") {
        return Err(Fail::new("what is mounted is damaged, or what is clean is not mounted"));
    }
    Ok(())
}

fn expect_row(alloc: Global, image: &[u8], row: &str) -> Result<(), Fail> {
    let (changes, lines) = row.split_once(" : ").ok_or("a row without lines")?;
    expect_opened(alloc, &changed(alloc, image, changes)?, lines)
}

fn expect_rows(alloc: Global, image: &[u8], table: &str) -> Result<(), Fail> {
    for row in table.lines() {
        if !row.is_empty() && !row.starts_with('#') {
            expect_row(alloc, image, row)?;
        }
    }
    Ok(())
}

#[test]
fn a_changed_card_opens_as_the_format_says(rt: HostRuntime) -> Result<(), Fail> {
    let alloc = rt.alloc();
    expect_rows(alloc, &base(alloc)?, CARDS)
}

/// Where the blocks begin that vote.
const VOTES: &[usize] = &[0, 4096, 8192];

/// Whether all blocks that vote do so for a bank.
fn all_vote(image: &[u8], bank: u8) -> bool {
    for at in VOTES {
        if image.get(*at) != Some(&bank) {
            return false;
        }
    }
    true
}

/// After a record that is not begun, a change goes to the other bank, and then all three votes are
/// for that bank.
#[test]
fn a_closed_bank_is_switched(rt: HostRuntime) -> Result<(), Fail> {
    let alloc = rt.alloc();
    let card = changed(alloc, &base(alloc)?, "12829 01")?;
    let host = run_table_on(
        alloc,
        "run a",
        "mount 0 => ok 7 Internal\nsoup 0 S => ok 0",
        &card,
        b"",
    )?;
    if !all_vote(&image(alloc, &host, Unit(0))?, 1) {
        return Err(Fail::new("other votes"));
    }
    Ok(())
}

/// A card with one block less than the least has no records.
#[test]
fn a_card_has_its_blocks(rt: HostRuntime) -> Result<(), Fail> {
    let alloc = rt.alloc();
    let base = base(alloc)?;
    let few = base.get(..12 * 4096).ok_or("no such card")?;
    run_table_on(alloc, "run a", "mount 0 => error 27 blocks", few, b"")?;
    Ok(())
}
