//! Cards of either version, whose directories are made by hand.

use crate::cards::{expect_opened, patch};
use newt_test_scripts::expect_said;
use newt_test_tables::bytes_of;
use std::alloc::{AllocError, Global};
use std::test::Fail;

/// Where the first bank begins. A version stands after the name with which it begins.
const BANK: usize = 12_288;

const NAME: &[u8] = b"NSTORE";

/// The versions.
const BEFORE: &[u8] = &[0, 1];

const NOW: &[u8] = &[0, 2];

/// How many bytes of an object a page holds.
const PAGE: usize = 500;

/// Appends the pages of a directory, each with its number, object 0, its part and the whole length.
fn push_pages(record: &mut Vec<u8>, directory: &[u8]) -> Result<(), Fail> {
    let len = u32::try_from(directory.len()).unwrap_or(u32::MAX);
    let mut number = 0u32;
    for part in directory.chunks(PAGE) {
        for word in [number, 0, number, len] {
            record.extend_from_slice(&word.to_be_bytes())?;
        }
        record.extend_from_slice(part)?;
        let end = record.len().saturating_add(PAGE.saturating_sub(part.len()));
        record.resize(end, 0)?;
        number = number.saturating_add(1);
    }
    Ok(())
}

/// Makes an empty list of bytes a bank of this version, in which one record puts so many pages.
fn push_bank(
    bank: &mut Vec<u8>,
    version: &[u8],
    puts: u16,
    pages: &[u8],
) -> Result<(), AllocError> {
    let len = u32::try_from(pages.len()).unwrap_or(u32::MAX);
    bank.extend_from_slice(NAME)?;
    bank.extend_from_slice(version)?;
    bank.resize(16, 0)?;
    bank.push(0)?;
    bank.extend_from_slice(&len.saturating_add(4).to_be_bytes())?;
    bank.extend_from_slice(&puts.to_be_bytes())?;
    bank.extend_from_slice(&[0, 0])?;
    bank.extend_from_slice(pages)
}

/// A bank of this version in which one record holds a directory.
fn bank_of(alloc: Global, version: &[u8], directory: &[u8]) -> Result<Vec<u8>, Fail> {
    let mut pages = Vec::new(alloc);
    push_pages(&mut pages, directory)?;
    let puts = u16::try_from(directory.len().div_ceil(PAGE)).unwrap_or(u16::MAX);
    let mut bank = Vec::new(alloc);
    push_bank(&mut bank, version, puts, &pages)?;
    Ok(bank)
}

/// A card of so many blocks, with such a bank.
fn card_of(alloc: Global, count: u32, version: &[u8], directory: &[u8]) -> Result<Vec<u8>, Fail> {
    let bank = bank_of(alloc, version, directory)?;
    let mut card = Vec::new(alloc);
    card.resize(count as usize * 4096, 0xFF)?;
    for block in [0, 4096, 8192] {
        patch(&mut card, block, &[0])?;
    }
    patch(&mut card, BANK, &bank)?;
    Ok(card)
}

/// A directory up to the flags of its only soup, `S`.
const SOUP: &str = "08496E7465726E616C 00000007 0001 01 0153 0000 00000000 00";

/// What a card opens as. A row is the version of its bank and, of the directory, the soup's flags
/// and what follows them. After ` : ` come lines and replies, with ` / ` between them. Rows after a
/// `#` say what they are.
const CARDS: &str = "
# No such version.
0000 00 : mount 0 => error 22 nostore
0003 00 : mount 0 => error 22 nostore
0100 00 : mount 0 => error 22 nostore
0201 00 : mount 0 => error 22 nostore
# Neither tags nor info; tags; an info; both; another flag.
0001 00 : mount 0 => ok 7 Internal / tags 0 S => ok / info 0 S => ok nil
0002 00 : mount 0 => ok 7 Internal / tags 0 S => ok / info 0 S => ok nil
0001 01 01066C6162656C73 01 0161 : mount 0 => ok 7 Internal / tags 0 S => ok labels a
0002 01 01066C6162656C73 01 0161 : mount 0 => ok 7 Internal / tags 0 S => ok labels a
0001 02 0003 020600 : mount 0 => error 22 nostore
0002 02 0003 020600 : mount 0 => ok 7 Internal / tags 0 S => ok / info 0 S => ok {}
0001 03 01066C6162656C73 01 0161 0003 020600 : mount 0 => error 22 nostore
0002 03 01066C6162656C73 01 0161 0003 020600 : mount 0 => ok 7 Internal / tags 0 S => ok labels a / info 0 S => ok {}
0002 03 0003 020600 01066C6162656C73 01 0161 : mount 0 => error 22 nostore
0001 04 : mount 0 => error 22 nostore
0002 04 : mount 0 => error 22 nostore
0002 04 0003 020600 : mount 0 => error 22 nostore
0002 FF 01066C6162656C73 01 0161 0003 020600 : mount 0 => error 22 nostore
# An info that is cut short, that counts its own length, that is followed by a byte.
0002 02 : mount 0 => error 22 nostore
0002 02 00 : mount 0 => error 22 nostore
0002 02 0000 : mount 0 => error 22 nostore
0002 02 0002 0206 : mount 0 => error 22 nostore
0002 02 0002 020600 : mount 0 => error 22 nostore
0002 02 0004 020600 : mount 0 => error 22 nostore
0002 02 0005 020600 : mount 0 => error 22 nostore
0002 02 FFFF 020600 : mount 0 => error 22 nostore
0002 02 0003 020600 00 : mount 0 => error 22 nostore
0002 00 00 : mount 0 => error 22 nostore
# An info that is no frame, and a frame with a large binary.
0002 02 0003 020014 : mount 0 => error 22 nostore
0002 02 0002 020A : mount 0 => error 22 nostore
0002 02 001E 020601070162 0C070477617665 00*17 : mount 0 => error 22 nostore
# A text of another version of streams, with a long count, of a symbol twice, and one without an end.
0002 02 0003 010600 : mount 0 => error 22 nostore
0002 02 0007 0206FF00000000 : mount 0 => error 22 nostore
0002 02 0009 020601070161070161 : mount 0 => error 22 nostore
0002 02 0008 0206010701610901 : mount 0 => ok 7 Internal / info 0 S => ok {a: 'a}
0002 02 0006 020601070161 : mount 0 => error 22 nostore
# The longest text, and one of a byte more.
0002 02 0FA0 02060107016203FF00000F91070178 00*3985 : mount 0 => ok 7 Internal / soups 0 => ok S 0 0
0002 02 0FA1 02060107016203FF00000F92070178 00*3986 : mount 0 => error 22 nostore
";

/// A run over a card that is made from such a row gives its replies.
fn expect_row(alloc: Global, row: &str) -> Result<(), Fail> {
    let (made, lines) = row.split_once(" : ").ok_or("a row without lines")?;
    let (version, rest) = made.split_once(' ').unwrap_or((made, ""));
    let mut directory = bytes_of(alloc, SOUP)?;
    directory.extend_from_slice(&bytes_of(alloc, rest)?)?;
    let card = card_of(alloc, 13, &bytes_of(alloc, version)?, &directory)?;
    expect_opened(alloc, &card, lines)
}

#[test]
fn a_directory_opens_as_its_version_says(rt: HostRuntime) -> Result<(), Fail> {
    for row in CARDS.lines() {
        if !row.is_empty() && !row.starts_with('#') {
            expect_row(rt.alloc(), row)?;
        }
    }
    Ok(())
}

/// Appends a soup of this number and name, with so many indexes of one path.
fn push_soup(bytes: &mut Vec<u8>, soup: u8, name: &[u8], indexes: u8) -> Result<(), AllocError> {
    bytes.push(u8::try_from(name.len()).unwrap_or(u8::MAX))?;
    bytes.extend_from_slice(name)?;
    bytes.extend_from_slice(&[0, soup, 0, 0, 0, 0, indexes])?;
    for index in 0..indexes {
        bytes.extend_from_slice(&[1, 0, 0, 1, 1, b'a'.saturating_add(index)])?;
    }
    bytes.push(0)?;
    Ok(())
}

/// Appends so many soups `S0`, `S1` and so on.
fn push_soups(
    alloc: Global,
    bytes: &mut Vec<u8>,
    soups: u8,
    indexes: u8,
) -> Result<(), AllocError> {
    bytes.extend_from_slice(&u16::from(soups).to_be_bytes())?;
    bytes.push(soups)?;
    for soup in 0..soups {
        let name = format!(in alloc; "S{soup}")?;
        push_soup(bytes, soup, name.as_bytes(), indexes)?;
    }
    Ok(())
}

/// A directory of so many soups `S0`, `S1` and so on, each with so many indexes of one path.
fn directory_of(alloc: Global, soups: u8, indexes: u8) -> Result<Vec<u8>, Fail> {
    let mut bytes = bytes_of(alloc, "08496E7465726E616C 00000007")?;
    push_soups(alloc, &mut bytes, soups, indexes)?;
    Ok(bytes)
}

/// Opens a card of 21 blocks whose directory has so many soups.
fn expect_soups(alloc: Global, version: &[u8], soups: u8, lines: &str) -> Result<(), Fail> {
    let card = card_of(alloc, 21, version, &directory_of(alloc, soups, 0)?)?;
    expect_opened(alloc, &card, lines)
}

#[test]
fn a_directory_has_as_many_soups_as_its_version_allows(rt: HostRuntime) -> Result<(), Fail> {
    let alloc = rt.alloc();
    let (more, full) = (
        "mount 0 => ok 7 Internal / indexes 0 S0 => ok / soup 0 S => ok 64",
        "mount 0 => ok 7 Internal / indexes 0 S249 => ok / soup 0 S => error 36 limit",
    );
    expect_soups(alloc, BEFORE, 64, more)?;
    expect_soups(alloc, NOW, 64, more)?;
    expect_soups(alloc, BEFORE, 65, "mount 0 => error 22 nostore")?;
    expect_soups(alloc, NOW, 250, full)?;
    expect_soups(alloc, BEFORE, 250, "mount 0 => error 22 nostore")?;
    expect_soups(alloc, NOW, 251, "mount 0 => error 22 nostore")
}

/// A unit of 13 blocks takes 38 pages.
#[test]
fn a_directory_costs_what_its_unit_takes(rt: HostRuntime) -> Result<(), Fail> {
    let alloc = rt.alloc();
    let most = card_of(alloc, 13, NOW, &directory_of(alloc, 175, 16)?)?;
    expect_said(alloc, &most, b"ok clean 175 0 38\n")?;
    let more = card_of(alloc, 13, NOW, &directory_of(alloc, 176, 16)?)?;
    expect_said(alloc, &more, b"ok damaged cost 39\n")
}

/// Appends a line that lists all soups, or all indexes of the last one, with its reply.
fn push_listing(alloc: Global, lines: &mut String) -> Result<(), Fail> {
    lines.push_str("soups 0 => ok")?;
    for soup in 0..250u32 {
        let comma = if soup == 0 { "" } else { "," };
        lines.push_str(&format!(in alloc; "{comma} S{soup} {soup} 0")?)?;
    }
    lines.push_str(" / indexes 0 S249 => ok")?;
    for index in 0..16u8 {
        let comma = if index == 0 { "" } else { "," };
        let path = char::from(b'a'.saturating_add(index));
        lines.push_str(&format!(in alloc; "{comma} {path}:string:ascend")?)?;
    }
    Ok(())
}

/// Appends the lines that list such a store before its first change and after it.
fn push_lines(alloc: Global, lines: &mut String) -> Result<(), Fail> {
    lines.push_str("mount 0 => ok 7 Internal / ")?;
    push_listing(alloc, lines)?;
    lines.push_str(" / info 0 S7 {a: 1} => ok / unmount 0 => ok / mount 0 => ok 7 Internal / ")?;
    push_listing(alloc, lines)?;
    lines.push_str(
        " / info 0 S7 => ok {a: 1} / soup 0 S => error 36 limit / add 0 S249 {a: \"b\"} => ok 0",
    )?;
    Ok(())
}

/// A store of 250 soups with 16 indexes each is opened. It goes to the other bank with the first
/// change for which the first bank has no room, and is listed there as before.
#[test]
fn a_full_directory_is_opened_copied_and_listed(rt: HostRuntime) -> Result<(), Fail> {
    let alloc = rt.alloc();
    let card = card_of(alloc, 21, NOW, &directory_of(alloc, 250, 16)?)?;
    let mut lines = String::new(alloc);
    push_lines(alloc, &mut lines)?;
    expect_opened(alloc, &card, &lines)
}
