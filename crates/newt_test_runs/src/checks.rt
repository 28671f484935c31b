//! What the mode `check` writes of the image of a device. The places of damage were written by
//! hand.
ghost use Rattle.std.specs.Prelude.{IsSome, IsTrue};
ghost use Rattle.newt_memhost.specs.Outside.{outside_of};

use crate::trial::expect_reading_halts;
use newt_host::{Host, Unit};
use newt_memhost::{Crash, MemHost, Pick};
use newt_test_scripts::{blocks, card_after, expect_said, run_over, run_table_on, run_writing};
use std::alloc::Global;
use std::test::Fail;

/// The bytes that the device `a` of 13 blocks of zero bytes has after a table.
fn card_of(alloc: Global, table: &str) -> Result<Vec<u8>, Fail> {
    card_after(alloc, "run a", table)
}

const FORMAT: &str = "format 0 Internal 7 => ok";

/// A soup with two entries.
const TWO_ENTRIES: &str = "
format 0 Internal 7 => ok
mount 0 => ok 7 Internal
soup 0 S => ok 0
add 0 S {a: 1} => ok 0
add 0 S {b: 2} => ok 1
";

#[test]
fn counts_what_is_clean(rt: HostRuntime) -> Result<(), Fail> {
    let alloc = rt.alloc();
    let blank = blocks(alloc, 13)?;
    expect_said(alloc, &blank, b"ok damaged header 12288\n")?;
    expect_said(alloc, &card_of(alloc, FORMAT)?, b"ok clean 0 0 1\n")?;
    expect_said(alloc, &card_of(alloc, TWO_ENTRIES)?, b"ok clean 1 2 3\n")
}

/// Writes bytes over those from a place on.
fn patch(bytes: &mut Vec<u8>, at: usize, new: &[u8]) -> Result<(), Fail> {
    if at > bytes.len() || new.len() > bytes.len() - at {
        return Err(Fail::new("a change after the image"));
    }
    bytes[at..at + new.len()].copy_from_slice(new);
    Ok(())
}

/// Where the bytes of a new store are changed, to what, and what is written then.
const DAMAGES: &[(usize, &[u8], &[u8])] = &[
    (12295, b"\x09", b"ok damaged header 12288\n"),
    (12305, b"\0\0\xFF\xFF", b"ok damaged record 12304\n"),
    (12309, b"\0\x02", b"ok damaged payload 12304\n"),
    (12321, b"\0\0\0\x01", b"ok damaged object 0\n"),
    (12317, b"\0\0\0\x01", b"ok damaged directory 0\n"),
];

/// The line for a card with these changes is this.
fn expect_damage(
    alloc: Global,
    card: &[u8],
    changes: &[(usize, &[u8])],
    output: &[u8],
) -> Result<(), Fail> {
    let mut bytes = card.to_vec(alloc)?;
    for (at, new) in changes {
        patch(&mut bytes, *at, new)?;
    }
    expect_said(alloc, &bytes, output)
}

/// The line for each of these changes, alone, is that of its damage.
fn expect_damages(
    alloc: Global,
    card: &[u8],
    damages: &[(usize, &[u8], &[u8])],
) -> Result<(), Fail> {
    for (at, new, output) in damages {
        expect_damage(alloc, card, &[(*at, new)], output)?;
    }
    Ok(())
}

/// Three votes that choose no bank.
const NO_BANK: &[[u8; 3]] = &[[0xFF, 1, 0], [0xFF, 0, 1], [0xFF, 0xFF, 0xFF], [2, 2, 2]];

#[test]
fn names_the_first_damage(rt: HostRuntime) -> Result<(), Fail> {
    let alloc = rt.alloc();
    let fresh = card_of(alloc, FORMAT)?;
    expect_damages(alloc, &fresh, DAMAGES)?;
    for [first, second, third] in NO_BANK {
        let votes: [(usize, &[u8]); 3] = [(0, &[*first]), (4096, &[*second]), (8192, &[*third])];
        expect_damage(alloc, &fresh, &votes, b"ok damaged votes 0\n")?;
    }
    Ok(())
}

/// A soup with two entries, the first with two large binaries. Its records begin at the bytes
/// 12,304, 12,829, 13,358 and 15,435. The live pages stand at 15,444 (the directory), 13,883 and
/// 15,960 (the entries), and 14,399 and 14,915 (the large binaries).
const LARGES: &str = "
format 0 Internal 7 => ok
mount 0 => ok 7 Internal
soup 0 S => ok 0
add 0 S {v: <<w:0102>>, u: <<w:0304>>} => ok 0
add 0 S {b: 2} => ok 1
";

/// Where its bytes are changed, to what, and what is written then. The rows are, in order:
/// - another name and two other numbers in the header;
/// - two gates whose records leave the bank by a byte, and a gate after which nothing stands;
/// - three payloads that do not end where they say;
/// - an object with a part that is too high, one without a part, and one with a part twice;
/// - a directory that is missing, one that is cut short, and one without a name;
/// - an entry of another soup, of an id that was not given, of one that was named before, of
///   another version, and with a large binary of another length;
/// - an entry of 65,535 large binaries, so that those of it are not named either;
/// - a large binary that is not named, and one that is named twice.
const LARGE_DAMAGES: &[(usize, &[u8], &[u8])] = &[
    (12288, b"M", b"ok damaged header 12288\n"),
    (12294, b"\x01", b"ok damaged header 12288\n"),
    (12303, b"\x01", b"ok damaged header 12288\n"),
    (12305, b"\0\0\x4F\xEC", b"ok damaged record 12304\n"),
    (12830, b"\0\0\x4D\xDF", b"ok damaged record 12829\n"),
    (16480, b"\0", b"ok damaged record 16480\n"),
    (12311, b"\0\x01", b"ok damaged payload 12304\n"),
    (13363, b"\0\x03", b"ok damaged payload 13358\n"),
    (15440, b"\0\x03", b"ok damaged payload 15435\n"),
    (15968, b"\0\0\0\x01", b"ok damaged object 3\n"),
    (13895, b"\0\0\x01\xF5", b"ok damaged object 1\n"),
    (14403, b"\0\0\0\x01", b"ok damaged object 1\n"),
    (15448, b"\0\0\0\x08", b"ok damaged directory 0\n"),
    (15456, b"\0\0\0\x19", b"ok damaged directory 0\n"),
    (15460, b"\0", b"ok damaged directory 0\n"),
    (15976, b"\0\x05", b"ok damaged entry 3\n"),
    (15980, b"\0\0\0\x02", b"ok damaged entry 3\n"),
    (15980, b"\0\0\0\0", b"ok damaged entry 3\n"),
    (15988, b"\x03", b"ok damaged entry 3\n"),
    (13981, b"\0\0\0\x03", b"ok damaged entry 1\n"),
    (13901, b"\xFF\xFF", b"ok damaged entry 1\n"),
    (15964, b"\0\0\0\x08", b"ok damaged large 8\n"),
    (13977, b"\0\0\0\x02", b"ok damaged large 2\n"),
    (13965, b"\0\0\0\x04", b"ok damaged large 2\n"),
];

#[test]
fn names_the_first_damage_among_entries(rt: HostRuntime) -> Result<(), Fail> {
    let alloc = rt.alloc();
    let card = card_of(alloc, LARGES)?;
    expect_said(alloc, &card, b"ok clean 1 2 5\n")?;
    expect_damages(alloc, &card, LARGE_DAMAGES)
}

/// A new store whose record puts 39 pages in place of one, where 13 blocks take 38. Those after the
/// directory are large binaries without bytes, which no entry names.
fn crowded(alloc: Global) -> Result<Vec<u8>, Fail> {
    let mut bytes = card_of(alloc, FORMAT)?;
    patch(&mut bytes, 12305, b"\0\0\x4E\xA0\0\x27")?;
    for page in 1..39u8 {
        let mut put = [0u8; 516];
        put[3] = page;
        put[7] = page * 2;
        patch(&mut bytes, 12313 + 516 * page as usize, &put)?;
    }
    Ok(bytes)
}

#[test]
fn names_a_large_binary_before_the_cost(rt: HostRuntime) -> Result<(), Fail> {
    let alloc = rt.alloc();
    expect_said(alloc, &crowded(alloc)?, b"ok damaged large 2\n")
}

#[test]
fn says_why_nothing_is_looked_through(rt: HostRuntime) -> Result<(), Fail> {
    let alloc = rt.alloc();
    let small = blocks(alloc, 12)?;
    let cases: [(&str, &[u8]); 2] = [
        ("check c", b"error 20 unit\n"),
        ("check a", b"error 27 blocks\n"),
    ];
    for (text, output) in cases {
        run_writing(alloc, text, b"", &small, &[], output)?;
    }
    let large = blocks(alloc, 4100)?;
    run_writing(alloc, "check a", b"", &large, &[], b"error 27 blocks\n")?;
    Ok(())
}

#[test]
fn halts_at_each_call_that_fails(rt: HostRuntime) -> Result<(), Fail> {
    let alloc = rt.alloc();
    expect_reading_halts(alloc, "check a", &card_of(alloc, TWO_ENTRIES)?)
}

/// Whether the unit 0 has a device.
fn has_device(host: &MemHost) -> bool
    ensures { IsTrue result → IsSome ((outside_of host.now).card 0) }
{
    host.blocks(Unit(0)) > 0
}

fn is_one_of(said: &[u8], before: &[u8], after: &[u8]) -> bool {
    said == before || said == after
}

/// The image is clean, with two entries or with three.
fn expect_clean(alloc: Global, bytes: &[u8]) -> Result<(), Fail> {
    let host = run_over(alloc, "check a", b"", bytes, &[])?;
    if !is_one_of(host.output(), b"ok clean 1 2 3\n", b"ok clean 1 3 4\n") {
        return Err(Fail::new("damaged by a stop"));
    }
    Ok(())
}

const THIRD: &str = "
mount 0 => ok 7 Internal
add 0 S {c: 3} => ok 2
";

/// What a stop within any call of a run leaves is clean.
fn expect_all_clean(alloc: Global, host: &MemHost) -> Result<(), Fail> {
    if !has_device(host) {
        return Err(Fail::new("no device"));
    }
    for call in 0..host.calls() {
        for pick in [Pick::Old, Pick::New, Pick::Half, Pick::Fill(0)] {
            let Crash { image, .. } = host.images(Unit(0), call, pick)?;
            expect_clean(alloc, &image)?;
        }
    }
    Ok(())
}

#[test]
fn is_clean_wherever_an_add_is_cut(rt: HostRuntime) -> Result<(), Fail> {
    let alloc = rt.alloc();
    let card = card_of(alloc, TWO_ENTRIES)?;
    let host = run_table_on(alloc, "run a", THIRD, &card, &[])?;
    expect_all_clean(alloc, &host)
}
