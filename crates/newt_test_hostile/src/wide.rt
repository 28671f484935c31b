//! Backups of many soups, which are spelt by hand, and entries whose bytes end where a piece does.

use newt_host::Unit;
use newt_test_scripts::{backed_up, blocks, copied, image, restored, run_table_on};
use newt_test_tables::bytes_of;
use std::alloc::Global;
use std::test::Fail;

/// The most bytes of a piece.
const PIECE: usize = 500_000;

/// Appends a count as a stream has it.
fn push_count(to: &mut Vec<u8>, count: usize) -> Result<(), Fail> {
    match u8::try_from(count) {
        Ok(byte) if byte < 255 => to.push(byte)?,
        _ => {
            to.push(255)?;
            let count = u32::try_from(count).unwrap_or(u32::MAX);
            to.extend_from_slice(&count.to_be_bytes())?;
        }
    }
    Ok(())
}

/// The backup of a directory of these bytes, and of no entries.
fn backup_with(alloc: Global, directory: &[u8]) -> Result<Vec<u8>, Fail> {
    let mut out = bytes_of(alloc, "020602 0709 'directory 0707 'entries 05")?;
    push_count(&mut out, directory.len().div_ceil(PIECE))?;
    let mut class: &[u8] = b"\x07\x05bytes";
    for piece in directory.chunks(PIECE) {
        out.push(3)?;
        push_count(&mut out, piece.len())?;
        out.extend_from_slice(class)?;
        out.extend_from_slice(piece)?;
        class = b"\x09\x05";
    }
    out.extend_from_slice(b"\x05\0")?;
    Ok(out)
}

/// Appends a soup whose info frame has a binary of so many bytes.
fn push_soup(alloc: Global, to: &mut Vec<u8>, soup: u8, length: usize) -> Result<(), Fail> {
    let name = format!(in alloc; "S{soup}")?;
    let mut info = bytes_of(alloc, "02060107016203")?;
    push_count(&mut info, length)?;
    info.extend_from_slice(b"\x07\x01x")?;
    let end = info.len().saturating_add(length);
    info.resize(end, soup)?;
    to.push(u8::try_from(name.len()).unwrap_or(u8::MAX))?;
    to.extend_from_slice(name.as_bytes())?;
    to.extend_from_slice(&[0, soup, 0, 0, 0, soup, 0, 2])?;
    to.extend_from_slice(&u16::try_from(end).unwrap_or(u16::MAX).to_be_bytes())?;
    to.extend_from_slice(&info)?;
    Ok(())
}

/// The directory of 250 soups `S0`, `S1` and so on, each with such an info frame.
fn directory_of(alloc: Global, length: usize) -> Result<Vec<u8>, Fail> {
    let mut bytes = bytes_of(alloc, "08 'Internal 00000007 00FA FA")?;
    for soup in 0..250u8 {
        push_soup(alloc, &mut bytes, soup, length)?;
    }
    Ok(bytes)
}

/// What is asked of it: the last soup has its info frame and its next id, and there is no room for
/// another soup.
fn asked(alloc: Global, length: usize) -> Result<String, Fail> {
    Ok(format!(in alloc;
        "mount 0 => ok 7 Internal
info 0 S249 => ok {{b: <x:~F9*{length}~>}}
add 0 S249 {{}} => ok 249
info 0 S16 => ok {{b: <x:~10*{length}~>}}
soup 0 T => error 36 limit
info 0 S16 {{a: 1}} => ok
info 0 S16 => ok {{a: 1}}"
    )?)
}

/// The backup of such a store is restored to so many blocks, and backed up again.
fn expect_soups(alloc: Global, length: usize, count: u32) -> Result<(), Fail> {
    let input = backup_with(alloc, &directory_of(alloc, length)?)?;
    let card = restored(alloc, &input, &blocks(alloc, count)?, b"ok 7 Internal\n")?;
    if backed_up(alloc, &card)? != input {
        return Err(Fail::new("another store is restored"));
    }
    run_table_on(alloc, "run a", &asked(alloc, length)?, &card, &[])?;
    Ok(())
}

#[test]
fn restores_250_soups_with_info_frames(rt: HostRuntime) -> Result<(), Fail> {
    let alloc = rt.alloc();
    expect_soups(alloc, 4, 21)?;
    expect_soups(alloc, 3981, 600)
}

/// The backup of a store with an entry whose large binary has so many bytes, and with 40 more
/// entries.
fn backup_of_large(alloc: Global, length: u32) -> Result<Vec<u8>, Fail> {
    let table = format!(in alloc;
        "format 0 Internal 7 => ok
mount 0 => ok 7 Internal
soup 0 S => ok 0
add 0 S {{v: <<wave:*{length}>>}} => ok 0"
    )?;
    let host = run_table_on(alloc, "run a", &table, &blocks(alloc, 270)?, &[])?;
    let card = image(alloc, &host, Unit(0))?;
    copied(alloc, &card, 270)?;
    backed_up(alloc, &card)
}

/// 500,000 bytes are one piece, and a byte more makes two.
#[test]
fn cuts_an_entry_where_a_piece_ends(rt: HostRuntime) -> Result<(), Fail> {
    let alloc = rt.alloc();
    let one = backup_of_large(alloc, 499_960)?;
    let two = backup_of_large(alloc, 499_961)?;
    if two.len() != one.len().saturating_add(5) || !two.ends_with(b"\x03\x01\x09\x05\0") {
        return Err(Fail::new("other pieces"));
    }
    Ok(())
}
