//! The small image with some bytes changed.
ghost use Rattle.std.specs.Prelude.{◌<◌};

use crate::contents::contents_on;
use crate::small::{BEFORE, SMALL};
use newt_base::hex_read;
use newt_pageplain::PlainBook;
use std::alloc::Global;
use std::test::Fail;

/// The bytes of the bank's head and records, and the first byte of the tail. A row is where some
/// begin, where the next begin, and what the image opens as: with all bits of any one of them
/// changed, and with its last bit changed. Rows after a `#` say what they are.
const BYTES: &str = "
# The magic word, the version and the zero bytes.
12288 12304 none none
# The first record: gate, length, counts.
12304 12313 none none
# Page 0, which the second record puts again: its number, the page.
12313 12317 none none
12317 12829 same same
# Page 1, the first entry: two high bytes of its number, then two that may be any other number's.
12829 12831 none none
12831 12832 same same
# With the last bit changed the number stands twice in the record.
12832 12833 same none
# The object's id, which must be odd.
12833 12836 same same
12836 12837 none none
# Part, length.
12837 12845 none none
# Soup; number of large binaries; id.
12845 12846 none none
12846 12847 none other
12847 12849 none none
12849 12852 none none
12852 12853 none other
# Minute.
12853 12857 other other
# The text: a frame of one slot `a`, which is 1, or a character, or a magic pointer.
12857 12862 none none
12862 12863 none other
12863 12864 none other
12864 12865 other none
# Unused.
12865 13345 same same
# Page 2, the second entry: with the last bit of its number changed it is put again by the second record.
13345 13347 none none
13347 13348 same same
13348 13349 same other
13349 13352 same same
13352 13353 none none
13353 13361 none none
13361 13362 none none
13362 13363 none other
13363 13365 none none
13365 13368 none none
13368 13369 none other
13369 13373 other other
13373 13376 none none
13376 13861 same same
# The second record: gate, length, counts.
13861 13862 before before
13862 13870 none none
# Page 0, the directory: number, object, part, length.
13870 13874 none none
13874 13886 none none
# The store's name and signature, the next soup signature, the number of soups.
13886 13887 none none
13887 13895 none other
13895 13896 none other
13896 13899 other other
13899 13901 other other
13901 13902 none none
# The first soup: name, signature, next id, indexes and tags.
13902 13903 none none
13903 13904 none other
13904 13906 none none
13906 13907 none other
13907 13909 other other
13909 13910 other none
13910 13912 none none
# The second soup.
13912 13913 none none
13913 13914 none other
13914 13916 none none
13916 13917 none other
13917 13920 other other
13920 13922 none none
# Unused.
13922 14386 same same
# Page 3, the third entry: with the last bit of its number changed it takes the place of the second.
14386 14388 none none
14388 14389 same same
14389 14390 same other
14390 14393 same same
14393 14402 none none
14402 14410 none none
14410 14414 other other
# The text: a frame of one slot `s`, which is the string `hi`.
14414 14419 none none
14419 14420 none other
14420 14422 none none
14422 14426 other other
14426 14428 none none
14428 14902 same same
# The first byte of the tail: with all bits changed it is the gate of a record that leaves the bank.
14902 14903 none same
";

/// Bytes that stand in place of others. A row is where, these bytes, and what the image opens as.
const PATCHES: &str = "
# The versions.
12294 0001 same
12294 0000 none
12294 0003 none
12294 0100 none
# The greatest object id, page number, signature, next soup signature and next entry id.
14390 FFFFFFFF same
14386 0000FFFF same
14386 00010000 none
13895 1FFFFFFF other
13895 20000000 none
13899 FFFF other
13906 1FFFFFFF other
13906 20000000 none
# Names of soups differ in case, or they are equal.
13913 73 other
13913 53 none
# The first entry is in no soup, or it is the third.
12845 0002 none
12849 00000002 none
# No flat text: a long number for a short one, a small rectangle.
12863 00FF none
12857 020B00000000 none
# The votes.
8192 01 same
4096 FF same
";

/// What some bytes open as: the `same` store as the small image, the one `before` its second
/// record, another, or none.
fn opens_as(alloc: Global, bytes: &[u8]) -> Result<&'static str, Fail> {
    let found = contents_on::<PlainBook>(alloc, bytes)?;
    if found.as_slice() == SMALL.as_bytes() {
        return Ok("same");
    }
    if found.as_slice() == BEFORE.as_bytes() {
        return Ok("before");
    }
    if found.as_slice() == b"no store".as_slice() {
        return Ok("none");
    }
    Ok("other")
}

/// The image with one byte changed in the bits of a mask opens as this.
fn expect_flipped(
    alloc: Global,
    image: &[u8],
    at: usize,
    mask: u8,
    wanted: &str,
) -> Result<(), Fail> {
    let mut bytes = image.to_vec(alloc)?;
    let byte = bytes.get_mut(at).ok_or("no such byte")?;
    *byte ^= mask;
    let found = opens_as(alloc, &bytes)?;
    if found != wanted {
        return Err(Fail::new(format_args!("byte {at} in {mask}: {found}, not {wanted}")));
    }
    Ok(())
}

/// The same for every `step`-th of these bytes.
pub(crate) fn expect_places(
    alloc: Global,
    image: &[u8],
    from: usize,
    to: usize,
    step: usize,
) -> Result<(), Fail>
    requires { 0 < step }
{
    for at in (from..to).step_by(step) {
        expect_flipped(alloc, image, at, 255, "same")?;
    }
    Ok(())
}

/// The image with any one of these bytes changed in the bits of a mask opens as this.
fn expect_each(
    alloc: Global,
    image: &[u8],
    places: (usize, usize),
    mask: u8,
    wanted: &str,
) -> Result<(), Fail> {
    for at in places.0..places.1 {
        expect_flipped(alloc, image, at, mask, wanted)?;
    }
    Ok(())
}

/// A number, and what follows it.
fn number(row: &str) -> Result<(usize, &str), Fail> {
    let (number, rest) = row.split_once(' ').ok_or("no number")?;
    Ok((number.parse()?, rest))
}

/// A row of bytes that are changed, which goes on at a place, and where the next row goes on. The
/// long rows are of bytes that are not used; their last bits are not tried.
fn expect_row(alloc: Global, image: &[u8], row: &str, begin: usize) -> Result<usize, Fail> {
    let (from, rest) = number(row)?;
    let (to, rest) = number(rest)?;
    let (all, last) = rest.split_once(' ').ok_or("no second word")?;
    if from != begin || to < from {
        return Err(Fail::new(format_args!("the rows do not go on at {row}")));
    }
    expect_each(alloc, image, (from, to), 255, all)?;
    if to - from < 100 {
        expect_each(alloc, image, (from, to), 1, last)?;
    }
    Ok(to)
}

/// Whether a row is one of the table.
fn is_row(row: &str) -> bool {
    !row.is_empty() && !row.starts_with('#')
}

/// All bytes of the first table, which has them up to this place.
pub(crate) fn expect_bytes(alloc: Global, image: &[u8], end: usize) -> Result<(), Fail> {
    let mut at = 12288;
    for row in BYTES.lines() {
        if is_row(row) {
            at = expect_row(alloc, image, row, at)?;
        }
    }
    if at != end {
        return Err(Fail::new(format_args!("the rows end at {at}")));
    }
    Ok(())
}

/// The image with other bytes from a place on, in digits.
pub(crate) fn patched(
    alloc: Global,
    image: &[u8],
    at: usize,
    digits: &str,
) -> Result<Vec<u8>, Fail> {
    let patch = hex_read(alloc, digits.as_bytes())?;
    let mut bytes = image.to_vec(alloc)?;
    if at > bytes.len() || patch.len() > bytes.len() - at {
        return Err(Fail::new("a patch after the image"));
    }
    bytes[at..at + patch.len()].copy_from_slice(&patch);
    Ok(bytes)
}

/// A row of bytes that stand in place of others.
fn expect_patch(alloc: Global, image: &[u8], row: &str) -> Result<(), Fail> {
    let (at, rest) = number(row)?;
    let (digits, wanted) = rest.split_once(' ').ok_or("no bytes")?;
    let found = opens_as(alloc, &patched(alloc, image, at, digits)?)?;
    if found != wanted {
        return Err(Fail::new(format_args!("another store at {row}")));
    }
    Ok(())
}

/// All rows of the second table.
pub(crate) fn expect_patches(alloc: Global, image: &[u8]) -> Result<(), Fail> {
    for row in PATCHES.lines() {
        if is_row(row) {
            expect_patch(alloc, image, row)?;
        }
    }
    Ok(())
}
