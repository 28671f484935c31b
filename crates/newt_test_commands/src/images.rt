//! Images whose entries name large binaries that are not theirs.

use newt_test_scripts::{blocks, card_after, run_table_on};
use std::alloc::Global;
use std::test::Fail;

/// Two entries with large binaries of one length.
const TWO: &str = "
format 0 A 7 => ok
mount 0 => ok 7 A
soup 0 S => ok 0
add 0 S {v: <<wave:*1200>>} => ok 0
add 0 S {v: <<wave:*1200>>} => ok 1
vwrite 0 S 0 v 0 AA => ok
vwrite 0 S 1 v 0 BB => ok
";

const REFUSED: &str = "
mount 0 => error 22 nostore
format 0 B 9 => ok
mount 0 => ok 9 B
";

/// Two entries whose large binaries have changed places.
const CHANGED: &str = "
mount 0 => ok 7 A
vread 0 S 0 v 0 1 => ok BB
vread 0 S 1 v 0 1 => ok AA
vwrite 0 S 0 v 1 CC => ok
remove 0 S 1 => ok
unmount 0 => ok
mount 0 => ok 7 A
vread 0 S 0 v 0 2 => ok BBCC
soups 0 => ok S 0 1
";

/// The end of a record's text, which is the class of the large binary, its flag and four numbers;
/// and then its number of node.
const NAMED: &[u8] =
    b"wave\x00\x00\x00\x00\x00\x00\x00\x00\x00\x00\x00\x00\x00\x00\x00\x00\x00\x00\x00\x00\x02";

/// Where the records name the objects of their large binaries.
fn places(alloc: Global, image: &[u8]) -> Result<(usize, usize), Fail> {
    let mut found = Vec::new(alloc);
    for place in 0..image.len() {
        if image[place..].starts_with(NAMED) {
            found.push(place.saturating_add(NAMED.len()))?;
        }
    }
    match found.as_slice() {
        [first, second] => Ok((*first, *second)),
        _ => Err(Fail::new("not two large binaries")),
    }
}

/// The number at a place.
fn number_at(image: &[u8], place: usize) -> Result<[u8; 4], Fail> {
    match image.split_at(place.min(image.len())).1 {
        [first, second, third, fourth, ..] => Ok([*first, *second, *third, *fourth]),
        _ => Err(Fail::new("no such place")),
    }
}

/// The image with another number at a place.
fn with_number(
    alloc: Global,
    image: &[u8],
    place: usize,
    number: [u8; 4],
) -> Result<Vec<u8>, Fail> {
    let (before, others) = image.split_at(place.min(image.len()));
    let mut bytes = Vec::from_slice(alloc, before)?;
    bytes.extend_from_slice(&number)?;
    bytes.extend_from_slice(others.split_at(others.len().min(4)).1)?;
    Ok(bytes)
}

/// A card with this number at a place is not mounted.
fn expect_refused(alloc: Global, card: &[u8], place: usize, number: [u8; 4]) -> Result<(), Fail> {
    let bad = with_number(alloc, card, place, number)?;
    run_table_on(alloc, "run a b", REFUSED, &bad, &blocks(alloc, 13)?)?;
    Ok(())
}

/// Numbers that are wrong where the first two large binaries are named.
fn expect_all_refused(
    alloc: Global,
    card: &[u8],
    first: (usize, [u8; 4]),
    second: (usize, [u8; 4]),
) -> Result<(), Fail> {
    let (place, own) = first;
    let (other_place, other) = second;
    let [high, mid, low, end] = own;
    for (place, number) in [
        // two entries name one object
        (other_place, own),
        (place, other),
        // there is no such object
        (place, [0, 0, 0x7F, 0xFE]),
        (place, [0, 0, 0, 0]),
        // an object of an odd number is no large binary
        (place, [high, mid, low, end | 1]),
        // the length is another one
        (place.saturating_add(4), [0, 0, 0x04, 0xB1]),
        (place.saturating_add(4), [0, 0, 0x04, 0xAF]),
        // the node is another one
        (place.saturating_sub(4), [0, 0, 0, 3]),
    ] {
        expect_refused(alloc, card, place, number)?;
    }
    Ok(())
}

/// Two entries whose large binaries change places are a store.
fn expect_changed(
    alloc: Global,
    card: &[u8],
    first: (usize, [u8; 4]),
    second: (usize, [u8; 4]),
) -> Result<(), Fail> {
    let half = with_number(alloc, card, first.0, second.1)?;
    let changed = with_number(alloc, &half, second.0, first.1)?;
    run_table_on(alloc, "run a b", CHANGED, &changed, &blocks(alloc, 13)?)?;
    Ok(())
}

#[test]
fn takes_no_image_whose_large_binaries_are_not_named_once(rt: HostRuntime) -> Result<(), Fail> {
    let alloc = rt.alloc();
    let card = card_after(alloc, "run a b", TWO)?;
    let (first, second) = places(alloc, &card)?;
    let one = (first, number_at(&card, first)?);
    let other = (second, number_at(&card, second)?);
    if one.1 == other.1 {
        return Err(Fail::new("two large binaries of one name"));
    }
    expect_all_refused(alloc, &card, one, other)?;
    expect_changed(alloc, &card, one, other)
}
