//! Objects whose pages are spelt by hand.
ghost use Rattle.std.specs.Prelude.{◌≤◌};

use crate::card::{expect, numbers};
use crate::objects::{are_objects, object_on, parts_of, text, written};
use newt_pagebook::PageBook;
use newt_pageplain::PlainBook;
use newt_pages::DiskBook;
use std::alloc::Global;
use std::process::Abort;
use std::test::Fail;

/// The bytes of a card with so many parts of an object of this size.
fn written_parts<P: PageBook>(
    rt: &impl Abort,
    alloc: Global,
    size: u32,
    parts: u32,
    blocks: u32,
) -> Result<Vec<u8>, Fail>
    requires { parts ≤ 65536 }
{
    let batch = parts_of(alloc, 7, size, parts)?;
    written::<P>(rt, alloc, blocks, &batch)
}

/// An object is read from its parts: its bytes are from 0 on. A row is its size, how many parts it
/// has, and how many blocks the card has.
fn expect_read<P: PageBook>(rt: &impl Abort, alloc: Global, row: &str) -> Result<(), Fail> {
    let (size, parts, blocks, _) = numbers(row);
    let bytes = written_parts::<P>(rt, alloc, size, parts % 65_536, blocks)?;
    let want = text(alloc, size)?;
    expect(object_on::<P>(rt, alloc, &bytes, 7)? == want, row)
}

/// Whether parts are an object. A row is its size, how many parts there are, and 1 where they are
/// one.
fn expect_object<P: PageBook>(rt: &impl Abort, alloc: Global, row: &str) -> Result<(), Fail> {
    let (size, parts, wanted, _) = numbers(row);
    let bytes = written_parts::<P>(rt, alloc, size, parts % 65_536, 13)?;
    expect(are_objects::<P>(rt, alloc, &bytes)? == (wanted == 1), row)
}

/// Objects of 500 bytes to a page, and one page where there are no bytes.
const OBJECTS: &str = "0 1 13
1 1 13
500 1 13
501 2 13
19000 38 13
1000000 2000 520";

#[test]
fn objects_are_joined_parts(rt: HostRuntime) -> Result<(), Fail> {
    for row in OBJECTS.lines() {
        expect_read::<PlainBook>(&rt, rt.alloc(), row)?;
        expect_read::<DiskBook>(&rt, rt.alloc(), row)?;
    }
    Ok(())
}

/// One part too few, and one too many.
const PARTS: &str = "501 1 0
501 2 1
501 3 0
500 2 0
0 2 0";

#[test]
fn a_part_more_or_less_is_no_object(rt: HostRuntime) -> Result<(), Fail> {
    for row in PARTS.lines() {
        expect_object::<PlainBook>(&rt, rt.alloc(), row)?;
        expect_object::<DiskBook>(&rt, rt.alloc(), row)?;
    }
    Ok(())
}
