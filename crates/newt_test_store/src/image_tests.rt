//! Images of stores, spelt by hand.
use crate::card::{card_bytes, formatted};
use crate::contents::contents_on;
use crate::digits::spelt;
use crate::flips::{expect_bytes, expect_patches, expect_places};
use crate::small::{FRESH, IMAGE, SMALL};
use newt_pageplain::PlainBook;
use std::alloc::Global;
use std::test::Fail;

/// A card of these bytes has this.
fn expect_on(alloc: Global, text: &str, wanted: &str) -> Result<(), Fail> {
    let found = contents_on::<PlainBook>(alloc, &spelt(alloc, text)?)?;
    if found.as_slice() != wanted.as_bytes() {
        return Err(Fail::new(format_args!("not {wanted}: {found:?}")));
    }
    Ok(())
}

#[test]
fn a_card_of_equal_bytes_is_no_store(rt: HostRuntime) -> Result<(), Fail> {
    let alloc = rt.alloc();
    expect_on(alloc, "00*53248", "no store")?;
    expect_on(alloc, "5A*53248", "no store")?;
    expect_on(alloc, "FF*53248", "no store")
}

#[test]
fn an_image_that_is_spelt_by_hand_is_read(rt: HostRuntime) -> Result<(), Fail> {
    expect_on(rt.alloc(), IMAGE, SMALL)
}

/// The card of a fresh store has 13 blocks. The first three vote for bank 0, and that bank is the
/// one of the format.
fn expect_fresh(alloc: Global, bytes: &[u8]) -> Result<(), Fail> {
    let bank = spelt(alloc, FRESH)?;
    if bytes.len() != 13 * 4096 || &bytes[3 * 4096..8 * 4096] != bank.as_slice() {
        return Err(Fail::new("another bank"));
    }
    if [bytes[0], bytes[4096], bytes[8192]] != [0, 0, 0] {
        return Err(Fail::new("other votes"));
    }
    Ok(())
}

#[test]
fn a_fresh_store_has_the_bytes_of_the_format(rt: HostRuntime) -> Result<(), Fail> {
    let alloc = rt.alloc();
    let host = formatted::<PlainBook>(alloc, 13)?;
    expect_fresh(alloc, &card_bytes(alloc, &host)?)
}

#[test]
fn each_byte_of_the_records_matters_as_the_format_says(rt: HostRuntime) -> Result<(), Fail> {
    let alloc = rt.alloc();
    expect_bytes(alloc, &spelt(alloc, IMAGE)?, 14903)
}

/// One vote of three, the rest of the blocks of votes, the tail after its first byte, and the other
/// bank.
fn expect_others(alloc: Global, image: &[u8]) -> Result<(), Fail> {
    expect_places(alloc, image, 0, 12288, 128)?;
    expect_places(alloc, image, 14903, 32768, 61)?;
    expect_places(alloc, image, 32768, 53248, 128)
}

#[test]
fn no_other_byte_matters(rt: HostRuntime) -> Result<(), Fail> {
    let alloc = rt.alloc();
    expect_others(alloc, &spelt(alloc, IMAGE)?)
}

#[test]
fn numbers_and_names_have_their_limits(rt: HostRuntime) -> Result<(), Fail> {
    let alloc = rt.alloc();
    expect_patches(alloc, &spelt(alloc, IMAGE)?)
}
