//! A card of 200 names that is backed up and restored.

use crate::names::card;
use newt_test_scripts::{backed_up, blocks, copied, expect_goes_on, expect_unrestored};
use std::test::Fail;

/// It goes on with the next id, and its index and its tags are there.
const GOES_ON: &str = "
mount 0 => ok 1 Gen
soups 0 => ok Names 0 200
indexes 0 Names => ok name.last:string:ascend
tags 0 Names => ok labels business personal
get 0 Names 0 => ok 0 {name: {first: \"F8\", last: \"L838\"}, labels: 'business, n: 0}
add 0 Names {n: 200} => ok 200
remove 0 Names 7 => ok
soups 0 => ok Names 0 200
query 0 Names {tagSpec: {any: 'business}} => ok 0
";

#[test]
fn the_names_come_back(rt: HostRuntime) -> Result<(), Fail> {
    let alloc = rt.alloc();
    let card = card(alloc)?;
    copied(alloc, &card, 64)?;
    expect_goes_on(alloc, &card, GOES_ON)?;
    let input = backed_up(alloc, &card)?;
    expect_unrestored(alloc, &input, &blocks(alloc, 13)?, b"error 33 full\n")
}
