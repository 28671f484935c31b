//! A stop at each call of the script.

use crate::script::{LISTING, SCRIPT};
use newt_host::Unit;
use newt_memhost::Pick;
use newt_test_scripts::{Counts, expect_unit_safe};
use std::alloc::Global;
use std::test::Fail;

/// A stop at each call leaves of a unit the store before or after the command whose reply is the
/// next to begin.
fn stop_script(alloc: Global, unit: u8, picks: &[Pick]) -> Result<Counts, Fail> {
    expect_unit_safe(alloc, SCRIPT, LISTING, Unit(unit), picks)
}

#[test]
fn a_stop_leaves_a_store_of_the_first_unit(rt: HostRuntime) -> Result<(), Fail> {
    stop_script(rt.alloc(), 0, &[Pick::Old, Pick::New])?.expect(964, 208)
}

#[test]
fn a_torn_stop_leaves_a_store_of_the_first_unit(rt: HostRuntime) -> Result<(), Fail> {
    stop_script(rt.alloc(), 0, &[Pick::Half, Pick::Fill(0)])?.expect(964, 356)
}

#[test]
fn a_stop_leaves_a_store_of_the_second_unit(rt: HostRuntime) -> Result<(), Fail> {
    stop_script(rt.alloc(), 1, &[Pick::Old, Pick::New])?.expect(964, 58)
}

#[test]
fn a_torn_stop_leaves_a_store_of_the_second_unit(rt: HostRuntime) -> Result<(), Fail> {
    stop_script(rt.alloc(), 1, &[Pick::Half, Pick::Fill(0)])?.expect(964, 90)
}
