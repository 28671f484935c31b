//! Each call of the outside fails once, and some of two.

use crate::script::{LISTING, SCRIPT};
use newt_test_scripts::{expect_statuses, expect_thrown};
use std::test::Fail;

/// As many calls failed as are wanted.
fn expect_count(count: u32, wanted: u32) -> Result<(), Fail> {
    if count != wanted {
        return Err(Fail::new(format_args!("{count} calls")));
    }
    Ok(())
}

#[test]
fn ends_at_each_call_of_a_stream_that_fails(rt: HostRuntime) -> Result<(), Fail> {
    expect_count(expect_statuses(rt.alloc(), SCRIPT)?, 60)
}

#[test]
fn goes_on_after_each_call_of_a_device_that_fails(rt: HostRuntime) -> Result<(), Fail> {
    expect_count(expect_thrown(rt.alloc(), SCRIPT, LISTING)?, 422)
}
