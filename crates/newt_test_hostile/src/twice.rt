//! A stop within the last commands, and another one in the run that goes on with what is left.

use crate::script::{LAST, LISTING, SCRIPT, SECOND};
use newt_host::{Host, Unit};
use newt_memhost::{Crash, MemHost, Pick};
use newt_test_scripts::{
    Counts, Looks, begun, expect_safe, lines_of, look, looks_by_line, looks_from_blank, run_over,
    run_table,
};
use std::alloc::Global;
use std::test::Fail;

/// The unit that is stopped twice.
const UNIT: Unit = Unit(0);

/// A second run over what a stop left, and a stop at each of its calls. What is left is a store of
/// the second run over what the unit holds where nothing is stopped.
fn stop_second(alloc: Global, left: &[u8], plain: &[u8]) -> Result<Counts, Fail> {
    let looks = looks_by_line(alloc, SECOND, [plain, &[]], LISTING, UNIT)?;
    let host = run_over(alloc, "run a", SECOND, left, &[])?;
    expect_safe(alloc, &host, UNIT, Pick::Fill(1), LISTING, &looks)
}

fn another_store(replies: usize) -> Fail {
    Fail::new(format_args!("another store after {replies} replies"))
}

/// The second run over what a stop left, where so many replies had begun.
fn stop_after(alloc: Global, left: &[u8], replies: usize, looks: &Looks) -> Result<Counts, Fail> {
    let found = look(alloc, LISTING, left)?;
    let Some(lines) = looks.lines_before(&found, replies) else {
        return Err(another_store(replies));
    };
    match looks.images.get(lines) {
        Some(plain) => stop_second(alloc, left, plain),
        None => Err(another_store(replies)),
    }
}

/// A stop at each call on the unit after so many replies, and the second run over each image that
/// is left. Answers how many images there were.
fn stop_twice(
    alloc: Global,
    host: &MemHost,
    first: usize,
    looks: &Looks,
) -> Result<(u32, Counts), Fail> {
    if host.blocks(UNIT) == 0 {
        return Err(Fail::new("a unit without a device"));
    }
    let mut counts = Counts::none();
    let mut stops = 0u32;
    let mut left = Vec::new(alloc);
    for call in 0..host.calls() {
        let printed = host.output().len().min(host.out_before(call) as usize);
        let replies = begun(&host.output()[..printed]);
        if host.unit_of(call) != Some(UNIT) || replies < first {
            continue;
        }
        let Crash { image, .. } = host.images(UNIT, call, Pick::Fill(0))?;
        if image != left {
            counts.add(stop_after(alloc, &image, replies, looks)?);
            stops = stops.saturating_add(1);
            left = image;
        }
    }
    Ok((stops, counts))
}

/// How often the unit goes on in its other bank, in the lines from this one on.
fn switches(looks: &Looks, first: usize) -> u32 {
    let mut count = 0u32;
    let mut vote = None;
    for image in looks.images.iter().skip(first) {
        let next = image.first().copied();
        if vote.is_some() && vote != Some(next) {
            count = count.saturating_add(1);
        }
        vote = Some(next);
    }
    count
}

#[test]
fn a_stop_within_recovery_leaves_a_store(rt: HostRuntime) -> Result<(), Fail> {
    let alloc = rt.alloc();
    let host = run_table(alloc, "run a b", SCRIPT)?;
    let (script, output) = lines_of(alloc, SCRIPT)?;
    let first = begun(&output).saturating_sub(LAST);
    let looks = looks_from_blank(alloc, &script, LISTING, UNIT)?;
    if switches(&looks, first) != 1 {
        return Err(Fail::new("the last commands do not change the bank once"));
    }
    let (stops, counts) = stop_twice(alloc, &host, first, &looks)?;
    if stops != 94 {
        return Err(Fail::new(format_args!("{stops} stops")));
    }
    counts.expect(15_328, 3_134)
}
