//! Changes of soups, after each of which the ranges are the lists sorted afresh.
use crate::check::check;
use crate::entries::{By, Left, by_name, by_number, graph, id, number_paths};
use crate::ranges::{has_list, has_lists};
use newt_base::{Sig, Uid};
use newt_index::Index;
use newt_index_ranges::{Ranges, add_entry};
use newt_keys::IndexSpec;
use std::alloc::Global;
use std::process::Abort;
use std::test::*;

const ALL: Left = Left {
    changed: false,
    removed: false,
};

const CHANGED: Left = Left {
    changed: true,
    removed: false,
};

const REMOVED: Left = Left {
    changed: true,
    removed: true,
};

/// Adds an entry that a soup does not have.
fn add_new(alloc: Global, ranges: &mut Ranges, soup: u32, uid: u32) -> Result<(), Fail> {
    let graph = graph(alloc, uid, false)?;
    ranges.add(Sig(soup), Uid(uid), &graph)?;
    Ok(())
}

fn add_to(alloc: Global, range: &mut Index, uid: u32) -> Result<(), Fail> {
    let graph = graph(alloc, uid, false)?;
    Ok(add_entry(range, Uid(uid), &graph)?)
}

/// The range of the first entries by a declaration.
fn filled(alloc: Global, spec: IndexSpec, count: u32) -> Result<Index, Fail> {
    let mut range = Index::new(alloc, Some(spec));
    for uid in 0..count {
        add_to(alloc, &mut range, uid)?;
    }
    Ok(range)
}

/// A soup of 200 entries: its declarations are made when half of them are there.
fn two_hundred(alloc: Global, ranges: &mut Ranges, soup: u32) -> Result<(), Fail> {
    ranges.make_soup(Sig(soup), &[], None)?;
    for uid in 0..100 {
        add_new(alloc, ranges, soup, uid)?;
    }
    ranges.declare(Sig(soup), filled(alloc, by_number(alloc)?, 100)?)?;
    ranges.declare(Sig(soup), filled(alloc, by_name(alloc)?, 100)?)?;
    for uid in 100..200 {
        add_new(alloc, ranges, soup, uid)?;
    }
    Ok(())
}

/// The same soup as it is opened: its declarations are known, and its entries come in another
/// order.
fn opened(alloc: Global, ranges: &mut Ranges, soup: u32) -> Result<(), Fail> {
    let name = by_name(alloc)?;
    let number = by_number(alloc)?;
    ranges.make_soup(Sig(soup), &vec![in alloc; name, number]?, None)?;
    for i in 0..200 {
        add_new(alloc, ranges, soup, (i % 200 * 77 + 13) % 200)?;
    }
    Ok(())
}

/// Changes each third entry.
fn change_some(alloc: Global, ranges: &mut Ranges, soup: u32) -> Result<(), Fail> {
    for uid in 0..200 {
        if uid % 3 == 0 {
            let graph = graph(alloc, uid, true)?;
            ranges.replace(Sig(soup), id(uid), &graph)?;
        }
    }
    Ok(())
}

/// Removes each fifth entry.
fn remove_some(ranges: &mut Ranges, soup: u32) {
    for uid in 0..200 {
        if uid % 5 == 0 {
            ranges.remove(Sig(soup), id(uid));
        }
    }
}

/// The soups 3 and 5 are made so.
fn make_both(alloc: Global, ranges: &mut Ranges) -> Result<(), Fail> {
    two_hundred(alloc, ranges, 3)?;
    opened(alloc, ranges, 5)
}

/// Fails where the ranges of a soup are other lists.
fn expect_lists(alloc: Global, ranges: &Ranges, soup: u32, left: Left) -> Result<(), Fail> {
    if !has_lists(alloc, ranges, soup, left)? {
        return Err(Fail::new(format_args!("other lists of {soup}: {left:?}")));
    }
    Ok(())
}

fn is_there(ranges: &Ranges, soup: u32, spec: Option<&IndexSpec>) -> bool {
    ranges.range_of(Sig(soup), spec).is_some()
}

fn change_and_remove(alloc: Global, ranges: &mut Ranges) -> Result<(), Fail> {
    make_both(alloc, ranges)?;
    expect_lists(alloc, ranges, 3, ALL)?;
    expect_lists(alloc, ranges, 5, ALL)?;
    change_some(alloc, ranges, 3)?;
    expect_lists(alloc, ranges, 3, CHANGED)?;
    remove_some(ranges, 3);
    expect_lists(alloc, ranges, 3, REMOVED)?;
    expect_lists(alloc, ranges, 5, ALL)
}

#[test]
fn ranges_are_the_lists_sorted_afresh(rt: HostRuntime) -> Result<(), Fail> {
    let mut ranges = Ranges::new(rt.alloc());
    change_and_remove(rt.alloc(), &mut ranges)
}

fn undeclare_number(alloc: Global, ranges: &mut Ranges) -> Result<(), Fail> {
    let paths = number_paths(alloc)?;
    ranges.undeclare(Sig(3), &paths);
    Ok(())
}

/// Whether the soup has the declaration of the numbers.
fn has_numbers(alloc: Global, ranges: &Ranges, soup: u32) -> Result<bool, Fail> {
    let number = by_number(alloc)?;
    Ok(is_there(ranges, soup, Some(&number)))
}

fn undeclare(rt: &impl Abort, alloc: Global, ranges: &mut Ranges) -> Result<(), Fail> {
    make_both(alloc, ranges)?;
    undeclare_number(alloc, ranges)?;
    check(rt, !has_numbers(alloc, ranges, 3)?, "no numbers");
    check(rt, has_list(alloc, ranges, 3, By::Name, ALL)?, "the names");
    check(rt, has_list(alloc, ranges, 3, By::Id, ALL)?, "the ids");
    expect_lists(alloc, ranges, 5, ALL)
}

#[test]
fn a_declaration_goes_by_its_paths(rt: HostRuntime) -> Result<(), Fail> {
    let mut ranges = Ranges::new(rt.alloc());
    undeclare(&rt, rt.alloc(), &mut ranges)
}

/// How many entries the soup has, if it is there.
fn count_of(ranges: &Ranges, soup: u32) -> Option<usize> {
    match ranges.range_of(Sig(soup), None) {
        Some(ids) => Some(ids.len()),
        None => None,
    }
}

fn drop_and_make(rt: &impl Abort, alloc: Global, ranges: &mut Ranges) -> Result<(), Fail> {
    make_both(alloc, ranges)?;
    ranges.drop_soup(Sig(3));
    check(rt, !is_there(ranges, 3, None), "no soup 3");
    ranges.make_soup(Sig(6), &[], None)?;
    check(rt, count_of(ranges, 6) == Some(0), "no entries");
    check(rt, !has_numbers(alloc, ranges, 6)?, "no numbers");
    expect_lists(alloc, ranges, 5, ALL)
}

#[test]
fn a_soup_that_is_made_again_has_no_entries(rt: HostRuntime) -> Result<(), Fail> {
    let mut ranges = Ranges::new(rt.alloc());
    drop_and_make(&rt, rt.alloc(), &mut ranges)
}

fn change_what_is_not_there(
    rt: &impl Abort,
    alloc: Global,
    ranges: &mut Ranges,
) -> Result<(), Fail> {
    opened(alloc, ranges, 5)?;
    add_new(alloc, ranges, 4, 7)?;
    ranges.remove(Sig(4), Uid(7));
    ranges.drop_soup(Sig(4));
    check(rt, !is_there(ranges, 4, None), "no soup 4");
    expect_lists(alloc, ranges, 5, ALL)
}

#[test]
fn a_soup_that_is_not_there_changes_nothing(rt: HostRuntime) -> Result<(), Fail> {
    let mut ranges = Ranges::new(rt.alloc());
    change_what_is_not_there(&rt, rt.alloc(), &mut ranges)
}
