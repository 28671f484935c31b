//! Which page numbers the objects have, kept from one plan to the next.
ghost use Rattle.std.specs.Prelude.{◌≡◌, ℕ, [], ◌==◌, ◌<◌, ◌≤◌, true, false, IsTrue, IfOk, None, Some};
ghost use Rattle.std.specs.Prelude.{length, slice_get};
ghost use Rattle.std.specs.List.{list_any};
ghost use Rattle.std.specs.Option.{option_copied};
ghost use Rattle.newt_objects.specs.Headers.{held_in};
ghost use Rattle.newt_objects.specs.Taken.{ClearsAlso, IsLive, IsTaken, IsKnown, Follows, row_at};
ghost use Rattle.newt_objects.specs.Taken.{AreFull, IsFull, group_of};
ghost use Rattle.std.specs.BTreeMap as tree;

use crate::extent::Extent;
use crate::free::{PAGE_NUMBERS, mark, mark_numbers};
use std::alloc::{AllocError, Global};
use std::collections::BTreeMap;

/// How many page numbers, one after the other, are a group.
pub(crate) const GROUP: u32 = 32;

/// How many groups there are.
pub(crate) const GROUPS: u32 = PAGE_NUMBERS / GROUP;

/// Which page numbers the objects have.
#[derive(Drop)]
pub(crate) struct Taken {
    /// For each page number whether an object has it.
    pub(crate) flags: Vec<bool>,
    /// For each group of page numbers whether all of them are known to be had.
    pub(crate) full: Vec<bool>,
    /// All numbers of each group below this one are had.
    pub(crate) low: u32,
}

/// Clears the flag of a number, if it has one.
fn clear_flag(flags: &mut Vec<bool>, number: u32)
    ensures { ClearsAlso (λ q. q == number) flags.old.items flags.new.items }
{
    let place = number as usize;
    if place < flags.len() {
        flags[place] = false;
    }
}

/// Clears the flags of some numbers.
fn clear_numbers(flags: &mut Vec<bool>, numbers: &[u32])
    ensures { ClearsAlso (λ q. list_any (λ n. q == n) numbers.now) flags.old.items flags.new.items }
{
    for number in numbers {
        clear_flag(flags, *number);
    }
}

/// Clears the flags of the groups of some numbers.
fn clear_groups(full: &mut Vec<bool>, numbers: &[u32])
    ensures { ClearsAlso (λ q. list_any (λ n. q == group_of n) numbers.now) full.old.items
        full.new.items }
{
    for number in numbers {
        clear_flag(full, *number / GROUP);
    }
}

/// Lowers a bound to the groups of some numbers.
fn lower(low: &mut u32, numbers: &[u32])
    ensures bound { low.new ≤ low.old }
    ensures each { (k number : ℕ) → slice_get numbers.now k ≡ Some number
        → low.new ≤ group_of number }
{
    for number in numbers {
        *low = (*low).min(*number / GROUP);
    }
}

/// Whether none of these numbers is had.
fn are_free(flags: &[bool], numbers: &[u32]) -> bool
    ensures { IsTrue result → (k number : ℕ) → slice_get numbers.now k ≡ Some number
        → slice_get flags.now number ≡ Some false }
{
    for number in numbers {
        let place = *number as usize;
        if place >= flags.len() || flags[place] {
            return false;
        }
    }
    true
}

/// Takes the numbers of an object, if there is one. False where another object has one of them.
fn take_row(flags: &mut Vec<bool>, row: &Option<Extent>) -> bool
    ensures { IsTrue result → Follows None row.now (λ t. IsLive t flags.old.items)
        (λ t. IsLive t flags.new.items) }
{
    match row {
        Some(extent) => {
            if !are_free(flags, &extent.numbers) {
                return false;
            }
            mark_numbers(flags, &extent.numbers);
            true
        }
        None => true,
    }
}

/// Gives the numbers of an object back, if there is one.
fn give_row(taken: &mut Taken, was: Option<&Extent>)
    ensures live { Follows (option_copied was.entry) None (λ t. IsLive t taken.old.flags.items)
        (λ t. IsLive t taken.new.flags.items) }
    ensures full { AreFull taken.old → AreFull taken.new }
{
    if let Some(extent) = was {
        clear_numbers(&mut taken.flags, &extent.numbers);
        clear_groups(&mut taken.full, &extent.numbers);
        lower(&mut taken.low, &extent.numbers);
    }
}

/// Gives numbers of an object back and takes others. False where another object has one of these.
fn exchange(taken: &mut Taken, was: Option<&Extent>, next: &Option<Extent>) -> bool
    ensures { IsTrue result → Follows (option_copied was.entry) next.now (λ t. IsTaken t taken.old)
        (λ t. IsTaken t taken.new) }
{
    give_row(taken, was);
    take_row(&mut taken.flags, next)
}

/// Keeps what is known while an object goes to other pages, or goes. It takes no memory.
pub(crate) fn move_row(known: &mut Option<Taken>, was: Option<&Extent>, next: &Option<Extent>)
    ensures { Follows (option_copied was.entry) next.now (λ t. IsKnown t known.old)
        (λ t. IsKnown t known.new) }
{
    if let Some(taken) = known {
        if !exchange(taken, was, next) {
            *known = None;
        }
    }
}

/// Takes the numbers of all objects. False where two of them have one number.
fn take_rows(flags: &mut Vec<bool>, rows: &BTreeMap<u32, Option<Extent>>) -> bool
    ensures { IsTrue result → IsLive (row_at []) flags.old.items
        → IsLive (row_at (tree.values rows.now)) flags.new.items }
{
    for row in rows.values() {
        if !take_row(flags, row) {
            return false;
        }
    }
    true
}

/// Whether the flag of a place is set.
pub(crate) fn has_flag(flags: &[bool], place: u32) -> bool
    ensures { IsTrue result → slice_get flags.now place ≡ Some true }
{
    let place = place as usize;
    place < flags.len() && flags[place]
}

/// Whether the flags of all numbers of a group are set.
fn are_set(flags: &[bool], group: u32) -> bool
    requires inside { group < 2048 }
    requires size { length flags.now ≡ 65536 }
    ensures { IsTrue result → IsFull flags.now group }
{
    let first = group * GROUP;
    for number in first..first + GROUP {
        if !flags[number as usize] {
            return false;
        }
    }
    true
}

/// Makes known that all numbers of a group are had.
fn make_full(taken: &mut Taken, group: u32)
    requires inside { group < 2048 }
    requires it { IsFull taken.old.flags.items group }
    requires full { AreFull taken.old }
    ensures flags { taken.new.flags.items ≡ taken.old.flags.items }
    ensures full { AreFull taken.new }
{
    mark(&mut taken.full, group);
    if taken.low == group {
        taken.low = group + 1;
    }
}

/// Whether all page numbers of a group are had, by their flags. Where they are, this is known from
/// then on.
pub(crate) fn is_full(taken: &mut Taken, group: u32) -> bool
    requires inside { group < 2048 }
    requires size { length taken.old.flags.items ≡ 65536 }
    requires full { AreFull taken.old }
    ensures flags { taken.new.flags.items ≡ taken.old.flags.items }
    ensures full { AreFull taken.new }
    ensures yes { IsTrue result → IsFull taken.old.flags.items group }
{
    let full = are_set(&taken.flags, group);
    if full {
        make_full(taken, group);
    }
    full
}

/// Makes known which groups are full.
fn find_full(taken: &mut Taken)
    requires size { length taken.old.flags.items ≡ 65536 }
    requires full { AreFull taken.old }
    ensures flags { taken.new.flags.items ≡ taken.old.flags.items }
    ensures full { AreFull taken.new }
{
    for group in 0..GROUPS {
        is_full(taken, group);
    }
}

/// Which page numbers all objects have. None where two of them have one number.
pub(crate) fn taken_by(
    alloc: Global,
    rows: &BTreeMap<u32, Option<Extent>>,
) -> Result<Option<Taken>, AllocError>
    ensures { IfOk result (λ taken. IsKnown (held_in rows.now) taken) }
{
    // Its contract tells that the rows rise.
    let _count = rows.len();
    let mut flags = vec![in alloc; false; PAGE_NUMBERS as usize]?;
    let full = vec![in alloc; false; GROUPS as usize]?;
    if take_rows(&mut flags, rows) {
        let mut taken = Taken {
            flags,
            full,
            low: 0,
        };
        find_full(&mut taken);
        return Ok(Some(taken));
    }
    Ok(None)
}

/// Raises the bound over the groups that are known to be full.
pub(crate) fn raise(taken: &mut Taken)
    requires full { AreFull taken.old }
    ensures flags { taken.new.flags.items ≡ taken.old.flags.items }
    ensures full { AreFull taken.new }
{
    for group in taken.low..GROUPS {
        if !has_flag(&taken.full, group) {
            return;
        }
        taken.low = group + 1;
    }
}

/// Makes known which page numbers the objects have, unless two of them have one number.
pub(crate) fn make_known(
    alloc: Global,
    rows: &BTreeMap<u32, Option<Extent>>,
    known: &mut Option<Taken>,
) -> Result<(), AllocError>
    requires { IsKnown (held_in rows.now) known.old }
    ensures { IsKnown (held_in rows.now) known.new }
{
    if known.is_none() {
        *known = taken_by(alloc, rows)?;
    }
    Ok(())
}
