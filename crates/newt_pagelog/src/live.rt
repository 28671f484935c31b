//! Which pages there are, and how many after a batch, whatever is kept of a page.
ghost use Rattle.std.specs.Prelude.{◌≡◌, length, nat_eq};
ghost use Rattle.std.specs.List.{filter};
ghost use Rattle.std.specs.HashMap as hash;
ghost use Rattle.std.specs.FinSet as set;
ghost use Rattle.newt_pagebook.specs.Book.{IsNext, changed_numbers};
ghost use Rattle.newt_pagelog.specs.Kept.{ArePageNumbers, is_kept, numbers_in};

use newt_pagebook::Batch;
use std::collections::HashMap;

/// What is kept of the pages of a book, by their numbers.
pub type Table<V> = HashMap<u32, V>;

/// How many pages will be live after a batch.
pub fn live_after<V>(pages: &Table<V>, batch: &Batch) -> usize
    requires { hash.IsUnique nat_eq pages.now }
    ensures { result ≡ set.len (changed_numbers batch.now (numbers_in pages.now.entries)) }
{
    let mut live = pages.len();
    for put in batch.puts() {
        if !pages.contains_key(&put.0) {
            live += 1;
        }
    }
    for number in batch.deletes() {
        if pages.contains_key(number) {
            live -= 1;
        }
    }
    live
}

/// How many of these pages are there.
pub fn kept_of<V>(pages: &Table<V>, numbers: &[u32]) -> usize
    ensures { result ≡ length (filter (is_kept pages.now.entries) numbers.now) }
{
    numbers
        .iter()
        .filter(|number| pages.contains_key(*number))
        .count()
}

/// The least number that is not below a number and has a page.
pub fn next_page<V>(pages: &Table<V>, from: u32) -> Option<u32>
    requires { ArePageNumbers (numbers_in pages.now.entries) }
    ensures { IsNext (numbers_in pages.now.entries) from result }
{
    for number in from..65536 {
        if pages.contains_key(&number) {
            return Some(number);
        }
    }
    None
}
