//! A batch is applied to the pages in memory.
ghost use Rattle.std.specs.Prelude.{◌≡◌, ℕ, ◌+◌, ◌≤◌, ◌<◌, if◌then◌else◌, length, nat_eq, Some};
ghost use Rattle.std.specs.HashMap as hash;
ghost use Rattle.newt_spec_image.specs.Pages.{after};
ghost use Rattle.newt_pagelog.specs.Kept.{map_of};

use newt_pagebook::{Batch, Page};
use newt_pagelog::Table;

/// The pages of a book, by their numbers.
pub(crate) type Kept = Table<Page>;

/// Puts a page, for which there is room.
fn put_page(pages: &mut Kept, number: u32, page: &Page)
    requires { 0 < hash.spare pages.old }
    ensures updates { (q : ℕ) → hash.get nat_eq pages.new q
        ≡ (if nat_eq number q then Some page.now else hash.get nat_eq pages.old q) }
    ensures spare { hash.spare pages.old ≤ hash.spare pages.new + 1 }
    ensures len { hash.hash_map_len pages.new ≤ hash.hash_map_len pages.old + 1 }
    ensures unique { hash.IsUnique nat_eq pages.new }
{
    match pages.insert(number, *page) {
        Ok(_) => {}
        Err(_) => unreachable!(),
    }
}

/// Applies a batch, for whose puts there is room.
pub(crate) fn apply(pages: &mut Kept, batch: &Batch)
    requires room { length batch.now.puts ≤ hash.spare pages.old }
    requires unique { hash.IsUnique nat_eq pages.old }
    ensures pages { map_of pages.new.entries ≡ after batch.now (map_of pages.old.entries) }
    ensures len { hash.hash_map_len pages.new
        ≤ hash.hash_map_len pages.old + length batch.now.puts }
    ensures unique { hash.IsUnique nat_eq pages.new }
{
    for put in batch.puts() {
        put_page(pages, put.0, &put.1);
    }
    for number in batch.deletes() {
        pages.remove(number);
    }
}
