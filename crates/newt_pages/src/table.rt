//! The places of the pages.
ghost use Rattle.std.specs.Prelude.{◌≡◌, ℕ, ◌+◌, ◌*◌, ◌^◌, ◌≤◌, ◌<◌, ◌==◌, Bool, cond};
ghost use Rattle.std.specs.Prelude.{if◌then◌else◌, List, length, map as map_list, nat_eq, true};
ghost use Rattle.std.specs.Prelude.{Some, None};
ghost use Rattle.std.specs.List.{All, list_any};
ghost use Rattle.std.specs.Map.{lookup};
ghost use Rattle.std.specs.HashMap as hash;
ghost use Rattle.std.specs.FinMap as map;
ghost use Rattle.newt_spec_image.specs.Pages.{Put, with_puts, after};
ghost use Rattle.newt_journal.specs.Journal.{end_of};
ghost use Rattle.newt_journal.specs.Places.{first_place};
ghost use Rattle.newt_journal.specs.declared.journal.Journal.{Journal};
ghost use Rattle.newt_pagelog.specs.Kept.{page_in, map_of, numbers_in, is_kept};
ghost use Rattle.newt_pagebook.specs.Book.{changed_numbers};
ghost use Rattle.newt_pagelog.specs.Placed.{lifted, ArePlaced};
ghost use Rattle.newt_pages.specs.Copies.{below, IsBound};
ghost use Rattle.newt_pages.specs.Disk.{StandAt, TakesPages, MovesPages, KeepsRoom};

use newt_pagebook::{Batch, Page};
use newt_pagelog::Table;

/// The bytes of a put in a record: the number of the page, and the page.
pub(crate) const PUT: u32 = 516;

/// How far after the beginning of a record its first page stands: after a gate, a length, two
/// counts and a number.
pub(crate) const FIRST_PAGE: u32 = 13;

/// Notes where a page stands. There is room for it.
fn place_page(places: &mut Table<u32>, number: u32, at: u32)
    requires { 0 < hash.spare places.old }
    ensures updates { (q : ℕ) → lookup (nat_eq q) places.new.entries
        ≡ cond (nat_eq number q) (Some at) (lookup (nat_eq q) places.old.entries) }
    ensures spare { hash.spare places.old ≤ hash.spare places.new + 1 }
    ensures len { hash.hash_map_len places.new ≤ hash.hash_map_len places.old + 1 }
    ensures unique { hash.IsUnique nat_eq places.new }
{
    match places.insert(number, at) {
        Ok(_) => {}
        Err(_) => unreachable!(),
    }
}

/// Notes where pages stand that were put one after the other, the first at this place. There is
/// room for them.
pub(crate) fn place_puts(places: &mut Table<u32>, puts: &[(u32, Page)], first: u32)
    requires takes { TakesPages (length puts.now) first places.old }
    ensures pages { (page : ℕ → List ℕ) → StandAt page first puts.now → (q : ℕ)
        → page_in (lifted page places.new.entries) q
        ≡ map.get (with_puts puts.now (map_of (lifted page places.old.entries))) q }
    ensures placed { (j : Journal) → ArePlaced j places.old.entries
        → All (λ put. put.0 < 65536) puts.now → first_place j ≤ first
        → first + 516 * length puts.now ≤ end_of j + 4 → ArePlaced j places.new.entries }
    ensures len { hash.hash_map_len places.new ≤ hash.hash_map_len places.old + length puts.now }
    ensures unique { hash.IsUnique nat_eq places.new }
{
    let mut at = first;
    for put in puts {
        place_page(places, put.0, at);
        at += PUT;
    }
}

/// Forgets the places of these numbers.
pub(crate) fn remove_numbers(places: &mut Table<u32>, numbers: &[u32])
    requires { hash.IsUnique nat_eq places.old }
    ensures updates { (q : ℕ) → lookup (nat_eq q) places.new.entries
        ≡ cond (list_any (λ n. q == n) numbers.now) None (lookup (nat_eq q) places.old.entries) }
    ensures spare { hash.spare places.old ≤ hash.spare places.new }
    ensures len { hash.hash_map_len places.new ≤ hash.hash_map_len places.old }
    ensures unique { hash.IsUnique nat_eq places.new }
{
    for number in numbers {
        places.remove(number);
    }
}

/// Forgets the places of the numbers of these puts.
pub(crate) fn remove_puts(places: &mut Table<u32>, puts: &[(u32, Page)])
    requires { hash.IsUnique nat_eq places.old }
    ensures updates { (q : ℕ) → lookup (nat_eq q) places.new.entries
        ≡ cond (list_any (λ put. q == put.0) puts.now) None (lookup (nat_eq q) places.old.entries) }
    ensures spare { hash.spare places.old ≤ hash.spare places.new }
    ensures len { hash.hash_map_len places.new ≤ hash.hash_map_len places.old }
    ensures unique { hash.IsUnique nat_eq places.new }
{
    for put in puts {
        places.remove(&put.0);
    }
}

/// Takes over a batch whose pages were put one after the other, the first at this place. There is
/// room for them.
pub(crate) fn apply(places: &mut Table<u32>, batch: &Batch, first: u32)
    requires takes { TakesPages (length batch.now.puts) first places.old }
    ensures pages { (page : ℕ → List ℕ) → StandAt page first batch.now.puts
        → map_of (lifted page places.new.entries)
        ≡ after batch.now (map_of (lifted page places.old.entries)) }
    ensures numbers { numbers_in places.new.entries
        ≡ changed_numbers batch.now (numbers_in places.old.entries) }
    ensures placed { (j : Journal) → ArePlaced j places.old.entries → first_place j ≤ first
        → first + 516 * length batch.now.puts ≤ end_of j + 4 → ArePlaced j places.new.entries }
    ensures unique { hash.IsUnique nat_eq places.new }
{
    place_puts(places, batch.puts(), first);
    remove_numbers(places, batch.deletes());
}

/// Notes another place for the page of a number that has one.
fn move_page(places: &mut Table<u32>, number: u32, at: u32)
    requires { is_kept places.old.entries number ≡ true }
    ensures updates { (q : ℕ) → lookup (nat_eq q) places.new.entries
        ≡ cond (nat_eq number q) (Some at) (lookup (nat_eq q) places.old.entries) }
    ensures room { KeepsRoom places.old places.new }
{
    match places.get_mut(&number) {
        Some(place) => *place = at,
        None => unreachable!(),
    }
}

/// A number below which all pages have theirs, where there are so many of them.
pub(crate) fn bound_of(places: &Table<u32>, count: usize) -> u32
    requires { count ≡ length (below 65536 places.now.entries) }
    ensures { IsBound result places.now.entries }
{
    let mut left = count;
    for number in 0..65536 {
        if left == 0 {
            return number;
        }
        if places.contains_key(&number) {
            left -= 1;
        }
    }
    65536
}

/// Notes that all pages stand one after the other, in the order of their numbers, which are below
/// the bound, the first at this place. Answers the place after the last.
pub(crate) fn move_pages(places: &mut Table<u32>, bound: u32, first: u32) -> u32
    requires bound { IsBound bound places.old.entries }
    requires unique { hash.IsUnique nat_eq places.old }
    requires near { first + 516 * length (below 65536 places.old.entries) < 2 ^ 32 }
    ensures next { result ≡ first + 516 * length (below 65536 places.old.entries) }
    ensures moves { MovesPages first places.old.entries places.new.entries }
    ensures room { KeepsRoom places.old places.new }
{
    let mut at = first;
    for number in 0..bound {
        if places.contains_key(&number) {
            move_page(places, number, at);
            at += PUT;
        }
    }
    at
}
