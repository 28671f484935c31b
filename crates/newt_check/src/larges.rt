//! The row of large binaries.
ghost use Rattle.std.specs.Prelude.{◌≡◌, ◌++◌, ◌∷◌, [], ◌%◌, ◌==◌, ◌^◌, ◌<◌, ℕ, List, filter, find};
ghost use Rattle.std.specs.Prelude.{length, OnOk};
ghost use Rattle.newt_store_catalog.specs.Opening.{objects_named};
ghost use Rattle.newt_check.specs.Seen.{AreCounts, is_stray_id};

use newt_entries::LargeAt;
use std::alloc::AllocError;
use std::collections::BTreeMap;

/// Counts one name more.
fn count_name(counts: &mut BTreeMap<u32, bool>, object: u32) -> Result<(), AllocError>
    ensures { OnOk result ((names : List ℕ) → AreCounts names counts.old
        → AreCounts (names ++ object ∷ []) counts.new) }
{
    let is_first = !counts.contains_key(&object);
    counts.insert(object, is_first)?;
    Ok(())
}

/// Counts the objects that rows name: each is true where it is named once, and false where it is
/// named again.
pub(crate) fn count_names(
    counts: &mut BTreeMap<u32, bool>,
    rows: &[LargeAt],
) -> Result<(), AllocError>
    ensures { OnOk result ((names : List ℕ) → AreCounts names counts.old
        → AreCounts (names ++ objects_named rows.now) counts.new) }
{
    for row in rows {
        count_name(counts, row.object)?;
    }
    Ok(())
}

/// Whether an object with an even id is not named exactly once.
fn is_stray(counts: &BTreeMap<u32, bool>, id: u32) -> bool
    ensures { (names : List ℕ) → AreCounts names counts.now → result ≡ is_stray_id names id }
{
    match counts.get(&id) {
        Some(is_once) => id % 2 == 0 && !*is_once,
        None => id % 2 == 0,
    }
}

/// The first even id that is not named exactly once.
pub(crate) fn first_stray(ids: &[u32], counts: &BTreeMap<u32, bool>) -> Option<u32>
    ensures { (names : List ℕ) → AreCounts names counts.now
        → result ≡ find (is_stray_id names) ids.now }
{
    for id in ids {
        if is_stray(counts, *id) {
            return Some(*id);
        }
    }
    None
}

/// How many of the ids are odd.
pub(crate) fn count_odd(ids: &[u32]) -> u32
    ensures { length (filter (λ id. id % 2 == 1) ids.now) < 2 ^ 32
        → result ≡ length (filter (λ id. id % 2 == 1) ids.now) }
{
    let mut count = 0u32;
    for id in ids {
        count = count.saturating_add(*id % 2);
    }
    count
}
