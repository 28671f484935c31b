//! The ranges of all soups of a store.
ghost use Rattle.std.specs.Prelude.{◌≡◌, ◌==◌, ◌<◌, [], ◌∷◌, ◌++◌, not, length, option_map, IfSome};
ghost use Rattle.std.specs.Prelude.{IsTrue, OnOk, OnErr};
ghost use Rattle.std.specs.List.{position_from};
ghost use Rattle.newt_index.specs.Pairs.{IsSorted};
ghost use Rattle.newt_spec_store.specs.Store.{Store};
ghost use Rattle.newt_spec_store.specs.Valid.{well_formed};
ghost use Rattle.newt_index_ranges.specs.Range.{range_in, mask_at};
ghost use Rattle.newt_index_ranges.specs.Rows.{no_ranges, entry_kept, entry_forgotten};
ghost use Rattle.newt_index_ranges.specs.Rows.{entry_renewed, with_range, without_range};
ghost use Rattle.newt_index_ranges.specs.Rows.{with_masks};
ghost use Rattle.newt_index_ranges.specs.Rows.{change_ranges, drop_ranges, range_found, mask_found};
ghost use Rattle.newt_index_ranges.specs.Stands.{AreRangesOf};

use crate::masks::Masks;
use crate::rows::SoupRanges;
use newt_base::{Sig, Uid};
use newt_graph::Graph;
use newt_index::Index;
use newt_keys::IndexSpec;
use newt_path::Path;
use newt_tags::TagTable;
use std::alloc::{AllocError, Global};
use std::marker::Model;

/// The ranges of a store's soups, in the order in which the soups were made. A call for a soup that
/// is not there changes nothing. A call that fails when out of memory may leave some ranges changed
/// and others not. The ranges are then spent, unless the call says otherwise.
#[derive(Drop)]
pub struct Ranges {
    soups: Vec<SoupRanges>,
}

impl Model for Ranges {
    ghost use Rattle.std.specs.Prelude.{List};
    ghost use Rattle.newt_index_ranges.specs.declared.rows.SoupRanges.{SoupRanges};

    ghost Value = { List SoupRanges };

    ghost view = { λ r. r.soups.items };
}

impl Ranges {
    /// Ranges of no soups. It takes no memory.
    pub fn new(alloc: Global) -> Ranges
        ensures { result ≡ [] }
    {
        Ranges {
            soups: Vec::new(alloc),
        }
    }

    /// The sorted list of exactly the entries of a soup that have a key, by a declaration that
    /// agrees with this one; without a declaration, of all entries by id. None exactly where the
    /// soup is not there or does not carry the declaration. It takes no memory.
    pub fn range_of(&self, soup: Sig, spec: Option<&IndexSpec>) -> Option<&Index>
        ensures found { option_map (λ v. v.now) result
            ≡ range_found soup (option_map (λ s. s.now) spec.entry) self.now }
        ensures sorted { IfSome result (λ v. IsSorted v.now) }
        ensures stands { (s : Store) → IsTrue (well_formed s) → AreRangesOf s self.now
            → option_map (λ v. v.now) result ≡ range_in soup (option_map (λ s. s.now) spec.entry)
            s }
    {
        find_in(&self.soups, soup, spec)
    }

    /// The mask of an entry by the tags declaration of its soup, 0 where the soup has none. None
    /// exactly where the entry is not there. It takes no memory.
    pub fn mask(&self, soup: Sig, uid: Uid) -> Option<u64>
        ensures found { result ≡ mask_found soup uid self.now }
        ensures stands { (s : Store) → AreRangesOf s self.now → result ≡ mask_at soup uid s }
    {
        find_mask_in(&self.soups, soup, uid)
    }

    /// Adds a soup at the end, with these declarations and without entries: a new soup has none.
    /// After an error nothing has changed.
    pub fn make_soup(
        &mut self,
        soup: Sig,
        specs: &[IndexSpec],
        tags: Option<&TagTable>,
    ) -> Result<(), AllocError>
        ensures ok { OnOk result (self.new ≡ self.old ++ no_ranges soup specs.now
            (option_map (λ t. t.now) tags.entry) ∷ []) }
        ensures err { OnErr result (self.new ≡ self.old) }
    {
        let row = SoupRanges::new(*self.soups.allocator(), soup, specs, tags)?;
        self.soups.push(row)?;
        Ok(())
    }

    /// Drops a soup. It takes no memory.
    pub fn drop_soup(&mut self, soup: Sig)
        ensures { self.new ≡ drop_ranges soup self.old }
    {
        keep_others(&mut self.soups, soup);
    }

    /// Adds an entry to a soup, with an id that none of its entries has. Entries may be added in
    /// any order.
    pub fn add(&mut self, soup: Sig, uid: Uid, graph: &Graph) -> Result<(), AllocError>
        ensures { OnOk result (self.new ≡ change_ranges soup (entry_kept uid graph.now) self.old) }
    {
        add_in(self.soups.as_mut_slice(), soup, uid, graph)
    }

    /// Removes an entry of a soup. It takes no memory.
    pub fn remove(&mut self, soup: Sig, uid: Uid)
        ensures { self.new ≡ change_ranges soup (entry_forgotten uid) self.old }
    {
        remove_in(self.soups.as_mut_slice(), soup, uid);
    }

    /// Gives an entry of a soup another graph.
    pub fn replace(&mut self, soup: Sig, uid: Uid, graph: &Graph) -> Result<(), AllocError>
        ensures { OnOk result (self.new ≡ change_ranges soup (entry_renewed uid graph.now)
            self.old) }
    {
        replace_in(self.soups.as_mut_slice(), soup, uid, graph)
    }

    /// Adds a new declaration of a soup at the end, with its range. `add_entry` fills a range.
    /// After an error nothing has changed.
    pub fn declare(&mut self, soup: Sig, range: Index) -> Result<(), AllocError>
        ensures ok { OnOk result (self.new ≡ change_ranges soup (with_range range) self.old) }
        ensures err { OnErr result (self.new ≡ self.old) }
    {
        declare_in(self.soups.as_mut_slice(), soup, range)
    }

    /// Removes the declaration of a soup that has these paths, with its range. It takes no memory.
    pub fn undeclare(&mut self, soup: Sig, paths: &[Path])
        ensures { self.new ≡ change_ranges soup (without_range paths.now) self.old }
    {
        undeclare_in(self.soups.as_mut_slice(), soup, paths);
    }

    /// Puts the masks of a soup's entries by its tags declaration in place of those that were kept.
    /// It takes no memory.
    pub fn set_masks(&mut self, soup: Sig, masks: Masks)
        ensures { self.new ≡ change_ranges soup (with_masks masks) self.old }
    {
        set_masks_in(self.soups.as_mut_slice(), soup, masks);
    }
}

fn find_mask_in(rows: &[SoupRanges], sig: Sig, uid: Uid) -> Option<u64>
    ensures { result ≡ mask_found sig uid rows.now }
{
    let mut left = rows;
    while let [row, rest @ ..] = left {
        if row.sig == sig {
            return row.mask(uid);
        }
        left = rest;
    }
    None
}

fn find_in<'a>(rows: &'a [SoupRanges], sig: Sig, spec: Option<&IndexSpec>) -> Option<&'a Index>
    ensures found { option_map (λ v. v.now) result
        ≡ range_found sig (option_map (λ s. s.now) spec.entry) rows.now }
    ensures sorted { IfSome result (λ v. IsSorted v.now) }
{
    let mut left = rows;
    while let [row, rest @ ..] = left {
        if row.sig == sig {
            return row.find(spec);
        }
        left = rest;
    }
    None
}

fn keep_others(rows: &mut Vec<SoupRanges>, sig: Sig)
    ensures { rows.new.items ≡ drop_ranges sig rows.old.items }
{
    rows.retain(|row| row.sig != sig);
}

/// The place of the first row of this signature.
fn place_of(rows: &[SoupRanges], sig: Sig) -> Option<usize>
    ensures place { result ≡ position_from (λ row. row.sig == sig) 0 rows.now }
    ensures within { IfSome result (λ at. at < length rows.now) }
{
    let mut at = 0;
    let mut left = rows;
    while let [row, rest @ ..] = left {
        if row.sig == sig {
            return Some(at);
        }
        at += 1;
        left = rest;
    }
    None
}

fn declare_in(rows: &mut [SoupRanges], sig: Sig, range: Index) -> Result<(), AllocError>
    ensures ok { OnOk result (rows.new ≡ change_ranges sig (with_range range) rows.old) }
    ensures err { OnErr result (rows.new ≡ rows.old) }
{
    let Some(at) = place_of(rows, sig) else {
        return Ok(());
    };
    rows[at].declare(range)?;
    Ok(())
}

fn add_in(rows: &mut [SoupRanges], sig: Sig, uid: Uid, graph: &Graph) -> Result<(), AllocError>
    ensures { OnOk result (rows.new ≡ change_ranges sig (entry_kept uid graph.now) rows.old) }
{
    let Some(at) = place_of(rows, sig) else {
        return Ok(());
    };
    rows[at].add(uid, graph)?;
    Ok(())
}

fn remove_in(rows: &mut [SoupRanges], sig: Sig, uid: Uid)
    ensures { rows.new ≡ change_ranges sig (entry_forgotten uid) rows.old }
{
    let Some(at) = place_of(rows, sig) else {
        return;
    };
    rows[at].remove(uid);
}

fn replace_in(rows: &mut [SoupRanges], sig: Sig, uid: Uid, graph: &Graph) -> Result<(), AllocError>
    ensures { OnOk result (rows.new ≡ change_ranges sig (entry_renewed uid graph.now) rows.old) }
{
    let Some(at) = place_of(rows, sig) else {
        return Ok(());
    };
    rows[at].replace(uid, graph)?;
    Ok(())
}

fn undeclare_in(rows: &mut [SoupRanges], sig: Sig, paths: &[Path])
    ensures { rows.new ≡ change_ranges sig (without_range paths.now) rows.old }
{
    let Some(at) = place_of(rows, sig) else {
        return;
    };
    rows[at].undeclare(paths);
}

fn set_masks_in(rows: &mut [SoupRanges], sig: Sig, masks: Masks)
    ensures { rows.new ≡ change_ranges sig (with_masks masks) rows.old }
{
    let Some(at) = place_of(rows, sig) else {
        return;
    };
    rows[at].set_masks(masks);
}
