//! Where the records of entries are.
ghost use Rattle.std.specs.Prelude.{◌≡◌, ◌≢◌, ◌==◌, ◌++◌, ◌∷◌, [], ℕ, List, filter, length, Some};
ghost use Rattle.std.specs.Prelude.{None, is_some, OnOk, OnErr, IfOk};
ghost use Rattle.std.specs.List.{IsDistinct};
ghost use Rattle.std.specs.List.Sorted.{IsStrictlySortedBy};
ghost use Rattle.std.specs.Ordering.{nat_cmp};
ghost use Rattle.std.specs.Set.{is_member};
ghost use Rattle.std.specs.BTreeMap as tree;
ghost use Rattle.newt_objects.specs.Headers.{part_cmp};
ghost use Rattle.newt_spec_graph.specs.Lists.{Among};
ghost use Rattle.newt_objects_commit.specs.Batch.{AreOnce};
ghost use Rattle.newt_objects_commit.specs.Places.{place_of, picked, uids_at};

use newt_base::{Sig, Uid};
use std::alloc::{AllocError, Global};
use std::collections::BTreeMap;

/// Appends the object of a row, if it is one of the soup.
fn pick_one(key: &(u32, u32), id: &u32, sig: u32, ids: &mut Vec<u32>) -> Result<(), AllocError>
    ensures { OnOk result (ids.new.items ≡ ids.old.items ++ picked sig ((key.now, id.now) ∷ [])) }
{
    if key.0 == sig {
        ids.push(*id)?;
    }
    Ok(())
}

/// Appends the objects of the rows of a soup.
fn pick(rows: &BTreeMap<(u32, u32), u32>, sig: u32, ids: &mut Vec<u32>) -> Result<(), AllocError>
    ensures picked { OnOk result (ids.new.items ≡ ids.old.items ++ picked sig rows.now.entries) }
    ensures ordered { tree.IsOrdered part_cmp rows.now }
{
    for (key, id) in rows.iter() {
        pick_one(key, id, sig, ids)?;
    }
    Ok(())
}

/// Appends the id of the entry of a row, if it is one of the soup.
fn list_one(key: &(u32, u32), id: &u32, sig: u32, uids: &mut Vec<Uid>) -> Result<(), AllocError>
    ensures { OnOk result (uids.new.items ≡ uids.old.items ++ uids_at sig
        ((key.now, id.now) ∷ [])) }
{
    if key.0 == sig {
        uids.push(Uid(key.1))?;
    }
    Ok(())
}

/// Appends the ids of the entries of the rows of a soup.
fn list_uids(
    rows: &BTreeMap<(u32, u32), u32>,
    sig: u32,
    uids: &mut Vec<Uid>,
) -> Result<(), AllocError>
    ensures listed { OnOk result (uids.new.items ≡ uids.old.items ++ uids_at sig rows.now.entries) }
    ensures ordered { tree.IsOrdered part_cmp rows.now }
{
    for (key, id) in rows.iter() {
        list_one(key, id, sig, uids)?;
    }
    Ok(())
}

/// How many rows are a soup's.
fn count_rows(rows: &BTreeMap<(u32, u32), u32>, sig: u32) -> usize
    ensures counted { result ≡ length (filter (λ k. k.0 == sig) (tree.keys rows.now)) }
    ensures ordered { tree.IsOrdered part_cmp rows.now }
{
    rows.keys().filter(|key| key.0 == sig).count()
}

/// The object of each entry's record, by soup signature and entry id.
#[derive(Drop)]
pub struct PlaceTable {
    rows: BTreeMap<(u32, u32), u32>,
}

impl PlaceTable {
    /// No places. It takes no memory.
    pub fn new(alloc: Global) -> PlaceTable
        ensures { (sig uid : ℕ) → place_of result sig uid ≡ None }
    {
        PlaceTable {
            rows: BTreeMap::new(alloc),
        }
    }

    /// The object of an entry's record.
    pub fn get(&self, sig: Sig, uid: Uid) -> Option<u32>
        ensures { result ≡ place_of self.now sig uid }
    {
        self.rows.get(&(sig.0, uid.0)).copied()
    }

    /// Keeps the object of an entry's record, and answers the one that it had. After an error the
    /// table is as it was.
    pub fn insert(&mut self, sig: Sig, uid: Uid, id: u32) -> Result<Option<u32>, AllocError>
        ensures old { IfOk result (λ old. old ≡ place_of self.old sig uid) }
        ensures kept { OnOk result (place_of self.new sig uid ≡ Some id) }
        ensures others { OnOk result ((s u : ℕ) → ((s ≡ sig) → (u ≡ uid) → ⊥) → place_of self.new s
            u ≡ place_of self.old s u) }
        ensures err { OnErr result ((s u : ℕ) → place_of self.new s u ≡ place_of self.old s u) }
    {
        Ok(self.rows.insert((sig.0, uid.0), id)?)
    }

    /// Forgets the place of an entry.
    pub fn remove(&mut self, sig: Sig, uid: Uid)
        ensures gone { place_of self.new sig uid ≡ None }
        ensures others { (s u : ℕ) → ((s ≡ sig) → (u ≡ uid) → ⊥)
            → place_of self.new s u ≡ place_of self.old s u }
    {
        self.rows.remove(&(sig.0, uid.0));
    }

    /// The objects of the records of a soup's entries.
    pub fn objects_of(&self, alloc: Global, sig: Sig) -> Result<Vec<u32>, AllocError>
        requires { (u v id : ℕ) → place_of self.now sig u ≡ Some id
            → place_of self.now sig v ≡ Some id → u ≡ v }
        ensures real { IfOk result (λ ids. (id : ℕ) → Among ids.items id → (uid : ℕ) ×
            (place_of self.now sig uid ≡ Some id)) }
        ensures all { IfOk result (λ ids. (uid id : ℕ) → place_of self.now sig uid ≡ Some id → Among
            ids.items id) }
        ensures once { IfOk result (λ ids. AreOnce ids.items) }
    {
        let mut ids = Vec::new(alloc);
        pick(&self.rows, sig.0, &mut ids)?;
        Ok(ids)
    }

    /// The ids of a soup's entries that have a place, in rising order.
    pub fn uids_of(&self, alloc: Global, sig: Sig) -> Result<Vec<Uid>, AllocError>
        ensures there { IfOk result (λ uids. (uid : ℕ) → is_member (λ a b. a == b) uids.items uid ≡
            is_some (place_of self.now sig uid)) }
        ensures rising { IfOk result (λ uids. IsStrictlySortedBy nat_cmp uids.items) }
    {
        let mut uids = Vec::new(alloc);
        list_uids(&self.rows, sig.0, &mut uids)?;
        Ok(uids)
    }

    /// How many entries of a soup have a place.
    pub fn count(&self, sig: Sig) -> usize
        ensures { (uids : List ℕ) → IsDistinct (λ a b. a == b) uids
            → ((uid : ℕ) → is_some (place_of self.now sig uid) ≡ is_member (λ a b. a == b) uids uid)
            → result ≡ length uids }
    {
        count_rows(&self.rows, sig.0)
    }

    /// Forgets the places of a soup's entries.
    pub fn remove_soup(&mut self, sig: Sig)
        ensures gone { (uid : ℕ) → place_of self.new sig uid ≡ None }
        ensures others { (s u : ℕ) → s ≢ sig → place_of self.new s u ≡ place_of self.old s u }
    {
        self.rows.retain(|key, _| key.0 != sig.0);
    }
}
