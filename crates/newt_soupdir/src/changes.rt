//! How soups are found in a directory, and how it is changed.
ghost use Rattle.std.specs.Prelude.{◌≡◌, ◌+◌, ◌<◌, ◌≤◌, filter, length, map, not, ◌==◌, nat_le};
ghost use Rattle.std.specs.Prelude.{option_map, option_and_then, OnErr, OnOk, IfOk, IfSome, IsTrue};
ghost use Rattle.std.specs.List.{find, position_from};
ghost use Rattle.newt_spec_store.specs.Store.{soup_named, make_soup, change_first, soup_of};
ghost use Rattle.newt_spec_store.specs.Store.{without_soup, uid_taken, take_uid_of, with_index};
ghost use Rattle.newt_spec_store.specs.Store.{without_index, change_soup_of, with_tags, with_info};
ghost use Rattle.newt_spec_store.specs.Valid.{well_formed};
ghost use Rattle.newt_soupdir.specs.Bare.{bare_soup, bare_store};
ghost use Rattle.newt_spec_store.specs.Keys.{paths_of, same_paths, same_spec};

use crate::form::MOST_SOUPS;
use crate::indexes::Specs;
use crate::rows::{Directory, SoupRow};
use newt_base::{Name, Sig, Uid};
use newt_graph::Graph;
use newt_keys::IndexSpec;
use newt_path::Path;
use newt_tags::TagTable;
use std::alloc::AllocError;

impl Directory {
    /// The soup of this name.
    pub fn soup_named(&self, name: &[u8]) -> Option<&SoupRow>
        ensures { option_map (λ row. bare_soup row.now) result
            ≡ soup_named name.now (bare_store self.now) }
    {
        let mut left = self.soups.list();
        while let [row, rest @ ..] = left {
            if row.name.list() == name {
                return Some(row);
            }
            left = rest;
        }
        None
    }

    /// The soup of this signature.
    pub fn soup_of(&self, sig: Sig) -> Option<&SoupRow>
        ensures { option_map (λ row. bare_soup row.now) result ≡ soup_of sig (bare_store self.now) }
    {
        let mut left = self.soups.list();
        while let [row, rest @ ..] = left {
            if row.sig == sig {
                return Some(row);
            }
            left = rest;
        }
        None
    }

    /// Whether no further soup may be made, since there are 250.
    pub fn is_full(&self) -> bool
        ensures { result ≡ nat_le 250 (length self.now.soups) }
    {
        MOST_SOUPS <= self.soups.list().len()
    }

    /// Makes a new soup at the end, without entries, indexes, tags and info frame. It has the next
    /// signature, which is the answer. The caller must see that the name is new and that `is_full`
    /// is false.
    #[tactic(auto, using(crate::proofs::Lists::next_fits))]
    pub fn make_soup(&mut self, name: Name) -> Result<Sig, AllocError>
        requires { IsTrue (well_formed (bare_store self.old)) }
        ensures made { OnOk result (bare_store self.new ≡ make_soup name (bare_store self.old)) }
        ensures sig { IfOk result (λ sig. sig ≡ self.old.next_soup) }
        ensures err { OnErr result (self.new ≡ self.old) }
    {
        let sig = Sig(self.next_soup);
        let row = SoupRow {
            name,
            sig,
            next_uid: 0,
            specs: Specs::none(*self.soups.items.allocator()),
            tags: None,
            info: None,
        };
        self.soups.items.push(row)?;
        self.next_soup += 1;
        Ok(sig)
    }

    /// Drops the soup of this signature. The signature is not given again.
    pub fn drop_soup(&mut self, sig: Sig)
        ensures { bare_store self.new ≡ without_soup sig (bare_store self.old) }
    {
        drop_from(&mut self.soups.items, sig);
    }

    /// The place of the index, among those of the soup of this signature, that agrees with this
    /// declaration in its paths, but for ASCII case, and in its types and orders.
    pub fn index_of(&self, sig: Sig, spec: &IndexSpec) -> Option<usize>
        ensures { result ≡ option_and_then (λ p. position_from (λ other. same_spec other spec.now) 0
            p.specs) (soup_of sig (bare_store self.now)) }
    {
        self.soup_of(sig)?.specs.place_of(spec)
    }

    /// The place of the index, among those of the soup of this signature, that has these paths, in
    /// this order and but for ASCII case.
    pub fn index_with_paths(&self, sig: Sig, paths: &[Path]) -> Option<usize>
        ensures { result ≡ option_and_then (λ p. position_from
            (λ other. same_paths (paths_of other) paths.now) 0 p.specs)
            (soup_of sig (bare_store self.now)) }
    {
        self.soup_of(sig)?.specs.place_with_paths(paths)
    }

    /// Gives the soup of this signature one index more, after the others. Without such a soup
    /// nothing changes.
    pub fn add_spec(&mut self, sig: Sig, spec: IndexSpec) -> Result<(), AllocError>
        ensures added { OnOk result (bare_store self.new ≡ change_soup_of sig (with_index spec)
            (bare_store self.old)) }
        ensures err { OnErr result (self.new ≡ self.old) }
    {
        add_spec_in(self.soups.items.as_mut_slice(), sig, spec)
    }

    /// Takes from the soup of this signature the index with these paths, in this order and but for
    /// ASCII case. Without such a soup nothing changes.
    pub fn drop_spec(&mut self, sig: Sig, paths: &[Path])
        ensures { bare_store self.new ≡ change_soup_of sig (without_index paths.now)
            (bare_store self.old) }
    {
        drop_spec_in(self.soups.items.as_mut_slice(), sig, paths);
    }

    /// Gives the soup of this signature this tags declaration, or none. Without such a soup nothing
    /// changes.
    pub fn set_tags(&mut self, sig: Sig, tags: Option<TagTable>)
        ensures { bare_store self.new ≡ change_soup_of sig (with_tags tags) (bare_store self.old) }
    {
        set_tags_in(self.soups.items.as_mut_slice(), sig, tags);
    }

    /// Gives the soup of this signature this info frame, or none. Without such a soup nothing
    /// changes.
    pub fn set_info(&mut self, sig: Sig, info: Option<Graph>)
        ensures { bare_store self.new ≡ change_soup_of sig (with_info info) (bare_store self.old) }
    {
        set_info_in(self.soups.items.as_mut_slice(), sig, info);
    }

    /// Takes the next entry id of the soup of this signature, which is the answer; none where there
    /// is no such soup.
    #[tactic(auto, using(crate::proofs::Lists::next_uid_fits))]
    pub fn take_uid(&mut self, sig: Sig) -> Option<Uid>
        requires { IsTrue (well_formed (bare_store self.old)) }
        ensures uid { result ≡ option_map (λ p. p.next_uid) (soup_of sig (bare_store self.old)) }
        ensures taken { bare_store self.new ≡ take_uid_of sig (bare_store self.old) }
    {
        self.take_small_uid(sig)
    }

    /// The same, where the next id is at most 536,870,911, so that the one after it is a number of
    /// 32 bits.
    fn take_small_uid(&mut self, sig: Sig) -> Option<Uid>
        requires { IfSome (soup_of sig (bare_store self.old)) (λ p. p.next_uid ≤ 536_870_911) }
        ensures uid { result ≡ option_map (λ p. p.next_uid) (soup_of sig (bare_store self.old)) }
        ensures taken { bare_store self.new ≡ take_uid_of sig (bare_store self.old) }
    {
        take_uid_in(self.soups.items.as_mut_slice(), sig)
    }
}

/// Drops the rows of this signature.
fn drop_from(rows: &mut Vec<SoupRow>, sig: Sig)
    ensures { map bare_soup rows.new.items ≡ filter (λ p. not (p.sig == sig))
        (map bare_soup rows.old.items) }
{
    rows.retain(|row| row.sig != sig);
}

/// The place of the first row of this signature.
fn place_of(rows: &[SoupRow], sig: Sig) -> Option<usize>
    ensures place { result ≡ position_from (λ row. row.sig == sig) 0 rows.now }
    ensures within { IfSome result (λ at. at < length rows.now) }
{
    let mut at = 0;
    let mut left = rows;
    while let [row, rest @ ..] = left {
        if row.sig == sig {
            return Some(at);
        }
        at += 1;
        left = rest;
    }
    None
}

/// Takes the next entry id of a row.
fn take_next(row: &mut SoupRow) -> Uid
    requires { row.old.next_uid ≤ 536_870_911 }
    ensures uid { result ≡ row.old.next_uid }
    ensures taken { row.new ≡ record row.old { next_uid = row.old.next_uid + 1 } }
{
    let next = row.next_uid;
    row.next_uid = next + 1;
    Uid(next)
}

/// Takes the next entry id of the first row of this signature.
fn take_uid_in(rows: &mut [SoupRow], sig: Sig) -> Option<Uid>
    requires { IfSome (find (λ p. p.sig == sig) (map bare_soup rows.old))
        (λ p. p.next_uid ≤ 536_870_911) }
    ensures uid { result ≡ option_map (λ p. p.next_uid)
        (find (λ p. p.sig == sig) (map bare_soup rows.old)) }
    ensures taken { map bare_soup rows.new ≡ change_first (λ p. p.sig == sig) uid_taken
        (map bare_soup rows.old) }
{
    let at = place_of(rows, sig)?;
    Some(take_next(&mut rows[at]))
}

/// Gives a row one index more.
fn add_to(row: &mut SoupRow, spec: IndexSpec) -> Result<(), AllocError>
    ensures added { OnOk result (bare_soup row.new ≡ with_index spec (bare_soup row.old)) }
    ensures err { OnErr result (row.new ≡ row.old) }
{
    row.specs.add(spec)
}

/// Gives the first row of this signature one index more.
fn add_spec_in(rows: &mut [SoupRow], sig: Sig, spec: IndexSpec) -> Result<(), AllocError>
    ensures added { OnOk result (map bare_soup rows.new ≡ change_first (λ p. p.sig == sig)
        (with_index spec) (map bare_soup rows.old)) }
    ensures err { OnErr result (rows.new ≡ rows.old) }
{
    match place_of(rows, sig) {
        Some(at) => add_to(&mut rows[at], spec),
        None => Ok(()),
    }
}

/// Takes the index with these paths from a row.
fn drop_of(row: &mut SoupRow, paths: &[Path])
    ensures { bare_soup row.new ≡ without_index paths.now (bare_soup row.old) }
{
    row.specs.remove(paths);
}

/// Takes the index with these paths from the first row of this signature.
fn drop_spec_in(rows: &mut [SoupRow], sig: Sig, paths: &[Path])
    ensures { map bare_soup rows.new ≡ change_first (λ p. p.sig == sig) (without_index paths.now)
        (map bare_soup rows.old) }
{
    if let Some(at) = place_of(rows, sig) {
        drop_of(&mut rows[at], paths);
    }
}

/// Gives a row this tags declaration, or none.
fn set_tags_of(row: &mut SoupRow, tags: Option<TagTable>)
    ensures { bare_soup row.new ≡ with_tags tags (bare_soup row.old) }
{
    row.tags = tags;
}

/// Gives the first row of this signature this tags declaration, or none.
fn set_tags_in(rows: &mut [SoupRow], sig: Sig, tags: Option<TagTable>)
    ensures { map bare_soup rows.new ≡ change_first (λ p. p.sig == sig) (with_tags tags)
        (map bare_soup rows.old) }
{
    if let Some(at) = place_of(rows, sig) {
        set_tags_of(&mut rows[at], tags);
    }
}

/// Gives a row this info frame, or none.
fn set_info_of(row: &mut SoupRow, info: Option<Graph>)
    ensures { bare_soup row.new ≡ with_info info (bare_soup row.old) }
{
    row.info = info;
}

/// Gives the first row of this signature this info frame, or none.
fn set_info_in(rows: &mut [SoupRow], sig: Sig, info: Option<Graph>)
    ensures { map bare_soup rows.new ≡ change_first (λ p. p.sig == sig) (with_info info)
        (map bare_soup rows.old) }
{
    if let Some(at) = place_of(rows, sig) {
        set_info_of(&mut rows[at], info);
    }
}
