//! Whether rows make a well formed store: the tests that are left to the whole directory. The types
//! of names, paths and symbols keep their forms.
ghost use Rattle.std.specs.Prelude.{◌≡◌, ◌&&◌, length, map, nat_le, is_none};
ghost use Rattle.std.specs.List.{list_all, list_any};
ghost use Rattle.newt_base.specs.Names.{equal_text, is_name};
ghost use Rattle.newt_spec_graph.specs.Lists.{all_apart, rises};
ghost use Rattle.newt_spec_store.specs.Keys.{paths_of, same_paths};
ghost use Rattle.newt_spec_store.specs.Valid.{keeps_version, well_formed, valid_soup, valid_spec};
ghost use Rattle.newt_spec_store.specs.Valid.{valid_tags};
ghost use Rattle.newt_soupdir.specs.Bare.{bare_soup, bare_store};

use crate::infos::is_valid_info;
use crate::rows::{Directory, SoupRow};
use newt_keys::IndexSpec;
use newt_tags::TagTable;

/// The largest signature of a store and next entry id.
const LARGEST_ID: u32 = 536_870_911;

/// The largest next soup signature.
const LARGEST_NEXT_SOUP: u32 = 65_535;

/// The most soups of a store.
pub(crate) const MOST_SOUPS: usize = 250;

/// The most soups of a directory of version 1.
const MOST_OLD_SOUPS: usize = 64;

/// The most indexes of a soup.
pub(crate) const MOST_SPECS: usize = 16;

/// The most parts of an index.
pub(crate) const MOST_PARTS: usize = 4;

/// The most symbols of a tags declaration.
pub(crate) const MOST_TAGS: usize = 64;

impl Directory {
    /// Whether the rows make a well formed store: names have their form and are distinct, soup
    /// signatures rise and are below the next one, and all limits are kept.
    pub fn is_well_formed(&self) -> bool
        ensures { result ≡ well_formed (bare_store self.now) }
    {
        let soups = self.soups.list();
        if !self.is_within_limits() {
            return false;
        }
        if !rise(self.next_soup, soups) {
            return false;
        }
        if !are_apart(soups) {
            return false;
        }
        are_valid(soups)
    }

    /// Whether the directory has no more than one of this version can say: in version 1 it has at
    /// most 64 soups, none of them with an info frame.
    #[tactic(auto, using(crate::proofs::Spelled::length_rows))]
    pub(crate) fn keeps_version(&self, version: u16) -> bool
        ensures { result ≡ keeps_version version (bare_store self.now) }
    {
        let soups = self.soups.list();
        version != 1 || (soups.len() <= MOST_OLD_SOUPS && have_no_infos(soups))
    }

    /// Whether the store itself has its name and keeps its limits.
    #[tactic(auto, using(crate::proofs::Spelled::length_rows))]
    fn is_within_limits(&self) -> bool
        ensures { result ≡ is_name self.now.name && nat_le self.now.sig 536_870_911
            && nat_le self.now.next_soup 65_535
            && nat_le (length (map bare_soup self.now.soups)) 250 }
    {
        let _name = self.name.list();
        self.sig.0 <= LARGEST_ID
            && self.next_soup <= LARGEST_NEXT_SOUP
            && self.soups.list().len() <= MOST_SOUPS
    }
}

/// Whether no soup has an info frame.
fn have_no_infos(soups: &[SoupRow]) -> bool
    ensures { result ≡ list_all (λ p. is_none p.info) (map bare_soup soups.now) }
{
    let mut left = soups;
    while let [row, rest @ ..] = left {
        if row.info.is_some() {
            return false;
        }
        left = rest;
    }
    true
}

/// Whether the signatures of soups rise and are below the next one.
fn rise(next: u32, soups: &[SoupRow]) -> bool
    ensures { result ≡ rises 0 next (map (λ p. p.sig) (map bare_soup soups.now)) }
{
    let mut low = 0;
    let mut left = soups;
    while let [row, rest @ ..] = left {
        if row.sig.0 < low || next <= row.sig.0 {
            return false;
        }
        low = row.sig.0 + 1;
        left = rest;
    }
    true
}

/// Whether one of these soups has this name. Case counts.
fn has_name(name: &[u8], soups: &[SoupRow]) -> bool
    ensures { result ≡ list_any (equal_text name.now)
        (map (λ p. p.name) (map bare_soup soups.now)) }
{
    let mut left = soups;
    while let [row, rest @ ..] = left {
        if name == row.name.list() {
            return true;
        }
        left = rest;
    }
    false
}

/// Whether no two soups have the same name.
fn are_apart(soups: &[SoupRow]) -> bool
    ensures { result ≡ all_apart equal_text (map (λ p. p.name) (map bare_soup soups.now)) }
{
    let mut left = soups;
    while let [row, rest @ ..] = left {
        if has_name(row.name.list(), rest) {
            return false;
        }
        left = rest;
    }
    true
}

/// Whether a soup's next entry id, indexes, tags and info frame are within their limits.
fn is_valid(row: &SoupRow) -> bool
    ensures { result ≡ valid_soup (bare_soup row.now) }
{
    let _name = row.name.list();
    row.next_uid <= LARGEST_ID
        && are_valid_specs(row.specs.list())
        && is_valid_tags(&row.tags)
        && is_valid_info(&row.info)
}

/// Whether there are at most 16 indexes, no two with the same paths.
fn are_valid_specs(specs: &[IndexSpec]) -> bool
    ensures { result ≡ (nat_le (length specs.now) 16 && list_all valid_spec specs.now && all_apart
        same_paths (map paths_of specs.now)) }
{
    specs.len() <= MOST_SPECS && have_few_parts(specs) && have_paths_apart(specs)
}

/// Whether each declaration has at most 4 parts.
fn have_few_parts(specs: &[IndexSpec]) -> bool
    ensures { result ≡ list_all valid_spec specs.now }
{
    specs.iter().all(has_few_parts)
}

/// Whether a declaration has at most 4 parts; its type keeps the rest of its form.
fn has_few_parts(spec: &IndexSpec) -> bool
    ensures { result ≡ valid_spec spec.now }
{
    spec.list().len() <= MOST_PARTS
}

/// Whether no two indexes have the same paths, in one order and but for ASCII case.
fn have_paths_apart(specs: &[IndexSpec]) -> bool
    ensures { result ≡ all_apart same_paths (map paths_of specs.now) }
{
    let mut left = specs;
    while let [spec, rest @ ..] = left {
        if has_paths_of(spec, rest) {
            return false;
        }
        left = rest;
    }
    true
}

/// Whether one of these indexes has the paths of this one.
fn has_paths_of(spec: &IndexSpec, specs: &[IndexSpec]) -> bool
    ensures { result ≡ list_any (same_paths (paths_of spec.now)) (map paths_of specs.now) }
{
    let mut left = specs;
    while let [other, rest @ ..] = left {
        if spec.same_paths(other) {
            return true;
        }
        left = rest;
    }
    false
}

/// Whether a tags declaration has at most 64 symbols; its type keeps the rest of its form.
fn is_valid_tags(tags: &Option<TagTable>) -> bool
    ensures { result ≡ valid_tags tags.now }
{
    match tags {
        Some(tags) => tags.symbols().len() <= MOST_TAGS,
        None => true,
    }
}

/// Whether each soup is within its limits.
fn are_valid(soups: &[SoupRow]) -> bool
    ensures { result ≡ list_all valid_soup (map bare_soup soups.now) }
{
    let mut left = soups;
    while let [row, rest @ ..] = left {
        if !is_valid(row) {
            return false;
        }
        left = rest;
    }
    true
}
