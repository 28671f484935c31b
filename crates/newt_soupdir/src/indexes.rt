//! The indexes of a soup.
ghost use Rattle.std.specs.Prelude.{◌≡◌, ◌++◌, ◌∷◌, [], filter, not, IfOk, OnOk, OnErr};
ghost use Rattle.std.specs.List.{position_from};
ghost use Rattle.newt_spec_store.specs.Keys.{paths_of, same_paths, same_spec};

use newt_keys::IndexSpec;
use newt_path::Path;
use std::alloc::{AllocError, Global};
use std::marker::Model;

/// The indexes of a soup, in the order in which they were declared.
#[derive(Drop)]
pub struct Specs {
    pub(crate) items: Vec<IndexSpec>,
}

impl Model for Specs {
    ghost use Rattle.std.specs.Prelude.{List};
    ghost use Rattle.newt_spec_store.specs.Keys.{IndexSpec};

    ghost Value = { List IndexSpec };

    ghost view = { λ s. s.items.items };
}

impl Specs {
    /// No indexes. It takes no memory.
    pub fn none(alloc: Global) -> Self
        ensures { result ≡ [] }
    {
        Specs {
            items: Vec::new(alloc),
        }
    }

    /// The list of these indexes.
    pub fn of(items: Vec<IndexSpec>) -> Self
        ensures { result ≡ items.items }
    {
        Specs { items }
    }

    /// All of them, in the order in which they were declared.
    pub fn list(&self) -> &[IndexSpec]
        ensures { result.now ≡ self.now }
    {
        self.items.as_slice()
    }

    /// All of them, by value.
    pub fn into_vec(self) -> Vec<IndexSpec>
        ensures { result.items ≡ self }
    {
        self.items
    }

    /// An equal list.
    pub fn copy(&self) -> Result<Specs, AllocError>
        ensures { IfOk result (λ copy. copy ≡ self.now) }
    {
        let mut items = Vec::new(*self.items.allocator());
        for spec in &self.items {
            items.push(spec.copy()?)?;
        }
        Ok(Specs { items })
    }

    /// Adds an index, after the others. It does not look whether there is one with the same paths,
    /// or whether there are 16.
    pub fn add(&mut self, spec: IndexSpec) -> Result<(), AllocError>
        ensures added { OnOk result (self.new ≡ self.old ++ spec ∷ []) }
        ensures err { OnErr result (self.new ≡ self.old) }
    {
        self.items.push(spec)?;
        Ok(())
    }

    /// Removes the index with these paths, in this order and but for ASCII case.
    pub fn remove(&mut self, paths: &[Path])
        ensures { self.new ≡ filter (λ spec. not (same_paths (paths_of spec) paths.now)) self.old }
    {
        remove_from(&mut self.items, paths);
    }

    /// The place of the index that agrees with this declaration in its paths, but for ASCII case,
    /// and in its types and orders.
    pub fn place_of(&self, spec: &IndexSpec) -> Option<usize>
        ensures { result ≡ position_from (λ other. same_spec other spec.now) 0 self.now }
    {
        place_of(self.items.as_slice(), spec)
    }

    /// The place of the index with these paths, in this order and but for ASCII case.
    pub fn place_with_paths(&self, paths: &[Path]) -> Option<usize>
        ensures { result ≡ position_from (λ other. same_paths (paths_of other) paths.now) 0
            self.now }
    {
        place_with_paths(self.items.as_slice(), paths)
    }
}

fn remove_from(specs: &mut Vec<IndexSpec>, paths: &[Path])
    ensures { specs.new.items ≡ filter (λ spec. not (same_paths (paths_of spec) paths.now))
        specs.old.items }
{
    specs.retain(|spec| !spec.has_paths(paths));
}

fn place_of(specs: &[IndexSpec], spec: &IndexSpec) -> Option<usize>
    ensures { result ≡ position_from (λ other. same_spec other spec.now) 0 specs.now }
{
    let mut at = 0;
    let mut left = specs;
    while let [other, rest @ ..] = left {
        if other.same(spec) {
            return Some(at);
        }
        at += 1;
        left = rest;
    }
    None
}

fn place_with_paths(specs: &[IndexSpec], paths: &[Path]) -> Option<usize>
    ensures { result ≡ position_from (λ other. same_paths (paths_of other) paths.now) 0 specs.now }
{
    let mut at = 0;
    let mut left = specs;
    while let [other, rest @ ..] = left {
        if other.has_paths(paths) {
            return Some(at);
        }
        at += 1;
        left = rest;
    }
    None
}
