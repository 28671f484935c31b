//! The ranges of a soup by its declarations.
ghost use Rattle.std.specs.Prelude.{◌≡◌, [], ◌∷◌, ◌++◌, not, map, filter, Some, option_map, IfSome};
ghost use Rattle.std.specs.Prelude.{IfOk, OnOk, OnErr};
ghost use Rattle.std.specs.List.{find};
ghost use Rattle.newt_index.specs.Pairs.{IsSorted};
ghost use Rattle.newt_index_ranges.specs.Rows.{no_pairs, with_entry, without_entry, has_paths};
ghost use Rattle.newt_index_ranges.specs.Rows.{carries};

use crate::entry::{add_entry, carries, has_paths};
use newt_base::Uid;
use newt_graph::Graph;
use newt_index::Index;
use newt_keys::IndexSpec;
use newt_path::Path;
use std::alloc::{AllocError, Global};
use std::marker::Model;

/// A range for each declaration of a soup, in order.
#[derive(Drop)]
pub(crate) struct Indexes {
    items: Vec<Index>,
}

impl Model for Indexes {
    ghost use Rattle.std.specs.Prelude.{List};
    ghost use Rattle.newt_index.specs.Pairs.{Sorted};

    ghost Value = { List Sorted };

    ghost view = { λ i. i.items.items };
}

impl Indexes {
    /// A range without entries for each declaration.
    pub(crate) fn new(alloc: Global, specs: &[IndexSpec]) -> Result<Indexes, AllocError>
        ensures { IfOk result (λ ranges. ranges ≡ map (λ d. no_pairs (Some d)) specs.now) }
    {
        let mut items = Vec::new(alloc);
        for spec in specs {
            items.push(Index::new(alloc, Some(spec.copy()?)))?;
        }
        Ok(Indexes { items })
    }

    /// The range whose declaration agrees with this one.
    pub(crate) fn find(&self, spec: &IndexSpec) -> Option<&Index>
        ensures found { option_map (λ v. v.now) result ≡ find (carries spec.now) self.now }
        ensures sorted { IfSome result (λ v. IsSorted v.now) }
    {
        let mut left = self.items.as_slice();
        while let [range, rest @ ..] = left {
            if carries(range, spec) {
                // Its contract tells that the range is in order.
                let _spec = range.spec();
                return Some(range);
            }
            left = rest;
        }
        None
    }

    /// Adds an entry to each range where its graph has a key. After an error some have it.
    pub(crate) fn add(&mut self, uid: Uid, graph: &Graph) -> Result<(), AllocError>
        ensures { OnOk result (self.new ≡ map (with_entry uid graph.now) self.old) }
    {
        add_to_all(self.items.as_mut_slice(), uid, graph)
    }

    /// Removes an entry from each range. It takes no memory.
    pub(crate) fn remove(&mut self, uid: Uid)
        ensures { self.new ≡ map (without_entry uid) self.old }
    {
        remove_from_all(self.items.as_mut_slice(), uid);
    }

    /// Adds one range more, at the end.
    pub(crate) fn push(&mut self, range: Index) -> Result<(), AllocError>
        ensures ok { OnOk result (self.new ≡ self.old ++ range ∷ []) }
        ensures err { OnErr result (self.new ≡ self.old) }
    {
        self.items.push(range)?;
        Ok(())
    }

    /// Drops the range whose declaration has these paths. It takes no memory.
    pub(crate) fn drop_paths(&mut self, paths: &[Path])
        ensures { self.new ≡ filter (λ v. not (has_paths paths.now v)) self.old }
    {
        keep_other_paths(&mut self.items, paths);
    }
}

fn add_to_all(ranges: &mut [Index], uid: Uid, graph: &Graph) -> Result<(), AllocError>
    ensures { OnOk result (ranges.new ≡ map (with_entry uid graph.now) ranges.old) }
{
    for i in 0..ranges.len() {
        add_entry(&mut ranges[i], uid, graph)?;
    }
    Ok(())
}

fn remove_from_all(ranges: &mut [Index], uid: Uid)
    ensures { ranges.new ≡ map (without_entry uid) ranges.old }
{
    for i in 0..ranges.len() {
        ranges[i].forget(uid);
    }
}

fn keep_other_paths(ranges: &mut Vec<Index>, paths: &[Path])
    ensures { ranges.new.items ≡ filter (λ v. not (has_paths paths.now v)) ranges.old.items }
{
    ranges.retain(|range| !has_paths(range, paths));
}
