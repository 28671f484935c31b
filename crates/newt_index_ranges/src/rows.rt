//! The ranges of one soup.
ghost use Rattle.std.specs.Prelude.{◌≡◌, option_map, IfSome, IfOk, OnOk, OnErr};
ghost use Rattle.newt_index.specs.Pairs.{IsSorted};
ghost use Rattle.newt_index_ranges.specs.Rows.{no_ranges, entry_kept, entry_forgotten};
ghost use Rattle.newt_index_ranges.specs.Rows.{entry_renewed, with_range, without_range};
ghost use Rattle.newt_index_ranges.specs.Rows.{with_masks, find_range, find_mask};

use crate::entry::add_entry;
use crate::indexes::Indexes;
use crate::masks::{Masks, add_mask, no_masks, remove_mask};
use newt_base::{Sig, Uid};
use newt_graph::Graph;
use newt_index::Index;
use newt_keys::IndexSpec;
use newt_path::Path;
use newt_tags::TagTable;
use std::alloc::{AllocError, Global};

/// The ranges of one soup: that of all its entries by id, and one for each of its declarations, in
/// order. Where the soup declares tags, the masks of its entries stand beside them.
#[derive(Drop)]
pub(crate) struct SoupRanges {
    pub(crate) sig: Sig,
    all: Index,
    indexes: Indexes,
    masks: Option<Masks>,
}

impl SoupRanges {
    /// The ranges of a soup of these declarations that has no entries.
    pub(crate) fn new(
        alloc: Global,
        sig: Sig,
        specs: &[IndexSpec],
        tags: Option<&TagTable>,
    ) -> Result<SoupRanges, AllocError>
        ensures { IfOk result (λ ranges. ranges ≡ no_ranges sig specs.now
            (option_map (λ t. t.now) tags.entry)) }
    {
        Ok(SoupRanges {
            sig,
            all: Index::new(alloc, None),
            indexes: Indexes::new(alloc, specs)?,
            masks: no_masks(alloc, tags)?,
        })
    }

    /// The range by a declaration that agrees with this one; without a declaration, that of all
    /// entries. It takes no memory.
    pub(crate) fn find(&self, spec: Option<&IndexSpec>) -> Option<&Index>
        ensures found { option_map (λ v. v.now) result
            ≡ find_range (option_map (λ s. s.now) spec.entry) self.now }
        ensures sorted { IfSome result (λ v. IsSorted v.now) }
    {
        match spec {
            Some(spec) => self.indexes.find(spec),
            None => {
                // Its contract tells that the range is in order.
                let _spec = self.all.spec();
                Some(&self.all)
            }
        }
    }

    /// The mask of an entry, 0 where no tags are declared. None exactly where the entry is not
    /// there. It takes no memory.
    pub(crate) fn mask(&self, uid: Uid) -> Option<u64>
        ensures { result ≡ find_mask uid self.now }
    {
        match &self.masks {
            Some(masks) => masks.get(uid),
            None => self.all.key_of(uid).map(|_key| 0),
        }
    }

    /// Adds an entry. After an error some ranges have it.
    pub(crate) fn add(&mut self, uid: Uid, graph: &Graph) -> Result<(), AllocError>
        ensures { OnOk result (self.new ≡ entry_kept uid graph.now self.old) }
    {
        add_entry(&mut self.all, uid, graph)?;
        self.indexes.add(uid, graph)?;
        add_mask(&mut self.masks, uid, graph)
    }

    /// Removes an entry. It takes no memory.
    pub(crate) fn remove(&mut self, uid: Uid)
        ensures { self.new ≡ entry_forgotten uid self.old }
    {
        self.all.forget(uid);
        self.indexes.remove(uid);
        remove_mask(&mut self.masks, uid);
    }

    /// Gives an entry another graph. After an error some ranges do not have it.
    pub(crate) fn replace(&mut self, uid: Uid, graph: &Graph) -> Result<(), AllocError>
        ensures { OnOk result (self.new ≡ entry_renewed uid graph.now self.old) }
    {
        self.remove(uid);
        self.add(uid, graph)?;
        Ok(())
    }

    /// Adds a range, by a new declaration.
    pub(crate) fn declare(&mut self, range: Index) -> Result<(), AllocError>
        ensures ok { OnOk result (self.new ≡ with_range range self.old) }
        ensures err { OnErr result (self.new ≡ self.old) }
    {
        self.indexes.push(range)
    }

    /// Drops the range by the declaration of these paths. It takes no memory.
    pub(crate) fn undeclare(&mut self, paths: &[Path])
        ensures { self.new ≡ without_range paths.now self.old }
    {
        self.indexes.drop_paths(paths);
    }

    /// Puts these masks in place of those that were kept. It takes no memory.
    pub(crate) fn set_masks(&mut self, masks: Masks)
        ensures { self.new ≡ with_masks masks self.old }
    {
        self.masks = Some(masks);
    }
}
