//! The masks of a soup's entries.
ghost use Rattle.std.specs.Prelude.{◌≡◌, OnOk, OnErr, IfOk, option_map};
ghost use Rattle.newt_index_ranges.specs.Masks.{no_masks, kept_mask, with_mask, without_mask};

use newt_base::Uid;
use newt_graph::Graph;
use newt_tags::TagTable;
use std::alloc::{AllocError, Global};
use std::collections::BTreeMap;
use std::marker::Model;

/// A soup's tags declaration, and the mask of each of the soup's entries by it.
#[derive(Drop)]
pub struct Masks {
    table: TagTable,
    masks: BTreeMap<u32, u64>,
}

impl Model for Masks {
    ghost use Rattle.newt_index_ranges.specs.Masks.{Masks};

    ghost Value = { Masks };

    ghost view = { λ m. record { table = m.table; masks = m.masks.entries } };
}

impl Masks {
    /// Masks of no entries. It takes no memory.
    pub fn new(alloc: Global, table: TagTable) -> Masks
        ensures { result ≡ no_masks table }
    {
        Masks {
            table,
            masks: BTreeMap::new(alloc),
        }
    }

    /// Keeps the mask of an entry. After an error nothing has changed.
    pub fn add(&mut self, uid: Uid, graph: &Graph) -> Result<(), AllocError>
        ensures ok { OnOk result (self.new ≡ with_mask uid graph.now self.old) }
        ensures err { OnErr result (self.new ≡ self.old) }
    {
        let mask = self.table.mask_of(graph);
        let _old = self.masks.insert(uid.0, mask)?;
        Ok(())
    }

    /// Forgets the mask of an entry. It takes no memory.
    pub(crate) fn remove(&mut self, uid: Uid)
        ensures { self.new ≡ without_mask uid self.old }
    {
        self.masks.remove(&uid.0);
    }

    /// The mask of an entry. It takes no memory.
    pub(crate) fn get(&self, uid: Uid) -> Option<u64>
        ensures { result ≡ kept_mask uid self.now }
    {
        self.masks.get(&uid.0).copied()
    }
}

/// Masks of no entries by a declaration, if there is one.
pub(crate) fn no_masks(alloc: Global, tags: Option<&TagTable>) -> Result<Option<Masks>, AllocError>
    ensures { IfOk result (λ masks. masks ≡ option_map no_masks (option_map (λ t. t.now)
        tags.entry)) }
{
    match tags {
        Some(table) => Ok(Some(Masks::new(alloc, table.copy()?))),
        None => Ok(None),
    }
}

/// Keeps the mask of an entry, where masks are kept.
pub(crate) fn add_mask(masks: &mut Option<Masks>, uid: Uid, graph: &Graph) -> Result<(), AllocError>
    ensures { OnOk result (masks.new ≡ option_map (with_mask uid graph.now) masks.old) }
{
    match masks {
        Some(masks) => masks.add(uid, graph),
        None => Ok(()),
    }
}

/// Forgets the mask of an entry. It takes no memory.
pub(crate) fn remove_mask(masks: &mut Option<Masks>, uid: Uid)
    ensures { masks.new ≡ option_map (without_mask uid) masks.old }
{
    if let Some(masks) = masks {
        masks.remove(uid);
    }
}
