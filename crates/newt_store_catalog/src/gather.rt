//! What is told of the entries where the store of a unit is found.
ghost use Rattle.std.specs.Prelude.{◌≡◌, OnOk, IfOk};
ghost use Rattle.newt_spec_store.specs.Store.{Store as PlainStore};
ghost use Rattle.newt_soupdir.specs.Bare.{bare_store};
ghost use Rattle.newt_store_catalog.specs.Gathering.{Graphs, nothing, IsOneMore};

use newt_base::{Sig, Uid};
use newt_graph::Graph;
use newt_soupdir::Directory;
use std::alloc::{AllocError, Global};

/// What is told, while the store of a unit is found, of each entry whose record was read: once, in
/// the order of the records, without the bytes of the entry's large binaries.
pub trait Gatherer: Sized + Drop {
    /// What it has gathered of a store without its entries where these graphs were told.
    ghost gathers: { PlainStore → Graphs → Self → Type 0 };

    /// Begins with the directory, before any entry.
    fn begin(alloc: Global, directory: &Directory) -> Result<Self, AllocError>
        ensures { IfOk result (λ begun. gathers (bare_store directory.now) nothing begun) };

    /// Gathers an entry of a soup, of which nothing was told.
    fn gather(&mut self, soup: Sig, uid: Uid, skeleton: &Graph) -> Result<(), AllocError>
        ensures { (d : PlainStore) (told more : Graphs) → gathers d told self.old
            → IsOneMore soup uid skeleton.now told more → OnOk result (gathers d more self.new) };
}

/// Gathers nothing.
#[derive(Drop)]
pub struct Nothing;

impl Gatherer for Nothing {
    ghost gathers = { λ d told gathered. Unit {0} };

    fn begin(_alloc: Global, _directory: &Directory) -> Result<Self, AllocError> {
        Ok(Nothing)
    }

    fn gather(&mut self, _soup: Sig, _uid: Uid, _skeleton: &Graph) -> Result<(), AllocError> {
        Ok(())
    }
}
