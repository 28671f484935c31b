//! The ranges of a store that is opened.
ghost use Rattle.std.specs.Prelude.{◌≡◌, IfOk, map};
ghost use Rattle.newt_index_ranges.specs.Rows.{no_ranges};

use newt_base::{Sig, Uid};
use newt_graph::Graph;
use newt_index_ranges::Ranges;
use newt_soupdir::{Directory, SoupRow};
use newt_store_catalog::Gatherer;
use std::alloc::{AllocError, Global};

/// Ranges of these soups, without entries.
fn without_entries(alloc: Global, soups: &[SoupRow]) -> Result<Ranges, AllocError>
    ensures { IfOk result (λ ranges. ranges ≡ map (λ row. no_ranges row.sig row.specs row.tags)
        soups.now) }
{
    let mut ranges = Ranges::new(alloc);
    for row in soups {
        ranges.make_soup(row.sig, row.specs.list(), row.tags.as_ref())?;
    }
    Ok(ranges)
}

/// The ranges of a store's soups, with the entries that were told.
#[derive(Drop)]
pub(crate) struct Listing {
    pub(crate) ranges: Ranges,
}

impl Gatherer for Listing {
    ghost use Rattle.newt_store_indexed.specs.Listing.{Lists};

    ghost gathers = { λ d told listing. Lists d told listing.ranges };

    fn begin(alloc: Global, directory: &Directory) -> Result<Self, AllocError> {
        let ranges = without_entries(alloc, directory.soups.list())?;
        Ok(Listing { ranges })
    }

    fn gather(&mut self, soup: Sig, uid: Uid, skeleton: &Graph) -> Result<(), AllocError> {
        self.ranges.add(soup, uid, skeleton)
    }
}
