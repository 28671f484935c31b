//! What replies show of stores and soups, of the indexes of a soup, and of its tags.
ghost use Rattle.std.specs.Prelude.{◌≡◌};

use newt_base::{Name, Sig};
use newt_host::Unit;
use newt_keys::IndexSpec;
use newt_tags::TagTable;
use std::marker::Model;

/// A mounted store.
#[derive(Drop)]
pub struct StoreLine {
    pub unit: Unit,
    pub sig: Sig,
    pub name: Name,
}

/// A soup, and how many entries it has.
#[derive(Drop)]
pub struct SoupLine {
    pub name: Name,
    pub sig: Sig,
    pub count: u32,
}

/// The mounted stores, by unit.
#[derive(Drop)]
pub struct StoreRows {
    items: Vec<StoreLine>,
}

impl Model for StoreRows {
    ghost use Rattle.std.specs.Prelude.{List};
    ghost use Rattle.newt_reply.specs.declared.rows.StoreLine.{StoreLine};

    ghost Value = { List StoreLine };

    ghost view = { λ rows. rows.items.items };
}

impl StoreRows {
    /// The list of these stores.
    pub fn of(items: Vec<StoreLine>) -> Self
        ensures { result ≡ items.items }
    {
        StoreRows { items }
    }

    /// All of them, by unit.
    pub fn list(&self) -> &[StoreLine]
        ensures { result.now ≡ self.now }
    {
        self.items.as_slice()
    }
}

/// The soups of a store, in the order in which they were made.
#[derive(Drop)]
pub struct SoupRows {
    items: Vec<SoupLine>,
}

impl Model for SoupRows {
    ghost use Rattle.std.specs.Prelude.{List};
    ghost use Rattle.newt_reply.specs.declared.rows.SoupLine.{SoupLine};

    ghost Value = { List SoupLine };

    ghost view = { λ rows. rows.items.items };
}

impl SoupRows {
    /// The list of these soups.
    pub fn of(items: Vec<SoupLine>) -> Self
        ensures { result ≡ items.items }
    {
        SoupRows { items }
    }

    /// All of them, in the order in which they were made.
    pub fn list(&self) -> &[SoupLine]
        ensures { result.now ≡ self.now }
    {
        self.items.as_slice()
    }
}

/// The indexes of a soup, in the order in which they were made.
#[derive(Drop)]
pub struct SpecRows {
    items: Vec<IndexSpec>,
}

impl Model for SpecRows {
    ghost use Rattle.std.specs.Prelude.{List};
    ghost use Rattle.newt_spec_store.specs.Keys.{IndexSpec};

    ghost Value = { List IndexSpec };

    ghost view = { λ rows. rows.items.items };
}

impl SpecRows {
    /// The list of these indexes.
    pub fn of(items: Vec<IndexSpec>) -> Self
        ensures { result ≡ items.items }
    {
        SpecRows { items }
    }

    /// All of them, in the order in which they were made.
    pub fn list(&self) -> &[IndexSpec]
        ensures { result.now ≡ self.now }
    {
        self.items.as_slice()
    }
}

/// The tags declaration of a soup, where it has one.
#[derive(Drop)]
pub struct TagRow {
    pub table: Option<TagTable>,
}
