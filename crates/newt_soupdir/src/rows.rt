//! What a directory has.
ghost use Rattle.std.specs.Prelude.{◌≡◌, IfOk};

use crate::indexes::Specs;
use newt_base::{Name, Sig};
use newt_graph::Graph;
use newt_tags::TagTable;
use std::alloc::AllocError;
use std::marker::Model;

/// A soup without its entries: its name, signature, next entry id, indexes, tags declaration if
/// any, and info frame if any. The signature is below the store's next one, and the next id at most
/// 536,870,911. A row by itself may pass these limits: `Directory::is_well_formed` tests them.
#[derive(Drop)]
pub struct SoupRow {
    pub name: Name,
    pub sig: Sig,
    pub next_uid: u32,
    pub specs: Specs,
    pub tags: Option<TagTable>,
    pub info: Option<Graph>,
}

impl SoupRow {
    /// An equal row.
    pub fn copy(&self) -> Result<SoupRow, AllocError>
        ensures { IfOk result (λ copy. copy ≡ self.now) }
    {
        Ok(SoupRow {
            name: self.name.copy()?,
            sig: self.sig,
            next_uid: self.next_uid,
            specs: self.specs.copy()?,
            tags: copied_tags(&self.tags)?,
            info: copied_info(&self.info)?,
        })
    }
}

/// An equal tags declaration, or none.
fn copied_tags(tags: &Option<TagTable>) -> Result<Option<TagTable>, AllocError>
    ensures { IfOk result (λ copy. copy ≡ tags.now) }
{
    match tags {
        Some(tags) => Ok(Some(tags.copy()?)),
        None => Ok(None),
    }
}

/// An equal info frame, or none.
fn copied_info(info: &Option<Graph>) -> Result<Option<Graph>, AllocError>
    ensures { IfOk result (λ copy. copy ≡ info.now) }
{
    match info {
        Some(info) => Ok(Some(info.copy()?)),
        None => Ok(None),
    }
}

/// The soups of a store, in the order in which they were made.
#[derive(Drop)]
pub struct Soups {
    pub(crate) items: Vec<SoupRow>,
}

impl Model for Soups {
    ghost use Rattle.std.specs.Prelude.{List};
    ghost use Rattle.newt_soupdir.specs.declared.rows.SoupRow.{SoupRow};

    ghost Value = { List SoupRow };

    ghost view = { λ s. s.items.items };
}

impl Soups {
    /// The list of these soups.
    pub fn of(items: Vec<SoupRow>) -> Self
        ensures { result ≡ items.items }
    {
        Soups { items }
    }

    /// All of them, in the order in which they were made.
    pub fn list(&self) -> &[SoupRow]
        ensures { result.now ≡ self.now }
    {
        self.items.as_slice()
    }

    /// All of them, by value.
    pub fn into_vec(self) -> Vec<SoupRow>
        ensures { result.items ≡ self }
    {
        self.items
    }

    /// An equal list.
    pub fn copy(&self) -> Result<Soups, AllocError>
        ensures { IfOk result (λ copy. copy ≡ self.now) }
    {
        let mut items = Vec::new(*self.items.allocator());
        for row in &self.items {
            items.push(row.copy()?)?;
        }
        Ok(Soups { items })
    }
}

/// The directory of a store: its name; its signature, at most 536,870,911; the signature of the
/// next soup, at most 65,535; and at most 250 soups. A directory that is built from its fields may
/// pass these limits: `is_well_formed` tests them. What `read_directory` gives keeps them.
#[derive(Drop)]
pub struct Directory {
    pub name: Name,
    pub sig: Sig,
    pub next_soup: u32,
    pub soups: Soups,
}

impl Directory {
    /// An equal directory.
    pub fn copy(&self) -> Result<Directory, AllocError>
        ensures { IfOk result (λ copy. copy ≡ self.now) }
    {
        Ok(Directory {
            name: self.name.copy()?,
            sig: self.sig,
            next_soup: self.next_soup,
            soups: self.soups.copy()?,
        })
    }
}
