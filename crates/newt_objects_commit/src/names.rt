//! Which objects the records of entries name.
ghost use Rattle.std.specs.Prelude.{◌≡◌, ◌≢◌, ◌++◌, [], ℕ, OnOk, OnErr};
ghost use Rattle.newt_objects_commit.specs.Names.{names_of, IsReady};

use std::alloc::{AllocError, Global};
use std::collections::BTreeMap;

/// The ids of the objects that each record names, in the order in which it names them. Records are
/// spoken of by the ids of their objects.
#[derive(Drop)]
pub struct NameTable {
    rows: BTreeMap<u32, Vec<u32>>,
}

impl NameTable {
    /// No names. It takes no memory.
    pub fn new(alloc: Global) -> NameTable
        ensures { (id : ℕ) → names_of result id ≡ [] }
    {
        NameTable {
            rows: BTreeMap::new(alloc),
        }
    }

    /// Appends the ids that a record names.
    pub fn append(&self, id: u32, ids: &mut Vec<u32>) -> Result<(), AllocError>
        ensures { OnOk result (ids.new.items ≡ ids.old.items ++ names_of self.now id) }
    {
        match self.rows.get(&id) {
            Some(named) => ids.extend_from_slice(named),
            None => Ok(()),
        }
    }

    /// Keeps what a record names. After an error each record names what it named.
    pub fn insert(&mut self, id: u32, ids: Vec<u32>) -> Result<(), AllocError>
        ensures kept { OnOk result (names_of self.new id ≡ ids.items) }
        ensures others { OnOk result ((other : ℕ) → other ≢ id → names_of self.new other ≡ names_of
            self.old other) }
        ensures err { OnErr result ((other : ℕ) → names_of self.new other ≡ names_of self.old
            other) }
    {
        let _old = self.rows.insert(id, ids)?;
        Ok(())
    }

    /// Takes the memory that a row of a record needs; each record names what it named.
    pub fn prepare(&mut self, alloc: Global, id: u32) -> Result<(), AllocError>
        ensures same { (other : ℕ) → names_of self.new other ≡ names_of self.old other }
        ensures ready { OnOk result (IsReady self.new id) }
        ensures others { (other : ℕ) → IsReady self.old other → IsReady self.new other }
    {
        if self.rows.get(&id).is_none() {
            let _old = self.rows.insert(id, Vec::new(alloc))?;
        }
        Ok(())
    }

    /// Keeps what a record names that has a row. It takes no memory.
    pub fn set(&mut self, id: u32, ids: Vec<u32>)
        requires ready { IsReady self.old id }
        ensures kept { names_of self.new id ≡ ids.items }
        ensures others { (other : ℕ) → other ≢ id
            → names_of self.new other ≡ names_of self.old other }
    {
        if let Some(row) = self.rows.get_mut(&id) {
            *row = ids;
        }
    }

    /// Forgets what a record names.
    pub fn remove(&mut self, id: u32)
        ensures gone { names_of self.new id ≡ [] }
        ensures others { (other : ℕ) → other ≢ id
            → names_of self.new other ≡ names_of self.old other }
        ensures ready { (other : ℕ) → other ≢ id → IsReady self.old other → IsReady self.new other }
    {
        self.rows.remove(&id);
    }
}
