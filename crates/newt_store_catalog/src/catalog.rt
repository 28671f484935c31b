//! What is kept in memory of a store.
use newt_objects::Objects;
use newt_objects_commit::{NameTable, PlaceTable};
use newt_soupdir::Directory;

/// What is kept in memory of a store: where its objects lie, its directory, which object has each
/// entry's record, and which objects that names.
#[derive(Drop)]
pub struct Catalog {
    pub objects: Objects,
    pub directory: Directory,
    pub places: PlaceTable,
    pub names: NameTable,
    /// Half of the odd id at which the search for a free object id begins: for `h` that is the id
    /// `2 * h + 1`.
    pub hint: u32,
}
