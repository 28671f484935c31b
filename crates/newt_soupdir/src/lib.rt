//! The directory of a store, as bytes and as rows. It has the store's name and signature, and of
//! each soup its name, signature, next entry id, indexes, tags declaration and info frame.
//!
//! It stands on `newt_base`, on `newt_keys` and `newt_tags` for the declarations, on
//! `newt_nsof_flat` for info frames, and on the definitions of `newt_spec_store`. It carries this
//! promise: a directory is read, in the form of its version, from exactly the bytes that have one
//! by the store's reading. It is written as the store's definition says. Each change of rows is
//! that change of the plain store.
#![tactic(auto)]

mod changes;
mod declarations;
mod fault;
mod fields;
mod form;
mod indexes;
mod infos;
mod read;
mod rows;
mod write;

pub use fault::DirFault;
pub use indexes::Specs;
pub use infos::{MOST_INFO, info_len, is_info};
pub use read::read_directory;
pub use rows::{Directory, SoupRow, Soups};
pub use write::write_directory;
