//! An entry's tags as a mask, and what a query asks of them.
//!
//! It stands on `newt_graph` and `newt_path`, and on the definitions of tags in `newt_spec_query`.
//! It carries this promise: a mask is that of the entry's tags by the declaration, and passes a tag
//! spec exactly where the tags do.
#![tactic(auto)]

mod laws;
mod names;
mod read;
mod slots;
mod spec;
mod symbols;
mod table;

pub use laws::a_mask_means_the_tags;
pub use names::{Names, are_names_apart};
pub use read::TagFault;
pub use slots::{given_slot, has_only_slots};
pub use spec::TagSpec;
pub use symbols::{array_values, every_symbol};
pub use table::TagTable;
