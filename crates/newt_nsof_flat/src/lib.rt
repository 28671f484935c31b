//! Reads the graphs of records, which are frames, from their flat texts. A flat text is the one
//! text that the program itself writes of a graph. No other text that spells the graph is taken.
//!
//! It stands on the reader and the writer of the streamed form, and on the definitions of stores.
//! It carries this promise: a graph is read from exactly the bytes that are its flat text.
#![tactic(auto)]

mod fault;
mod frame;
mod laws;
mod read;

pub use fault::FlatFault;
pub use frame::is_frame;
pub use laws::flat_texts_are_read;
pub use read::read_flat;
