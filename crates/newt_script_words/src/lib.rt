//! The words of a line: numbers, names, paths, parts of an index and symbols between blanks.
//!
//! It stands on the names and numbers of `newt_base`, the units of `newt_host`, the paths of
//! `newt_path`, and the definitions of words and of their readers in `newt_spec_script`. It carries
//! the promise that words are read exactly. Each reader answers the value that its definition gives
//! the words that come next, and leaves what follows them; or it says that they do not have the
//! form.
#![tactic(auto)]

mod blanks;
mod fault;
mod listed;
mod names;
mod numbers;
mod parts;
mod symbols;
mod words;

pub use blanks::skip_blanks;
pub use fault::WordFault;
pub use words::Words;

/// The longest line that is read, in bytes without its end.
pub const LONGEST: usize = 140_000;
