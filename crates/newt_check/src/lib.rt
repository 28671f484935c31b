//! One image is looked through, and the first damage is named.
//!
//! It stands on the journal's readers for the votes, the header and the records, and on a book of
//! pages with its objects for what the records hold. What is damaged is looked for only where the
//! layer below answers that it is: the book is opened first, and of an image without pages one of
//! the first four rows of the table of `newt_spec_check` holds. The promise that it carries
//! upwards: the report is that the image is a store, with its counts, exactly where it is read as
//! one, and else the first row that holds of it; and nothing happens to the unit. `check_text` is
//! what is written of it, by the lines of `newt_reply`; for a unit that is not of 13 to 4,099
//! blocks it is the line that says why there is no report.
#![tactic(auto)]

mod bank;
mod entries;
mod larges;
mod line;
mod parts;
mod report;
mod rows;
mod text;

pub use newt_spec_check::Layer;
pub use report::Report;
pub use rows::check;
pub use text::check_text;
