//! A book that keeps all pages of its unit in memory. It stands on a `Journal` of `newt_journal`
//! and on what all books share (`newt_pagelog`), and meets `PageBook` of `newt_pagebook`. Opening
//! replays the records, and then reads each page. A commit appends one record where the bank has
//! room and is not closed; else it repairs the votes and writes all pages as one record into the
//! other bank. The program keeps its pages in a `DiskBook` (`newt_pages`); this book is the plain
//! reading of the same contract. The promise that it carries upwards: whenever the power fails, the
//! unit holds the pages before a batch or those after it.
#![tactic(auto)]

mod apply;
mod book;
mod change;
mod open;
mod write;

pub use book::PlainBook;
