//! A book that leaves the pages on the device and keeps their places. It stands on a `Journal` of
//! `newt_journal` and on what all books share (`newt_pagelog`), and meets `PageBook` of
//! `newt_pagebook`. Opening replays the records in pieces, and keeps where the page of each number
//! stands. A page is read through a cache of the 64 pages that were read last, each under its
//! place: a record is never written over, so that a cached page stays what it is until the other
//! bank is taken, and then none is kept. A commit appends one record where the bank has room and is
//! not closed; else it repairs the votes and copies all pages, one by one, from the old bank into
//! the other one. The promise that it carries upwards: whenever the power fails, the unit holds the
//! pages before a batch or those after it.
#![tactic(auto)]

mod append;
mod book;
mod change;
mod hand;
mod switch;
mod table;

pub use book::DiskBook;
