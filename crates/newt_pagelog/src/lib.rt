//! What the books of pages write into a journal and read from it, whatever they keep of a page
//! themselves. It stands on a `Journal` of `newt_journal` and on `newt_pagebook`. Formatting,
//! opening and replay are here: no page is read by them, only where each page stands. So is the
//! record of a batch, how many pages are live after it, and whether it has room after the others.
//! What a commit promises of the records and of the pages is `Rewrites` and `Commits` in
//! specs/Commits. The promise that it carries upwards: a batch that is appended, or a record that
//! alone takes the other bank, is there whole or not at all after a crash.
#![tactic(auto)]

mod live;
mod make;
mod opening;
mod places;
mod write;

pub use live::{Table, kept_of, live_after, next_page};
pub use make::format;
pub use opening::open_journal;
pub use places::{replay, replay_record};
pub use write::{
    append_batch, begin_alone, has_room, write_counts, write_put, write_puts, written,
};
