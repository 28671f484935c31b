//! Whole runs over a host in memory: what the tests of runs share. Scripts stand with their replies
//! in tables. A call answers a test's failure where something is not as it should be. No test
//! stands here. The contracts say what the top call needs of a host, and that a run which passes
//! has written what was wanted.
#![tactic(auto)]

mod crashes;
mod halts;
mod hosts;
mod restores;
mod runs;
mod tables;
mod thrown;

pub use crashes::{
    Counts, Looks, NextRun, begun, expect_all_safe, expect_safe, expect_unit_safe, look,
    looks_by_line, looks_from_blank,
};
pub use halts::{expect_halts, expect_statuses};
pub use hosts::{blocks, host, over, over_blank, over_blocks};
pub use restores::{backed_up, copied, expect_goes_on, expect_unrestored, restored};
pub use runs::{
    card_after, expect, expect_end, expect_over, expect_said, expect_status, image, is_clean,
    run_on, run_over, run_table, run_table_on, run_writing,
};
pub use tables::{expanded, lines_of};
pub use thrown::{calls_after, expect_thrown, run_failing};
