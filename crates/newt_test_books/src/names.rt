//! A card of 200 generated names.

use crate::sessions::{OnDevice, run_over};
use newt_host::Unit;
use newt_memhost::MemHost;
use newt_script_generator::gen_script;
use newt_test_scripts::{blocks, image};
use std::alloc::Global;
use std::test::Fail;

/// The script of 200 names, without its last line, which quits.
pub(crate) fn script(alloc: Global) -> Result<Vec<u8>, Fail> {
    let mut script = gen_script(alloc, 1, 200)?;
    script.truncate(script.len().saturating_sub(b"quit\n".len()));
    Ok(script)
}

/// What the card holds after that script. It has 64 blocks.
pub(crate) fn card(alloc: Global) -> Result<Vec<u8>, Fail> {
    let host: MemHost = run_over::<OnDevice>(alloc, &script(alloc)?, &blocks(alloc, 64)?)?;
    image(alloc, &host, Unit(0))
}
