//! Files that stand for devices.

use std::fs;
use std::test::Fail;

/// Writes a file of so many bytes, which are all the same.
pub(crate) fn write_filled(
    rt: &HostRuntime,
    name: &str,
    length: usize,
    byte: u8,
) -> Result<(), Fail> {
    let mut bytes = Vec::new(rt.alloc());
    bytes.resize(length, byte)?;
    Ok(fs::write(rt, name, bytes)?)
}
