//! Backups with bytes that are missing or changed.

use crate::cards::patch;
use newt_host::Unit;
use newt_test_scripts::{backed_up, card_after, expect_unrestored, image, run_over};
use std::alloc::Global;
use std::test::Fail;

/// A store of two soups, one with an index, tags and an info frame. Its entries have graphs with
/// each kind of node.
pub(crate) const STORE: &str = "
format 0 Internal 7 => ok
mount 0 => ok 7 Internal
soup 0 S => ok 0
soup 0 T => ok 1
index 0 T k:int:descend => ok
tags 0 T labels work => ok
info 0 T {n: 1} => ok
time 5 => ok
add 0 T {v: <<wave:*600>>, b: <x:0102>} => ok 0
add 0 S {k: [1, nil, $a]} => ok 0
time 6 => ok
add 0 T {labels: 'work, k: \"a\"} => ok 1
add 0 S {} => ok 1
remove 0 S 0 => ok
";

/// A store with one small entry.
const SMALL: &str = "
format 0 A 7 => ok
mount 0 => ok 7 A
soup 0 S => ok 0
add 0 S {a: 1} => ok 0
";

/// The backup of the store after a table.
pub(crate) fn backup_after(alloc: Global, table: &str) -> Result<Vec<u8>, Fail> {
    backed_up(alloc, &card_after(alloc, "run a", table)?)
}

/// A device of 13 blocks of this byte.
pub(crate) fn filled(alloc: Global, byte: u8) -> Result<Vec<u8>, Fail> {
    let mut bytes = Vec::new(alloc);
    bytes.resize(13 * 4096, byte)?;
    Ok(bytes)
}

#[test]
fn a_backup_that_is_cut_is_refused(rt: HostRuntime) -> Result<(), Fail> {
    let alloc = rt.alloc();
    let device = filled(alloc, 0x55)?;
    let input = backup_after(alloc, STORE)?;
    for end in 0..input.len() {
        expect_unrestored(alloc, &input[..end], &device, b"error 1 malformed\n")?;
    }
    Ok(())
}

/// What is answered to an input that is no store's backup.
const REFUSALS: [&[u8]; 3] = [
    b"error 1 malformed\n",
    b"error 2 compressed\n",
    b"error 51 backup\n",
];

fn is_refusal(line: &[u8]) -> bool {
    for refusal in REFUSALS {
        if line == refusal {
            return true;
        }
    }
    false
}

/// Either an input is refused and the device stays, or it is the backup of the store that is
/// restored. Answers whether it is restored.
fn is_restored(alloc: Global, input: &[u8], device: &[u8]) -> Result<bool, Fail> {
    let host = run_over(alloc, "restore a", input, device, &[])?;
    let left = image(alloc, &host, Unit(0))?;
    if is_refusal(host.output()) {
        if left.as_slice() != device {
            return Err(Fail::new("a refused restoring changes the device"));
        }
        return Ok(false);
    }
    if backed_up(alloc, &left)?.as_slice() != input {
        return Err(Fail::new("another store is restored"));
    }
    Ok(true)
}

/// Whether a backup with this byte at a place is another backup.
fn is_bent(alloc: Global, input: &[u8], at: usize, byte: u8, device: &[u8]) -> Result<bool, Fail> {
    let mut bent = input.to_vec(alloc)?;
    patch(&mut bent, at, &[byte])?;
    if bent.as_slice() == input {
        return Ok(false);
    }
    is_restored(alloc, &bent, device)
}

/// How often a backup is another backup, where its bytes are changed to each of these, one at a
/// time.
fn count_bent(alloc: Global, input: &[u8], bytes: &[u8]) -> Result<u32, Fail> {
    let device = filled(alloc, 0x55)?;
    let mut count = 0u32;
    for at in 0..input.len() {
        for byte in bytes {
            if is_bent(alloc, input, at, *byte, &device)? {
                count = count.saturating_add(1);
            }
        }
    }
    Ok(count)
}

/// The same for the backup of the store after a table, with the number that is wanted.
fn expect_bent(alloc: Global, table: &str, bytes: &[u8], wanted: u32) -> Result<(), Fail> {
    let count = count_bent(alloc, &backup_after(alloc, table)?, bytes)?;
    if count != wanted {
        return Err(Fail::new(format_args!("{count} are backups")));
    }
    Ok(())
}

/// Each byte.
fn all_bytes(alloc: Global) -> Result<Vec<u8>, Fail> {
    let mut bytes = Vec::new(alloc);
    for byte in 0..=255u8 {
        bytes.push(byte)?;
    }
    Ok(bytes)
}

#[test]
fn a_small_backup_that_is_bent_is_refused_or_another(rt: HostRuntime) -> Result<(), Fail> {
    let alloc = rt.alloc();
    expect_bent(alloc, SMALL, &all_bytes(alloc)?, 3576)
}

#[test]
fn a_backup_that_is_bent_is_refused_or_another(rt: HostRuntime) -> Result<(), Fail> {
    expect_bent(rt.alloc(), STORE, &[0, 1, b'b', 0xFF], 1928)
}
