//! The file of a unit.
ghost use Rattle.std.specs.Prelude.{◌≡◌, IsFalse, IsTrue};
ghost use Rattle.newt_host_files.specs.Cards.{HasFile, SameCard};

use crate::card::{Card, MOST_NAME};
use std::fs;
use std::fs::{File, FileType, OpenOptions, TryLockError};
use std::io::{Seek, SeekFrom};
use std::os::unix::fs::{FileExt, FileTypeExt};
use std::rt::Files;

/// Gives a unit the file of a name, and answers whether it has it now. Otherwise nothing of the
/// unit has changed.
pub(crate) fn attach<S: Files<File = File>>(card: &mut Card, system: &S, name: &str) -> bool
    ensures attached { IsTrue result → HasFile name.now card.new }
    ensures counts { SameCard card.old card.new }
    ensures refused { IsFalse result → card.new ≡ card.old }
{
    if name.len() > MOST_NAME {
        return false;
    }
    let Some((file, blocks)) = open(system, name) else {
        return false;
    };
    card.file = Some(file);
    card.blocks = blocks;
    card.name.clear();
    let is_kept = card.name.extend_from_slice(name.as_bytes()).is_ok();
    prove!(is_kept);
    true
}

/// Opens a file for reading and writing, takes the lock on it and syncs it. Answers the file with
/// the number of its whole blocks of 4,096 bytes, at most `u32::MAX`. None where the file can't
/// hold blocks, or where the system refuses one of these. Where the system has no locks, none is
/// taken.
fn open<S: Files<File = File>>(system: &S, name: &str) -> Option<(File, u32)> {
    // It is asked first: to open a line or a tape may wait, or do something to it.
    if !can_hold_blocks(fs::metadata(system, name).ok()?.file_type()) {
        return None;
    }
    let opened = OpenOptions::new()
        .read(true)
        .write(true)
        .open(system, name)
        .ok()?;
    // Where a standard stream is closed, the file may have got its number; a clone never does.
    let file = opened.try_clone().ok()?;
    // The name may lead elsewhere since it was asked.
    if !can_hold_blocks(file.metadata().ok()?.file_type()) {
        return None;
    }
    if let Err(TryLockError::WouldBlock) = file.try_lock() {
        return None;
    }
    let blocks = whole_blocks(&file)?;
    file.sync_all().ok()?;
    Some((file, blocks))
}

/// A regular file or a block device. Other files have no bytes that stay.
fn can_hold_blocks(kind: FileType) -> bool {
    kind.is_file() || kind.is_block_device()
}

/// How many whole blocks of 4,096 bytes a file has, at most `u32::MAX`. Only the end of a block
/// device tells its length.
fn whole_blocks(mut file: &File) -> Option<u32> {
    let bytes = file.seek(SeekFrom::End(0)).ok()?;
    Some(u32::try_from(bytes / 4096).unwrap_or(u32::MAX))
}

/// The file of a unit, where it still has all the blocks of the unit. A file that has become
/// shorter is not written to, since that would fill up with zeros what it has lost.
fn whole(card: &Card) -> Option<&File> {
    let file = card.file.as_ref()?;
    if whole_blocks(file)? < card.blocks {
        return None;
    }
    Some(file)
}

/// Fills a buffer from a place of the file, and answers whether that was done.
pub(crate) fn get(card: &Card, at: u64, buf: &mut [u8]) -> bool {
    match &card.file {
        Some(file) => file.read_exact_at(buf, at).is_ok(),
        None => false,
    }
}

/// Writes all the bytes at a place of the file and no others, and answers whether that was done.
pub(crate) fn put(card: &Card, at: u64, bytes: &[u8]) -> bool {
    match whole(card) {
        Some(file) => file.write_all_at(bytes, at).is_ok(),
        None => false,
    }
}

/// Syncs the file: what was written is on the disk. Answers whether that was done and the file
/// still has all its blocks.
pub(crate) fn sync(card: &Card) -> bool {
    match &card.file {
        Some(file) => file.sync_all().is_ok() && whole(card).is_some(),
        None => false,
    }
}
