//! The host over real files.
ghost use Rattle.std.specs.Prelude.{◌≡◌, ℕ, IsFalse, IsSome, None};

use crate::filled::write_filled;
use newt_host::{Host, Unit};
use newt_host_files::FileHost;
use std::alloc::AllocError;
use std::fs;
use std::os::unix::fs::PermissionsExt;
use std::process::Abort;
use std::test::Fail;

const CARD: Unit = Unit(0);

/// Asserts that what is wanted holds.
fn check(rt: &impl Abort, holds: bool, what: &str) {
    assert!(rt; holds, "{what}");
}

/// The file becomes unit 0.
fn attach_card<H: Host>(rt: &impl Abort, host: &mut H)
    requires { (unit : ℕ) → (H.outside host.old).card unit ≡ None }
    ensures { IsSome ((H.outside host.new).card 0) }
{
    assert!(rt; host.attach(CARD, "card"));
}

/// The last of thirteen blocks is erased.
fn erase_last<H: Host>(rt: &impl Abort, host: &mut H)
    requires { IsSome ((H.outside host.old).card 0) }
    ensures { IsSome ((H.outside host.new).card 0) }
{
    assert!(rt; host.blocks(CARD) == 13);
    check(rt, host.erase(CARD, 12).is_ok(), "the erase");
}

/// Three bytes are programmed in it.
fn program_three<H: Host>(rt: &impl Abort, host: &mut H)
    requires untold { IsFalse H.told }
    requires attached { IsSome ((H.outside host.old).card 0) }
    ensures { IsSome ((H.outside host.new).card 0) }
{
    assert!(rt; host.blocks(CARD) == 13);
    let is_programmed = host.program(CARD, 49_252, b"abc").is_ok();
    check(rt, is_programmed, "the program");
}

/// The unit is synced.
fn sync_card<H: Host>(rt: &impl Abort, host: &mut H)
    requires { IsSome ((H.outside host.old).card 0) }
    ensures { IsSome ((H.outside host.new).card 0) }
{
    check(rt, host.sync(CARD).is_ok(), "the sync");
}

/// These three bytes and one on each side of them are read.
fn assert_read<H: Host>(rt: &impl Abort, host: &mut H)
    requires { IsSome ((H.outside host.old).card 0) }
{
    let mut buf = [0; 5];
    assert!(rt; host.blocks(CARD) == 13);
    let is_read = host.read(CARD, 49_251, &mut buf).is_ok();
    check(rt, is_read, "the read");
    check(rt, buf == [255, b'a', b'b', b'c', 255], "the bytes");
}

/// A host changes the last block.
fn change<H: Host>(rt: &impl Abort, host: &mut H)
    requires untold { IsFalse H.told }
    requires free { (unit : ℕ) → (H.outside host.old).card unit ≡ None }
{
    attach_card(rt, host);
    erase_last(rt, host);
    program_three(rt, host);
    sync_card(rt, host);
    assert_read(rt, host);
}

/// Another one reads the same.
fn read_again<H: Host>(rt: &impl Abort, host: &mut H)
    requires { (unit : ℕ) → (H.outside host.old).card unit ≡ None }
{
    attach_card(rt, host);
    assert_read(rt, host);
}

/// What the byte at a place is afterwards.
fn wanted(place: usize) -> u8 {
    match place {
        49_252 => b'a',
        49_253 => b'b',
        49_254 => b'c',
        49_152..=53_247 => 255,
        _ => 7,
    }
}

/// It is this byte.
fn assert_byte(rt: &impl Abort, place: usize, byte: u8) {
    assert!(rt; byte == wanted(place), "at {place}");
}

/// The bytes are as they are wanted.
fn assert_bytes(rt: &impl Abort, bytes: &[u8]) {
    check(rt, bytes.len() == 53_253, "the length");
    let mut place: usize = 0;
    for byte in bytes {
        assert_byte(rt, place, *byte);
        place = place.saturating_add(1);
    }
}

/// One host changes the card, no other attaches it meanwhile, and then another one reads it.
fn change_and_read(abort: &impl Abort, rt: &HostRuntime) -> Result<(), AllocError> {
    let mut host = FileHost::new(rt.alloc(), rt, rt.stdin(), rt.stdout())?;
    change(abort, &mut host);
    check(abort, attached(rt, "card")? == None, "a card in use");
    drop(host);
    let mut other = FileHost::new(rt.alloc(), rt, rt.stdin(), rt.stdout())?;
    read_again(abort, &mut other);
    Ok(())
}

#[test]
fn keeps_what_was_written_and_leaves_the_rest(rt: HostRuntime) -> Result<(), Fail> {
    // Five bytes more than thirteen blocks, which belong to none of them.
    write_filled(&rt, "card", 53_253, 7)?;
    change_and_read(&rt, &rt)?;
    let after = fs::read(&rt, "card")?;
    fs::remove_file(&rt, "card")?;
    assert_bytes(&rt, &after);
    Ok(())
}

/// How many blocks unit 0 has of the file of a name; none where the host does not attach it.
fn tried<H: Host>(host: &mut H, name: &str) -> Option<u32>
    requires { (unit : ℕ) → (H.outside host.old).card unit ≡ None }
{
    if host.attach(CARD, name) {
        Some(host.blocks(CARD))
    } else {
        None
    }
}

/// The same for a new host.
fn attached(rt: &HostRuntime, name: &str) -> Result<Option<u32>, AllocError> {
    let mut host = FileHost::new(rt.alloc(), rt, rt.stdin(), rt.stdout())?;
    Ok(tried(&mut host, name))
}

#[test]
fn attaches_no_folder_and_no_missing_file(rt: HostRuntime) -> Result<(), Fail> {
    fs::create_dir(&rt, "folder")?;
    let folder = attached(&rt, "folder")?;
    fs::remove_dir(&rt, "folder")?;
    check(&rt, folder == None, "no folder");
    check(&rt, attached(&rt, "missing")? == None, "no missing file");
    Ok(())
}

#[test]
fn attaches_a_file_shorter_than_a_block_with_no_blocks(rt: HostRuntime) -> Result<(), Fail> {
    fs::write(&rt, "short", b"less than a block".as_slice())?;
    let short = attached(&rt, "short")?;
    fs::remove_file(&rt, "short")?;
    check(&rt, short == Some(0), "no blocks");
    Ok(())
}

#[test]
fn attaches_only_what_can_be_written(rt: HostRuntime) -> Result<(), Fail> {
    fs::write(&rt, "locked", b"read only".as_slice())?;
    fs::set_permissions(&rt, "locked", fs::Permissions::from_mode(0o444))?;
    // Who may write everything may write this file too.
    let refused = fs::OpenOptions::new()
        .write(true)
        .open(&rt, "locked")
        .is_err();
    let locked = attached(&rt, "locked")?;
    fs::remove_file(&rt, "locked")?;
    check(&rt, locked.is_none() == refused, "what cannot be written");
    Ok(())
}
