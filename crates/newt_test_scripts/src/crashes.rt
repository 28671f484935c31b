//! What a next run finds where the power failed.

ghost use Rattle.std.specs.Prelude.{◌<◌};
ghost use Rattle.newt_memhost.specs.Words.{calls_of};

use crate::hosts::{blocks, over};
use crate::restores::backed_up;
use crate::runs::{expect_status, has_device, image, is_clean, run_over, run_table};
use crate::tables::lines_of;
use newt_host::Unit;
use newt_memhost::{Crash, MemHost, Pick};
use newt_top::Status;
use std::alloc::{AllocError, Global};
use std::test::Fail;

/// What a next run tells of a unit: its answers, the version of the bank that it found, which is 0
/// where it found no store, and the backup of what it leaves.
#[derive(Drop, PartialEq)]
pub struct NextRun {
    pub answers: Vec<u8>,
    pub version: u8,
    pub left: Vec<u8>,
}

impl NextRun {
    /// Nothing yet.
    fn none(alloc: Global) -> NextRun {
        NextRun {
            answers: Vec::new(alloc),
            version: 0,
            left: Vec::new(alloc),
        }
    }

    /// The same once more.
    fn copy(&self, alloc: Global) -> Result<NextRun, AllocError> {
        Ok(NextRun {
            answers: Vec::from_slice(alloc, &self.answers)?,
            version: self.version,
            left: Vec::from_slice(alloc, &self.left)?,
        })
    }
}

/// What a unit holds after each number of first lines of a run that is not stopped, and what a
/// next run tells of it.
#[derive(Drop)]
pub struct Looks {
    pub images: Vec<Vec<u8>>,
    pub next_runs: Vec<NextRun>,
}

/// How much was compared: the images that a stop may leave, and those of them that are neither just
/// what the unit holds before or after a command nor the same as the one before, each of which a
/// next run has mounted.
#[derive(Clone, Copy)]
pub struct Counts {
    pub images: u32,
    pub mounts: u32,
}

impl Counts {
    /// Nothing yet.
    pub fn none() -> Counts {
        Counts {
            images: 0,
            mounts: 0,
        }
    }

    /// Another image, which was mounted or was the same as the one before.
    fn add_image(&mut self, is_mounted: bool) {
        self.images = self.images.saturating_add(1);
        if is_mounted {
            self.mounts = self.mounts.saturating_add(1);
        }
    }

    /// What was compared elsewhere.
    pub fn add(&mut self, other: Counts) {
        self.images = self.images.saturating_add(other.images);
        self.mounts = self.mounts.saturating_add(other.mounts);
    }

    /// There were so many, and not fewer or more.
    pub fn expect(self, images: u32, mounts: u32) -> Result<(), Fail> {
        if self.images != images || self.mounts != mounts {
            return Err(Fail::new(format_args!("{} images, {} mounts", self.images, self.mounts)));
        }
        Ok(())
    }
}

/// A byte, or 0 where there is none.
fn byte_at(bytes: &[u8], at: usize) -> u8 {
    bytes.get(at).copied().unwrap_or(0)
}

/// Whether the votes of a store choose the second bank: two of them, or else that of block 0.
fn is_second(bytes: &[u8]) -> bool {
    let votes = [
        byte_at(bytes, 0),
        byte_at(bytes, 4096),
        byte_at(bytes, 8192),
    ];
    if votes[1] == votes[2] && votes[1] < 2 {
        votes[1] == 1
    } else {
        votes[0] == 1
    }
}

/// The version of the bank of a store. The second bank begins after half of the blocks that are
/// no votes.
fn version_of(bytes: &[u8]) -> u8 {
    let half = (bytes.len() / 4096).saturating_sub(3) / 2;
    let before = if is_second(bytes) { half } else { 0 };
    let bank = before.saturating_add(3).saturating_mul(4096);
    byte_at(bytes, bank.saturating_add(7))
}

/// What a next run tells of a device of these bytes, which it mounts first. That is mounted exactly
/// where the mode `check` finds nothing damaged.
pub fn look(alloc: Global, ask: &[u8], bytes: &[u8]) -> Result<NextRun, Fail> {
    let host = run_over(alloc, "run a", ask, bytes, &[])?;
    let is_store = host.output().starts_with(b"ok ");
    if is_clean(alloc, bytes)? != is_store {
        return Err(Fail::new("what is mounted is damaged, or what is clean is not mounted"));
    }
    Ok(NextRun {
        answers: Vec::from_slice(alloc, host.output())?,
        version: if is_store { version_of(bytes) } else { 0 },
        left: backed_up(alloc, &image(alloc, &host, Unit(0))?)?,
    })
}

/// Whether a call is the last one before more is read after a line: it reads on, or ends the run.
fn ends_line(host: &MemHost, script: &[u8], call: u64) -> bool
    requires { call < calls_of host.now }
{
    let taken = host.in_before(call);
    let next = call.saturating_add(1);
    if next < host.calls() && host.in_before(next) == taken {
        return false;
    }
    match taken.checked_sub(1) {
        None => true,
        Some(last) => script.get(last as usize) == Some(&b'\n'),
    }
}

/// Whether the last image is this one.
fn ends_with(images: &[Vec<u8>], image: &[u8]) -> bool {
    match images.last() {
        Some(last) => last.as_slice() == image,
        None => false,
    }
}

/// What a unit holds where a run of a script reads on after a line, and what a next run tells of
/// it.
fn looks_of(
    alloc: Global,
    host: &MemHost,
    script: &[u8],
    ask: &[u8],
    unit: Unit,
) -> Result<Looks, Fail> {
    if !has_device(host, unit) {
        return Err(Fail::new("a unit without a device"));
    }
    let mut images: Vec<Vec<u8>> = Vec::new(alloc);
    let mut all: Vec<NextRun> = Vec::new(alloc);
    for call in 0..host.calls() {
        if ends_line(host, script, call) {
            let Crash { image, .. } = host.images(unit, call, Pick::New)?;
            let next_run = match all.last() {
                Some(last) if ends_with(&images, &image) => last.copy(alloc)?,
                _ => look(alloc, ask, &image)?,
            };
            images.push(image)?;
            all.push(next_run)?;
        }
    }
    Ok(Looks {
        images,
        next_runs: all,
    })
}

/// The same of a script over the devices `a` and `b` of these bytes. The script is read a byte at a
/// time, so that a unit is looked at after all that a line has done.
pub fn looks_by_line(
    alloc: Global,
    script: &[u8],
    devices: [&[u8]; 2],
    ask: &[u8],
    unit: Unit,
) -> Result<Looks, Fail> {
    let [a, b] = devices;
    let mut host = over(alloc, script, a, b)?;
    host.piece(1);
    expect_status(alloc, "run a b", &mut host, Status::Ok)?;
    looks_of(alloc, &host, script, ask, unit)
}

/// The same where both devices have 13 blocks of zero bytes.
pub fn looks_from_blank(
    alloc: Global,
    script: &[u8],
    ask: &[u8],
    unit: Unit,
) -> Result<Looks, Fail> {
    let blank = blocks(alloc, 13)?;
    looks_by_line(alloc, script, [&blank, &blank], ask, unit)
}

/// How many replies have begun in an output.
pub fn begun(output: &[u8]) -> usize {
    let mut ended: usize = 0;
    for byte in output {
        if *byte == b'\n' {
            ended = ended.saturating_add(1);
        }
    }
    match output.last() {
        Some(b'\n') | None => ended,
        Some(_) => ended.saturating_add(1),
    }
}

impl Looks {
    /// Whether a next run tells this of the unit after so many lines.
    fn tells(&self, found: &NextRun, lines: usize) -> bool {
        match self.next_runs.get(lines) {
            Some(next_run) => *next_run == *found,
            None => false,
        }
    }

    /// After how many lines a next run tells what was found: those whose replies have begun, or
    /// one more.
    pub fn lines_before(&self, found: &NextRun, replies: usize) -> Option<usize> {
        let next = replies.saturating_add(1);
        if self.tells(found, replies) {
            return Some(replies);
        }
        if self.tells(found, next) {
            return Some(next);
        }
        None
    }

    /// Whether the unit holds just this after so many lines.
    fn holds(&self, image: &[u8], lines: usize) -> bool {
        match self.images.get(lines) {
            Some(held) => image == held.as_slice(),
            None => false,
        }
    }

    /// Whether the unit holds just this after the lines whose replies have begun, or one more.
    fn has_image(&self, image: &[u8], replies: usize) -> bool {
        self.holds(image, replies) || self.holds(image, replies.saturating_add(1))
    }

    /// Whether the store is still that from before the run, and the next line does not change it.
    fn is_untouched(&self, replies: usize) -> bool {
        match self.next_runs.first() {
            Some(none) => {
                let next = replies.saturating_add(1);
                self.tells(none, replies)
                    && (next >= self.next_runs.len() || self.tells(none, next))
            }
            None => false,
        }
    }
}

/// What was found is the store before or after the next command; a device whose store is that from
/// before the run, or is none as then, is as it was held.
pub(crate) fn expect_found(
    replies: usize,
    left: &[u8],
    held: &[u8],
    found: &NextRun,
    looks: &Looks,
) -> Result<(), Fail> {
    if looks.lines_before(found, replies).is_none() {
        return Err(Fail::new(format_args!("another store is found after {replies} replies")));
    }
    if looks.is_untouched(replies) && left != held {
        return Err(Fail::new(format_args!("a device is touched after {replies} replies")));
    }
    Ok(())
}

/// The same for a crash within each call of a run: an image that is just what the unit holds before
/// or after the next command, or else what a next run tells of it. Says how much was compared.
pub fn expect_safe(
    alloc: Global,
    host: &MemHost,
    unit: Unit,
    pick: Pick,
    ask: &[u8],
    looks: &Looks,
) -> Result<Counts, Fail> {
    if !has_device(host, unit) || host.calls() == 0 {
        return Err(Fail::new("a unit without a device"));
    }
    let Crash { image: held, .. } = host.images(unit, 0, Pick::Old)?;
    let mut counts = Counts::none();
    let mut left = Vec::new(alloc);
    let mut found = NextRun::none(alloc);
    for call in 0..host.calls() {
        let Crash { image, out } = host.images(unit, call, pick)?;
        let shown = host.output().len().min(out as usize);
        let replies = begun(&host.output()[..shown]);
        let is_known = looks.has_image(&image, replies);
        counts.add_image(!is_known && image != left);
        if is_known {
            continue;
        }
        if image != left {
            found = look(alloc, ask, &image)?;
            left = image;
        }
        expect_found(replies, &left, &held, &found, looks)?;
    }
    Ok(counts)
}

/// The same by each pick.
fn expect_each_safe(
    alloc: Global,
    host: &MemHost,
    unit: Unit,
    picks: &[Pick],
    ask: &[u8],
    looks: &Looks,
) -> Result<Counts, Fail> {
    let mut counts = Counts::none();
    for pick in picks {
        counts.add(expect_safe(alloc, host, unit, *pick, ask, looks)?);
    }
    Ok(counts)
}

/// Runs a table over the devices `a` and `b` of 13 blocks of zero bytes. A next run over what a
/// crash within any of its calls leaves of this unit by each pick, asked these lines, finds the
/// store before or after the command whose reply is the next to begin. Says how much was compared.
pub fn expect_unit_safe(
    alloc: Global,
    table: &str,
    ask: &[u8],
    unit: Unit,
    picks: &[Pick],
) -> Result<Counts, Fail> {
    let host = run_table(alloc, "run a b", table)?;
    let (script, _) = lines_of(alloc, table)?;
    let looks = looks_from_blank(alloc, &script, ask, unit)?;
    expect_each_safe(alloc, &host, unit, picks, ask, &looks)
}

/// The same of each of these units.
pub fn expect_all_safe(
    alloc: Global,
    table: &str,
    ask: &[u8],
    units: &[Unit],
    picks: &[Pick],
) -> Result<(), Fail> {
    for unit in units {
        expect_unit_safe(alloc, table, ask, *unit, picks)?;
    }
    Ok(())
}
