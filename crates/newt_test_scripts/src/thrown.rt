//! Runs in which calls of a device fail: its card is thrown out, and the run goes on.

ghost use Rattle.std.specs.Prelude.{◌<◌, IfOk};
ghost use Rattle.newt_memhost.specs.Outside.{outside_of};
ghost use Rattle.newt_memhost.specs.Words.{calls_of};
ghost use Rattle.newt_test_scripts.specs.Free.{IsFree};

use crate::crashes::{Looks, NextRun, begun, look, looks_from_blank};
use crate::hosts::over_blank;
use crate::restores::backed_up;
use crate::runs::{expect_status, image, run_table};
use crate::tables::lines_of;
use newt_host::Unit;
use newt_memhost::MemHost;
use newt_top::Status;
use std::alloc::{AllocError, Global};
use std::test::Fail;

/// Appends the reply to a command whose device failed.
fn push_thrown(to: &mut Vec<u8>, unit: Unit) -> Result<(), AllocError> {
    to.extend_from_slice(b"error 50 device ")?;
    to.push(b'0'.saturating_add(unit.0))?;
    to.push(b'\n')?;
    Ok(())
}

/// Appends questions about the first unit, asked of another: the first `0` of each line is its
/// number.
fn push_asked(to: &mut Vec<u8>, ask: &[u8], unit: Unit) -> Result<(), AllocError> {
    let mut is_named = false;
    for byte in ask {
        let is_unit = *byte == b'0' && !is_named;
        to.push(if is_unit {
            b'0'.saturating_add(unit.0)
        } else {
            *byte
        })?;
        is_named = (is_named || is_unit) && *byte != b'\n';
    }
    Ok(())
}

/// Appends the lines of a table from a row on and up to another.
fn push_rows(
    alloc: Global,
    to: &mut Vec<u8>,
    table: &str,
    from: usize,
    end: usize,
) -> Result<(), Fail> {
    let mut place: usize = 0;
    for row in table.lines() {
        if row.is_empty() {
            continue;
        }
        if from <= place && place < end {
            to.extend_from_slice(&lines_of(alloc, row)?.0)?;
        }
        place = place.saturating_add(1);
    }
    Ok(())
}

/// The row of a table after so many.
fn row_of(table: &str, before: usize) -> Option<&str> {
    let mut left = before;
    for row in table.lines() {
        if row.is_empty() {
            continue;
        }
        if left == 0 {
            return Some(row);
        }
        left = left.saturating_sub(1);
    }
    None
}

/// Whether a table has watches or working copies, which know more of a line than its stores show.
fn is_watched(table: &str) -> bool {
    for row in table.lines() {
        if row.starts_with("watch ") || row.starts_with("open ") {
            return true;
        }
    }
    false
}

/// What an output has after so many lines.
fn after(output: &[u8], lines: usize) -> &[u8] {
    let mut left = lines;
    for place in 0..output.len() {
        if left == 0 {
            return &output[place..];
        }
        if output[place] == b'\n' {
            left = left.saturating_sub(1);
        }
    }
    &[]
}

/// Five devices `a` to `e` of 13 blocks of zero bytes, and calls that fail.
fn failing_host(alloc: Global, script: &[u8], calls: &[u64]) -> Result<MemHost, AllocError>
    ensures { IfOk result (λ host. IsFree (outside_of host)) }
{
    let mut host = over_blank(alloc, script)?;
    for call in calls {
        host.fail(*call)?;
    }
    Ok(host)
}

/// A run of a script over five devices `a` to `e` of 13 blocks of zero bytes, which ends well
/// though these calls fail.
pub fn run_failing(
    alloc: Global,
    text: &str,
    script: &[u8],
    calls: &[u64],
) -> Result<MemHost, Fail> {
    let mut host = failing_host(alloc, script, calls)?;
    expect_status(alloc, text, &mut host, Status::Ok)?;
    Ok(host)
}

/// What a run had written when a call began.
fn written_before(host: &MemHost, call: u64) -> &[u8]
    requires { call < calls_of host.now }
{
    let end = host.output().len().min(host.out_before(call) as usize);
    &host.output()[..end]
}

/// A call that fails: its unit, and what was written before it.
#[derive(Clone, Copy)]
struct Failing<'a> {
    call: u64,
    unit: Unit,
    written: &'a [u8],
}

impl Failing<'_> {
    /// The output after the call: what was written before it, so often that the unit is thrown
    /// out, and some answers.
    fn output(&self, alloc: Global, times: usize, answers: &[u8]) -> Result<Vec<u8>, AllocError> {
        let mut output = Vec::from_slice(alloc, self.written)?;
        for _ in 0..times {
            push_thrown(&mut output, self.unit)?;
        }
        output.extend_from_slice(answers)?;
        Ok(output)
    }

    /// How many lines were answered before the call.
    fn replies(&self) -> usize {
        begun(self.written)
    }

    /// The lines of a table through the one that fails, and these after it, of its unit.
    fn script(&self, alloc: Global, table: &str, asks: &[&[u8]]) -> Result<Vec<u8>, Fail> {
        let mut script = Vec::new(alloc);
        push_rows(
            alloc,
            &mut script,
            table,
            0,
            self.replies().saturating_add(1),
        )?;
        for ask in asks {
            push_asked(&mut script, ask, self.unit)?;
        }
        Ok(script)
    }

    /// The lines of a table in which others stand in place of the one that fails, and then these of
    /// its unit.
    fn script_around(
        &self,
        alloc: Global,
        table: &str,
        line: &str,
        asks: &[&[u8]],
    ) -> Result<Vec<u8>, Fail> {
        let mut script = Vec::new(alloc);
        push_rows(alloc, &mut script, table, 0, self.replies())?;
        script.extend_from_slice(&lines_of(alloc, line)?.0)?;
        for ask in asks {
            push_asked(&mut script, ask, self.unit)?;
        }
        let next = self.replies().saturating_add(1);
        push_rows(alloc, &mut script, table, next, usize::MAX)?;
        Ok(script)
    }

    /// A run has written what was written before the call, so often that the unit is thrown out,
    /// and these answers.
    fn expect_output(
        &self,
        alloc: Global,
        host: &MemHost,
        times: usize,
        answers: &[u8],
    ) -> Result<(), Fail> {
        let output = self.output(alloc, times, answers)?;
        if host.output() != output.as_slice() {
            return Err(Fail::new(format_args!("other answers after call {}", self.call)));
        }
        Ok(())
    }

    /// The card was thrown out at the call of a run, and no other call of a device was made before
    /// that was written.
    fn expect_thrown_at_once(&self, alloc: Global, host: &MemHost) -> Result<(), Fail> {
        let next = self.call.saturating_add(1);
        if next < host.calls() && host.unit_of(next).is_some() {
            return Err(Fail::new(format_args!("a call of a device after call {}", self.call)));
        }
        self.expect_output(alloc, host, 1, &[])
    }

    /// What a next run tells of a unit after the line that fails, which is what it tells of its
    /// store before or after that line, and whether it is the later one.
    fn found_on(
        &self,
        alloc: Global,
        host: &MemHost,
        unit: Unit,
        trial: &Trial,
    ) -> Result<AfterFailure, Fail> {
        let found = look(alloc, trial.ask, &image(alloc, host, unit)?)?;
        match trial.looks(unit).lines_before(&found, self.replies()) {
            Some(lines) => Ok(AfterFailure {
                next_run: found,
                is_later: lines > self.replies(),
            }),
            None => Err(Fail::new(format_args!("another store after call {}", self.call))),
        }
    }

    /// The card has the store that was found, gone on as it goes on elsewhere.
    fn expect_left(&self, alloc: Global, host: &MemHost, found: &NextRun) -> Result<(), Fail> {
        if backed_up(alloc, &image(alloc, host, self.unit)?)? != found.left {
            return Err(Fail::new(format_args!("goes on otherwise after call {}", self.call)));
        }
        Ok(())
    }

    /// A next mount tells which store the card holds, and answers and goes on then as another run
    /// does over it.
    fn expect_comes_back(&self, alloc: Global, trial: &Trial, found: &NextRun) -> Result<(), Fail> {
        let script = self.script(alloc, trial.table, &[trial.ask])?;
        let host = run_failing(alloc, "run a b", &script, &[self.call])?;
        self.expect_output(alloc, &host, 1, &found.answers)?;
        self.expect_left(alloc, &host, found)
    }

    /// The next call on the unit in a run of a script.
    fn next_call(&self, alloc: Global, script: &[u8]) -> Result<u64, Fail> {
        let host = run_failing(alloc, "run a b", script, &[self.call])?;
        Ok(next_of(&host, self.unit, self.call.saturating_add(1)).ok_or("no call of a mount")?)
    }

    /// The same where the first call of that mount fails as well, and another one comes after it.
    fn expect_comes_back_later(
        &self,
        alloc: Global,
        trial: &Trial,
        found: &NextRun,
    ) -> Result<(), Fail> {
        let script = self.script(alloc, trial.table, &[b"mount 0\n", trial.ask])?;
        let other = self.next_call(alloc, &script)?;
        let host = run_failing(alloc, "run a b", &script, &[self.call, other])?;
        self.expect_output(alloc, &host, 2, &found.answers)?;
        self.expect_left(alloc, &host, found)
    }

    /// The whole script goes on after the call, with these lines of the unit after its line, and
    /// answers what a run answers in which no call fails: it has a line, or none, in place of the
    /// one that fails, and the unit is unmounted after that.
    fn expect_goes_on(
        &self,
        alloc: Global,
        table: &str,
        asks: &[u8],
        line: &str,
    ) -> Result<(), Fail> {
        let row = row_of(table, self.replies()).ok_or("no such row")?;
        let script = self.script_around(alloc, table, row, &[asks])?;
        let host = run_failing(alloc, "run a b", &script, &[self.call])?;
        let script = self.script_around(alloc, table, line, &[b"unmount 0\n", asks])?;
        let sound = run_failing(alloc, "run a b", &script, &[])?;
        let played: usize = if line.is_empty() { 1 } else { 2 };
        let skipped = self.replies().saturating_add(played);
        self.expect_output(alloc, &host, 1, after(sound.output(), skipped))
    }

    /// The line in place of the one that fails, by what was found on its unit and on the other one:
    /// none, that line, or a copy in place of a move whose entry has come to its place and was not
    /// taken away.
    fn line_found(
        &self,
        alloc: Global,
        table: &str,
        own: bool,
        other: bool,
    ) -> Result<String, Fail> {
        let row = row_of(table, self.replies()).ok_or("no such row")?;
        if !own && !other {
            return Ok(String::new(alloc));
        }
        match row.strip_prefix("move ") {
            Some(rest) if own != other => Ok(format!(in alloc; "copy {rest}")?),
            _ => Ok(String::from_str(alloc, row)?),
        }
    }

    /// The whole script goes on without the card, and where it is mounted again. No copy is saved,
    /// and no watch is told, by a line whose unit was thrown out: what these answer then is no
    /// matter of stores, and not played.
    fn expect_all_goes_on(
        &self,
        alloc: Global,
        trial: &Trial,
        own: bool,
        other: bool,
    ) -> Result<(), Fail> {
        let line = self.line_found(alloc, trial.table, own, other)?;
        if is_watched(trial.table) && !line.is_empty() && !line.starts_with("format ") {
            return self.expect_goes_on(alloc, trial.table, b"", "");
        }
        self.expect_goes_on(alloc, trial.table, b"", &line)?;
        self.expect_goes_on(alloc, trial.table, b"mount 0\n", &line)
    }

    /// All of these.
    fn expect_all(&self, alloc: Global, trial: &Trial) -> Result<(), Fail> {
        let script = self.script(alloc, trial.table, &[])?;
        let host = run_failing(alloc, "run a b", &script, &[self.call])?;
        self.expect_thrown_at_once(alloc, &host)?;
        let own = self.found_on(alloc, &host, self.unit, trial)?;
        let beside = Unit(1u8.saturating_sub(self.unit.0));
        let other = self.found_on(alloc, &host, beside, trial)?;
        self.expect_comes_back(alloc, trial, &own.next_run)?;
        self.expect_comes_back_later(alloc, trial, &own.next_run)?;
        self.expect_all_goes_on(alloc, trial, own.is_later, other.is_later)
    }
}

/// What a next run tells of a unit after the line that failed, and whether that is of the store
/// after the line, and not of that before it.
#[derive(Drop)]
struct AfterFailure {
    next_run: NextRun,
    is_later: bool,
}

/// The calls on a unit that a run of a script makes after so many replies and before the next one,
/// where these calls fail.
pub fn calls_after(
    alloc: Global,
    text: &str,
    script: &[u8],
    failing: &[u64],
    unit: Unit,
    replies: usize,
) -> Result<Vec<u64>, Fail> {
    let host = run_failing(alloc, text, script, failing)?;
    let mut calls = Vec::new(alloc);
    for call in 0..host.calls() {
        if host.unit_of(call) == Some(unit) && begun(written_before(&host, call)) == replies {
            calls.push(call)?;
        }
    }
    Ok(calls)
}

/// The first call on a unit from this one on.
fn next_of(host: &MemHost, unit: Unit, from: u64) -> Option<u64> {
    for call in from..host.calls() {
        if host.unit_of(call) == Some(unit) {
            return Some(call);
        }
    }
    None
}

/// A table, what a next run is asked, and what it tells of both units after each line.
#[derive(Clone, Copy)]
struct Trial<'a> {
    table: &'a str,
    ask: &'a [u8],
    first: &'a Looks,
    second: &'a Looks,
}

impl Trial<'_> {
    fn looks(&self, unit: Unit) -> &Looks {
        if unit == Unit(0) {
            self.first
        } else {
            self.second
        }
    }
}

/// Each call on a device of a sound run fails, once. Says how many there are.
fn expect_each_thrown(alloc: Global, sound: &MemHost, trial: &Trial) -> Result<u32, Fail> {
    let mut count: u32 = 0;
    for call in 0..sound.calls() {
        let Some(unit) = sound.unit_of(call) else {
            continue;
        };
        let failing = Failing {
            call,
            unit,
            written: written_before(sound, call),
        };
        failing.expect_all(alloc, trial)?;
        count = count.saturating_add(1);
    }
    Ok(count)
}

/// Runs a table over the devices `a` and `b` of 13 blocks of zero bytes, once for each call on a
/// device, which fails. Its reply is then that the card was thrown out, with no other call of a
/// device before it, and each unit has its store before or after the line. Where a mount and these
/// questions stand after it, or two mounts, whose first one fails, the card comes back with that
/// store; and the run goes on, without the card and with it, as one in which no call fails does
/// from there. Says how many such calls there are.
pub fn expect_thrown(alloc: Global, table: &str, ask: &[u8]) -> Result<u32, Fail> {
    let sound = run_table(alloc, "run a b", table)?;
    let (script, _) = lines_of(alloc, table)?;
    let first = looks_from_blank(alloc, &script, ask, Unit(0))?;
    let second = looks_from_blank(alloc, &script, ask, Unit(1))?;
    let trial = Trial {
        table,
        ask,
        first: &first,
        second: &second,
    };
    expect_each_thrown(alloc, &sound, &trial)
}
