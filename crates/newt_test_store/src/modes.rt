//! What is checked after a change.

use crate::card::card_bytes;
use crate::crashes::{expect_either, expect_goes_on};
use crate::digits::used;
use crate::made::{Outcome, Trace};
use newt_base::hex_text;
use newt_memhost::MemHost;
use newt_pagebook::PageBook;
use std::alloc::{AllocError, Global};
use std::test::Fail;

/// What is checked after a change.
#[derive(Clone, Copy)]
pub(crate) enum Mode {
    /// Nothing more.
    Plain,
    /// What a crash leaves.
    Cut,
    /// What a crash leaves, and that such a store goes on, too.
    Resume,
    /// The record that the change adds to this many bytes of bank 0.
    Record(usize),
}

/// A part of the card's bytes.
fn part(alloc: Global, host: &MemHost, from: usize, to: usize) -> Result<Vec<u8>, Fail> {
    let bytes = card_bytes(alloc, host)?;
    let part = bytes.get(from..to).ok_or("the card is too small")?;
    Ok(part.to_vec(alloc)?)
}

/// The bank that the card votes for, in digits.
pub(crate) fn vote(alloc: Global, host: &MemHost) -> Result<Vec<u8>, Fail> {
    Ok(hex_text(alloc, &part(alloc, host, 0, 1)?)?)
}

/// The first byte of bank 0, and the first after it, on a card of 13 blocks.
const BANK: usize = 3 * 4096;

const BANK_END: usize = 8 * 4096;

/// From the beginning of a record to the number of pages that it puts, and to the first of them.
const PUTS: usize = 5;

const FIRST: usize = 9;

/// The bytes of a page that is put; from their beginning to the object's id.
const PUT: usize = 516;

const OBJECT: usize = 4;

/// How many bytes of bank 0 are used.
fn used_of(alloc: Global, host: &MemHost) -> Result<usize, Fail> {
    Ok(used(&part(alloc, host, BANK, BANK_END)?, 255))
}

/// How a change is checked, and its line.
pub(crate) fn split_mode<'a>(
    alloc: Global,
    host: &MemHost,
    line: &'a str,
) -> Result<(Mode, &'a str), Fail> {
    match line.split_once(' ') {
        Some(("cut", rest)) => Ok((Mode::Cut, rest)),
        Some(("resume", rest)) => Ok((Mode::Resume, rest)),
        Some(("record", rest)) => Ok((Mode::Record(used_of(alloc, host)?), rest)),
        _ => Ok((Mode::Plain, line)),
    }
}

/// The answer, or the word of the refusal.
fn reply_of(alloc: Global, outcome: Outcome) -> Result<Vec<u8>, AllocError> {
    match outcome {
        Outcome::Done(answer) => Ok(format!(in alloc; "{answer}")?.into_bytes()),
        Outcome::Refused(refusal) => refusal.word().as_bytes().to_vec(alloc),
    }
}

/// Where the object's id of the last page stands in bank 0, of those that the record at this place
/// puts.
fn last_object(alloc: Global, host: &MemHost, record: usize) -> Result<usize, Fail> {
    let counted = record.saturating_add(PUTS);
    let count = part(alloc, host, counted, counted.saturating_add(2))?;
    let mut puts = 0_usize;
    for byte in &count {
        puts = puts.saturating_mul(256).saturating_add(usize::from(*byte));
    }
    let pages = PUT.saturating_mul(puts.saturating_sub(1));
    let first = record.saturating_add(FIRST);
    Ok(first.saturating_add(pages).saturating_add(OBJECT))
}

/// Appends how many more bytes of bank 0 are used than before, and the object of the last page that
/// they put.
fn push_record(
    alloc: Global,
    host: &MemHost,
    before: usize,
    reply: &mut Vec<u8>,
) -> Result<(), Fail> {
    let size = used_of(alloc, host)?.saturating_sub(before);
    reply.extend_from_slice(format!(in alloc; " {size} ")?.as_bytes())?;
    let at = last_object(alloc, host, BANK.saturating_add(before))?;
    let object = part(alloc, host, at, at.saturating_add(4))?;
    reply.extend_from_slice(&hex_text(alloc, &object)?)?;
    Ok(())
}

/// Checks what a change left, and answers the reply to its line.
pub(crate) fn mode_reply<P: PageBook>(
    alloc: Global,
    host: &MemHost,
    mode: Mode,
    trace: &Trace,
) -> Result<Vec<u8>, Fail> {
    let mut reply = reply_of(alloc, trace.outcome)?;
    match mode {
        Mode::Plain => {}
        Mode::Cut => expect_either::<P>(alloc, host, trace)?,
        Mode::Resume => {
            expect_either::<P>(alloc, host, trace)?;
            expect_goes_on::<P>(alloc, host, trace.from)?;
        }
        Mode::Record(before) => push_record(alloc, host, before, &mut reply)?,
    }
    Ok(reply)
}
