//! Names between bars, strings and bytes in hexadecimal: pieces up to a closing mark.
ghost use Rattle.std.specs.Prelude.{◌≡◌, ◌<◌, ◌≤◌, ◌+◌, ◌^◌, ◌++◌, length, IfOk, OnOk, IfSome};
ghost use Rattle.newt_spec_literal.specs.Words.{units_of};
ghost use Rattle.newt_lit_read.specs.Answers.{Gives};
ghost use Rattle.newt_lit_read.specs.Tokens.{hex_at, pieces_at, single, escaped_in_name};
ghost use Rattle.newt_lit_read.specs.Tokens.{next_in_name, escaped_in_string, next_in_string};
ghost use Rattle.newt_lit_read.specs.Tokens.{next_byte, bytes_at};

use crate::fault::LitFault;
use crate::words::{are_hex_digits, hex_number, is_barred};
use std::alloc::{AllocError, Global};

/// So many hexadecimal digits, and the text after them.
#[tactic(auto, unfolding(crate::specs::Tokens::hex_at))]
pub(crate) fn hex(count: usize, text: &[char]) -> Result<(u64, &[char]), LitFault>
    requires { count ≤ 8 }
    ensures gives { Gives (λ x. (x.0, x.1.now)) result (hex_at count text.now) }
    ensures below { IfOk result (λ x. x.0 < 16 ^ count) }
    ensures shorter { IfOk result (λ x. length x.1.now + count ≡ length text.now) }
{
    if text.len() < count {
        return Err(LitFault::Literal);
    }
    let (digits, rest) = text.split_at(count);
    if !are_hex_digits(digits) {
        return Err(LitFault::Literal);
    }
    Ok((hex_number(digits), rest))
}

/// The byte after the backslash in a name.
fn escaped_in_name(text: &[char]) -> Result<(char, &[char]), LitFault>
    ensures gives { Gives (λ x. (x.0, x.1.now)) result (escaped_in_name text.now) }
    ensures is_byte { IfOk result (λ x. x.0 < 127) }
    ensures shorter { IfOk result (λ x. length x.1.now < length text.now) }
{
    match text {
        [c @ ('|' | '\\'), rest @ ..] => Ok((*c, rest)),
        _ => Err(LitFault::Literal),
    }
}

/// The next byte of a name, or none after its closing bar.
#[tactic(auto, unfolding(crate::specs::Tokens::next_in_name))]
fn next_in_name(text: &[char]) -> Result<(Option<u8>, &[char]), LitFault>
    ensures gives { Gives (λ x. (x.0, x.1.now)) result (next_in_name text.now) }
    ensures shorter { IfOk result (λ x. length x.1.now < length text.now) }
{
    match text {
        ['|', rest @ ..] => Ok((None, rest)),
        ['\\', rest @ ..] => {
            let (c, rest) = escaped_in_name(rest)?;
            Ok((Some(c as u8), rest))
        }
        [c, rest @ ..] => {
            if !is_barred(*c) {
                return Err(LitFault::Literal);
            }
            Ok((Some(*c as u8), rest))
        }
        [] => Err(LitFault::Literal),
    }
}

/// The bytes of a name, after its opening bar.
pub(crate) fn between_bars(alloc: Global, text: &[char]) -> Result<(Vec<u8>, &[char]), LitFault>
    ensures gives { Gives (λ x. (x.0.items, x.1.now)) result
        (pieces_at single next_in_name (length text.now) text.now) }
    ensures shorter { IfOk result (λ x. length x.1.now < length text.now) }
{
    let mut name = Vec::new(alloc);
    let mut rest = text;
    loop {
        let (byte, after) = next_in_name(rest)?;
        match byte {
            None => return Ok((name, after)),
            Some(byte) => name.push(byte)?,
        }
        rest = after;
    }
}

/// The character after the backslash in a string.
fn escaped_in_string(text: &[char]) -> Result<(u32, &[char]), LitFault>
    ensures gives { Gives (λ x. (x.0, x.1.now)) result (escaped_in_string text.now) }
    ensures is_code { IfOk result (λ x. x.0 < 1114112) }
    ensures shorter { IfOk result (λ x. length x.1.now < length text.now) }
{
    match text {
        ['u', rest @ ..] => {
            let (unit, rest) = hex(4, rest)?;
            Ok((unit as u32, rest))
        }
        [c @ ('"' | '\\'), rest @ ..] => Ok((*c as u32, rest)),
        _ => Err(LitFault::Literal),
    }
}

/// The next character of a string, or none after its closing quote.
#[tactic(auto, unfolding(crate::specs::Tokens::next_in_string))]
fn next_in_string(text: &[char]) -> Result<(Option<u32>, &[char]), LitFault>
    ensures gives { Gives (λ x. (x.0, x.1.now)) result (next_in_string text.now) }
    ensures is_code { IfOk result (λ x. IfSome x.0 (λ code. code < 1114112)) }
    ensures shorter { IfOk result (λ x. length x.1.now < length text.now) }
{
    match text {
        ['"', rest @ ..] => Ok((None, rest)),
        ['\\', rest @ ..] => {
            let (code, rest) = escaped_in_string(rest)?;
            Ok((Some(code), rest))
        }
        [c, rest @ ..] => {
            if *c < ' ' {
                return Err(LitFault::Literal);
            }
            Ok((Some(*c as u32), rest))
        }
        [] => Err(LitFault::Literal),
    }
}

/// One unit, or two above 65,535.
fn push_units(units: &mut Vec<u16>, code: u32) -> Result<(), AllocError>
    requires { code < 1114112 }
    ensures { OnOk result (units.new.items ≡ units.old.items ++ units_of code) }
{
    if code < 65_536 {
        units.push(code as u16)?;
        return Ok(());
    }
    units.push((55_296 + (code - 65_536) / 1024) as u16)?;
    units.push((56_320 + (code - 65_536) % 1024) as u16)?;
    Ok(())
}

/// The units of a string, after its opening quote.
pub(crate) fn units(alloc: Global, text: &[char]) -> Result<(Vec<u16>, &[char]), LitFault>
    ensures gives { Gives (λ x. (x.0.items, x.1.now)) result
        (pieces_at units_of next_in_string (length text.now) text.now) }
    ensures shorter { IfOk result (λ x. length x.1.now < length text.now) }
{
    let mut units = Vec::new(alloc);
    let mut rest = text;
    loop {
        let (code, after) = next_in_string(rest)?;
        match code {
            None => return Ok((units, after)),
            Some(code) => push_units(&mut units, code)?,
        }
        rest = after;
    }
}

/// The next byte in hexadecimal, or none after the closing angle bracket.
#[tactic(auto, unfolding(crate::specs::Tokens::next_byte))]
fn next_byte(text: &[char]) -> Result<(Option<u8>, &[char]), LitFault>
    ensures gives { Gives (λ x. (x.0, x.1.now)) result (next_byte text.now) }
    ensures shorter { IfOk result (λ x. length x.1.now < length text.now) }
{
    match text {
        ['>', rest @ ..] => Ok((None, rest)),
        [_, ..] => {
            let (byte, rest) = hex(2, text)?;
            Ok((Some(byte as u8), rest))
        }
        [] => Err(LitFault::Literal),
    }
}

/// The bytes that are written in hexadecimal, up to a closing angle bracket.
pub(crate) fn bytes(alloc: Global, text: &[char]) -> Result<(Vec<u8>, &[char]), LitFault>
    ensures gives { Gives (λ x. (x.0.items, x.1.now)) result (bytes_at text.now) }
    ensures shorter { IfOk result (λ x. length x.1.now < length text.now) }
{
    let mut bytes = Vec::new(alloc);
    let mut rest = text;
    loop {
        let (byte, after) = next_byte(rest)?;
        match byte {
            None => return Ok((bytes, after)),
            Some(byte) => bytes.push(byte)?,
        }
        rest = after;
    }
}
