//! Tables of texts and what is answered for them, for tests, and words that stand for bytes. It
//! carries no promise: what is wanted stands in the rows of those who use it.
#![tactic(auto)]

ghost use Rattle.std.specs.Prelude.{◌≡◌, IfOk};

mod words;

use std::alloc::{AllocError, Global};
use std::test::Fail;
pub use words::{bytes_of, push_word};

/// A question that is asked of texts.
pub trait Asks {
    /// What is answered for a text.
    fn answer(&self, alloc: Global, text: &str) -> Result<String, Fail>;
}

/// Fails where another text was answered.
pub fn expect(asked: &str, answered: &str, wanted: &str) -> Result<(), Fail>
    ensures { IfOk result (λ _. answered.now ≡ wanted.now) }
{
    if answered != wanted {
        return Err(Fail::new(format_args!("{asked} answers {answered}")));
    }
    Ok(())
}

/// What a character of a row stands for: a control picture is the control character that it shows.
fn shown(character: char) -> char {
    match character {
        '␉' => '\t',
        '␊' => '\n',
        '␍' => '\r',
        '␡' => '\u{7f}',
        other => other,
    }
}

/// Appends a text so often, as in `[*200`. A `№` in it stands for how often it was appended before.
fn push_many(alloc: Global, to: &mut String, part: &str) -> Result<(), Fail> {
    let Some((text, count)) = part.rsplit_once('*') else {
        return Err(Fail::new("no number of times"));
    };
    let count: u32 = count.parse()?;
    for before in 0..count {
        push_numbered(alloc, to, text, before)?;
    }
    Ok(())
}

/// Appends a text with a number in the place of each `№`.
fn push_numbered(alloc: Global, to: &mut String, text: &str, number: u32) -> Result<(), Fail> {
    for (i, piece) in text.split('№').enumerate() {
        if i > 0 {
            to.push_str(&format!(in alloc; "{number}")?)?;
        }
        to.push_str(piece)?;
    }
    Ok(())
}

fn push_shown(to: &mut String, text: &str) -> Result<(), AllocError> {
    for character in text.chars() {
        to.push(shown(character))?;
    }
    Ok(())
}

/// The text that a row writes down. What stands in it between two `~` is a text and how often it
/// stands there.
fn expanded(alloc: Global, text: &str) -> Result<String, Fail> {
    let mut out = String::new(alloc);
    for (number, part) in text.split('~').enumerate() {
        if number % 2 == 0 {
            push_shown(&mut out, part)?;
        } else {
            push_many(alloc, &mut out, part)?;
        }
    }
    Ok(out)
}

fn expect_row<A: Asks>(alloc: Global, asks: &A, row: &str) -> Result<(), Fail> {
    let Some((text, wanted)) = row.split_once(" => ") else {
        return Err(Fail::new(format_args!("{row} has no answer")));
    };
    let text = expanded(alloc, text)?;
    expect(row, &asks.answer(alloc, &text)?, wanted)
}

/// Fails where another answer is given than a row of the table says. A row is a text and,
/// after ` => `, its answer. Blank rows say nothing.
pub fn expect_rows<A: Asks>(alloc: Global, asks: &A, table: &str) -> Result<(), Fail> {
    for row in table.lines() {
        if !row.is_empty() {
            expect_row(alloc, asks, row)?;
        }
    }
    Ok(())
}
