//! Names and tags.
ghost use Rattle.std.specs.Prelude.{◌≡◌, ◌<◌, ◌≤◌, length, IfOk, IsTrue};
ghost use Rattle.std.specs.List.{list_all};
ghost use Rattle.newt_base.specs.Names.{is_word};
ghost use Rattle.newt_lit_read.specs.Answers.{Gives};
ghost use Rattle.newt_lit_read.specs.Tokens.{identifier_at, barred_at, name_at, tag_at};

use crate::fault::LitFault;
use crate::pieces::between_bars;
use crate::tokens::mark;
use crate::words::{is_identifier, skip, word};
use std::alloc::{AllocError, Global};

/// The bytes of an identifier.
fn bytes_of(alloc: Global, name: &[char]) -> Result<Vec<u8>, AllocError>
    requires { IsTrue (list_all is_word name.now) }
    ensures { IfOk result (λ bytes. bytes.items ≡ name.now) }
{
    let mut bytes = Vec::new(alloc);
    for c in name {
        bytes.push(*c as u8)?;
    }
    Ok(bytes)
}

fn identifier(alloc: Global, text: &[char]) -> Result<(Vec<u8>, &[char]), LitFault>
    ensures gives { Gives (λ x. (x.0.items, x.1.now)) result (identifier_at text.now) }
    ensures shorter { IfOk result (λ x. length x.1.now ≤ length text.now) }
{
    let (word, rest) = word(text);
    if !is_identifier(word) {
        return Err(LitFault::Literal);
    }
    Ok((bytes_of(alloc, word)?, rest))
}

/// A name after its opening bar.
#[tactic(auto, unfolding(crate::specs::Tokens::barred_at))]
fn barred(alloc: Global, text: &[char]) -> Result<(Vec<u8>, &[char]), LitFault>
    ensures gives { Gives (λ x. (x.0.items, x.1.now)) result (barred_at text.now) }
    ensures shorter { IfOk result (λ x. length x.1.now ≤ length text.now) }
{
    let (name, rest) = between_bars(alloc, text)?;
    if name.is_empty() || name.len() >= 255 {
        return Err(LitFault::Literal);
    }
    Ok((name, rest))
}

/// A name of 1 to 254 bytes, and the text after it.
#[tactic(auto, unfolding(crate::specs::Tokens::name_at))]
pub(crate) fn name(alloc: Global, text: &[char]) -> Result<(Vec<u8>, &[char]), LitFault>
    ensures gives { Gives (λ x. (x.0.items, x.1.now)) result (name_at text.now) }
    ensures shorter { IfOk result (λ x. length x.1.now ≤ length text.now) }
{
    match text {
        ['|', rest @ ..] => barred(alloc, rest),
        [_, ..] => identifier(alloc, text),
        [] => Err(LitFault::Literal),
    }
}

/// A name, after it a colon, and after that the text. `Literal` where something else stands there.
#[tactic(auto, unfolding(crate::specs::Tokens::tag_at))]
pub(crate) fn tag(alloc: Global, text: &[char]) -> Result<(Vec<u8>, &[char]), LitFault>
    ensures gives { Gives (λ x. (x.0.items, x.1.now)) result (tag_at text.now) }
    ensures shorter { IfOk result (λ x. length x.1.now < length text.now) }
{
    let (name, rest) = name(alloc, skip(text))?;
    let (mark, rest) = mark(rest)?;
    if mark != ':' {
        return Err(LitFault::Literal);
    }
    Ok((name, rest))
}
