//! Parts of an index.
ghost use Rattle.std.specs.Prelude.{◌≡◌, ◌≢◌, ◌∷◌, ◌==◌, [], MatchOption, position};
ghost use Rattle.newt_path.specs.Names.{path_of};
ghost use Rattle.newt_spec_script.specs.Words as spec;
ghost use Rattle.newt_script_words.specs.Listed.{of_form};

use crate::fault::WordFault;
use newt_path::{Path, PathFault};
use newt_spec_store::{Kind, Order};
use newt_spec_world::PartWord;
use std::alloc::Global;

/// PATH: the names of slots from the root down.
pub(crate) fn path(alloc: Global, word: &[u8]) -> Result<Path, WordFault>
    ensures { result ≢ Err WordFault.Memory → result ≡ of_form (path_of word.now) }
{
    match Path::read(alloc, word) {
        Ok(path) => Ok(path),
        Err(PathFault::Path) => Err(WordFault::Form),
        Err(PathFault::Memory) => Err(WordFault::Memory),
    }
}

/// PART: a path, a type and a direction with colons between them.
#[tactic(auto, using(crate::proofs::Pieces::part_is))]
pub(crate) fn part(alloc: Global, word: &[u8]) -> Result<PartWord, WordFault>
    ensures { result ≢ Err WordFault.Memory → result ≡ of_form (spec.part word.now) }
{
    let Some((path_word, kind_word, order_word)) = three_pieces(word) else {
        return Err(WordFault::Form);
    };
    let path = path(alloc, path_word)?;
    let Some(kind) = kind(kind_word) else {
        return Err(WordFault::Form);
    };
    let Some(order) = order(order_word) else {
        return Err(WordFault::Form);
    };
    Ok(PartWord { path, kind, order })
}

/// The type that a word names; none for a real.
fn kind(word: &[u8]) -> Option<Option<Kind>>
    ensures { result ≡ spec.kind_word word.now }
{
    if word == b"string".as_slice() {
        Some(Some(Kind::Text))
    } else if word == b"int".as_slice() {
        Some(Some(Kind::Int))
    } else if word == b"char".as_slice() {
        Some(Some(Kind::Char))
    } else if word == b"symbol".as_slice() {
        Some(Some(Kind::Symbol))
    } else if word == b"real".as_slice() {
        Some(None)
    } else {
        None
    }
}

/// The direction that a word names.
fn order(word: &[u8]) -> Option<Order>
    ensures { result ≡ spec.order_word word.now }
{
    if word == b"ascend".as_slice() {
        Some(Order::Ascend)
    } else if word == b"descend".as_slice() {
        Some(Order::Descend)
    } else {
        None
    }
}

/// The pieces of a text with two colons.
#[tactic(auto, using(crate::proofs::Pieces::pieces))]
fn three_pieces(text: &[u8]) -> Option<(&[u8], &[u8], &[u8])>
    ensures { MatchOption result (spec.part text.now ≡ None) (λ found.
        spec.split_at 58 text.now ≡ found.0.now ∷ found.1.now ∷ found.2.now ∷ []) }
{
    let (first, rest) = at_colon(text)?;
    let (second, third) = at_colon(rest)?;
    match at_colon(third) {
        Some(_) => None,
        None => Some((first, second, third)),
    }
}

/// What stands before and after the first colon.
#[tactic(auto, using(crate::proofs::Pieces::cuts))]
fn at_colon(text: &[u8]) -> Option<(&[u8], &[u8])>
    ensures { MatchOption result (spec.split_at 58 text.now ≡ text.now ∷ []) (λ found.
        spec.split_at 58 text.now ≡ found.0.now ∷ spec.split_at 58 found.1.now) }
{
    let at = first_colon(text)?;
    Some((&text[..at], &text[at + 1..]))
}

/// Where the first colon stands.
fn first_colon(text: &[u8]) -> Option<usize>
    ensures { result ≡ position (λ byte. byte == 58) text.now }
{
    text.iter().position(|byte| *byte == b':')
}
