//! Symbols of a tags declaration.
ghost use Rattle.std.specs.Prelude.{◌≡◌, ◌≢◌, bytes_eq, map, IfOk};
ghost use Rattle.std.specs.HashSet.{IsFromIterResult};
ghost use Rattle.std.specs.Str.{str_to_ascii_lowercase};
ghost use Rattle.newt_base.specs.Names.{same_name};
ghost use Rattle.newt_spec_graph.specs.Lists.{all_apart};
ghost use Rattle.newt_spec_script.specs.Words as spec;
ghost use Rattle.newt_script_words.specs.Listed.{of_form};

use crate::fault::WordFault;
use newt_base::is_identifier;
use newt_graph::Bytes;
use std::alloc::{AllocError, Global};
use std::collections::HashSet;

/// SYM: an identifier.
pub(crate) fn symbol(alloc: Global, word: &[u8]) -> Result<Bytes, WordFault>
    ensures { result ≢ Err WordFault.Memory → result ≡ of_form (spec.symbol word.now) }
{
    if !is_identifier(word) {
        return Err(WordFault::Form);
    }
    Ok(Bytes::of(Vec::from_slice(alloc, word)?))
}

/// Whether no two symbols are alike but for ASCII case.
#[tactic(auto, using(crate::proofs::Apart::folded_apart))]
pub(crate) fn are_apart(alloc: Global, symbols: &[Bytes]) -> Result<bool, AllocError>
    ensures { IfOk result (λ apart. apart ≡ all_apart same_name symbols.now) }
{
    are_different(alloc, all_in_lower_case(alloc, symbols)?)
}

/// Whether no two texts are alike.
fn are_different(alloc: Global, texts: Vec<Vec<u8>>) -> Result<bool, AllocError>
    ensures { IfOk result (λ different.
        different ≡ all_apart bytes_eq (map (λ text. text.items) texts.items)) }
{
    let number = texts.len();
    let set = set_of(alloc, texts)?;
    Ok(set.len() == number)
}

/// Each text once.
fn set_of(alloc: Global, texts: Vec<Vec<u8>>) -> Result<HashSet<Vec<u8>>, AllocError>
    ensures { IfOk result (λ set.
        IsFromIterResult (λ a b. bytes_eq a.items b.items) texts.items set) }
{
    texts.into_iter().collect(alloc)
}

/// Texts in ASCII lower case.
fn all_in_lower_case(alloc: Global, texts: &[Bytes]) -> Result<Vec<Vec<u8>>, AllocError>
    ensures { IfOk result (λ lower.
        map (λ text. text.items) lower.items ≡ map str_to_ascii_lowercase texts.now) }
{
    let mut lower = Vec::new(alloc);
    for text in texts {
        lower.push(in_lower_case(alloc, text.list())?)?;
    }
    Ok(lower)
}

/// A text in ASCII lower case.
fn in_lower_case(alloc: Global, text: &[u8]) -> Result<Vec<u8>, AllocError>
    ensures { IfOk result (λ lower. lower.items ≡ str_to_ascii_lowercase text.now) }
{
    let mut lower = Vec::from_slice(alloc, text)?;
    lower.make_ascii_lowercase();
    Ok(lower)
}
