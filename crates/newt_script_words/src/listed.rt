//! The lists at the end of a line: parts of an index, paths, and symbols.
ghost use Rattle.std.specs.Prelude.{◌≡◌, ◌≢◌, ◌&&◌, nat_le, true, false, map, IfOk, IfErr};
ghost use Rattle.newt_path.specs.Names.{path_of};
ghost use Rattle.newt_spec_script.specs.Words as spec;
ghost use Rattle.newt_script_words.specs.Listed.{of_form, in_number};
ghost use Rattle.newt_script_words.specs.Listed as listed;

use crate::LONGEST;
use crate::blanks::split_word;
use crate::fault::WordFault;
use crate::parts::{part, path};
use crate::symbols::{are_apart, symbol};
use newt_spec_world::{Parts, Paths, Syms};
use std::alloc::{AllocError, Global};

/// The most parts of an index.
const MOST_PARTS: usize = 4;

/// The words of a text.
#[tactic(auto, using(crate::proofs::WordLists::words_read))]
fn words_of(alloc: Global, text: &[u8]) -> Result<Vec<&[u8]>, AllocError>
    ensures { IfOk result (λ words. map (λ word. word.now) words.items ≡ spec.words text.now) }
{
    let mut words = Vec::new(alloc);
    let mut rest = text;
    loop {
        let (word, after) = split_word(rest);
        if word.is_empty() {
            return Ok(words);
        }
        words.push(word)?;
        rest = after;
    }
}

/// The words of a text, which are at least one and at most so many.
fn words_in_number(alloc: Global, text: &[u8], most: usize) -> Result<Vec<&[u8]>, WordFault>
    ensures read { IfOk result (λ words.
        (map (λ word. word.now) words.items ≡ spec.words text.now)
        × (in_number most (spec.words text.now) ≡ true)) }
    ensures refused { result ≢ Err WordFault.Memory
        → IfErr result (λ fault.
        (fault ≡ WordFault.Form) × (in_number most (spec.words text.now) ≡ false)) }
{
    let words = words_of(alloc, text)?;
    if is_in_number(words.len(), most) {
        Ok(words)
    } else {
        Err(WordFault::Form)
    }
}

/// Whether a number is at least one and at most `most`.
fn is_in_number(number: usize, most: usize) -> bool
    ensures { result ≡ nat_le 1 number && nat_le number most }
{
    1 <= number && number <= most
}

/// The parts that words are.
#[tactic(auto, using(crate::proofs::WordLists::values_read))]
fn all_parts(alloc: Global, words: &[&[u8]]) -> Result<Parts, WordFault>
    ensures { result ≢ Err WordFault.Memory
        → result ≡ of_form (spec.all_words spec.part (map (λ word. word.now) words.now)) }
{
    let mut parts = Vec::new(alloc);
    for word in words {
        parts.push(part(alloc, word)?)?;
    }
    Ok(Parts::of(parts))
}

/// The paths that words are.
#[tactic(auto, using(crate::proofs::WordLists::values_read))]
fn all_paths(alloc: Global, words: &[&[u8]]) -> Result<Paths, WordFault>
    ensures { result ≢ Err WordFault.Memory
        → result ≡ of_form (spec.all_words path_of (map (λ word. word.now) words.now)) }
{
    let mut paths = Vec::new(alloc);
    for word in words {
        paths.push(path(alloc, word)?)?;
    }
    Ok(Paths::of(paths))
}

/// The symbols that words are.
#[tactic(auto, using(crate::proofs::WordLists::values_read))]
fn all_symbols(alloc: Global, words: &[&[u8]]) -> Result<Syms, WordFault>
    ensures { result ≢ Err WordFault.Memory
        → result ≡ of_form (spec.all_words spec.symbol (map (λ word. word.now) words.now)) }
{
    let mut symbols = Vec::new(alloc);
    for word in words {
        symbols.push(symbol(alloc, word)?)?;
    }
    Ok(Syms::of(symbols))
}

/// PART..: 1 to 4 parts of an index.
#[tactic(auto, unfolding(crate::specs::Listed::parts_in))]
pub(crate) fn parts_in(alloc: Global, text: &[u8]) -> Result<Parts, WordFault>
    ensures { result ≢ Err WordFault.Memory → result ≡ listed.parts_in text.now }
{
    let words = words_in_number(alloc, text, MOST_PARTS)?;
    all_parts(alloc, &words)
}

/// PATH..: 1 to 4 paths.
#[tactic(auto, unfolding(crate::specs::Listed::paths_in))]
pub(crate) fn paths_in(alloc: Global, text: &[u8]) -> Result<Paths, WordFault>
    ensures { result ≢ Err WordFault.Memory → result ≡ listed.paths_in text.now }
{
    let words = words_in_number(alloc, text, MOST_PARTS)?;
    all_paths(alloc, &words)
}

/// SYM..: one or more symbols, no two of them alike but for ASCII case. `LONGEST` is no limit of
/// its own here, since a line has fewer words. The command says how many tags a soup may declare.
#[tactic(auto, unfolding(crate::specs::Listed::symbols_in))]
pub(crate) fn symbols_in(alloc: Global, text: &[u8]) -> Result<Syms, WordFault>
    ensures { result ≢ Err WordFault.Memory → result ≡ listed.symbols_in text.now }
{
    let words = words_in_number(alloc, text, LONGEST)?;
    let symbols = all_symbols(alloc, &words)?;
    if are_apart(alloc, symbols.list())? {
        Ok(symbols)
    } else {
        Err(WordFault::Form)
    }
}
