//! Names in a line: bare, or in quotes.
ghost use Rattle.std.specs.Prelude.{◌≡◌, ◌≢◌, ◌<◌, ◌||◌, ◌==◌, ◌∷◌, length, not, true, false, IfOk};
ghost use Rattle.std.specs.Prelude.{IfErr, IfSome, MatchOption};
ghost use Rattle.std.specs.List.{list_all};
ghost use Rattle.newt_base.specs.Names.{is_name, needs_quotes};
ghost use Rattle.newt_base.specs.declared.Refusal.TheVariants.{Line as NotTheForm};
ghost use Rattle.newt_spec_script.specs.Words as spec;
ghost use Rattle.newt_script_words.specs.Names.{goes_on};
ghost use Rattle.newt_script_words.specs.Reads.{Reads, Spells};

use crate::blanks::{is_blank, split_word};
use crate::fault::WordFault;
use newt_base::{Name, NameFault, needs_quotes};
use std::alloc::Global;

/// The name that these bytes are; `Form` where they are none.
fn named(alloc: Global, bytes: &[u8]) -> Result<Name, WordFault>
    ensures read { IfOk result (λ name. (is_name bytes.now ≡ true) × (name ≡ bytes.now)) }
    ensures refused { result ≢ Err WordFault.Memory
        → IfErr result (λ fault. (fault ≡ WordFault.Form) × (is_name bytes.now ≡ false)) }
{
    match Name::read(alloc, bytes) {
        Ok(name) => Ok(name),
        Err(NameFault::Name) => Err(WordFault::Form),
        Err(NameFault::Memory) => Err(WordFault::Memory),
    }
}

/// Whether all these bytes may stand in a name without quotes.
fn are_bare(bytes: &[u8]) -> bool
    ensures { result ≡ list_all (λ byte. not (needs_quotes byte)) bytes.now }
{
    bytes.iter().all(|byte| !needs_quotes(*byte))
}

/// The name that a word without quotes is.
pub(crate) fn bare_name(alloc: Global, word: &[u8]) -> Result<Name, WordFault>
    ensures { Spells (spec.bare_name word.now) result (λ name. name) }
{
    if !are_bare(word) {
        return Err(WordFault::Form);
    }
    named(alloc, word)
}

/// Whether a backslash may stand before a byte.
fn is_escaped(byte: u8) -> bool
    ensures { result ≡ (byte == 34) || (byte == 92) }
{
    byte == b'"' || byte == b'\\'
}

/// The byte after a backslash, and what follows it.
#[tactic(auto, using(crate::proofs::Quotes::escaped, crate::proofs::Quotes::unmarked))]
fn after_backslash(text: &[u8]) -> Option<(Option<u8>, &[u8])>
    ensures step { MatchOption result (spec.quoted (92 ∷ text.now) ≡ None) (λ found.
        spec.quoted (92 ∷ text.now) ≡ goes_on found.0 found.1.now) }
    ensures shorter { IfSome result (λ found. length found.1.now < length text.now) }
{
    match text {
        [byte, rest @ ..] if is_escaped(*byte) => Some((Some(*byte), rest)),
        _ => None,
    }
}

/// What a quoted text begins with, and what follows it: a byte, before which a backslash may stand,
/// or none at the closing quote.
#[tactic(auto, using(crate::proofs::Quotes::closed, crate::proofs::Quotes::one_more))]
fn next_in_quotes(text: &[u8]) -> Option<(Option<u8>, &[u8])>
    ensures step { MatchOption result (spec.quoted text.now ≡ None) (λ found.
        spec.quoted text.now ≡ goes_on found.0 found.1.now) }
    ensures shorter { IfSome result (λ found. length found.1.now < length text.now) }
{
    let [byte, rest @ ..] = text else {
        return None;
    };
    if *byte == b'"' {
        Some((None, rest))
    } else if *byte == b'\\' {
        after_backslash(rest)
    } else {
        Some((Some(*byte), rest))
    }
}

/// The text up to the closing quote, without the backslashes before quotes and backslashes; and
/// what follows the quote.
fn unquoted(alloc: Global, text: &[u8]) -> Result<(Vec<u8>, &[u8]), WordFault>
    ensures { Spells (spec.quoted text.now) result (λ found. (found.0.items, found.1.now)) }
{
    let mut name = Vec::new(alloc);
    let mut rest = text;
    loop {
        let Some((next, after)) = next_in_quotes(rest) else {
            return Err(WordFault::Form);
        };
        let Some(byte) = next else {
            return Ok((name, after));
        };
        if name.push(byte).is_err() {
            return Err(WordFault::Memory);
        }
        rest = after;
    }
}

/// The name in a text after its opening quote, and what follows the closing one, where the word
/// ends.
pub(crate) fn quoted_name(alloc: Global, text: &[u8]) -> Result<(Name, &[u8]), WordFault>
    ensures { Reads (spec.if_name (spec.quoted text.now)) result (λ found. (found.0, found.1.now)) }
{
    let (bytes, rest) = unquoted(alloc, text)?;
    let name = named(alloc, &bytes)?;
    match rest {
        [] => Ok((name, rest)),
        [byte, ..] if is_blank(*byte) => Ok((name, rest)),
        _ => Err(WordFault::Form),
    }
}

/// The name, in quotes or without, that a text begins with, and what follows it. The text does not
/// begin with a blank.
#[tactic(auto, using(crate::proofs::Quotes::in_quotes, crate::proofs::Quotes::without_quotes))]
pub(crate) fn name_from(alloc: Global, text: &[u8]) -> Result<(Name, &[u8]), WordFault>
    ensures { Reads (spec.name_from text.now) result (λ found. (found.0, found.1.now)) }
{
    let [byte, rest @ ..] = text else {
        return Err(WordFault::Form);
    };
    if *byte == b'"' {
        quoted_name(alloc, rest)
    } else {
        bare_name_from(alloc, text)
    }
}

/// The name without quotes that a text begins with, and what follows it.
fn bare_name_from(alloc: Global, text: &[u8]) -> Result<(Name, &[u8]), WordFault>
    ensures { Reads (spec.word spec.bare_name text.now) result (λ found. (found.0, found.1.now)) }
{
    let (word, rest) = split_word(text);
    let name = bare_name(alloc, word)?;
    Ok((name, rest))
}
