//! Folding of texts, and search in folded texts.
//!
//! It stands on `caseless` for the tables of folding, on `ucd_case` for what they hold of ASCII, on
//! `memchr` for the search, and on the definition of words. It carries this promise: units are read
//! as UTF-16, with each lone surrogate as U+FFFD, and case is folded by Unicode's default table. A
//! word or a part is found exactly where the definition has it, character by character.
#![tactic(auto)]

ghost use Rattle.std.specs.Prelude.{◌≡◌, ◌∷◌, [], IfOk, IfSome, MatchOption, not, ◌&&◌, chars};
ghost use Rattle.std.specs.Prelude.{string_bytes, encode_utf8_all};
ghost use Rattle.std.specs.Str.{IsUtf8, IsAscii, str_to_ascii_lowercase};
ghost use Rattle.std.specs.Char.Utf16.{utf16_lossy_chars};
ghost use Rattle.caseless.specs.Caseless.{default_case_fold};
ghost use Rattle.newt_base.specs.Words as spec;

use caseless::default_case_fold_str;
use memchr::memmem;
use std::alloc::{AllocError, Global};

/// The text of UTF-16 units, in which a surrogate without its partner is U+FFFD.
pub fn units_to_text(alloc: Global, units: &[u16]) -> Result<String, AllocError>
    ensures bytes { IfOk result (λ text. string_bytes text ≡ encode_utf8_all
        (utf16_lossy_chars units.now)) }
    ensures chars { IfOk result (λ text. chars (string_bytes text) ≡ utf16_lossy_chars units.now) }
{
    if let Some(text) = ascii_text(alloc, units)? {
        return Ok(text);
    }
    let text = String::from_utf16_lossy(alloc, units)?;
    Ok(text)
}

/// The text of units that are all ASCII.
fn ascii_text(alloc: Global, units: &[u16]) -> Result<Option<String>, AllocError>
    ensures bytes { IfOk result (λ found. IfSome found (λ text. string_bytes text ≡ units.now)) }
    ensures ascii { IfOk result (λ found. IfSome found (λ text. IsAscii (string_bytes text))) }
{
    let mut bytes = Vec::with_capacity(alloc, units.len())?;
    for &unit in units {
        if unit >= 128 {
            return Ok(None);
        }
        bytes.push(unit as u8)?;
    }
    Ok(String::from_utf8(bytes).ok())
}

/// The text with its case folded by Unicode's default table.
pub fn folded(alloc: Global, text: &str) -> Result<String, AllocError>
    ensures bytes { IfOk result (λ folded. string_bytes folded ≡ encode_utf8_all
        (default_case_fold (chars text.now))) }
    ensures chars { IfOk result (λ folded. chars (string_bytes folded) ≡ default_case_fold
        (chars text.now)) }
{
    if text.is_ascii() {
        let lower = lower_case(alloc, text)?;
        return Ok(lower);
    }
    let folded = default_case_fold_str(alloc, text)?;
    Ok(folded)
}

/// The text in ASCII lower case.
fn lower_case(alloc: Global, text: &str) -> Result<String, AllocError>
    ensures { IfOk result (λ lower. string_bytes lower ≡ str_to_ascii_lowercase text.now) }
{
    let mut lower = String::from_str(alloc, text)?;
    lower.make_ascii_lowercase();
    Ok(lower)
}

/// Whether the part stands anywhere in the text. Both are folded.
pub fn has_text(folded_text: &str, folded_part: &str) -> bool
    ensures { result ≡ spec.has_text (chars folded_text.now) (chars folded_part.now) }
{
    memmem::find(folded_text.as_bytes(), folded_part.as_bytes()).is_some()
}

/// Whether a word of the text begins with the given one or, if `entire`, is that one. Both are
/// folded.
pub fn has_word(folded_text: &str, folded_word: &str, entire: bool) -> bool
    ensures { result ≡ spec.has_word (chars folded_text.now) (chars folded_word.now) entire }
{
    let mut before = false;
    let mut rest = folded_text;
    while let Some((first, after)) = split_first(rest) {
        if word_begins(rest, folded_word, before, entire) {
            return true;
        }
        before = is_word_char(first);
        rest = after;
    }
    false
}

/// The first character of a text, and what follows it.
fn split_first(text: &str) -> Option<(char, &str)>
    ensures parts { MatchOption result (chars text.now ≡ [])
        (λ x. chars text.now ≡ x.0 ∷ chars x.1.now) }
    ensures text { IfSome result (λ x. IsUtf8 x.1.now) }
{
    let mut left = text.chars();
    match left.next() {
        Some(first) => Some((first, left.as_str())),
        None => None,
    }
}

/// Whether the word begins where the text does. `before`: a word character stands directly before.
fn word_begins(text: &str, word: &str, before: bool, entire: bool) -> bool
    ensures { result ≡ spec.word_at (chars word.now) entire (before, chars text.now) }
{
    if before || !begins_with_word_char(word) {
        return false;
    }
    match text.strip_prefix(word) {
        Some(after) => may_end(after, entire),
        None => false,
    }
}

/// Whether a word may end where this text begins.
fn may_end(after: &str, entire: bool) -> bool
    ensures { result ≡ not (entire && spec.begins_with_word_char (chars after.now)) }
{
    !entire || !begins_with_word_char(after)
}

fn begins_with_word_char(text: &str) -> bool
    ensures { result ≡ spec.begins_with_word_char (chars text.now) }
{
    match split_first(text) {
        Some((first, _)) => is_word_char(first),
        None => false,
    }
}

/// An ASCII letter or digit, or a character above 127.
fn is_word_char(c: char) -> bool
    ensures { result ≡ spec.is_word_char c }
{
    c.is_ascii_alphanumeric() || c as u32 > 127
}
