//! The numbers that words are.
ghost use Rattle.std.specs.Prelude.{◌≡◌};
ghost use Rattle.newt_spec_script.specs.Words as spec;

use newt_base::{Sig, decimal};
use newt_host::Unit;

/// The largest signature of a store.
const MOST_SIG: u32 = 536_870_911;

/// The most bytes that are read at once.
const MOST_READ: u32 = 60_000;

/// The last cursor.
const LAST_CURSOR: u32 = 31;

/// The most notes that a watch keeps.
const MOST_NOTES: u32 = 64;

/// The last watch.
const LAST_WATCH: u32 = 7;

/// The last working copy.
const LAST_COPY: u32 = 15;

/// The value of a word that is one digit from 0 to 7.
pub(crate) fn unit_digit(word: &[u8]) -> Option<Unit>
    ensures { result ≡ spec.unit_digit word.now }
{
    match word {
        [digit @ b'0'..=b'7'] => Some(Unit(*digit - b'0')),
        _ => None,
    }
}

/// The value of a decimal word up to the largest signature.
pub(crate) fn signature(word: &[u8]) -> Option<Sig>
    ensures { result ≡ spec.decimal_to 536_870_911 word.now }
{
    match decimal(word) {
        Some(number) if number <= MOST_SIG => Some(Sig(number)),
        _ => None,
    }
}

/// The value of a decimal word up to the most bytes that are read at once.
pub(crate) fn read_length(word: &[u8]) -> Option<u32>
    ensures { result ≡ spec.decimal_to 60_000 word.now }
{
    match decimal(word) {
        Some(number) if number <= MOST_READ => Some(number),
        _ => None,
    }
}

/// The value of a decimal word up to the last cursor.
pub(crate) fn cursor_number(word: &[u8]) -> Option<u8>
    ensures { result ≡ spec.decimal_to 31 word.now }
{
    match decimal(word) {
        Some(number) if number <= LAST_CURSOR => Some(number as u8),
        _ => None,
    }
}

/// The value of a decimal word from 1 up to the most notes that a watch keeps.
pub(crate) fn most_notes(word: &[u8]) -> Option<u32>
    ensures { result ≡ spec.one_to 64 word.now }
{
    match decimal(word) {
        Some(number) if number >= 1 && number <= MOST_NOTES => Some(number),
        _ => None,
    }
}

/// The value of a decimal word up to the last watch.
pub(crate) fn watch_number(word: &[u8]) -> Option<u8>
    ensures { result ≡ spec.decimal_to 7 word.now }
{
    match decimal(word) {
        Some(number) if number <= LAST_WATCH => Some(number as u8),
        _ => None,
    }
}

/// The value of a decimal word up to the last working copy.
pub(crate) fn copy_number(word: &[u8]) -> Option<u8>
    ensures { result ≡ spec.decimal_to 15 word.now }
{
    match decimal(word) {
        Some(number) if number <= LAST_COPY => Some(number as u8),
        _ => None,
    }
}
