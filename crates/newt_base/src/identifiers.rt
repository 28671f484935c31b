//! Identifiers: the names of slots on a path, the symbols of tags, and the names that a literal
//! writes without bars.
ghost use Rattle.std.specs.Prelude.{◌≡◌};
ghost use Rattle.std.specs.List.{list_all};
ghost use Rattle.newt_base.specs.Names.{begins_name, is_identifier, is_word};

/// The most bytes of an identifier.
const MOST: usize = 254;

/// Whether a text is an identifier: 1 to 254 letters, digits and `_`, the first of them no digit.
pub fn is_identifier(text: &[u8]) -> bool
    ensures { result ≡ is_identifier text.now }
{
    begins_name(text) && are_words(text) && text.len() <= MOST
}

fn begins_name(text: &[u8]) -> bool
    ensures { result ≡ begins_name text.now }
{
    match text {
        [] => false,
        [first, ..] => !first.is_ascii_digit(),
    }
}

fn are_words(text: &[u8]) -> bool
    ensures { result ≡ list_all is_word text.now }
{
    text.iter().all(|byte| is_word(*byte))
}

/// A letter, a digit or `_`.
fn is_word(byte: u8) -> bool
    ensures { result ≡ is_word byte }
{
    byte.is_ascii_alphanumeric() || byte == b'_'
}
