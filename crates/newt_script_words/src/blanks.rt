//! Words between blanks, one after another. A blank is a space or a tab.
ghost use Rattle.std.specs.Prelude.{◌≡◌, ◌≤◌, length, reverse, not};
ghost use Rattle.std.specs.List.{prefix_len};
ghost use Rattle.newt_spec_script.specs.Words as spec;
ghost use Rattle.newt_spec_script.specs.Line.{first_word};

/// Whether a byte is a space or a tab.
pub(crate) fn is_blank(byte: u8) -> bool
    ensures { result ≡ spec.is_blank byte }
{
    byte == b' ' || byte == b'\t'
}

/// A text from its first byte on that is no blank.
pub fn skip_blanks(text: &[u8]) -> &[u8]
    ensures { result.now ≡ spec.skip_blanks text.now }
{
    let mut rest = text;
    while let [byte, after @ ..] = rest {
        if !is_blank(*byte) {
            return rest;
        }
        rest = after;
    }
    rest
}

/// How many bytes stand before the first blank.
fn word_len(text: &[u8]) -> usize
    ensures value { result ≡ prefix_len (λ byte. not (spec.is_blank byte)) text.now }
    ensures within { result ≤ length text.now }
{
    let mut len = 0;
    let mut rest = text;
    while let [byte, after @ ..] = rest {
        if is_blank(*byte) {
            return len;
        }
        len += 1;
        rest = after;
    }
    len
}

/// A text without the blanks at its end.
fn without_last_blanks(text: &[u8]) -> &[u8]
    ensures { result.now ≡ reverse (spec.skip_blanks (reverse text.now)) }
{
    let mut rest = text;
    while let [before @ .., byte] = rest {
        if !is_blank(*byte) {
            return rest;
        }
        rest = before;
    }
    rest
}

/// A text without the blanks at its ends.
pub(crate) fn trimmed(text: &[u8]) -> &[u8]
    ensures { result.now ≡ spec.trimmed text.now }
{
    without_last_blanks(skip_blanks(text))
}

/// The first word of a text, empty where there is none, and what follows it.
pub(crate) fn split_word(text: &[u8]) -> (&[u8], &[u8])
    ensures word { result.0.now ≡ (first_word text.now).0 }
    ensures rest { result.1.now ≡ (first_word text.now).1 }
{
    let text = skip_blanks(text);
    text.split_at(word_len(text))
}
