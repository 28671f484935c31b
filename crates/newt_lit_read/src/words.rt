//! Characters, words, and the numbers that words stand for.
ghost use Rattle.std.specs.Prelude.{◌≡◌, ◌<◌, ◌≤◌, ◌^◌, length, IsTrue};
ghost use Rattle.std.specs.List.{list_all};
ghost use Rattle.std.specs.Char.{is_ascii_digit, is_ascii_hexdigit, digit_value};
ghost use Rattle.newt_base.specs.Names.{is_word, begins_name, is_identifier};
ghost use Rattle.newt_spec_literal.specs.Words.{is_blank, skip, word_len, is_barred, number};
ghost use Rattle.newt_spec_literal.specs.Words.{hex_number, are_digits, is_number, is_label};
ghost use Rattle.newt_spec_literal.specs.Words.{is_count, is_shown};
ghost use Rattle.newt_lit_read.specs.Tokens.{word_at};

fn is_blank(c: char) -> bool
    ensures { result ≡ is_blank c }
{
    matches!(c, ' ' | '\t' | '\n' | '\r')
}

fn is_word(c: char) -> bool
    ensures { result ≡ is_word c }
{
    c.is_ascii_alphanumeric() || c == '_'
}

/// The text after the blanks in front.
pub(crate) fn skip(text: &[char]) -> &[char]
    ensures value { result.now ≡ skip text.now }
    ensures within { length result.now ≤ length text.now }
{
    let mut rest = text;
    while let [c, after @ ..] = rest {
        if !is_blank(*c) {
            return rest;
        }
        rest = after;
    }
    rest
}

fn word_len(text: &[char]) -> usize
    ensures value { result ≡ word_len text.now }
    ensures within { result ≤ length text.now }
{
    let mut len = 0;
    let mut rest = text;
    while let [c, after @ ..] = rest {
        if !is_word(*c) {
            return len;
        }
        len += 1;
        rest = after;
    }
    len
}

/// The word in front, and the text after it.
pub(crate) fn word(text: &[char]) -> (&[char], &[char])
    ensures value { (result.0.now, result.1.now) ≡ word_at text.now }
    ensures within { length result.1.now ≤ length text.now }
{
    text.split_at(word_len(text))
}

fn begins_name(word: &[char]) -> bool
    ensures { result ≡ begins_name word.now }
{
    match word {
        [] => false,
        [c, ..] => !c.is_ascii_digit(),
    }
}

fn is_all_word(word: &[char]) -> bool
    ensures { result ≡ list_all is_word word.now }
{
    word.iter().all(|c| is_word(*c))
}

pub(crate) fn is_identifier(word: &[char]) -> bool
    ensures { result ≡ is_identifier word.now }
{
    begins_name(word) && is_all_word(word) && word.len() <= 254
}

/// Whether it stands for itself between bars.
pub(crate) fn is_barred(c: char) -> bool
    ensures { result ≡ is_barred c }
{
    ' ' <= c && c <= '~' && c != '|' && c != '\\'
}

/// Whether it stands for itself after a `$`.
pub(crate) fn is_shown(c: char) -> bool
    ensures { result ≡ is_shown c }
{
    '!' <= c && c <= '~' && c != '\\'
}

fn are_all_digits(word: &[char]) -> bool
    ensures { result ≡ list_all is_ascii_digit word.now }
{
    word.iter().all(|c| c.is_ascii_digit())
}

/// Whether a word is 1 to so many digits.
fn are_digits(most: usize, word: &[char]) -> bool
    ensures { result ≡ are_digits most word.now }
{
    0 < word.len() && word.len() <= most && are_all_digits(word)
}

pub(crate) fn is_number(word: &[char]) -> bool
    ensures { result ≡ is_number word.now }
{
    are_digits(10, word)
}

pub(crate) fn is_label(word: &[char]) -> bool
    ensures { result ≡ is_label word.now }
{
    are_digits(5, word)
}

pub(crate) fn is_count(word: &[char]) -> bool
    ensures { result ≡ is_count word.now }
{
    are_digits(7, word)
}

fn digit(c: char) -> u64
    requires { IsTrue (is_ascii_digit c) }
    ensures value { result ≡ digit_value c }
    ensures below { result < 10 }
{
    c as u64 - '0' as u64
}

/// The number that digits write.
pub(crate) fn number(digits: &[char]) -> u64
    requires few { length digits.now ≤ 10 }
    requires digits { IsTrue (list_all is_ascii_digit digits.now) }
    ensures value { result ≡ number digits.now }
    ensures below { result < 10 ^ length digits.now }
{
    let mut number = 0;
    for c in digits {
        number = number * 10 + digit(*c);
    }
    number
}

pub(crate) fn are_hex_digits(word: &[char]) -> bool
    ensures { result ≡ list_all is_ascii_hexdigit word.now }
{
    word.iter().all(|c| c.is_ascii_hexdigit())
}

fn hex_digit(c: char) -> u64
    requires { IsTrue (is_ascii_hexdigit c) }
    ensures value { result ≡ digit_value c }
    ensures below { result < 16 }
{
    c.to_digit(16).unwrap_or(0) as u64
}

/// The number that hexadecimal digits write.
pub(crate) fn hex_number(digits: &[char]) -> u64
    requires few { length digits.now ≤ 8 }
    requires digits { IsTrue (list_all is_ascii_hexdigit digits.now) }
    ensures value { result ≡ hex_number digits.now }
    ensures below { result < 16 ^ length digits.now }
{
    let mut number = 0;
    for c in digits {
        number = number * 16 + hex_digit(*c);
    }
    number
}
