//! Words, which are separated by one space, and numbers.

ghost use Rattle.std.specs.Prelude.{◌≡◌, ◌==◌, IfSome, IfNone};
ghost use Rattle.std.specs.Char.{is_ascii_digit};
ghost use Rattle.std.specs.List.{list_all, position};
ghost use Rattle.script.specs.Grammar.{first_word, number_of, split_word};

use crate::limits::MOST_DIGITS;

/// The word before the first space, and all bytes after that space.
#[tactic(auto, unfolding(crate::specs::Grammar::split_word))]
pub fn split_word(text: &[u8]) -> Option<(&[u8], &[u8])>
    ensures found { IfSome result
        (λ parts. split_word text.now ≡ Some (parts.0.now, parts.1.now)) }
    ensures none { IfNone result (split_word text.now ≡ None) }
{
    match first_index(text, b' ') {
        Some(end) => Some((&text[..end], &text[end + 1..])),
        None => None,
    }
}

/// The word before the first space, or all of the text if it has no space.
pub fn first_word(text: &[u8]) -> &[u8]
    ensures { result.now ≡ first_word text.now }
{
    match split_word(text) {
        Some((word, _)) => word,
        None => text,
    }
}

/// The index of the first byte of this value.
pub fn first_index(text: &[u8], byte: u8) -> Option<usize>
    ensures { result ≡ position (λ b. b == byte) text.now }
{
    text.iter().position(|b| *b == byte)
}

/// The number that a word spells: 1 to 10 decimal digits and a value of 32 bits.
#[tactic(auto, unfolding(crate::specs::Grammar::number_of))]
pub fn number_of(word: &[u8]) -> Option<u32>
    ensures { result ≡ number_of word.now }
{
    if !is_all_digits(word) || word.is_empty() || word.len() > MOST_DIGITS {
        return None;
    }
    let Ok(text) = str::from_utf8(word) else {
        return None;
    };
    text.parse().ok()
}

/// Whether each byte is a decimal digit.
fn is_all_digits(word: &[u8]) -> bool
    ensures { result ≡ list_all is_ascii_digit word.now }
{
    word.iter().all(|byte| byte.is_ascii_digit())
}
