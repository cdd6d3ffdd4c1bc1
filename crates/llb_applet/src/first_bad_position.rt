//! Finds the first bad position of a script's text, without allocating.

ghost use Rattle.std.specs.Prelude.{◌≡◌, ◌+◌, ◌<◌, length, IfSome};
ghost use Rattle.llb_applet.specs.Words.{join_of, is_separator, is_word_byte, bad_in, called_after, bad_place_of};

use crate::applet::is_word;
use crate::joined_commands::Join;

// Returns whether words may have this byte.
fn is_word_byte(byte: u8) -> bool
    ensures { result ≡ is_word_byte byte }
{
    byte.is_ascii_digit()
        || byte.is_ascii_uppercase()
        || byte.is_ascii_lowercase()
        || b"_-./,:+@%=".contains(&byte)
        || byte >= 128
}

/// Returns how a separator joins the call after it to the call before it; `None` if the word is no separator.
pub fn join_of(word: &str) -> Option<Join>
    ensures { result ≡ join_of word.now }
{
    if is_word(word, b";") {
        return Some(Join::Then);
    }
    if is_word(word, b"&&") {
        return Some(Join::And);
    }
    if is_word(word, b"||") {
        return Some(Join::Or);
    }
    None
}

/// Returns whether a word is a separator.
pub fn is_separator(word: &str) -> bool
    ensures { result ≡ is_separator word.now }
{
    join_of(word).is_some()
}

// Returns the index of the first bad byte in a word: 0 in a separator with no call before it; in any other word the index of
// the first byte that no word may have. `called` says whether the previous word belongs to a call.
fn bad_in(called: bool, word: &str) -> Option<usize>
    ensures value { result ≡ bad_in called word.now }
    ensures inside { IfSome result (λ k. k < length word.now) }
{
    if is_separator(word) {
        return if called { None } else { Some(0) };
    }
    word.as_bytes().iter().position(|byte| !is_word_byte(*byte))
}

// Returns whether the last word so far belongs to a call. If the part is not empty, it is that word: true unless it is a separator. An empty part is no word,
// so for it the call returns what held before it (`called`).
fn called_after(called: bool, part: &str) -> bool
    ensures { result ≡ called_after called part.now }
{
    if part.is_empty() {
        return called;
    }
    !is_separator(part)
}

/// Returns the first bad position of a text, in bytes from 0: a byte that no word may have, a separator with no call
/// before it, or the text's end if the last call is missing. Returns `None` if the text has no bad position: then it is a
/// list of calls with a separator between each two calls.
pub fn bad_place(text: &str) -> Option<usize>
    ensures { result ≡ bad_place_of text.now }
{
    let end = text.len();
    let mut place = 0;
    let mut called = false;
    for part in text.split(' ') {
        if let Some(bad) = bad_in(called, part) {
            return Some(place + bad);
        }
        called = called_after(called, part);
        place += part.len() + 1;
    }
    if called { None } else { Some(end) }
}
