//! Checks whether a content is another one with each token replaced by the content that a list has for it. Nothing here allocates, and no content is put
//! together.

ghost use Rattle.std.specs.Prelude.{◌≡◌, ◌↔◌, ◌∷◌, ◌≤◌, ℕ, List, IsTrue, IfSome, Some, length, option_map, slice_get};
ghost use Rattle.llb_laws.specs.TokenLists.{IsAt, IsReading, IsSpelled, ReadsOn};

use llb_wire::Bytes;

/// How far the reading of a content with tokens has come: within a token, `left` bytes of its number are still to be read, and `number` has the bytes before
/// them; outside tokens `left` is 0. What is read is the other content up to `place`.
#[derive(Clone, Copy)]
pub(crate) struct Reading {
    pub(crate) left: u32,
    pub(crate) number: u32,
    pub(crate) place: usize,
}

// Returns the byte at a place of a content, if there is one.
fn byte_at(content: &[u8], place: usize) -> Option<u8>
    ensures { result ≡ slice_get content.now place }
{
    match content.get(place) {
        Some(byte) => Some(*byte),
        None => None,
    }
}

// Returns the content that the list has for a number, if there is one.
fn content_of(contents: &[Bytes], number: u32) -> Option<&[u8]>
    ensures { option_map (λ part. part.now) result ≡ slice_get contents.now number }
{
    match contents.get(number as usize) {
        Some(part) => Some(part.as_slice()),
        None => None,
    }
}

// Returns whether a part is at this place of a content.
fn is_at(content: &[u8], place: usize, part: &[u8]) -> bool
    requires { place ≤ length content.now }
    ensures { IsTrue result ↔ IsAt content.now place part.now }
{
    let (_, rest) = content.split_at(place);
    rest.starts_with(part)
}

// Reads a byte outside tokens: the begin of a token, or a byte that stands for itself.
fn read_plain(content: &[u8], at: Reading, byte: u8) -> Option<Reading>
    requires at { IsReading content.now at }
    requires outside { at.left ≡ 0 }
    ensures reading { IfSome result (λ next. IsReading content.now next) }
    ensures same { (contents : List (List ℕ)) (bytes : List ℕ)
        → ReadsOn contents content.now (byte ∷ bytes) (Some at) ↔ ReadsOn contents content.now bytes result }
{
    if byte == 255 {
        return Some(Reading {
            left: 4,
            number: 0,
            place: at.place,
        });
    }
    let Some(same) = byte_at(content, at.place) else {
        return None;
    };
    if same != byte {
        return None;
    }
    Some(Reading {
        left: 0,
        number: 0,
        place: at.place + 1,
    })
}

// Reads the last byte of a token, and the content that the list has for its number.
fn read_content(contents: &[Bytes], content: &[u8], at: Reading, byte: u8) -> Option<Reading>
    requires at { IsReading content.now at }
    requires last { at.left ≡ 1 }
    ensures reading { IfSome result (λ next. IsReading content.now next) }
    ensures same { (bytes : List ℕ) → ReadsOn contents.now content.now (byte ∷ bytes) (Some at) ↔ ReadsOn contents.now content.now bytes result }
{
    let number = at.number * 256 + byte as u32;
    let Some(part) = content_of(contents, number) else {
        return None;
    };
    if !is_at(content, at.place, part) {
        return None;
    }
    Some(Reading {
        left: 0,
        number: 0,
        place: at.place + part.len(),
    })
}

// Reads a byte.
fn read(contents: &[Bytes], content: &[u8], at: Reading, byte: u8) -> Option<Reading>
    requires { IsReading content.now at }
    ensures reading { IfSome result (λ next. IsReading content.now next) }
    ensures same { (bytes : List ℕ) → ReadsOn contents.now content.now (byte ∷ bytes) (Some at) ↔ ReadsOn contents.now content.now bytes result }
{
    if at.left == 0 {
        return read_plain(content, at, byte);
    }
    if at.left == 1 {
        return read_content(contents, content, at, byte);
    }
    Some(Reading {
        left: at.left - 1,
        number: at.number * 256 + byte as u32,
        place: at.place,
    })
}

/// Returns whether a content is the other one with each token in it replaced by the content that the list has for its number.
pub(crate) fn is_spelled(contents: &[Bytes], text: &[u8], content: &[u8]) -> bool
    ensures { IsTrue result ↔ IsSpelled contents.now text.now content.now }
{
    let mut at = Reading {
        left: 0,
        number: 0,
        place: 0,
    };
    for byte in text {
        match read(contents, content, at, *byte) {
            Some(next) => at = next,
            None => return false,
        }
    }
    at.left == 0 && at.place == content.len()
}
