//! Bytes as they are written in texts, in lower-case hexadecimal, with a dash for no bytes; and the text of a digest.

ghost use Rattle.std.specs.Prelude.{◌≡◌, ◌++◌, IfOk, IfErr, OnOk, OnErr, codes, is_some, string_bytes, true};
ghost use Rattle.std.specs.List.{list_all};
ghost use Rattle.std.specs.Option.{option_map};
ghost use Rattle.hex.specs.Hex.{encode_lower, is_hex_digit};
ghost use Rattle.llb_wire.specs.Hexadecimal.{hex_text, is_lower, is_hex, bytes_in};

use crate::bytes::Bytes;
use crate::fault::Memory;
use crate::text::Text;
use hex::FromHexError;
use std::alloc::{AllocError, Global};

// How many bytes the text of a digest has.
const DIGEST_LENGTH: usize = 71;

/// Appends the lower-case hexadecimal digits of bytes to a text, or `-` if there are no bytes. Fails with `AllocError`
/// alone, and then the text is unchanged.
pub fn push_hex(alloc: Global, text: &mut String, bytes: &[u8]) -> Result<(), AllocError>
    ensures ok { OnOk result (string_bytes text.new ≡ string_bytes text.old ++ hex_text bytes.now) }
    ensures err { OnErr result (string_bytes text.new ≡ string_bytes text.old) }
{
    if bytes.is_empty() {
        text.push_str("-")?;
        return Ok(());
    }
    let digits = hex::encode(alloc, bytes)?;
    text.push_str(digits.as_str())?;
    Ok(())
}

// Returns whether all bytes are lower-case hexadecimal digits.
fn are_lower(digits: &[u8]) -> bool
    ensures { result ≡ list_all is_lower digits.now }
{
    digits
        .iter()
        .all(|b| *b >= b'0' && *b <= b'9' || *b >= b'a' && *b <= b'f')
}

/// Returns whether a text is what `push_hex` writes: `-`, or one or more pairs of lower-case hexadecimal digits.
pub fn is_hex(text: &str) -> bool
    ensures { result ≡ is_hex text.now }
{
    let digits = text.as_bytes();
    if digits == b"-".as_slice() {
        return true;
    }
    !digits.is_empty() && digits.len() % 2 == 0 && are_lower(digits)
}

// Returns whether all bytes are hexadecimal digits, of either case.
fn are_digits(digits: &[u8]) -> bool
    ensures { result ≡ list_all is_hex_digit digits.now }
{
    digits.iter().all(|b| *b >= b'A' && *b <= b'F'
        || *b >= b'a' && *b <= b'f'
        || *b >= b'0' && *b <= b'9')
}

/// Reads pairs of hexadecimal digits as bytes, and `-` as no bytes; returns `None` if the text is neither. Accepts
/// upper-case digits too, unlike `is_hex`, which accepts exactly what `push_hex` writes. Fails with 5 `Memory` alone,
/// and only for a text that spells bytes.
#[tactic(auto, using(crate::proofs::HexTexts::digits_spell, crate::proofs::HexTexts::others_spell_nothing))]
pub fn read_hex(alloc: Global, text: &str) -> Result<Option<Bytes>, Memory>
    ensures ok { IfOk result (λ o. option_map (λ b. b) o ≡ bytes_in text.now) }
    ensures memory { IfErr result (λ _. is_some (bytes_in text.now) ≡ true) }
{
    if text == "-" {
        return Ok(Some(Bytes::new(Vec::new(alloc))));
    }
    let digits = text.as_bytes();
    match hex::decode(alloc, digits) {
        Ok(bytes) => Ok(Some(Bytes::new(bytes))),
        // Memory was asked for before the digits were looked at.
        Err(FromHexError::OutOfMemory) => {
            if are_digits(digits) {
                Err(Memory)
            } else {
                Ok(None)
            }
        }
        Err(_) => Ok(None),
    }
}

/// Returns the text of a SHA-256 digest: `sha256:` and its 64 lower-case hexadecimal digits. Fails with 5 `Memory`
/// alone.
pub fn text_of_digest(alloc: Global, digest: &[u8; 32]) -> Result<Text, Memory>
    ensures { IfOk result (λ text. text ≡ codes "sha256:" ++ encode_lower digest.now) }
{
    let digits = hex::encode(alloc, digest)?;
    let mut text = String::with_capacity(alloc, DIGEST_LENGTH)?;
    text.push_str("sha256:")?;
    text.push_str(digits.as_str())?;
    Ok(Text::new(text))
}
