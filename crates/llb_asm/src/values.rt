//! Reads the values of fields from their texts, and appends the texts of values.

ghost use Rattle.std.specs.Prelude.{◌≡◌, ◌==◌, ◌||◌, ◌^◌, ◌≤◌, ◌++◌, nat_lt, IfOk, OnOk};
ghost use Rattle.std.specs.Option.{option_map};
ghost use Rattle.llb_wire.specs.Hexadecimal.{hex_text};
ghost use Rattle.llb_asm.specs.FieldValueTexts.{signed_in, flag_in, number_in, string_in, bytes_spelled, label_in, number_text};
ghost use Rattle.llb_wire.specs.Decimal.{capped, magnitude};
ghost use Rattle.llb_asm.specs.FieldValueTexts.{string_text, label_text, escaped, escape_of, lower_digit, Leads, Continues, string_from, closed, backslash};
ghost use Rattle.llb_asm.specs.FieldValueTexts.{first, signed_text, flag_text, ValuesAreReadBack, ValuesAreSolid};
ghost use Rattle.std.specs.Fmt.{decimal};
ghost use Rattle.llb_ops.specs.declared.table.FieldKind.TheVariants as kind;

use llb_ops::FieldKind;
use llb_wire::{Bytes, Memory, is_hex, magnitude, read_hex};
use std::alloc::Global;
use std::str::from_utf8;

// Reads a decimal number from `-limit` to `limit - 1`, and returns it in two's complement; `None` for any other text.
#[tactic(auto, unfolding(crate::specs::FieldValueTexts::signed_in))]
fn signed_in(limit: u64, text: &[u8]) -> Option<u64>
    requires { limit ≤ 2 ^ 63 }
    ensures { result ≡ signed_in limit text.now }
{
    match text {
        [b'-', digits @ ..] => {
            let number = magnitude(digits)?;
            if number == 0 || number > limit {
                return None;
            }
            Some(u64::MAX - number + 1)
        }
        _ => {
            let number = magnitude(text)?;
            if number < limit { Some(number) } else { None }
        }
    }
}

fn unsigned_in(text: &[u8]) -> Option<u64>
    ensures { result ≡ number_in kind.Uint32 text.now }
{
    let number = magnitude(text)?;
    if number < 1 << 32 { Some(number) } else { None }
}

fn flag_in(text: &[u8]) -> Option<u64>
    ensures { result ≡ flag_in text.now }
{
    if text == b"true".as_slice() {
        return Some(1);
    }
    if text == b"false".as_slice() {
        return Some(0);
    }
    None
}

/// Reads the number that a text spells for a field of this kind, and returns it as the field's varint has it: a negative number is in two's complement.
pub(crate) fn number_in(kind: FieldKind, text: &[u8]) -> Option<u64>
    ensures { result ≡ number_in kind text.now }
{
    match kind {
        FieldKind::Int64 => signed_in(1 << 63, text),
        FieldKind::Int32 | FieldKind::Enum => signed_in(1 << 31, text),
        FieldKind::Uint32 => unsigned_in(text),
        FieldKind::Bool => flag_in(text),
        FieldKind::String | FieldKind::Bytes | FieldKind::Message(_) => None,
    }
}

/// Returns the value of a lower-case hexadecimal digit; `None` for any other byte.
fn digit_of(byte: u8) -> Option<u8>
    ensures { result ≡ lower_digit byte }
{
    match byte {
        b'0'..=b'9' => Some(byte - b'0'),
        b'a'..=b'f' => Some(byte - b'a' + 10),
        _ => None,
    }
}

// Returns the value of two lower-case hexadecimal digits, if that is at most 7f.
fn escape_of(high: u8, low: u8) -> Option<u8>
    ensures { result ≡ escape_of high low }
{
    let (high, low) = (digit_of(high)?, digit_of(low)?);
    if high < 8 {
        Some(16 * high + low)
    } else {
        None
    }
}

/// Reads the byte, up to 7f, that the two digits at the start of a text spell, and returns it with the text after the digits.
fn two_digits(text: &[u8]) -> Option<(u8, &[u8])>
    ensures { Continues first text.now result }
{
    match text {
        [high, low, rest @ ..] => Some((escape_of(*high, *low)?, rest)),
        _ => None,
    }
}

/// Reads the byte of an escape, given the text after its backslash, and returns the byte with the text after the escape.
fn behind_backslash(text: &[u8]) -> Option<(u8, &[u8])>
    ensures { Continues backslash text.now result }
{
    match text {
        [b'x', digits @ ..] => two_digits(digits),
        [byte, rest @ ..] if *byte == b'"' || *byte == b'\\' => Some((*byte, rest)),
        _ => None,
    }
}

/// Reads the byte of a string that the start of a text spells, and returns the byte with the text after the byte's spelling. A quote spells no byte.
fn next_byte(text: &[u8]) -> Option<(u8, &[u8])>
    ensures { Leads text.now result }
{
    match text {
        [b'\\', rest @ ..] => behind_backslash(rest),
        [byte, rest @ ..] if *byte != b'"' => Some((*byte, rest)),
        _ => None,
    }
}

/// Reads the rest of a string, up to a quote at the end of the text; `None` if the text spells no string.
fn string_behind(alloc: Global, text: &[u8]) -> Result<Option<Bytes>, Memory>
    ensures { IfOk result (λ o. o ≡ string_from closed text.now) }
{
    let mut string = Vec::new(alloc);
    let mut rest = text;
    while let Some((byte, later)) = next_byte(rest) {
        string.push(byte)?;
        rest = later;
    }
    if rest == b"\"".as_slice() {
        return Ok(Some(Bytes::new(string)));
    }
    Ok(None)
}

/// Reads a string between quotes; `None` for any other text. `\"`, `\\`, and `\x` with two lower-case hexadecimal digits (at most 7f) are one byte each.
pub(crate) fn string_in(alloc: Global, text: &[u8]) -> Result<Option<Bytes>, Memory>
    ensures { IfOk result (λ o. o ≡ string_in text.now) }
{
    match text {
        [b'"', rest @ ..] => string_behind(alloc, rest),
        _ => Ok(None),
    }
}

// Reads the bytes that lower-case hexadecimal digits spell; `-` spells no bytes. `None` for any other text.
#[tactic(auto, unfolding(crate::specs::FieldValueTexts::bytes_spelled))]
pub(crate) fn bytes_spelled(alloc: Global, text: &[u8]) -> Result<Option<Bytes>, Memory>
    ensures { IfOk result (λ o. o ≡ bytes_spelled text.now) }
{
    match from_utf8(text) {
        Ok(text) => {
            if is_hex(text) {
                read_hex(alloc, text)
            } else {
                Ok(None)
            }
        }
        Err(_) => Ok(None),
    }
}

/// Reads the number of an entry from a label (`%` and the number); a number above 2^64 - 1 is read as 2^64 - 1. `None` for any other text.
#[tactic(auto, unfolding(crate::specs::FieldValueTexts::label_in))]
pub(crate) fn label_in(text: &[u8]) -> Option<u64>
    ensures { result ≡ option_map capped (label_in text.now) }
{
    match text {
        [b'%', digits @ ..] => magnitude(digits),
        _ => None,
    }
}

fn push_decimal(alloc: Global, out: &mut Vec<u8>, number: u64) -> Result<(), Memory>
    ensures { OnOk result (out.new.items ≡ out.old.items ++ decimal number) }
{
    let text = format!(in alloc; "{number}")?;
    out.extend_from_slice(text.as_bytes())?;
    Ok(())
}

fn push_signed(alloc: Global, out: &mut Vec<u8>, number: u64) -> Result<(), Memory>
    ensures { OnOk result (out.new.items ≡ out.old.items ++ signed_text number) }
{
    if number < 1 << 63 {
        return push_decimal(alloc, out, number);
    }
    out.push(b'-')?;
    push_decimal(alloc, out, u64::MAX - number + 1)
}

fn push_flag(out: &mut Vec<u8>, number: u64) -> Result<(), Memory>
    ensures { OnOk result (out.new.items ≡ out.old.items ++ flag_text number) }
{
    let text = if number == 0 {
        b"false".as_slice()
    } else {
        b"true".as_slice()
    };
    out.extend_from_slice(text)?;
    Ok(())
}

// Appends a number of a field of this kind to a text.
pub(crate) fn push_number(
    alloc: Global,
    out: &mut Vec<u8>,
    kind: FieldKind,
    number: u64,
) -> Result<(), Memory>
    ensures { OnOk result (out.new.items ≡ out.old.items ++ number_text kind number) }
{
    match kind {
        FieldKind::Int64 | FieldKind::Int32 | FieldKind::Uint32 | FieldKind::Enum => {
            push_signed(alloc, out, number)
        }
        FieldKind::Bool => push_flag(out, number),
        FieldKind::String | FieldKind::Bytes | FieldKind::Message(_) => Ok(()),
    }
}

// Appends bytes to a text in lower-case hexadecimal; appends `-` if there are no bytes.
pub(crate) fn push_bytes(alloc: Global, out: &mut Vec<u8>, bytes: &[u8]) -> Result<(), Memory>
    ensures { OnOk result (out.new.items ≡ out.old.items ++ hex_text bytes.now) }
{
    if bytes.is_empty() {
        out.push(b'-')?;
        return Ok(());
    }
    let digits = hex::encode(alloc, bytes)?;
    out.extend_from_slice(digits.as_bytes())?;
    Ok(())
}

fn is_control(byte: u8) -> bool
    ensures { result ≡ nat_lt byte 32 || (byte == 127) }
{
    byte < 0x20 || byte == 0x7f
}

fn push_escaped(alloc: Global, out: &mut Vec<u8>, byte: u8) -> Result<(), Memory>
    ensures { OnOk result (out.new.items ≡ out.old.items ++ escaped byte) }
{
    if byte == b'"' || byte == b'\\' {
        out.extend_from_slice(&[b'\\', byte])?;
        return Ok(());
    }
    if is_control(byte) {
        out.extend_from_slice(b"\\x".as_slice())?;
        return push_bytes(alloc, out, &[byte]);
    }
    out.push(byte)?;
    Ok(())
}

// Appends a string to a text, between quotes: quotes, backslashes and control characters are escaped.
pub(crate) fn push_string(alloc: Global, out: &mut Vec<u8>, string: &[u8]) -> Result<(), Memory>
    ensures { OnOk result (out.new.items ≡ out.old.items ++ string_text string.now) }
{
    out.push(b'"')?;
    for byte in string {
        push_escaped(alloc, out, *byte)?;
    }
    out.push(b'"')?;
    Ok(())
}

// Appends the label of an entry to a text.
pub(crate) fn push_label(alloc: Global, out: &mut Vec<u8>, entry: u64) -> Result<(), Memory>
    ensures { OnOk result (out.new.items ≡ out.old.items ++ label_text entry) }
{
    out.push(b'%')?;
    push_decimal(alloc, out, entry)
}

// Proves that the text that is written for a value is read as that value, and fits on one line.
pub(crate) fn values_are_read_back()
    ensures read_back { ValuesAreReadBack }
    ensures solid { ValuesAreSolid }
{}
