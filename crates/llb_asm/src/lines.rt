//! The lines of a text that are read: all that are neither empty nor comments.

ghost use Rattle.std.specs.Prelude.{◌≡◌};
ghost use Rattle.std.specs.Str.{is_utf8};
ghost use Rattle.llb_asm.specs.ItemLines.{is_blank, without_front, without_end, stripped, is_dropped};

use std::str::from_utf8;

/// Returns whether bytes are UTF-8.
#[tactic(auto, using(crate::proofs::Utf8::utf8_true, crate::proofs::Utf8::utf8_false))]
pub(crate) fn is_text(bytes: &[u8]) -> bool
    ensures { result ≡ is_utf8 bytes.now }
{
    match from_utf8(bytes) {
        Ok(_) => true,
        Err(_) => false,
    }
}

// Returns whether a byte is a space, a tab or a carriage return.
fn is_blank(byte: u8) -> bool
    ensures { result ≡ is_blank byte }
{
    byte == b' ' || byte == b'\t' || byte == b'\r'
}

#[tactic(auto, using(crate::proofs::TrimmedLines::front_blank, crate::proofs::TrimmedLines::front_kept))]
fn without_front(line: &[u8]) -> &[u8]
    ensures { result.now ≡ without_front line.now }
{
    let mut rest = line;
    while let Some((byte, later)) = rest.split_first() {
        if !is_blank(*byte) {
            return rest;
        }
        rest = later;
    }
    rest
}

#[tactic(auto, using(crate::proofs::TrimmedLines::end_blank, crate::proofs::TrimmedLines::end_kept))]
fn without_end(line: &[u8]) -> &[u8]
    ensures { result.now ≡ without_end line.now }
{
    let mut rest = line;
    while let Some((byte, front)) = rest.split_last() {
        if !is_blank(*byte) {
            return rest;
        }
        rest = front;
    }
    rest
}

/// Returns a line without the spaces, tabs and carriage returns at its start and at its end.
#[tactic(auto, unfolding(crate::specs::ItemLines::stripped))]
pub(crate) fn stripped(line: &[u8]) -> &[u8]
    ensures { result.now ≡ stripped line.now }
{
    without_end(without_front(line))
}

// Returns whether a line is empty, or is a comment: UTF-8 that begins with `#`.
pub(crate) fn is_dropped(line: &[u8]) -> bool
    ensures { result ≡ is_dropped line.now }
{
    match line {
        [] => true,
        [b'#', ..] => is_text(line),
        _ => false,
    }
}
