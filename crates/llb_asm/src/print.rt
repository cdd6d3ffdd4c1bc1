//! Writes entries as text. The canonical bytes of an op are read from left to right, by the table of messages.

ghost use Rattle.std.specs.Prelude.{◌≡◌, ◌<◌, ◌+◌, ◌*◌, ◌++◌, ◌∷◌, [], ◌^◌, ◌↔◌, ℕ, Bool, List, length, codes, replicate, OnOk, IfOk, IfSome, IsTrue};
ghost use Rattle.std.specs.Prelude.{true, false};
ghost use Rattle.std.specs.Str.{is_utf8};
ghost use Rattle.llb_wire.specs.Digest.{digest_text};
ghost use Rattle.llb_ops.specs.CanonicalFields.{Fields, AreFields, IsBytesOf, bytes_of, without_empty};
ghost use Rattle.llb_ops.specs.Limits.{entry_limit};
ghost use Rattle.llb_ops.specs.Table.{row_seen};
ghost use Rattle.llb_ops.specs.declared.table.MessageName.TheVariants as named;
ghost use Rattle.llb_asm.specs.FieldValueTexts.{number_text};
ghost use Rattle.llb_asm.specs.DisassembledText.{string_for, held_text, item_line, closing_line, opening, extra_lines, field_lines, line_text, text_of_lines};
ghost use Rattle.llb_asm.specs.DisassembledText.{Form, entry_lines, Formed, AreFormed, AreFormedBy, AreWorded, plain_lines, plain_text};
ghost use Rattle.llb_asm.specs.PrintedPrefix.{Prints, Finds, HasBy, bytes_by, held_lines, is_op_by};

use crate::entry::canonical;
use crate::fault::AsmFault;
use crate::labels::Labels;
use crate::values::{push_bytes, push_label, push_number, push_string};
use llb_ops::{Entries, FieldKind, FieldRow, MessageName, entry_has_fields, field_numbered};
use llb_wire::{Bytes, Memory, Sink, next_record, write_all};
use std::alloc::Global;
use std::str::from_utf8;

/// A record, and the bytes after it.
#[derive(Clone, Copy)]
struct Front<'a> {
    number: u32,
    value: u64,
    payload: &'a [u8],
    after: &'a [u8],
}

/// Which entries are written as ops: those that are canonical, or any that can be read.
#[derive(Clone, Copy)]
enum Wording {
    Exact,
    Any,
}

fn front_of(bytes: &[u8]) -> Option<Front<'_>>
    ensures found { Finds bytes.now result }
    ensures shorter { IfSome result (λ f. length f.after.now < length bytes.now) }
    ensures inner { IfSome result (λ f. length f.payload.now < length bytes.now) }
{
    match next_record(bytes, 0) {
        Ok(Some(field)) => {
            let (text, after) = bytes.split_at(field.end);
            let (_, payload) = text.split_at(field.start);
            Some(Front {
                number: field.number,
                value: field.value,
                payload,
                after,
            })
        }
        Ok(None) => None,
        Err(_) => None,
    }
}

// Begins a line: appends two spaces for each level, and then a name.
fn push_name(out: &mut Vec<u8>, depth: usize, name: &[u8]) -> Result<(), Memory>
    ensures { OnOk result (out.new.items ≡ out.old.items ++ (replicate (2 * depth) 32 ++ name.now)) }
{
    for _ in 0..depth {
        out.extend_from_slice(b"  ".as_slice())?;
    }
    out.extend_from_slice(name)?;
    Ok(())
}

// Appends the line that opens a message.
fn push_opening(out: &mut Vec<u8>, depth: usize, name: &str) -> Result<(), Memory>
    ensures { OnOk result (out.new.items ≡ out.old.items ++ line_text (item_line depth name.now opening)) }
{
    push_name(out, depth, name.as_bytes())?;
    out.extend_from_slice(b" {\n".as_slice())?;
    Ok(())
}

// Appends the line that closes a message.
fn push_closing(out: &mut Vec<u8>, depth: usize) -> Result<(), Memory>
    ensures { OnOk result (out.new.items ≡ out.old.items ++ line_text (closing_line depth)) }
{
    push_name(out, depth, b"}".as_slice())?;
    out.push(b'\n')?;
    Ok(())
}

// Appends the line of a field whose value is this number.
fn push_number_line(
    alloc: Global,
    out: &mut Vec<u8>,
    depth: usize,
    row: &FieldRow,
    number: u64,
) -> Result<(), Memory>
    ensures { OnOk result (out.new.items ≡ out.old.items ++ line_text (item_line depth row.now.name.now (number_text row.now.field.kind number))) }
{
    push_name(out, depth, row.name.as_bytes())?;
    out.push(b' ')?;
    push_number(alloc, out, row.field.kind, number)?;
    out.push(b'\n')?;
    Ok(())
}

// Appends the value of a String field: in a field `digest`, the label (`%` and a number) of the earlier entry with this
// digest text, if there is one; else the string between quotes.
fn push_text(
    alloc: Global,
    out: &mut Vec<u8>,
    labels: &Labels,
    name: &str,
    text: &[u8],
) -> Result<(), Memory>
    ensures { is_utf8 text.now ≡ true → OnOk result (out.new.items ≡ out.old.items ++ string_for labels.now name.now text.now) }
{
    if name == "digest" {
        if let Ok(digest) = from_utf8(text) {
            if let Some(entry) = labels.label_for(digest) {
                return push_label(alloc, out, entry);
            }
        }
    }
    push_string(alloc, out, text)
}

// Appends the value of a String or Bytes field.
fn push_held(
    alloc: Global,
    out: &mut Vec<u8>,
    labels: &Labels,
    row: &FieldRow,
    held: &[u8],
) -> Result<(), Memory>
    ensures { IsBytesOf row.now.field.kind held.now → OnOk result
        (out.new.items ≡ out.old.items ++ held_text row.now.field.kind labels.now row.now.name.now held.now) }
{
    match row.field.kind {
        FieldKind::String => push_text(alloc, out, labels, row.name, held),
        _ => push_bytes(alloc, out, held),
    }
}

// Appends the line of a String or Bytes field; appends nothing for an empty key or value of a map entry.
fn push_held_line(
    alloc: Global,
    out: &mut Vec<u8>,
    labels: &Labels,
    depth: usize,
    row: &FieldRow,
    held: &[u8],
) -> Result<(), Memory>
    ensures { IsBytesOf row.now.field.kind held.now → OnOk result
        (out.new.items ≡ out.old.items ++ text_of_lines (held_lines labels.now depth (row_seen row.now) held.now)) }
{
    if row.field.of_entry && held.is_empty() {
        return Ok(());
    }
    push_name(out, depth, row.name.as_bytes())?;
    out.push(b' ')?;
    push_held(alloc, out, labels, row, held)?;
    out.push(b'\n')?;
    Ok(())
}

// Appends the line of the extra bytes, if there are any.
fn push_extra(alloc: Global, out: &mut Vec<u8>, depth: usize, extra: &[u8]) -> Result<(), Memory>
    ensures { OnOk result (out.new.items ≡ out.old.items ++ text_of_lines (extra_lines depth extra.now)) }
{
    if extra.is_empty() {
        return Ok(());
    }
    push_name(out, depth, b"extra ".as_slice())?;
    push_bytes(alloc, out, extra)?;
    out.push(b'\n')?;
    Ok(())
}

// Appends the lines of a message's fields, given the canonical bytes of the message.
fn push_fields(
    alloc: Global,
    out: &mut Vec<u8>,
    labels: &Labels,
    message: MessageName,
    depth: usize,
    bytes: &[u8],
) -> Result<(), Memory>
    requires { depth + length bytes.now < 2 ^ 64 }
    ensures { (last : ℕ) (set : Bool) (fs : Fields) → AreFields message last set fs → bytes.now ≡ bytes_of fs
        → OnOk result (out.new.items ≡ out.old.items ++ text_of_lines (field_lines labels.now depth (without_empty fs))) }
{
    let mut rest = bytes;
    while let Some(front) = front_of(rest) {
        let Some(row) = field_numbered(message, front.number) else {
            return push_extra(alloc, out, depth, rest);
        };
        match row.field.kind {
            FieldKind::Message(inner) => {
                push_opening(out, depth, row.name)?;
                push_fields(alloc, out, labels, inner, depth + 1, front.payload)?;
                push_closing(out, depth)?;
            }
            FieldKind::String | FieldKind::Bytes => {
                push_held_line(alloc, out, labels, depth, &row, front.payload)?;
            }
            FieldKind::Int64
            | FieldKind::Int32
            | FieldKind::Uint32
            | FieldKind::Enum
            | FieldKind::Bool => push_number_line(alloc, out, depth, &row, front.value)?,
        }
        rest = front.after;
    }
    Ok(())
}

// Appends the lines of an op with these canonical bytes.
fn push_op(alloc: Global, out: &mut Vec<u8>, labels: &Labels, bytes: &[u8]) -> Result<(), Memory>
    requires { length bytes.now + 1 < 2 ^ 64 }
    ensures { (fs : Fields) → AreFields named.Op 0 false fs → bytes.now ≡ bytes_of fs
        → OnOk result (out.new.items ≡ out.old.items ++ text_of_lines
        (item_line 0 (codes "op") opening ∷ (field_lines labels.now 1 (without_empty fs) ++ (closing_line 0 ∷ [])))) }
{
    push_opening(out, 0, "op")?;
    push_fields(alloc, out, labels, MessageName::Op, 1, bytes)?;
    push_closing(out, 0)
}

// Appends the line of an entry that is written as raw bytes.
fn push_raw(alloc: Global, out: &mut Vec<u8>, entry: &[u8]) -> Result<(), Memory>
    ensures { OnOk result (out.new.items ≡ out.old.items ++ text_of_lines (entry_lines [] entry.now Form.raw)) }
{
    push_name(out, 0, b"raw ".as_slice())?;
    push_bytes(alloc, out, entry)?;
    out.push(b'\n')?;
    Ok(())
}

// Returns whether an entry is written as the op that it is read as, given the op's canonical bytes.
fn is_op_by(wording: Wording, bytes: &[u8], entry: &[u8]) -> bool
    ensures { result ≡ is_op_by wording bytes.now entry.now }
{
    match wording {
        Wording::Exact => bytes == entry,
        Wording::Any => true,
    }
}

// Returns the canonical bytes of the op as which an entry is written; `None` if it is written as raw bytes.
fn op_by(alloc: Global, wording: Wording, entry: &[u8]) -> Result<Option<Bytes>, Memory>
    ensures { (form : Form) → HasBy wording entry.now form → IfOk result (λ o. o ≡ bytes_by form) }
{
    match canonical(alloc, entry)? {
        Some(bytes) if is_op_by(wording, bytes.as_slice(), entry) => Ok(Some(bytes)),
        _ => Ok(None),
    }
}

// Returns the text of an entry, given the canonical bytes of the op as which it is written, if it is.
fn text_by(
    alloc: Global,
    labels: &Labels,
    entry: &[u8],
    op: Option<Bytes>,
) -> Result<Vec<u8>, Memory>
    ensures { (form : Form) → op ≡ bytes_by form → IfOk result (λ text. text.items ≡ text_of_lines (entry_lines labels.now entry.now form)) }
{
    let mut text = Vec::new(alloc);
    match op {
        Some(bytes) => push_op(alloc, &mut text, labels, bytes.as_slice())?,
        None => push_raw(alloc, &mut text, entry)?,
    }
    Ok(text)
}

// Returns the text of an entry.
fn entry_text(
    alloc: Global,
    wording: Wording,
    labels: &Labels,
    entry: &[u8],
) -> Result<Vec<u8>, Memory>
    ensures { (form : Form) → HasBy wording entry.now form → IfOk result (λ text. text.items ≡ text_of_lines (entry_lines labels.now entry.now form)) }
{
    let op = op_by(alloc, wording, entry)?;
    text_by(alloc, labels, entry, op)
}

// Returns the text of an entry, and appends the entry's digest text to the digest texts of the earlier entries.
fn labelled_text(
    alloc: Global,
    wording: Wording,
    labels: &mut Labels,
    entry: &[u8],
) -> Result<Vec<u8>, Memory>
    ensures text { (form : Form) → HasBy wording entry.now form → IfOk result (λ text. text.items ≡ text_of_lines (entry_lines labels.old entry.now form)) }
    ensures labels { OnOk result (labels.new ≡ labels.old ++ digest_text entry.now ∷ []) }
{
    let text = entry_text(alloc, wording, labels, entry)?;
    labels.push(alloc, entry)?;
    Ok(text)
}

// Writes an entry to a sink.
fn print_entry<W: Sink>(
    alloc: Global,
    wording: Wording,
    labels: &mut Labels,
    entry: &Bytes,
    out: &mut W,
) -> Result<(), AsmFault>
    ensures prints { (form : Form) → HasBy wording entry.now form → Prints (W.taken out.old) (W.taken out.new) (W.failed out.new)
        (text_of_lines (entry_lines labels.old entry.now form)) result }
    ensures labels { OnOk result (labels.new ≡ labels.old ++ digest_text entry.now ∷ []) }
    ensures same { W.lender out.new ≡ W.lender out.old }
{
    let Ok(text) = labelled_text(alloc, wording, labels, entry.as_slice()) else {
        return Err(AsmFault::Memory);
    };
    match write_all(out, text.as_slice()) {
        Err(_) => Err(AsmFault::Write),
        Ok(()) => Ok(()),
    }
}

// Writes entries to a sink.
fn print_entries<W: Sink>(
    alloc: Global,
    wording: Wording,
    labels: &mut Labels,
    entries: &[Bytes],
    out: &mut W,
) -> Result<(), AsmFault>
    ensures prints { (xs : List Formed) → AreFormedBy (HasBy wording) entries.now xs → Prints (W.taken out.old) (W.taken out.new) (W.failed out.new)
        (text_of_lines (plain_lines labels.old xs)) result }
    ensures same { W.lender out.new ≡ W.lender out.old }
{
    for entry in entries {
        print_entry(alloc, wording, labels, entry, out)?;
    }
    Ok(())
}

// Proves that each entry has a form in which it is written.
fn entries_have_forms(wording: Wording, entries: &[Bytes])
    ensures { (xs : List Formed) × AreFormedBy (HasBy wording) entries.now xs }
{
    for entry in entries {
        entry_has_fields(entry.as_slice());
    }
}

// Writes the text of entries to a sink, one entry at a time.
fn print_text<W: Sink>(
    alloc: Global,
    wording: Wording,
    entries: &[Bytes],
    out: &mut W,
) -> Result<(), AsmFault>
    ensures prints { (xs : List Formed) → AreFormedBy (HasBy wording) entries.now xs → Prints (W.taken out.old) (W.taken out.new) (W.failed out.new)
        (plain_text xs) result }
    ensures some { (xs : List Formed) × AreFormedBy (HasBy wording) entries.now xs }
    ensures same { W.lender out.new ≡ W.lender out.old }
{
    entries_have_forms(wording, entries);
    let mut labels = Labels::new(alloc);
    print_entries(alloc, wording, &mut labels, entries, out)
}

/// Writes the text of entries to a sink, one entry at a time. An entry that is the canonical bytes of an op is written as
/// that op, field by field; any other entry is written as `raw` and its bytes.
///
/// Fails with 163 `Memory` if memory is refused, and with 164 `Write` if the sink failed. After either fault, a prefix
/// of the text is written.
pub fn disassemble<W: Sink>(alloc: Global, entries: &Entries, out: &mut W) -> Result<(), AsmFault>
    ensures prints { (xs : List Formed) → AreFormed entries.now xs → Prints (W.taken out.old) (W.taken out.new) (W.failed out.new) (plain_text xs) result }
    ensures some { (xs : List Formed) × AreFormed entries.now xs }
    ensures same { W.lender out.new ≡ W.lender out.old }
{
    print_text(alloc, Wording::Exact, entries.as_slice(), out)
}

/// Writes the ops of entries to a sink, one entry at a time: an entry that can be read as an op, however it is encoded, as `disassemble` writes the op's
/// canonical bytes, and any other entry as `raw` and its bytes. A label names an earlier entry by the digest of the entry's own bytes.
///
/// Fails as `disassemble` does.
pub fn describe<W: Sink>(alloc: Global, entries: &Entries, out: &mut W) -> Result<(), AsmFault>
    ensures prints { (xs : List Formed) → AreWorded entries.now xs → Prints (W.taken out.old) (W.taken out.new) (W.failed out.new) (plain_text xs) result }
    ensures some { (xs : List Formed) × AreWorded entries.now xs }
    ensures same { W.lender out.new ≡ W.lender out.old }
{
    print_text(alloc, Wording::Any, entries.as_slice(), out)
}
