//! One line inside an entry: what it adds to the current message, or why it is refused.

ghost use Rattle.std.specs.Prelude.{◌≡◌, ◌==◌, ◌++◌, ◌≤◌, IfOk, OnOk, map, position, nat_eq, Ok, true, not, length, ◌&&◌, if◌then◌else◌};
ghost use Rattle.std.specs.Option.{option_map};
ghost use Rattle.std.specs.Str.{is_utf8};
ghost use Rattle.llb_ops.specs.Table.{row_seen, row_named};
ghost use Rattle.llb_ops.specs.Writing.{set_number, set_bytes};
ghost use Rattle.llb_ops.specs.CanonicalFields.{may_follow, may_be_empty};
ghost use Rattle.llb_asm.specs.EntryLine.{parted, inside, held_in, held_by, extra_in, field_in, line_in, follows, has_room, behind, at_end, number_record};
ghost use Rattle.llb_asm.specs.EntryLine.{bytes_record, string_record, labelled_record, spelled_record, opening_in};

use crate::fault::Rule;
use crate::lines::is_text;
use crate::values::{bytes_spelled, label_in, number_in, string_in};
use llb_ops::{
    FIELD_LIMIT, FieldKind, FieldRow, MessageName, NamedField, are_unnamed, field_named,
};
use llb_wire::{Bytes, Memory, Text, write_varint};
use std::alloc::Global;

/// Why a line is refused: it breaks a rule, or its label (`%` and a number) names no earlier entry.
#[derive(Clone, Copy)]
pub enum Refusal {
    /// The line breaks this rule.
    Breaks(Rule),
    /// The line's label names no earlier entry.
    UnknownLabel,
}

/// The context of a line: the message that the line is in, and what came before the line in this message.
#[derive(Clone, Copy)]
pub struct Here {
    pub message: MessageName,
    /// The number of the last field so far in this message; 0 if there is none.
    pub last: u32,
    /// Whether a member of the message's oneof is set.
    pub set: bool,
    /// How many times in succession field number `last` has occurred.
    pub count: usize,
    /// Whether a line of extra bytes was read.
    pub ended: bool,
}

/// What a line adds to its message.
#[derive(Drop)]
pub enum Held {
    /// The bytes of a record; no bytes if the value is left out.
    Record(Bytes),
    /// The opening of a message, in the field with this number.
    Opens(u32, MessageName),
}

/// What a line adds, and the context (`Here`: what came before) of the next line of the same message.
#[derive(Drop)]
pub struct Item {
    pub next: Here,
    pub held: Held,
}

// Returns the context (`Here`) of the first line of a message.
pub(crate) fn inside(message: MessageName) -> Here
    ensures { result ≡ inside message }
{
    Here {
        message,
        last: 0,
        set: false,
        count: 0,
        ended: false,
    }
}

impl Here {
    // Returns the context (`Here`: what came before) of the line after a line of this field. With the line of this field the message must not have more values
    // of the field than the limit of repeated fields.
    fn behind(self, field: NamedField) -> Here
        requires { has_room self field ≡ true }
        ensures { result ≡ behind self field }
    {
        let count = if self.last == field.number {
            self.count + 1
        } else {
            1
        };
        Here {
            message: self.message,
            last: field.number,
            set: self.set || field.member,
            count,
            ended: false,
        }
    }

    // Returns the context (`Here`) of what follows the line of the extra bytes: no other item of the same message may come after this line.
    fn at_end(self) -> Here
        ensures { result ≡ at_end self }
    {
        Here {
            message: self.message,
            last: self.last,
            set: self.set,
            count: self.count,
            ended: true,
        }
    }

    // Returns whether a field may follow: numbers ascend, a repeated field may recur, at most one member of a oneof is
    // set, and the extra bytes are last.
    fn is_followed_by(self, field: NamedField) -> bool
        ensures { result ≡ follows self field }
    {
        if self.ended || field.member && self.set {
            return false;
        }
        self.last < field.number || field.repeated && self.last == field.number
    }

    fn has_room(self, field: NamedField) -> bool
        ensures { result ≡ has_room self field }
    {
        self.last != field.number || self.count < FIELD_LIMIT
    }
}

// Returns the index of the first space in a line; `None` if the line has no space.
fn space(line: &[u8]) -> Option<usize>
    ensures { result ≡ position (λ b. nat_eq b 32) line.now }
{
    line.iter().position(|b| *b == b' ')
}

// Splits a line, at its first space, into the name and the value of an item; `None` if the line has no space or is not
// UTF-8.
#[tactic(auto, unfolding(crate::specs::EntryLine::parted))]
pub(crate) fn parted(line: &[u8]) -> Option<(&[u8], &[u8])>
    ensures { option_map (λ p. (p.0.now, p.1.now)) result ≡ parted line.now }
{
    if !is_text(line) {
        return None;
    }
    let Some(at) = space(line) else {
        return None;
    };
    let (name, rest) = line.split_at(at);
    let (_, value) = rest.split_at(1);
    Some((name, value))
}

/// Returns whether the field is written even if its value is 0 or empty: it is a member of a oneof, repeated, or in an entry of a map.
fn may_be_empty(field: NamedField) -> bool
    ensures { result ≡ may_be_empty field }
{
    field.member || field.repeated || field.of_entry
}

// Returns whether the value is left out: the value is 0 or empty, and this field is not written with such a value.
fn is_left_out(field: NamedField, is_default: bool) -> bool
    ensures { result ≡ is_default && not (may_be_empty field) }
{
    is_default && !may_be_empty(field)
}

#[tactic(auto, using(crate::proofs::WireRecords::number_spelled))]
fn number_record(alloc: Global, field: NamedField, value: u64) -> Result<Held, Memory>
    ensures { IfOk result (λ h. h ≡ number_record field value) }
{
    let mut out = Vec::new(alloc);
    if !is_left_out(field, value == 0) {
        write_varint(8 * u64::from(field.number), &mut out)?;
        write_varint(value, &mut out)?;
    }
    Ok(Held::Record(Bytes::new(out)))
}

// Appends the record of a field with these bytes.
#[tactic(auto, using(crate::proofs::WireRecords::bytes_spelled))]
pub(crate) fn put_bytes(out: &mut Vec<u8>, number: u32, bytes: &[u8]) -> Result<(), Memory>
    ensures { OnOk result (out.new.items ≡ out.old.items ++ set_bytes number bytes.now) }
{
    write_varint(8 * u64::from(number) + 2, out)?;
    write_varint(bytes.len() as u64, out)?;
    out.extend_from_slice(bytes)?;
    Ok(())
}

fn bytes_record(alloc: Global, field: NamedField, bytes: &[u8]) -> Result<Held, Memory>
    ensures { IfOk result (λ h. h ≡ bytes_record field bytes.now) }
{
    let mut out = Vec::new(alloc);
    if !is_left_out(field, bytes.is_empty()) {
        put_bytes(&mut out, field.number, bytes)?;
    }
    Ok(Held::Record(Bytes::new(out)))
}

/// Returns the record of a field whose value is a label: the record has the digest text of the entry that the label names.
fn label_record(
    alloc: Global,
    labels: &[Text],
    field: NamedField,
    label: u64,
) -> Result<Result<Held, Refusal>, Memory>
    ensures { IfOk result (λ r. r ≡ labelled_record labels.now field label) }
{
    let Some(digest) = labels.get(label as usize) else {
        return Ok(Err(Refusal::UnknownLabel));
    };
    Ok(Ok(bytes_record(alloc, field, digest.as_str().as_bytes())?))
}

fn string_record(
    alloc: Global,
    labels: &[Text],
    row: &FieldRow,
    text: &[u8],
) -> Result<Result<Held, Refusal>, Memory>
    ensures { IfOk result (λ r. r ≡ string_record labels.now (row_seen row.now) text.now) }
{
    if row.name == "digest" {
        if let Some(label) = label_in(text) {
            return label_record(alloc, labels, row.field, label);
        }
    }
    match string_in(alloc, text)? {
        None => Ok(Err(Refusal::Breaks(Rule::BadValue))),
        Some(string) => Ok(Ok(bytes_record(alloc, row.field, string.as_slice())?)),
    }
}

fn spelled_record(
    alloc: Global,
    field: NamedField,
    text: &[u8],
) -> Result<Result<Held, Refusal>, Memory>
    ensures { IfOk result (λ r. r ≡ spelled_record field text.now) }
{
    match bytes_spelled(alloc, text)? {
        None => Ok(Err(Refusal::Breaks(Rule::BadValue))),
        Some(bytes) => Ok(Ok(bytes_record(alloc, field, bytes.as_slice())?)),
    }
}

fn opening_in(field: NamedField, message: MessageName, text: &[u8]) -> Result<Held, Refusal>
    ensures { result ≡ opening_in field message text.now }
{
    if text == b"{".as_slice() {
        return Ok(Held::Opens(field.number, message));
    }
    Err(Refusal::Breaks(Rule::BadValue))
}

/// Reads the text of a field's value, and returns what the line of the field adds, or why the line is refused.
#[tactic(auto, unfolding(crate::specs::EntryLine::held_in))]
fn held_in(
    alloc: Global,
    labels: &[Text],
    row: &FieldRow,
    text: &[u8],
) -> Result<Result<Held, Refusal>, Memory>
    ensures { IfOk result (λ r. r ≡ held_in labels.now (row_seen row.now) text.now) }
{
    match row.field.kind {
        FieldKind::String => string_record(alloc, labels, row, text),
        FieldKind::Message(message) => Ok(opening_in(row.field, message, text)),
        FieldKind::Bytes => spelled_record(alloc, row.field, text),
        kind => match number_in(kind, text) {
            None => Ok(Err(Refusal::Breaks(Rule::BadValue))),
            Some(number) => Ok(Ok(number_record(alloc, row.field, number)?)),
        },
    }
}

/// Returns what the line of the extra bytes adds, or why the line is refused.
fn extra_in(alloc: Global, here: Here, text: &[u8]) -> Result<Result<Item, Refusal>, Memory>
    ensures { IfOk result (λ r. r ≡ extra_in here text.now) }
{
    if here.ended {
        return Ok(Err(Refusal::Breaks(Rule::Order)));
    }
    match bytes_spelled(alloc, text)? {
        Some(bytes) if are_unnamed(here.message, bytes.as_slice()) => Ok(Ok(Item {
            next: here.at_end(),
            held: Held::Record(bytes),
        })),
        _ => Ok(Err(Refusal::Breaks(Rule::BadValue))),
    }
}

/// Returns what the line of the field with this name adds, or why the line is refused.
fn field_in(
    alloc: Global,
    labels: &[Text],
    here: Here,
    name: &[u8],
    text: &[u8],
) -> Result<Result<Item, Refusal>, Memory>
    ensures { IfOk result (λ r. r ≡ field_in labels.now here (name.now, text.now)) }
{
    let Some(row) = field_named(here.message, name) else {
        return Ok(Err(Refusal::Breaks(Rule::UnknownField)));
    };
    if !here.is_followed_by(row.field) {
        return Ok(Err(Refusal::Breaks(Rule::Order)));
    }
    match held_in(alloc, labels, &row, text)? {
        Err(refusal) => Ok(Err(refusal)),
        Ok(held) => {
            if !here.has_room(row.field) {
                return Ok(Err(Refusal::Breaks(Rule::OverLimit)));
            }
            Ok(Ok(Item {
                next: here.behind(row.field),
                held,
            }))
        }
    }
}

// Returns what a line adds to the current message, or why the line is refused. The labels are the digest texts of
// the earlier entries.
#[tactic(auto, unfolding(crate::specs::EntryLine::line_in))]
pub(crate) fn line_in(
    alloc: Global,
    labels: &[Text],
    here: Here,
    line: &[u8],
) -> Result<Result<Item, Refusal>, Memory>
    ensures { IfOk result (λ r. r ≡ line_in labels.now here line.now) }
{
    let Some((name, text)) = parted(line) else {
        return Ok(Err(Refusal::Breaks(Rule::Syntax)));
    };
    if name == b"extra".as_slice() {
        return extra_in(alloc, here, text);
    }
    field_in(alloc, labels, here, name, text)
}
