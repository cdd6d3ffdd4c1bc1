//! The records of a message, and how the value of each kind of field is read from them. The same calls serve all messages.

ghost use Rattle.std.specs.Prelude.{◌≡◌, ◌+◌, ◌≤◌, ◌<◌, ◌==◌, Option, Some, Ok, [], length, drop, take, map, IfOk, option_map, is_none, is_some, not, true};
ghost use Rattle.std.specs.Option.{IfSome};
ghost use Rattle.std.specs.Str.{IsUtf8, is_utf8};
ghost use Rattle.llb_wire.specs.Records.{record_of};
ghost use Rattle.llb_ops.specs.Faults.{Gives};
ghost use Rattle.llb_ops.specs.declared.payloads_and_limits.Form.TheVariants as form;
ghost use Rattle.llb_ops.specs.Table.{shape_of};
ghost use Rattle.llb_ops.specs.CanonicalFields.{are_unnamed};
ghost use Rattle.llb_ops.specs.Records.{view, views, form_of, wire_fits, records_from, Starts, texts_fit, text_fits, parts as parts_of};
ghost use Rattle.llb_ops.specs.Records.{all as all_of, last_of, number as number_of, payload as payload_of, payloads, uint32, int32, int64};
ghost use Rattle.llb_ops.specs.Records.{flag, joined as joined_of, unnamed as unnamed_of, chosen as chosen_of, since as since_of};
ghost use Rattle.llb_ops.specs.Records.{is_member as is_member_of, is_other as is_other_of, member as member_of};
ghost use Rattle.llb_ops.specs.Records.{within_limits as within_limits_of};

use crate::fault::OpFault;
use crate::payloads_and_limits::{FIELD_LIMIT, Form};
use crate::table::{MessageName, field_numbered};
use llb_wire::{Bytes, Field, Many, Memory, Text, Wire, next_record};
use std::alloc::Global;
use std::str::{from_utf8, from_utf8_unchecked};

/// A record of a message: its field number, its wire type and value, its payload, and all of its bytes (`text`).
#[derive(Clone, Copy)]
pub struct Record<'a> {
    pub number: u32,
    pub wire: Wire,
    pub value: u64,
    pub payload: &'a [u8],
    pub text: &'a [u8],
}

/// The record at the start of some bytes, and the bytes after it.
#[derive(Clone, Copy)]
pub struct Front<'a> {
    pub record: Record<'a>,
    pub after: &'a [u8],
}

// Returns the form of the field with this number; `None` if the table lacks such a field of the message.
fn form(message: MessageName, number: u32) -> Option<Form>
    ensures { result ≡ form_of (shape_of message) number }
{
    match field_numbered(message, number) {
        Some(row) => Some(row.field.kind.form()),
        None => None,
    }
}

// Returns whether the record has the wire type of its field; true if the table lacks the field.
fn fits(message: MessageName, field: &Field) -> bool
    ensures { result ≡ wire_fits (form_of (shape_of message) field.now.number) field.now.wire }
{
    match (form(message, field.number), field.wire) {
        (None, _) => true,
        (Some(Form::Number), Wire::Varint) => true,
        (Some(Form::Number), _) => false,
        (Some(_), Wire::Len) => true,
        (Some(_), _) => false,
    }
}

fn front_of<'a>(bytes: &'a [u8], field: &Field) -> Front<'a>
    requires ordered { field.now.start ≤ field.now.«end» }
    requires inside { field.now.«end» ≤ length bytes.now }
    ensures record { view result.record ≡ record_of bytes.now field.now }
    ensures after { result.after.now ≡ drop field.now.«end» bytes.now }
{
    let (text, after) = bytes.split_at(field.end);
    let (_, payload) = text.split_at(field.start);
    let record = Record {
        number: field.number,
        wire: field.wire,
        value: field.value,
        payload,
        text,
    };
    Front { record, after }
}

/// Returns the record at the start of a message's bytes, and the bytes after it; `None` at the end. Fails with 1 to 4
/// `Wire` if the record is not readable, and with 11 `WrongWireType` if the table has the record's field and the
/// record has another wire type than the field.
pub fn next_part<'a>(message: MessageName, bytes: &'a [u8]) -> Result<Option<Front<'a>>, OpFault>
    ensures { Starts (shape_of message) bytes.now result }
{
    let Some(field) = next_record(bytes, 0)? else {
        return Ok(None);
    };
    if !fits(message, &field) {
        return Err(OpFault::WrongWireType);
    }
    Ok(Some(front_of(bytes, &field)))
}

/// Splits the bytes of a message into its records, from left to right. Fails as `next_part` does, or with 14 `Memory`.
pub fn split<'a>(
    alloc: Global,
    message: MessageName,
    bytes: &'a [u8],
) -> Result<Vec<Record<'a>>, OpFault>
    ensures { Gives (λ v. views v.items) result (records_from (shape_of message) 0 bytes.now) }
{
    let mut records = Vec::new(alloc);
    let mut rest = bytes;
    while let Some(front) = next_part(message, rest)? {
        records.push(front.record)?;
        rest = front.after;
    }
    Ok(records)
}

#[tactic(auto, using(crate::proofs::TextValidity::utf8_true, crate::proofs::TextValidity::utf8_false))]
fn is_text(bytes: &[u8]) -> bool
    ensures { result ≡ is_utf8 bytes.now }
{
    match from_utf8(bytes) {
        Ok(_) => true,
        Err(_) => false,
    }
}

fn text_is_utf8(message: MessageName, part: &Record<'_>) -> bool
    ensures { result ≡ text_fits (shape_of message) (view part.now) }
{
    match form(message, part.number) {
        Some(Form::Text) => is_text(part.payload),
        _ => true,
    }
}

fn texts_are_utf8(message: MessageName, records: &[Record<'_>]) -> bool
    ensures { result ≡ texts_fit (shape_of message) (views records.now) }
{
    for record in records {
        if !text_is_utf8(message, record) {
            return false;
        }
    }
    true
}

/// Splits the bytes of a message into its records, and checks that each record of a field of the table has the field's
/// wire type, and that strings are UTF-8. Fails as `split` does, and then with 12 `NotUtf8`.
#[tactic(auto, unfolding(crate::specs::Records::parts))]
pub fn parts<'a>(
    alloc: Global,
    message: MessageName,
    bytes: &'a [u8],
) -> Result<Vec<Record<'a>>, OpFault>
    ensures gives { Gives (λ v. views v.items) result (parts_of (shape_of message) bytes.now) }
    ensures texts { IfOk result (λ v. texts_fit (shape_of message) (views v.items) ≡ true) }
{
    let records = split(alloc, message, bytes)?;
    if !texts_are_utf8(message, &records) {
        return Err(OpFault::NotUtf8);
    }
    Ok(records)
}

// Returns the last record of a field, the only one that counts; `None` if the field has no record.
fn last<'a>(records: &[Record<'a>], number: u32) -> Option<Record<'a>>
    ensures { option_map view result ≡ last_of (all_of number (views records.now)) }
{
    let mut last = None;
    for record in records {
        if record.number == number {
            last = Some(*record);
        }
    }
    last
}

// Returns the number in the last record of a field; 0 if the field has no record.
fn last_number(records: &[Record<'_>], number: u32) -> u64
    ensures { result ≡ number_of (all_of number (views records.now)) }
{
    match last(records, number) {
        Some(record) => record.value,
        None => 0,
    }
}

/// Returns the value of an int64 field: the number in its last record, as a signed number; 0 if the field has no record.
pub fn last_int64(records: &[Record<'_>], number: u32) -> i64
    ensures { result ≡ int64 (number_of (all_of number (views records.now))) }
{
    last_number(records, number).cast_signed()
}

/// Returns the value of a uint32 field: the low 32 bits of the number in its last record; 0 if the field has no record.
pub fn last_uint32(records: &[Record<'_>], number: u32) -> u32
    ensures { result ≡ uint32 (number_of (all_of number (views records.now))) }
{
    (last_number(records, number) % 0x1_0000_0000) as u32
}

/// Returns the value of an int32 or enum field: the low 32 bits of the number in its last record, as a signed number;
/// 0 if the field has no record.
pub fn last_int32(records: &[Record<'_>], number: u32) -> i32
    ensures { result ≡ int32 (number_of (all_of number (views records.now))) }
{
    last_uint32(records, number).cast_signed()
}

/// Returns the value of a bool field: whether the number in its last record is not 0; false if the field has no record.
pub fn last_flag(records: &[Record<'_>], number: u32) -> bool
    ensures { result ≡ flag (number_of (all_of number (views records.now))) }
{
    last_number(records, number) != 0
}

/// Returns the payload of a field's last record; no bytes if the field has no record.
fn last_payload<'a>(records: &[Record<'a>], number: u32) -> &'a [u8]
    ensures { result.now ≡ payload_of (all_of number (views records.now)) }
{
    match last(records, number) {
        Some(record) => record.payload,
        None => &[],
    }
}

/// Returns the bytes of a field: the payload of its last record, or no bytes if the field has no record. Fails with 5 `Memory` alone.
pub fn last_bytes(alloc: Global, records: &[Record<'_>], number: u32) -> Result<Bytes, Memory>
    ensures { IfOk result (λ b. b ≡ payload_of (all_of number (views records.now))) }
{
    Bytes::from_slice(alloc, last_payload(records, number))
}

/// Returns the value of a string field; empty if the field has no record. In these records the payloads of all string fields must be UTF-8.
/// Fails with 5 `Memory` alone.
pub fn last_text(
    alloc: Global,
    message: MessageName,
    records: &[Record<'_>],
    number: u32,
) -> Result<Text, Memory>
    requires named { form_of (shape_of message) number ≡ Some form.Text }
    requires texts { texts_fit (shape_of message) (views records.now) ≡ true }
    ensures { IfOk result (λ t. t ≡ payload_of (all_of number (views records.now))) }
{
    let payload = last_payload(records, number);
    Text::from_str(alloc, unsafe { from_utf8_unchecked(payload) })
}

/// Returns how many records a field has.
pub fn count(records: &[Record<'_>], number: u32) -> usize
    ensures { result ≡ length (all_of number (views records.now)) }
{
    records.iter().filter(|r| r.number == number).count()
}

/// Makes an empty list with room for one item per record of a field, but for at most 1,024 items. Fails with 5 `Memory` alone.
pub fn room_for<T: Drop>(
    alloc: Global,
    records: &[Record<'_>],
    number: u32,
) -> Result<Vec<T>, Memory>
    ensures { IfOk result (λ v. v.items ≡ []) }
{
    let room = count(records, number).min(FIELD_LIMIT);
    let items = Vec::with_capacity(alloc, room)?;
    Ok(items)
}

/// Returns the texts of a repeated field, in order. Fails with 5 `Memory` alone.
pub fn each_text(
    alloc: Global,
    message: MessageName,
    records: &[Record<'_>],
    number: u32,
) -> Result<Many<Text>, Memory>
    requires named { form_of (shape_of message) number ≡ Some form.Text }
    requires texts { texts_fit (shape_of message) (views records.now) ≡ true }
    ensures { IfOk result (λ ts. ts ≡ payloads (all_of number (views records.now))) }
{
    let mut items = room_for(alloc, records, number)?;
    for record in records {
        if record.number == number {
            let text = Text::from_str(alloc, unsafe { from_utf8_unchecked(record.payload) })?;
            items.push(text)?;
        }
    }
    Ok(Many::new(items))
}

/// Returns the payload of a field's record, if the field has exactly one record.
#[tactic(auto, using(crate::proofs::JoinedPayloads::of_one))]
pub fn lone_payload<'a>(records: &[Record<'a>], number: u32) -> Option<&'a [u8]>
    ensures there { is_some result ≡ (length (all_of number (views records.now)) == 1) }
    ensures payload { IfSome result (λ payload. payload.now ≡ joined_of (all_of number (views records.now))) }
{
    if count(records, number) != 1 {
        return None;
    }
    Some(last_payload(records, number))
}

/// Returns the payloads of a field, joined one after the other. Fails with 5 `Memory` alone.
pub fn joined(alloc: Global, records: &[Record<'_>], number: u32) -> Result<Vec<u8>, Memory>
    ensures { IfOk result (λ v. v.items ≡ joined_of (all_of number (views records.now))) }
{
    let mut out = Vec::new(alloc);
    for record in records {
        if record.number == number {
            out.extend_from_slice(record.payload)?;
        }
    }
    Ok(out)
}

/// Returns the byte strings of a repeated field, in order. Fails with 5 `Memory` alone.
pub fn each_bytes(alloc: Global, records: &[Record<'_>], number: u32) -> Result<Many<Bytes>, Memory>
    ensures { IfOk result (λ bs. bs ≡ payloads (all_of number (views records.now))) }
{
    let mut items = room_for(alloc, records, number)?;
    for record in records {
        if record.number == number {
            let bytes = Bytes::from_slice(alloc, record.payload)?;
            items.push(bytes)?;
        }
    }
    Ok(Many::new(items))
}

/// Returns whether each of these repeated fields has at most 1,024 records.
pub fn within_limits(repeated: &[u32], records: &[Record<'_>]) -> bool
    ensures { result ≡ within_limits_of repeated.now (views records.now) }
{
    for number in repeated {
        if count(records, *number) > FIELD_LIMIT {
            return false;
        }
    }
    true
}

/// Returns the number of the member of a oneof that is set: the field number of the last record of any member; `None` if there is no such record.
pub fn chosen(records: &[Record<'_>], members: &[u32]) -> Option<u32>
    ensures { result ≡ chosen_of members.now (views records.now) }
{
    let mut last = None;
    for part in records {
        if members.contains(&part.number) {
            last = Some(part.number);
        }
    }
    last
}

fn is_other(members: &[u32], number: u32, part: &Record<'_>) -> bool
    ensures { result ≡ is_other_of members.now number (view part.now) }
{
    members.contains(&part.number) && part.number != number
}

/// Returns the records after the last record of any member of a oneof other than the member `number`.
pub fn since<'r, 'a>(records: &'r [Record<'a>], members: &[u32], number: u32) -> &'r [Record<'a>]
    ensures { views result.now ≡ since_of (is_other_of members.now number) (views records.now) }
{
    let mut start = 0;
    for (i, part) in records.iter().enumerate() {
        if is_other(members, number, part) {
            start = i + 1;
        }
    }
    let (_, rest) = records.split_at(start);
    rest
}

fn is_unnamed(message: MessageName, part: &Record<'_>) -> bool
    ensures { result ≡ is_none (form_of (shape_of message) part.now.number) }
{
    form(message, part.number).is_none()
}

/// Returns whether bytes can be extra bytes of a message: only records of fields that the table lacks for the message.
pub fn are_unnamed(message: MessageName, bytes: &[u8]) -> bool
    ensures { result ≡ are_unnamed message bytes.now }
{
    let mut rest = bytes;
    loop {
        match next_part(message, rest) {
            Err(_) => return false,
            Ok(None) => return true,
            Ok(Some(front)) => {
                if !is_unnamed(message, &front.record) {
                    return false;
                }
                rest = front.after;
            }
        }
    }
}

/// Returns the extra bytes: the records of fields that the table lacks for the message, in order and unchanged. Fails with 5 `Memory` alone.
pub fn unnamed(alloc: Global, message: MessageName, records: &[Record<'_>]) -> Result<Bytes, Memory>
    ensures { IfOk result (λ b. b ≡ unnamed_of (shape_of message) (views records.now)) }
{
    let mut out = Vec::new(alloc);
    for record in records {
        if is_unnamed(message, record) {
            out.extend_from_slice(record.text)?;
        }
    }
    Ok(Bytes::new(out))
}
