//! Writes fields in their canonical bytes, one after the other. Each call that appends to `out` fails with 5 `Memory`
//! alone; after a failure `out` may have some of the call's bytes.

ghost use Rattle.std.specs.Prelude.{◌≡◌, ◌<◌, ◌++◌, ◌≤◌, IfOk, OnOk};
ghost use Rattle.llb_ops.specs.Writing.{set_number, set_bytes, number_field, bytes_field, signed_field, flag_field, message_field};
ghost use Rattle.llb_ops.specs.Writing.{messages_field, each_field, one_of_field};

use crate::message::{Member, Message};
use llb_wire::{Bytes, Memory, Text, Wire, write_record};
use std::alloc::Global;

/// Writes the record of field `number` with this value, even if the value is 0.
#[tactic(auto, unfolding(crate::specs::Writing::set_number))]
pub fn put_set_number(out: &mut Vec<u8>, number: u32, value: u64) -> Result<(), Memory>
    requires some { 0 < number }
    requires small { number ≤ 536_870_911 }
    ensures { OnOk result (out.new.items ≡ out.old.items ++ set_number number value) }
{
    write_record(number, Wire::Varint, value, &[], out)?;
    Ok(())
}

/// Writes the record of field `number` with these bytes, even if there are none.
#[tactic(auto, unfolding(crate::specs::Writing::set_bytes))]
pub fn put_set_bytes(out: &mut Vec<u8>, number: u32, bytes: &[u8]) -> Result<(), Memory>
    requires some { 0 < number }
    requires small { number ≤ 536_870_911 }
    ensures { OnOk result (out.new.items ≡ out.old.items ++ set_bytes number bytes.now) }
{
    write_record(number, Wire::Len, 0, bytes, out)?;
    Ok(())
}

/// Returns the record of a field with these bytes, even if there are none. Fails with 5 `Memory` alone.
pub fn bytes_record(alloc: Global, number: u32, bytes: &[u8]) -> Result<Vec<u8>, Memory>
    requires some { 0 < number }
    requires small { number ≤ 536_870_911 }
    ensures { IfOk result (λ v. v.items ≡ set_bytes number bytes.now) }
{
    let mut out = Vec::new(alloc);
    put_set_bytes(&mut out, number, bytes)?;
    Ok(out)
}

/// Returns the record of a field with a message. Fails with 5 `Memory` alone.
pub fn message_record<M: Message>(
    alloc: Global,
    number: u32,
    message: &M,
) -> Result<Vec<u8>, Memory>
    requires some { 0 < number }
    requires small { number ≤ 536_870_911 }
    ensures { IfOk result (λ v. v.items ≡ set_bytes number (M.writing message.now)) }
{
    let bytes = message.write(alloc)?;
    bytes_record(alloc, number, &bytes)
}

/// Writes the record of field `number` with this value; writes nothing if the value is 0.
#[tactic(auto, unfolding(crate::specs::Writing::number_field))]
fn put_number(out: &mut Vec<u8>, number: u32, value: u64) -> Result<(), Memory>
    requires some { 0 < number }
    requires small { number ≤ 536_870_911 }
    ensures { OnOk result (out.new.items ≡ out.old.items ++ number_field number value) }
{
    if value != 0 {
        put_set_number(out, number, value)?;
    }
    Ok(())
}

/// Writes the record of field `number` with this signed value; writes nothing if the value is 0.
pub fn put_signed(out: &mut Vec<u8>, number: u32, value: i64) -> Result<(), Memory>
    requires some { 0 < number }
    requires small { number ≤ 536_870_911 }
    ensures { OnOk result (out.new.items ≡ out.old.items ++ signed_field number value) }
{
    put_number(out, number, value.cast_unsigned())
}

/// Writes the record of the bool field `number`; writes nothing if the value is false.
pub fn put_flag(out: &mut Vec<u8>, number: u32, value: bool) -> Result<(), Memory>
    requires some { 0 < number }
    requires small { number ≤ 536_870_911 }
    ensures { OnOk result (out.new.items ≡ out.old.items ++ flag_field number value) }
{
    put_number(out, number, u64::from(value))
}

/// Writes the record of field `number` with these bytes; writes nothing if there are none.
#[tactic(auto, unfolding(crate::specs::Writing::bytes_field))]
pub fn put_bytes(out: &mut Vec<u8>, number: u32, bytes: &[u8]) -> Result<(), Memory>
    requires some { 0 < number }
    requires small { number ≤ 536_870_911 }
    ensures { OnOk result (out.new.items ≡ out.old.items ++ bytes_field number bytes.now) }
{
    if !bytes.is_empty() {
        put_set_bytes(out, number, bytes)?;
    }
    Ok(())
}

/// Writes the record of field `number` with a message, even with an empty one; writes nothing if there is no message.
#[tactic(auto, unfolding(crate::specs::Writing::message_field))]
pub fn put_message<M: Message>(
    alloc: Global,
    out: &mut Vec<u8>,
    number: u32,
    message: &Option<M>,
) -> Result<(), Memory>
    requires some { 0 < number }
    requires small { number ≤ 536_870_911 }
    ensures { OnOk result (out.new.items ≡ out.old.items ++ message_field M.writing number message.now) }
{
    if let Some(message) = message {
        let bytes = message.write(alloc)?;
        put_set_bytes(out, number, &bytes)?;
    }
    Ok(())
}

/// Writes the messages of a repeated field, each in a record.
pub fn put_messages<M: Message>(
    alloc: Global,
    out: &mut Vec<u8>,
    number: u32,
    messages: &[M],
) -> Result<(), Memory>
    requires some { 0 < number }
    requires small { number ≤ 536_870_911 }
    ensures { OnOk result (out.new.items ≡ out.old.items ++ messages_field M.writing number messages.now) }
{
    for message in messages {
        let bytes = message.write(alloc)?;
        put_set_bytes(out, number, &bytes)?;
    }
    Ok(())
}

/// Writes the byte strings of a repeated field, each in a record.
pub fn put_each_bytes(out: &mut Vec<u8>, number: u32, items: &[Bytes]) -> Result<(), Memory>
    requires some { 0 < number }
    requires small { number ≤ 536_870_911 }
    ensures { OnOk result (out.new.items ≡ out.old.items ++ each_field number items.now) }
{
    for bytes in items {
        put_set_bytes(out, number, bytes.as_slice())?;
    }
    Ok(())
}

/// Writes the texts of a repeated field, each in a record.
pub fn put_each_text(out: &mut Vec<u8>, number: u32, items: &[Text]) -> Result<(), Memory>
    requires some { 0 < number }
    requires small { number ≤ 536_870_911 }
    ensures { OnOk result (out.new.items ≡ out.old.items ++ each_field number items.now) }
{
    for text in items {
        put_set_bytes(out, number, text.as_str().as_bytes())?;
    }
    Ok(())
}

/// Writes the member of a oneof that is set; writes nothing if none is set.
pub fn put_one_of<M: Member>(
    alloc: Global,
    out: &mut Vec<u8>,
    member: &Option<M>,
) -> Result<(), Memory>
    ensures { OnOk result (out.new.items ≡ out.old.items ++ one_of_field M.writing member.now) }
{
    if let Some(member) = member {
        let bytes = member.write(alloc)?;
        out.extend_from_slice(&bytes)?;
    }
    Ok(())
}

/// Writes the extra bytes, unchanged: the records of fields that the table of messages lacks.
pub fn put_extra(out: &mut Vec<u8>, extra: &Bytes) -> Result<(), Memory>
    ensures { OnOk result (out.new.items ≡ out.old.items ++ extra.now) }
{
    out.extend_from_slice(extra.as_slice())?;
    Ok(())
}
