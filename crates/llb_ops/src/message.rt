//! How a message is read from its records and written, and how it is read as a field of another message: singular, repeated, or a member of a oneof.

ghost use Rattle.std.specs.Prelude.{◌≡◌, List, ℕ, Result, IfOk, true};
ghost use Rattle.llb_wire.specs.Records.{Record as Read};
ghost use Rattle.llb_ops.specs.declared.fault.OpFault.{OpFault};
ghost use Rattle.llb_ops.specs.Faults.{Gives};
ghost use Rattle.llb_ops.specs.Table.{shape_of};
ghost use Rattle.llb_ops.specs.Records.{Shape, views, all, texts_fit, message_of, joined as joined_of, one as one_rule, each as each_rule};
ghost use Rattle.llb_ops.specs.Records.{one_of as one_of_rule};

use crate::fault::OpFault;
use crate::records::{Record, chosen, count, joined, lone_payload, parts, room_for, since};
use crate::table::MessageName;
use llb_wire::{Boxed, Many, Memory};
use std::alloc::Global;

/// A message: its name in the table, how it is read from its records, and its canonical bytes.
pub trait Message: Drop {
    ghost shape: { Shape };

    /// Returns the name of this message in the table of messages.
    fn name() -> MessageName
        ensures { shape_of result ≡ shape };

    ghost reading: { List Read → Result Self OpFault };

    /// Reads the message from its records; their strings must be UTF-8. Fails with the first fault, or with 14 `Memory`.
    fn read(alloc: Global, records: &[Record<'_>]) -> Result<Self, OpFault>
        requires { texts_fit shape (views records.now) ≡ true }
        ensures { Gives (λ m. m) result (reading (views records.now)) };

    ghost writing: { Self → List ℕ };

    /// Returns the canonical bytes. Fails with 5 `Memory` alone.
    fn write(&self, alloc: Global) -> Result<Vec<u8>, Memory>
        ensures { IfOk result (λ v. v.items ≡ writing self.now) };
}

/// A message that is kept on the heap.
impl<M: Message> Message for Boxed<M> {
    ghost shape = { M.shape };

    fn name() -> MessageName {
        M::name()
    }

    ghost reading = { M.reading };

    fn read(alloc: Global, records: &[Record<'_>]) -> Result<Boxed<M>, OpFault> {
        let message = M::read(alloc, records)?;
        Ok(Boxed::new(alloc, message)?)
    }

    ghost writing = { M.writing };

    fn write(&self, alloc: Global) -> Result<Vec<u8>, Memory> {
        self.get().write(alloc)
    }
}

/// The members of a oneof: how the member with a given field number is read from its records, and the canonical bytes of a member.
pub trait Member: Drop {
    ghost reading: { ℕ → List Read → Result Self OpFault };

    /// Reads the member with this number from its records. Fails with the first fault, or with 14 `Memory`.
    fn read(alloc: Global, number: u32, records: &[Record<'_>]) -> Result<Self, OpFault>
        ensures { Gives (λ m. m) result (reading number (all number (views records.now))) };

    ghost writing: { Self → List ℕ };

    /// Returns the canonical bytes of the member's field. Fails with 5 `Memory` alone.
    fn write(&self, alloc: Global) -> Result<Vec<u8>, Memory>
        ensures { IfOk result (λ v. v.items ≡ writing self.now) };
}

/// Splits bytes into records, and reads a message from the records. Fails with the first fault, or with 14 `Memory`.
#[tactic(auto, unfolding(crate::specs::Records::message_of))]
pub fn read_message<M: Message>(alloc: Global, bytes: &[u8]) -> Result<M, OpFault>
    ensures { Gives (λ m. m) result (message_of M.shape M.reading bytes.now) }
{
    let records = parts(alloc, M::name(), bytes)?;
    M::read(alloc, &records)
}

/// Reads a message from the payloads of the records of field `number`, joined one after the other. If there is only one such record, its payload is not copied.
/// Fails with the first fault, or with 14 `Memory`.
pub fn joined_message<M: Message>(
    alloc: Global,
    records: &[Record<'_>],
    number: u32,
) -> Result<M, OpFault>
    ensures { Gives (λ m. m) result (message_of M.shape M.reading (joined_of (all number (views records.now)))) }
{
    if let Some(payload) = lone_payload(records, number) {
        return read_message(alloc, payload);
    }
    let bytes = joined(alloc, records, number)?;
    read_message(alloc, &bytes)
}

/// Reads the message in a singular field from the payloads of the field's records, joined one after the other; returns
/// `None` if there are no records. Fails with the first fault, or with 14 `Memory`.
#[tactic(auto, unfolding(crate::specs::Records::one))]
pub fn one<M: Message>(
    alloc: Global,
    records: &[Record<'_>],
    number: u32,
) -> Result<Option<M>, OpFault>
    ensures { Gives (λ m. m) result (one_rule (message_of M.shape M.reading) (all number (views records.now))) }
{
    if count(records, number) == 0 {
        return Ok(None);
    }
    let message = joined_message(alloc, records, number)?;
    Ok(Some(message))
}

/// Reads the messages of a repeated field, in order. Fails with the first fault, or with 14 `Memory`.
pub fn each<M: Message>(
    alloc: Global,
    records: &[Record<'_>],
    number: u32,
) -> Result<Many<M>, OpFault>
    ensures { Gives (λ ms. ms) result (each_rule (message_of M.shape M.reading) (all number (views records.now))) }
{
    let mut messages = room_for(alloc, records, number)?;
    for part in records {
        if part.number == number {
            let message = read_message::<M>(alloc, part.payload)?;
            messages.push(message)?;
        }
    }
    Ok(Many::new(messages))
}

/// Reads the member of a oneof that is set; returns `None` if no member is set. Fails with the first fault, or with 14 `Memory`.
pub fn one_of<M: Member>(
    alloc: Global,
    records: &[Record<'_>],
    members: &[u32],
) -> Result<Option<M>, OpFault>
    ensures { Gives (λ m. m) result (one_of_rule members.now M.reading (views records.now)) }
{
    match chosen(records, members) {
        Some(number) => {
            let member = M::read(alloc, number, since(records, members, number))?;
            Ok(Some(member))
        }
        None => Ok(None),
    }
}
