//! An op and its inputs, with the names of `ops.proto` of BuildKit: read from bytes, and written as bytes.

ghost use Rattle.std.specs.Prelude.{◌≡◌, ◌≤◌, Ok, IfErr, IfOk, length, true};
ghost use Rattle.llb_ops.specs.Faults.{Gives, is_memory};
ghost use Rattle.llb_ops.specs.Limits.{entry_limit};
ghost use Rattle.llb_ops.specs.OpKindNames.{kind_text};
ghost use Rattle.llb_ops.specs.Messages.{op_of};
ghost use Rattle.llb_ops.specs.Writing.{op_bytes};
ghost use Rattle.llb_ops.specs.OpsWithinLimits.{IsWithinLimits};
ghost use Rattle.llb_ops.specs.ReadWriteLaws.{IsReadAgain, IsReadOfRecords};

use crate::exec::ExecOp;
use crate::fault::OpFault;
use crate::file_op::FileOp;
use crate::merge::MergeOp;
use crate::message::{Member, Message, each, joined_message, one_of, read_message};
use crate::payloads_and_limits::ENTRY_LIMIT;
use crate::records::{Record, joined, last_int64, last_text, unnamed, within_limits};
use crate::source::SourceOp;
use crate::table::MessageName;
use crate::writing::{
    bytes_record, message_record, put_bytes, put_extra, put_messages, put_one_of, put_signed,
};
use llb_wire::{Boxed, Bytes, Many, Memory, Text};
use std::alloc::Global;

/// `Op`: a vertex of the build graph, as an entry spells the vertex.
pub struct Op {
    pub inputs: Many<Input>,
    /// The member of the oneof that is set, if any.
    pub kind: Option<Kind>,
    /// The extra bytes: the records of fields that the table of messages lacks, unchanged.
    pub extra: Bytes,
}

impl Drop for Op {
    fn drop(self) {
        let Op {
            inputs: _,
            kind: _,
            extra: _,
        } = self;
    }
}

/// What an op does. A build or a diff is not read: its value is the joined payloads of the records of its field. `ExecOp` and
/// `SourceOp`, which are large, are on the heap, so that an op of another kind is small.
#[derive(Drop)]
pub enum Kind {
    Exec(Boxed<ExecOp>),
    Source(Boxed<SourceOp>),
    File(FileOp),
    Build(Bytes),
    Merge(MergeOp),
    Diff(Bytes),
}

/// `Input`: names an output of another op, by the digest of that op's bytes and the index of the output.
pub struct Input {
    pub digest: Text,
    pub index: i64,
    pub extra: Bytes,
}

impl Drop for Input {
    fn drop(self) {
        let Input {
            digest: _,
            index: _,
            extra: _,
        } = self;
    }
}

impl Message for Input {
    ghost use Rattle.llb_ops.specs.Messages.{input_shape, input_in};

    ghost shape = { input_shape };

    fn name() -> MessageName {
        MessageName::Input
    }

    ghost reading = { input_in };

    #[tactic(auto, unfolding(crate::specs::Messages::input_in))]
    fn read(alloc: Global, records: &[Record<'_>]) -> Result<Input, OpFault> {
        let digest = last_text(alloc, MessageName::Input, records, 1)?;
        let extra = unnamed(alloc, MessageName::Input, records)?;
        Ok(Input {
            digest,
            index: last_int64(records, 2),
            extra,
        })
    }

    ghost use Rattle.llb_ops.specs.Writing.{input_bytes};

    ghost writing = { input_bytes };

    #[tactic(auto, unfolding(crate::specs::Writing::input_bytes))]
    fn write(&self, alloc: Global) -> Result<Vec<u8>, Memory> {
        let mut out = Vec::new(alloc);
        put_bytes(&mut out, 1, self.digest.as_str().as_bytes())?;
        put_signed(&mut out, 2, self.index)?;
        put_extra(&mut out, &self.extra)?;
        Ok(out)
    }
}

const KINDS: [u32; 6] = [2, 3, 4, 5, 6, 7];

impl Member for Kind {
    ghost use Rattle.llb_ops.specs.Messages.{kind_of};

    ghost reading = { kind_of };

    #[tactic(auto, unfolding(crate::specs::Messages::kind_of))]
    fn read(alloc: Global, number: u32, records: &[Record<'_>]) -> Result<Kind, OpFault> {
        match number {
            2 => Ok(Kind::Exec(joined_message(alloc, records, number)?)),
            3 => Ok(Kind::Source(joined_message(alloc, records, number)?)),
            4 => Ok(Kind::File(joined_message(alloc, records, number)?)),
            5 => Ok(Kind::Build(Bytes::new(joined(alloc, records, number)?))),
            6 => Ok(Kind::Merge(joined_message(alloc, records, number)?)),
            _ => Ok(Kind::Diff(Bytes::new(joined(alloc, records, number)?))),
        }
    }

    ghost use Rattle.llb_ops.specs.Writing.{kind_bytes};

    ghost writing = { kind_bytes };

    #[tactic(auto, unfolding(crate::specs::Writing::kind_bytes))]
    fn write(&self, alloc: Global) -> Result<Vec<u8>, Memory> {
        match self {
            Kind::Exec(op) => message_record(alloc, 2, op),
            Kind::Source(op) => message_record(alloc, 3, op),
            Kind::File(op) => message_record(alloc, 4, op),
            Kind::Build(bytes) => bytes_record(alloc, 5, bytes.as_slice()),
            Kind::Merge(op) => message_record(alloc, 6, op),
            Kind::Diff(bytes) => bytes_record(alloc, 7, bytes.as_slice()),
        }
    }
}

impl Message for Op {
    ghost use Rattle.llb_ops.specs.Messages.{op_shape, op_in};

    ghost shape = { op_shape };

    fn name() -> MessageName {
        MessageName::Op
    }

    ghost reading = { op_in };

    #[tactic(auto, unfolding(crate::specs::Messages::op_in))]
    fn read(alloc: Global, records: &[Record<'_>]) -> Result<Op, OpFault> {
        let inputs = each::<Input>(alloc, records, 1)?;
        let kind = one_of::<Kind>(alloc, records, &KINDS)?;
        if !within_limits(&[1], records) {
            return Err(OpFault::OverLimit);
        }
        let extra = unnamed(alloc, MessageName::Op, records)?;
        Ok(Op {
            inputs,
            kind,
            extra,
        })
    }

    ghost use Rattle.llb_ops.specs.Writing.{op_bytes};

    ghost writing = { op_bytes };

    #[tactic(auto, unfolding(crate::specs::Writing::op_bytes))]
    fn write(&self, alloc: Global) -> Result<Vec<u8>, Memory> {
        let mut out = Vec::new(alloc);
        put_messages(alloc, &mut out, 1, self.inputs.as_slice())?;
        put_one_of(alloc, &mut out, &self.kind)?;
        put_extra(&mut out, &self.extra)?;
        Ok(out)
    }
}

/// Reads an entry as an op.
///
/// Fails with the first fault: 13 `OverLimit` for an entry of more than 16,777,216 bytes; then the faults of the message Op, in this order: at the first faulty
/// record from left to right, 1 to 4 `Wire` if it can't be read, or 11 `WrongWireType` if the table of messages has its field with another wire type; 12
/// `NotUtf8` for a string; the faults of nested messages, in the order of their field numbers, and within each message in this same order; 13 `OverLimit`
/// for a field that has more than 1,024 records. Fails with 14 `Memory` if memory is refused, but never for an entry that is too long.
#[tactic(auto, unfolding(crate::specs::Messages::op_of))]
pub fn read_op(alloc: Global, bytes: &[u8]) -> Result<Op, OpFault>
    ensures gives { Gives (λ op. op) result (op_of bytes.now) }
    ensures last { IfErr result (λ e. is_memory e ≡ true → length bytes.now ≤ entry_limit) }
    ensures within { IfOk result IsWithinLimits }
{
    if bytes.len() > ENTRY_LIMIT {
        return Err(OpFault::OverLimit);
    }
    read_message(alloc, bytes)
}

/// Returns the canonical bytes of an op. Fails with 14 `Memory` alone.
pub fn write_op(alloc: Global, op: &Op) -> Result<Bytes, OpFault>
    ensures { Gives (λ bytes. bytes) result (Ok (op_bytes op.now)) }
{
    let bytes = op.write(alloc)?;
    Ok(Bytes::new(bytes))
}

/// Returns the name of an op's kind; `none` if the op has no kind. No loaded graph has an op of the kind `build` or `diff`, or an op without a kind.
pub fn kind_name(op: &Op) -> &'static str
    ensures { result.now ≡ kind_text op.now.kind }
{
    match &op.kind {
        Some(kind) => match kind {
            Kind::Source(_) => "source",
            Kind::File(_) => "file",
            Kind::Merge(_) => "merge",
            Kind::Exec(_) => "exec",
            Kind::Build(_) => "build",
            Kind::Diff(_) => "diff",
        },
        None => "none",
    }
}

/// Proves for every message: if its bytes are read, the records are those that the bytes spell by the grammar of the wire; bytes that spell records are refused
/// only if a record does not fit its field in the table. An op is read from the records that its entry spells, and from nothing else.
pub fn op_is_read_of_records(bytes: &[u8])
    ensures { IsReadOfRecords bytes.now }
{
    let _ = bytes;
}

/// Proves that an op that was read is read again, as the same op, from its canonical bytes, if these are within the
/// limit of an entry.
pub fn op_is_read_again(op: &Op)
    ensures { IsReadAgain op.now }
{
    let _ = op;
}
