//! Merges of trees, with the names of `ops.proto` of BuildKit.

use crate::fault::OpFault;
use crate::message::{Message, each};
use crate::records::{Record, last_int64, unnamed, within_limits};
use crate::table::MessageName;
use crate::writing::{put_extra, put_messages, put_signed};
use llb_wire::{Bytes, Many, Memory};
use std::alloc::Global;

/// `MergeOp`: trees that are laid one over another, in their order.
pub struct MergeOp {
    pub inputs: Many<MergeInput>,
    pub extra: Bytes,
}

impl Drop for MergeOp {
    fn drop(self) {
        let MergeOp {
            inputs: _,
            extra: _,
        } = self;
    }
}

/// `MergeInput`: names one of the trees to be merged: the tree of the op's input with this number, or the empty tree if the number is -1.
pub struct MergeInput {
    pub input: i64,
    pub extra: Bytes,
}

impl Drop for MergeInput {
    fn drop(self) {
        let MergeInput { input: _, extra: _ } = self;
    }
}

impl Message for MergeOp {
    ghost use Rattle.llb_ops.specs.Messages.{merge_op_shape, merge_op_in};

    ghost shape = { merge_op_shape };

    fn name() -> MessageName {
        MessageName::MergeOp
    }

    ghost reading = { merge_op_in };

    #[tactic(auto, unfolding(crate::specs::Messages::merge_op_in))]
    fn read(alloc: Global, records: &[Record<'_>]) -> Result<MergeOp, OpFault> {
        let inputs = each::<MergeInput>(alloc, records, 1)?;
        if !within_limits(&[1], records) {
            return Err(OpFault::OverLimit);
        }
        let extra = unnamed(alloc, MessageName::MergeOp, records)?;
        Ok(MergeOp { inputs, extra })
    }

    ghost use Rattle.llb_ops.specs.Writing.{merge_op_bytes};

    ghost writing = { merge_op_bytes };

    #[tactic(auto, unfolding(crate::specs::Writing::merge_op_bytes))]
    fn write(&self, alloc: Global) -> Result<Vec<u8>, Memory> {
        let mut out = Vec::new(alloc);
        put_messages(alloc, &mut out, 1, self.inputs.as_slice())?;
        put_extra(&mut out, &self.extra)?;
        Ok(out)
    }
}

impl Message for MergeInput {
    ghost use Rattle.llb_ops.specs.Messages.{merge_input_shape, merge_input_in};

    ghost shape = { merge_input_shape };

    fn name() -> MessageName {
        MessageName::MergeInput
    }

    ghost reading = { merge_input_in };

    #[tactic(auto, unfolding(crate::specs::Messages::merge_input_in))]
    fn read(alloc: Global, records: &[Record<'_>]) -> Result<MergeInput, OpFault> {
        let extra = unnamed(alloc, MessageName::MergeInput, records)?;
        Ok(MergeInput {
            input: last_int64(records, 1),
            extra,
        })
    }

    ghost use Rattle.llb_ops.specs.Writing.{merge_input_bytes};

    ghost writing = { merge_input_bytes };

    #[tactic(auto, unfolding(crate::specs::Writing::merge_input_bytes))]
    fn write(&self, alloc: Global) -> Result<Vec<u8>, Memory> {
        let mut out = Vec::new(alloc);
        put_signed(&mut out, 1, self.input)?;
        put_extra(&mut out, &self.extra)?;
        Ok(out)
    }
}
