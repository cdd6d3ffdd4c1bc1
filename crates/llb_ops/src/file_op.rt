//! File ops and their actions, with the names of `ops.proto` of BuildKit.

ghost use Rattle.std.specs.Prelude.{◌≡◌, ◌==◌, Ok, IfOk, length};
ghost use Rattle.llb_ops.specs.Faults.{Gives};

use crate::actions::{CopyFile, MkDir, MkFile, Rm};
use crate::fault::OpFault;
use crate::message::{Member, Message, each, joined_message, one_of};
use crate::records::{Record, last_int64, unnamed, within_limits};
use crate::table::MessageName;
use crate::writing::{message_record, put_extra, put_messages, put_one_of, put_signed};
use llb_wire::{Bytes, Memory};
use std::alloc::Global;
use std::marker::Model;
use std::sync::Arc;

/// `FileOp`: actions on trees, which are done in their order.
pub struct FileOp {
    pub actions: Actions,
    pub extra: Bytes,
}

impl Drop for FileOp {
    fn drop(self) {
        let FileOp {
            actions: _,
            extra: _,
        } = self;
    }
}

/// The actions of a file op. Copies of the op share the actions. Contracts see the list of actions.
pub struct Actions {
    shared: Arc<Vec<Action>>,
}

impl Drop for Actions {
    fn drop(self) {
        let Actions { shared: _ } = self;
    }
}

/// `FileAction`: one action, its inputs, and the number of the output that the action's result becomes; -1 if the result becomes no output.
pub struct Action {
    pub input: i64,
    pub secondary_input: i64,
    pub output: i64,
    /// The member of the oneof that is set, if any.
    pub kind: Option<ActionKind>,
    pub extra: Bytes,
}

impl Drop for Action {
    fn drop(self) {
        let Action {
            input: _,
            secondary_input: _,
            output: _,
            kind: _,
            extra: _,
        } = self;
    }
}

/// What an action does.
#[derive(Drop)]
pub enum ActionKind {
    Copy(CopyFile),
    MkFile(MkFile),
    MkDir(MkDir),
    Rm(Rm),
}

impl Model for Actions {
    ghost use Rattle.std.specs.Prelude.{List};
    ghost use Rattle.std.specs.Arc.{arc_value};
    ghost use Rattle.llb_ops.specs.declared.file_op.Action.{Action as ActionValue};

    ghost Value = { List ActionValue };

    ghost view = { λ a. (arc_value a.shared).items };
}

impl Actions {
    /// Makes a list of these actions. Copies of the list share the actions. Fails with 5 `Memory` alone.
    pub fn new(alloc: Global, actions: Vec<Action>) -> Result<Actions, Memory>
        ensures { IfOk result (λ a. a ≡ actions.items) }
    {
        let shared = Arc::new(alloc, actions)?;
        Ok(Actions { shared })
    }

    /// Returns the actions as a slice.
    pub fn as_slice(&self) -> &[Action]
        ensures { result.now ≡ self.now }
    {
        self.shared.as_slice()
    }

    /// Returns the number of actions.
    pub fn len(&self) -> usize
        ensures { result ≡ length self.now }
    {
        self.shared.len()
    }

    /// Returns whether there are no actions.
    pub fn is_empty(&self) -> bool
        ensures { result ≡ (length self.now == 0) }
    {
        self.shared.is_empty()
    }

    /// Copies the list; the copy and the list share the actions. Fails with 5 `Memory` alone.
    pub fn copy(&self) -> Result<Actions, Memory>
        ensures { IfOk result (λ a. a ≡ self.now) }
    {
        let shared = Arc::try_clone(&self.shared)?;
        Ok(Actions { shared })
    }
}

impl FileOp {
    /// Copies the op; the copy and the op share one list of actions. Fails with 14 `Memory` alone.
    pub fn copy(&self) -> Result<FileOp, OpFault>
        ensures { Gives (λ x. x) result (Ok self.now) }
    {
        let actions = self.actions.copy()?;
        let extra = self.extra.copy()?;
        Ok(FileOp { actions, extra })
    }
}

impl Message for FileOp {
    ghost use Rattle.llb_ops.specs.Messages.{file_op_shape, file_op_in};

    ghost shape = { file_op_shape };

    fn name() -> MessageName {
        MessageName::FileOp
    }

    ghost reading = { file_op_in };

    #[tactic(auto, unfolding(crate::specs::Messages::file_op_in))]
    fn read(alloc: Global, records: &[Record<'_>]) -> Result<FileOp, OpFault> {
        let actions = each::<Action>(alloc, records, 2)?;
        if !within_limits(&[2], records) {
            return Err(OpFault::OverLimit);
        }
        let extra = unnamed(alloc, MessageName::FileOp, records)?;
        let actions = Actions::new(alloc, actions.into_vec())?;
        Ok(FileOp { actions, extra })
    }

    ghost use Rattle.llb_ops.specs.Writing.{file_op_bytes};

    ghost writing = { file_op_bytes };

    #[tactic(auto, unfolding(crate::specs::Writing::file_op_bytes))]
    fn write(&self, alloc: Global) -> Result<Vec<u8>, Memory> {
        let mut out = Vec::new(alloc);
        put_messages(alloc, &mut out, 2, self.actions.as_slice())?;
        put_extra(&mut out, &self.extra)?;
        Ok(out)
    }
}

impl Message for Action {
    ghost use Rattle.llb_ops.specs.Messages.{action_shape, action_in};

    ghost shape = { action_shape };

    fn name() -> MessageName {
        MessageName::FileAction
    }

    ghost reading = { action_in };

    #[tactic(auto, unfolding(crate::specs::Messages::action_in))]
    fn read(alloc: Global, records: &[Record<'_>]) -> Result<Action, OpFault> {
        let kind = one_of::<ActionKind>(alloc, records, &ACTION_KINDS)?;
        let extra = unnamed(alloc, MessageName::FileAction, records)?;
        Ok(Action {
            input: last_int64(records, 1),
            secondary_input: last_int64(records, 2),
            output: last_int64(records, 3),
            kind,
            extra,
        })
    }

    ghost use Rattle.llb_ops.specs.Writing.{action_bytes};

    ghost writing = { action_bytes };

    #[tactic(auto, unfolding(crate::specs::Writing::action_bytes))]
    fn write(&self, alloc: Global) -> Result<Vec<u8>, Memory> {
        let mut out = Vec::new(alloc);
        put_signed(&mut out, 1, self.input)?;
        put_signed(&mut out, 2, self.secondary_input)?;
        put_signed(&mut out, 3, self.output)?;
        put_one_of(alloc, &mut out, &self.kind)?;
        put_extra(&mut out, &self.extra)?;
        Ok(out)
    }
}

const ACTION_KINDS: [u32; 4] = [4, 5, 6, 7];

impl Member for ActionKind {
    ghost use Rattle.llb_ops.specs.Messages.{action_kind_of};

    ghost reading = { action_kind_of };

    fn read(alloc: Global, number: u32, records: &[Record<'_>]) -> Result<ActionKind, OpFault> {
        match number {
            4 => Ok(ActionKind::Copy(joined_message(alloc, records, number)?)),
            5 => Ok(ActionKind::MkFile(joined_message(alloc, records, number)?)),
            6 => Ok(ActionKind::MkDir(joined_message(alloc, records, number)?)),
            _ => Ok(ActionKind::Rm(joined_message(alloc, records, number)?)),
        }
    }

    ghost use Rattle.llb_ops.specs.Writing.{action_kind_bytes};

    ghost writing = { action_kind_bytes };

    #[tactic(auto, unfolding(crate::specs::Writing::action_kind_bytes))]
    fn write(&self, alloc: Global) -> Result<Vec<u8>, Memory> {
        match self {
            ActionKind::Copy(action) => message_record(alloc, 4, action),
            ActionKind::MkFile(action) => message_record(alloc, 5, action),
            ActionKind::MkDir(action) => message_record(alloc, 6, action),
            ActionKind::Rm(action) => message_record(alloc, 7, action),
        }
    }
}
