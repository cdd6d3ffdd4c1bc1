//! Execs, their mounts and the options of caches, with the names of `ops.proto` of BuildKit. An enum is kept as its number.

use crate::fault::OpFault;
use crate::message::{Message, each, one};
use crate::records::{
    Record, each_bytes, each_text, last_flag, last_int32, last_int64, last_text, unnamed,
    within_limits,
};
use crate::table::MessageName;
use crate::writing::{
    put_bytes, put_each_bytes, put_each_text, put_extra, put_flag, put_message, put_messages,
    put_signed,
};
use llb_wire::{Bytes, Many, Memory, Text};
use std::alloc::Global;

/// `ExecOp`: commands, and the mounts on which they run.
pub struct ExecOp {
    pub meta: Option<Meta>,
    pub mounts: Many<Mount>,
    pub network: i32,
    pub security: i32,
    /// The secrets of the environment: payloads of messages that are not read.
    pub secretenv: Many<Bytes>,
    pub extra: Bytes,
}

impl Drop for ExecOp {
    fn drop(self) {
        let ExecOp {
            meta: _,
            mounts: _,
            network: _,
            security: _,
            secretenv: _,
            extra: _,
        } = self;
    }
}

/// `Meta`: the words that are run, and their environment, directory and user.
pub struct Meta {
    pub args: Many<Text>,
    pub env: Many<Text>,
    pub cwd: Text,
    pub user: Text,
    pub extra: Bytes,
}

impl Drop for Meta {
    fn drop(self) {
        let Meta {
            args: _,
            env: _,
            cwd: _,
            user: _,
            extra: _,
        } = self;
    }
}

/// `Mount`: a tree that the commands of an exec see at the path `dest`.
pub struct Mount {
    pub input: i64,
    pub selector: Text,
    pub dest: Text,
    /// The number of the output that the mount's tree becomes; -1 if the tree becomes no output.
    pub output: i64,
    pub readonly: bool,
    /// 0 bind, 1 secret, 2 SSH, 3 cache, 4 tmpfs.
    pub mount_type: i32,
    pub tmpfs_opt: Option<TmpfsOpt>,
    pub cache_opt: Option<CacheOpt>,
    pub extra: Bytes,
}

impl Drop for Mount {
    fn drop(self) {
        let Mount {
            input: _,
            selector: _,
            dest: _,
            output: _,
            readonly: _,
            mount_type: _,
            tmpfs_opt: _,
            cache_opt: _,
            extra: _,
        } = self;
    }
}

/// `TmpfsOpt`: the size of a tmpfs mount in bytes.
pub struct TmpfsOpt {
    pub size: i64,
    pub extra: Bytes,
}

impl Drop for TmpfsOpt {
    fn drop(self) {
        let TmpfsOpt { size: _, extra: _ } = self;
    }
}

/// `CacheOpt`: the options of a cache mount.
pub struct CacheOpt {
    pub id: Text,
    /// 0 shared, 1 private, 2 locked.
    pub sharing: i32,
    pub extra: Bytes,
}

impl Drop for CacheOpt {
    fn drop(self) {
        let CacheOpt {
            id: _,
            sharing: _,
            extra: _,
        } = self;
    }
}

impl Message for ExecOp {
    ghost use Rattle.llb_ops.specs.Messages.{exec_op_shape, exec_op_in};

    ghost shape = { exec_op_shape };

    fn name() -> MessageName {
        MessageName::ExecOp
    }

    ghost reading = { exec_op_in };

    #[tactic(auto, unfolding(crate::specs::Messages::exec_op_in))]
    fn read(alloc: Global, records: &[Record<'_>]) -> Result<ExecOp, OpFault> {
        let meta = one::<Meta>(alloc, records, 1)?;
        let mounts = each::<Mount>(alloc, records, 2)?;
        if !within_limits(&[2, 5], records) {
            return Err(OpFault::OverLimit);
        }
        let secretenv = each_bytes(alloc, records, 5)?;
        let extra = unnamed(alloc, MessageName::ExecOp, records)?;
        Ok(ExecOp {
            meta,
            mounts,
            network: last_int32(records, 3),
            security: last_int32(records, 4),
            secretenv,
            extra,
        })
    }

    ghost use Rattle.llb_ops.specs.Writing.{exec_op_bytes};

    ghost writing = { exec_op_bytes };

    #[tactic(auto, unfolding(crate::specs::Writing::exec_op_bytes))]
    fn write(&self, alloc: Global) -> Result<Vec<u8>, Memory> {
        let mut out = Vec::new(alloc);
        put_message(alloc, &mut out, 1, &self.meta)?;
        put_messages(alloc, &mut out, 2, self.mounts.as_slice())?;
        put_signed(&mut out, 3, i64::from(self.network))?;
        put_signed(&mut out, 4, i64::from(self.security))?;
        put_each_bytes(&mut out, 5, self.secretenv.as_slice())?;
        put_extra(&mut out, &self.extra)?;
        Ok(out)
    }
}

impl Message for Meta {
    ghost use Rattle.llb_ops.specs.Messages.{meta_shape, meta_in};

    ghost shape = { meta_shape };

    fn name() -> MessageName {
        MessageName::Meta
    }

    ghost reading = { meta_in };

    #[tactic(auto, unfolding(crate::specs::Messages::meta_in))]
    fn read(alloc: Global, records: &[Record<'_>]) -> Result<Meta, OpFault> {
        if !within_limits(&[1, 2], records) {
            return Err(OpFault::OverLimit);
        }
        let args = each_text(alloc, MessageName::Meta, records, 1)?;
        let env = each_text(alloc, MessageName::Meta, records, 2)?;
        let cwd = last_text(alloc, MessageName::Meta, records, 3)?;
        let user = last_text(alloc, MessageName::Meta, records, 4)?;
        let extra = unnamed(alloc, MessageName::Meta, records)?;
        Ok(Meta {
            args,
            env,
            cwd,
            user,
            extra,
        })
    }

    ghost use Rattle.llb_ops.specs.Writing.{meta_bytes};

    ghost writing = { meta_bytes };

    #[tactic(auto, unfolding(crate::specs::Writing::meta_bytes))]
    fn write(&self, alloc: Global) -> Result<Vec<u8>, Memory> {
        let mut out = Vec::new(alloc);
        put_each_text(&mut out, 1, self.args.as_slice())?;
        put_each_text(&mut out, 2, self.env.as_slice())?;
        put_bytes(&mut out, 3, self.cwd.as_str().as_bytes())?;
        put_bytes(&mut out, 4, self.user.as_str().as_bytes())?;
        put_extra(&mut out, &self.extra)?;
        Ok(out)
    }
}

impl Message for Mount {
    ghost use Rattle.llb_ops.specs.Messages.{mount_shape, mount_in};

    ghost shape = { mount_shape };

    fn name() -> MessageName {
        MessageName::Mount
    }

    ghost reading = { mount_in };

    #[tactic(auto, unfolding(crate::specs::Messages::mount_in))]
    fn read(alloc: Global, records: &[Record<'_>]) -> Result<Mount, OpFault> {
        let tmpfs_opt = one::<TmpfsOpt>(alloc, records, 19)?;
        let cache_opt = one::<CacheOpt>(alloc, records, 20)?;
        let selector = last_text(alloc, MessageName::Mount, records, 2)?;
        let dest = last_text(alloc, MessageName::Mount, records, 3)?;
        let extra = unnamed(alloc, MessageName::Mount, records)?;
        Ok(Mount {
            input: last_int64(records, 1),
            selector,
            dest,
            output: last_int64(records, 4),
            readonly: last_flag(records, 5),
            mount_type: last_int32(records, 6),
            tmpfs_opt,
            cache_opt,
            extra,
        })
    }

    ghost use Rattle.llb_ops.specs.Writing.{mount_bytes};

    ghost writing = { mount_bytes };

    #[tactic(auto, unfolding(crate::specs::Writing::mount_bytes))]
    fn write(&self, alloc: Global) -> Result<Vec<u8>, Memory> {
        let mut out = Vec::new(alloc);
        put_signed(&mut out, 1, self.input)?;
        put_bytes(&mut out, 2, self.selector.as_str().as_bytes())?;
        put_bytes(&mut out, 3, self.dest.as_str().as_bytes())?;
        put_signed(&mut out, 4, self.output)?;
        put_flag(&mut out, 5, self.readonly)?;
        put_signed(&mut out, 6, i64::from(self.mount_type))?;
        put_message(alloc, &mut out, 19, &self.tmpfs_opt)?;
        put_message(alloc, &mut out, 20, &self.cache_opt)?;
        put_extra(&mut out, &self.extra)?;
        Ok(out)
    }
}

impl Message for TmpfsOpt {
    ghost use Rattle.llb_ops.specs.Messages.{tmpfs_opt_shape, tmpfs_opt_in};

    ghost shape = { tmpfs_opt_shape };

    fn name() -> MessageName {
        MessageName::TmpfsOpt
    }

    ghost reading = { tmpfs_opt_in };

    #[tactic(auto, unfolding(crate::specs::Messages::tmpfs_opt_in))]
    fn read(alloc: Global, records: &[Record<'_>]) -> Result<TmpfsOpt, OpFault> {
        let extra = unnamed(alloc, MessageName::TmpfsOpt, records)?;
        Ok(TmpfsOpt {
            size: last_int64(records, 1),
            extra,
        })
    }

    ghost use Rattle.llb_ops.specs.Writing.{tmpfs_opt_bytes};

    ghost writing = { tmpfs_opt_bytes };

    #[tactic(auto, unfolding(crate::specs::Writing::tmpfs_opt_bytes))]
    fn write(&self, alloc: Global) -> Result<Vec<u8>, Memory> {
        let mut out = Vec::new(alloc);
        put_signed(&mut out, 1, self.size)?;
        put_extra(&mut out, &self.extra)?;
        Ok(out)
    }
}

impl Message for CacheOpt {
    ghost use Rattle.llb_ops.specs.Messages.{cache_opt_shape, cache_opt_in};

    ghost shape = { cache_opt_shape };

    fn name() -> MessageName {
        MessageName::CacheOpt
    }

    ghost reading = { cache_opt_in };

    #[tactic(auto, unfolding(crate::specs::Messages::cache_opt_in))]
    fn read(alloc: Global, records: &[Record<'_>]) -> Result<CacheOpt, OpFault> {
        let id = last_text(alloc, MessageName::CacheOpt, records, 1)?;
        let extra = unnamed(alloc, MessageName::CacheOpt, records)?;
        Ok(CacheOpt {
            id,
            sharing: last_int32(records, 2),
            extra,
        })
    }

    ghost use Rattle.llb_ops.specs.Writing.{cache_opt_bytes};

    ghost writing = { cache_opt_bytes };

    #[tactic(auto, unfolding(crate::specs::Writing::cache_opt_bytes))]
    fn write(&self, alloc: Global) -> Result<Vec<u8>, Memory> {
        let mut out = Vec::new(alloc);
        put_bytes(&mut out, 1, self.id.as_str().as_bytes())?;
        put_signed(&mut out, 2, i64::from(self.sharing))?;
        put_extra(&mut out, &self.extra)?;
        Ok(out)
    }
}
