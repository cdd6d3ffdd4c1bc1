//! What a file action does: each kind is read from its records, and written as its canonical bytes.

ghost use Rattle.std.specs.Prelude.{◌≡◌, IfOk, true};
ghost use Rattle.llb_ops.specs.Records.{views, texts_fit};
ghost use Rattle.llb_ops.specs.Messages.{copy_file_shape, copy_file_with};

use crate::fault::OpFault;
use crate::message::{Message, one};
use crate::owners::ChownOpt;
use crate::records::{
    Record, each_text, last_bytes, last_flag, last_int32, last_int64, last_text, unnamed,
    within_limits,
};
use crate::table::MessageName;
use crate::writing::{put_bytes, put_each_text, put_extra, put_flag, put_message, put_signed};
use llb_wire::{Boxed, Bytes, Many, Memory, Text};
use std::alloc::Global;

/// `FileActionMkFile`: a file that is made; `body` is the field `data` of the message.
pub struct MkFile {
    pub path: Text,
    pub mode: i32,
    pub body: Bytes,
    pub owner: Option<Boxed<ChownOpt>>,
    pub timestamp: i64,
    pub extra: Bytes,
}

impl Drop for MkFile {
    fn drop(self) {
        let MkFile {
            path: _,
            mode: _,
            body: _,
            owner: _,
            timestamp: _,
            extra: _,
        } = self;
    }
}

impl Message for MkFile {
    ghost use Rattle.llb_ops.specs.Messages.{mk_file_shape, mk_file_in};

    ghost shape = { mk_file_shape };

    fn name() -> MessageName {
        MessageName::FileActionMkFile
    }

    ghost reading = { mk_file_in };

    #[tactic(auto, unfolding(crate::specs::Messages::mk_file_in))]
    fn read(alloc: Global, records: &[Record<'_>]) -> Result<MkFile, OpFault> {
        let owner = one::<Boxed<ChownOpt>>(alloc, records, 4)?;
        let path = last_text(alloc, MessageName::FileActionMkFile, records, 1)?;
        let body = last_bytes(alloc, records, 3)?;
        let extra = unnamed(alloc, MessageName::FileActionMkFile, records)?;
        Ok(MkFile {
            path,
            mode: last_int32(records, 2),
            body,
            owner,
            timestamp: last_int64(records, 5),
            extra,
        })
    }

    ghost use Rattle.llb_ops.specs.Writing.{mk_file_bytes};

    ghost writing = { mk_file_bytes };

    #[tactic(auto, unfolding(crate::specs::Writing::mk_file_bytes))]
    fn write(&self, alloc: Global) -> Result<Vec<u8>, Memory> {
        let mut out = Vec::new(alloc);
        put_bytes(&mut out, 1, self.path.as_str().as_bytes())?;
        put_signed(&mut out, 2, i64::from(self.mode))?;
        put_bytes(&mut out, 3, self.body.as_slice())?;
        put_message(alloc, &mut out, 4, &self.owner)?;
        put_signed(&mut out, 5, self.timestamp)?;
        put_extra(&mut out, &self.extra)?;
        Ok(out)
    }
}

/// `FileActionMkDir`: a directory that is made.
pub struct MkDir {
    pub path: Text,
    pub mode: i32,
    pub make_parents: bool,
    pub owner: Option<Boxed<ChownOpt>>,
    pub timestamp: i64,
    pub extra: Bytes,
}

impl Drop for MkDir {
    fn drop(self) {
        let MkDir {
            path: _,
            mode: _,
            make_parents: _,
            owner: _,
            timestamp: _,
            extra: _,
        } = self;
    }
}

impl Message for MkDir {
    ghost use Rattle.llb_ops.specs.Messages.{mk_dir_shape, mk_dir_in};

    ghost shape = { mk_dir_shape };

    fn name() -> MessageName {
        MessageName::FileActionMkDir
    }

    ghost reading = { mk_dir_in };

    #[tactic(auto, unfolding(crate::specs::Messages::mk_dir_in))]
    fn read(alloc: Global, records: &[Record<'_>]) -> Result<MkDir, OpFault> {
        let owner = one::<Boxed<ChownOpt>>(alloc, records, 4)?;
        let path = last_text(alloc, MessageName::FileActionMkDir, records, 1)?;
        let extra = unnamed(alloc, MessageName::FileActionMkDir, records)?;
        Ok(MkDir {
            path,
            mode: last_int32(records, 2),
            make_parents: last_flag(records, 3),
            owner,
            timestamp: last_int64(records, 5),
            extra,
        })
    }

    ghost use Rattle.llb_ops.specs.Writing.{mk_dir_bytes};

    ghost writing = { mk_dir_bytes };

    #[tactic(auto, unfolding(crate::specs::Writing::mk_dir_bytes))]
    fn write(&self, alloc: Global) -> Result<Vec<u8>, Memory> {
        let mut out = Vec::new(alloc);
        put_bytes(&mut out, 1, self.path.as_str().as_bytes())?;
        put_signed(&mut out, 2, i64::from(self.mode))?;
        put_flag(&mut out, 3, self.make_parents)?;
        put_message(alloc, &mut out, 4, &self.owner)?;
        put_signed(&mut out, 5, self.timestamp)?;
        put_extra(&mut out, &self.extra)?;
        Ok(out)
    }
}

/// `FileActionCopy`: what is copied, and where to.
pub struct CopyFile {
    pub src: Text,
    pub dest: Text,
    pub owner: Option<Boxed<ChownOpt>>,
    /// -1 keeps the mode of each entry that is copied.
    pub mode: i32,
    pub follow_symlink: bool,
    pub dir_copy_contents: bool,
    pub attempt_unpack_docker_compatibility: bool,
    pub create_dest_path: bool,
    pub allow_wildcard: bool,
    pub allow_empty_wildcard: bool,
    pub timestamp: i64,
    pub include_patterns: Many<Text>,
    pub exclude_patterns: Many<Text>,
    pub extra: Bytes,
}

impl Drop for CopyFile {
    fn drop(self) {
        let CopyFile {
            src: _,
            dest: _,
            owner: _,
            mode: _,
            follow_symlink: _,
            dir_copy_contents: _,
            attempt_unpack_docker_compatibility: _,
            create_dest_path: _,
            allow_wildcard: _,
            allow_empty_wildcard: _,
            timestamp: _,
            include_patterns: _,
            exclude_patterns: _,
            extra: _,
        } = self;
    }
}

// Makes a copy action from its records and its owner, which was read before.
#[tactic(auto, unfolding(crate::specs::Messages::copy_file_with))]
fn copy_file_with(
    alloc: Global,
    records: &[Record<'_>],
    owner: Option<Boxed<ChownOpt>>,
) -> Result<CopyFile, Memory>
    requires { texts_fit copy_file_shape (views records.now) ≡ true }
    ensures { IfOk result (λ m. m ≡ copy_file_with (views records.now) owner) }
{
    let src = last_text(alloc, MessageName::FileActionCopy, records, 1)?;
    let dest = last_text(alloc, MessageName::FileActionCopy, records, 2)?;
    let include_patterns = each_text(alloc, MessageName::FileActionCopy, records, 12)?;
    let exclude_patterns = each_text(alloc, MessageName::FileActionCopy, records, 13)?;
    let extra = unnamed(alloc, MessageName::FileActionCopy, records)?;
    Ok(CopyFile {
        src,
        dest,
        owner,
        mode: last_int32(records, 4),
        follow_symlink: last_flag(records, 5),
        dir_copy_contents: last_flag(records, 6),
        attempt_unpack_docker_compatibility: last_flag(records, 7),
        create_dest_path: last_flag(records, 8),
        allow_wildcard: last_flag(records, 9),
        allow_empty_wildcard: last_flag(records, 10),
        timestamp: last_int64(records, 11),
        include_patterns,
        exclude_patterns,
        extra,
    })
}

impl Message for CopyFile {
    ghost use Rattle.llb_ops.specs.Messages.{copy_file_shape, copy_file_in};

    ghost shape = { copy_file_shape };

    fn name() -> MessageName {
        MessageName::FileActionCopy
    }

    ghost reading = { copy_file_in };

    #[tactic(auto, unfolding(crate::specs::Messages::copy_file_in))]
    fn read(alloc: Global, records: &[Record<'_>]) -> Result<CopyFile, OpFault> {
        let owner = one::<Boxed<ChownOpt>>(alloc, records, 3)?;
        if !within_limits(&[12, 13], records) {
            return Err(OpFault::OverLimit);
        }
        Ok(copy_file_with(alloc, records, owner)?)
    }

    ghost use Rattle.llb_ops.specs.Writing.{copy_file_bytes};

    ghost writing = { copy_file_bytes };

    #[tactic(auto, unfolding(crate::specs::Writing::copy_file_bytes))]
    fn write(&self, alloc: Global) -> Result<Vec<u8>, Memory> {
        let mut out = Vec::new(alloc);
        put_bytes(&mut out, 1, self.src.as_str().as_bytes())?;
        put_bytes(&mut out, 2, self.dest.as_str().as_bytes())?;
        put_message(alloc, &mut out, 3, &self.owner)?;
        put_signed(&mut out, 4, i64::from(self.mode))?;
        put_flag(&mut out, 5, self.follow_symlink)?;
        put_flag(&mut out, 6, self.dir_copy_contents)?;
        put_flag(&mut out, 7, self.attempt_unpack_docker_compatibility)?;
        put_flag(&mut out, 8, self.create_dest_path)?;
        put_flag(&mut out, 9, self.allow_wildcard)?;
        put_flag(&mut out, 10, self.allow_empty_wildcard)?;
        put_signed(&mut out, 11, self.timestamp)?;
        put_each_text(&mut out, 12, self.include_patterns.as_slice())?;
        put_each_text(&mut out, 13, self.exclude_patterns.as_slice())?;
        put_extra(&mut out, &self.extra)?;
        Ok(out)
    }
}

/// `FileActionRm`: what is removed.
pub struct Rm {
    pub path: Text,
    pub allow_not_found: bool,
    pub allow_wildcard: bool,
    pub extra: Bytes,
}

impl Drop for Rm {
    fn drop(self) {
        let Rm {
            path: _,
            allow_not_found: _,
            allow_wildcard: _,
            extra: _,
        } = self;
    }
}

impl Message for Rm {
    ghost use Rattle.llb_ops.specs.Messages.{rm_shape, rm_in};

    ghost shape = { rm_shape };

    fn name() -> MessageName {
        MessageName::FileActionRm
    }

    ghost reading = { rm_in };

    #[tactic(auto, unfolding(crate::specs::Messages::rm_in))]
    fn read(alloc: Global, records: &[Record<'_>]) -> Result<Rm, OpFault> {
        let path = last_text(alloc, MessageName::FileActionRm, records, 1)?;
        let extra = unnamed(alloc, MessageName::FileActionRm, records)?;
        Ok(Rm {
            path,
            allow_not_found: last_flag(records, 2),
            allow_wildcard: last_flag(records, 3),
            extra,
        })
    }

    ghost use Rattle.llb_ops.specs.Writing.{rm_bytes};

    ghost writing = { rm_bytes };

    #[tactic(auto, unfolding(crate::specs::Writing::rm_bytes))]
    fn write(&self, alloc: Global) -> Result<Vec<u8>, Memory> {
        let mut out = Vec::new(alloc);
        put_bytes(&mut out, 1, self.path.as_str().as_bytes())?;
        put_flag(&mut out, 2, self.allow_not_found)?;
        put_flag(&mut out, 3, self.allow_wildcard)?;
        put_extra(&mut out, &self.extra)?;
        Ok(out)
    }
}
