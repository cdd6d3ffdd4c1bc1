//! Equality by value of ops and of the messages in them: all fields and the extra bytes are compared. The attributes of a
//! source are compared as a list of keys and attributes, in order. Nothing here allocates.

ghost use Rattle.std.specs.Prelude.{◌≡◌, ◌↔◌, IsTrue, slice_get};

use crate::actions::{CopyFile, MkDir, MkFile, Rm};
use crate::exec::{CacheOpt, ExecOp, Meta, Mount, TmpfsOpt};
use crate::file_op::{Action, ActionKind, Actions, FileOp};
use crate::merge::{MergeInput, MergeOp};
use crate::op::{Input, Kind, Op};
use crate::owners::{ChownOpt, User, UserOpt};
use crate::source::{Attribute, Attributes, SourceOp};
use indexmap::IndexMap;
use llb_wire::{Same, Text, all_same};

impl Same for Op {
    fn same(&self, other: &Op) -> bool {
        self.inputs.same(&other.inputs)
            && self.kind.same(&other.kind)
            && self.extra.same(&other.extra)
    }
}

impl Same for Kind {
    fn same(&self, other: &Kind) -> bool {
        match (self, other) {
            (Kind::Exec(op), Kind::Exec(other)) => op.same(other),
            (Kind::Source(op), Kind::Source(other)) => op.same(other),
            (Kind::File(op), Kind::File(other)) => op.same(other),
            (Kind::Build(bytes), Kind::Build(others)) => bytes.same(others),
            (Kind::Merge(op), Kind::Merge(other)) => op.same(other),
            (Kind::Diff(bytes), Kind::Diff(others)) => bytes.same(others),
            _ => false,
        }
    }
}

impl Same for Input {
    fn same(&self, other: &Input) -> bool {
        self.digest.same(&other.digest)
            && self.index == other.index
            && self.extra.same(&other.extra)
    }
}

impl Same for SourceOp {
    fn same(&self, other: &SourceOp) -> bool {
        self.identifier.same(&other.identifier)
            && self.attrs.same(&other.attrs)
            && self.extra.same(&other.extra)
    }
}

// Returns whether two maps have the same key with the same attribute at index `i`, or both end before that index.
fn same_entry(
    held: &IndexMap<Text, Attribute>,
    others: &IndexMap<Text, Attribute>,
    i: usize,
) -> bool
    ensures { IsTrue result ↔ (slice_get held.now.entries i ≡ slice_get others.now.entries i) }
{
    match (held.get_index(i), others.get_index(i)) {
        (Some((key, attribute)), Some((other_key, other))) => {
            key.same(other_key) && attribute.same(other)
        }
        (None, None) => true,
        _ => false,
    }
}

// Returns whether two maps have the same attributes under the same keys, in the same order.
fn same_entries(held: &IndexMap<Text, Attribute>, others: &IndexMap<Text, Attribute>) -> bool
    ensures { IsTrue result ↔ (held.now.entries ≡ others.now.entries) }
{
    if held.len() != others.len() {
        return false;
    }
    for i in 0..held.len() {
        if !same_entry(held, others, i) {
            return false;
        }
    }
    true
}

impl Same for Attributes {
    fn same(&self, other: &Attributes) -> bool {
        same_entries(self.as_map(), other.as_map())
    }
}

impl Same for Attribute {
    fn same(&self, other: &Attribute) -> bool {
        self.value.same(&other.value) && self.extra.same(&other.extra)
    }
}

impl Same for ExecOp {
    fn same(&self, other: &ExecOp) -> bool {
        self.meta.same(&other.meta)
            && self.mounts.same(&other.mounts)
            && self.network == other.network
            && self.security == other.security
            && self.secretenv.same(&other.secretenv)
            && self.extra.same(&other.extra)
    }
}

impl Same for Meta {
    fn same(&self, other: &Meta) -> bool {
        self.args.same(&other.args)
            && self.env.same(&other.env)
            && self.cwd.same(&other.cwd)
            && self.user.same(&other.user)
            && self.extra.same(&other.extra)
    }
}

impl Same for Mount {
    fn same(&self, other: &Mount) -> bool {
        self.input == other.input
            && self.selector.same(&other.selector)
            && self.dest.same(&other.dest)
            && self.output == other.output
            && self.readonly == other.readonly
            && self.mount_type == other.mount_type
            && self.tmpfs_opt.same(&other.tmpfs_opt)
            && self.cache_opt.same(&other.cache_opt)
            && self.extra.same(&other.extra)
    }
}

impl Same for TmpfsOpt {
    fn same(&self, other: &TmpfsOpt) -> bool {
        self.size == other.size && self.extra.same(&other.extra)
    }
}

impl Same for CacheOpt {
    fn same(&self, other: &CacheOpt) -> bool {
        self.id.same(&other.id) && self.sharing == other.sharing && self.extra.same(&other.extra)
    }
}

impl Same for FileOp {
    fn same(&self, other: &FileOp) -> bool {
        self.actions.same(&other.actions) && self.extra.same(&other.extra)
    }
}

impl Same for Actions {
    fn same(&self, other: &Actions) -> bool {
        all_same(self.as_slice(), other.as_slice())
    }
}

impl Same for Action {
    fn same(&self, other: &Action) -> bool {
        self.input == other.input
            && self.secondary_input == other.secondary_input
            && self.output == other.output
            && self.kind.same(&other.kind)
            && self.extra.same(&other.extra)
    }
}

impl Same for ActionKind {
    fn same(&self, other: &ActionKind) -> bool {
        match (self, other) {
            (ActionKind::Copy(action), ActionKind::Copy(other)) => action.same(other),
            (ActionKind::MkFile(action), ActionKind::MkFile(other)) => action.same(other),
            (ActionKind::MkDir(action), ActionKind::MkDir(other)) => action.same(other),
            (ActionKind::Rm(action), ActionKind::Rm(other)) => action.same(other),
            _ => false,
        }
    }
}

// Returns whether both copies have the same flags: for following links, copying the contents of directories, unpacking archives, making the directories above
// the destination, and reading wildcards.
fn same_choices(copy: &CopyFile, other: &CopyFile) -> bool
    ensures { IsTrue result ↔ ((copy.now.follow_symlink ≡ other.now.follow_symlink)
        × (copy.now.dir_copy_contents ≡ other.now.dir_copy_contents)
        × (copy.now.attempt_unpack_docker_compatibility ≡ other.now.attempt_unpack_docker_compatibility)
        × (copy.now.create_dest_path ≡ other.now.create_dest_path)
        × (copy.now.allow_wildcard ≡ other.now.allow_wildcard)
        × (copy.now.allow_empty_wildcard ≡ other.now.allow_empty_wildcard)) }
{
    copy.follow_symlink == other.follow_symlink
        && copy.dir_copy_contents == other.dir_copy_contents
        && copy.attempt_unpack_docker_compatibility == other.attempt_unpack_docker_compatibility
        && copy.create_dest_path == other.create_dest_path
        && copy.allow_wildcard == other.allow_wildcard
        && copy.allow_empty_wildcard == other.allow_empty_wildcard
}

impl Same for CopyFile {
    fn same(&self, other: &CopyFile) -> bool {
        self.src.same(&other.src)
            && self.dest.same(&other.dest)
            && self.owner.same(&other.owner)
            && self.mode == other.mode
            && same_choices(self, other)
            && self.timestamp == other.timestamp
            && self.include_patterns.same(&other.include_patterns)
            && self.exclude_patterns.same(&other.exclude_patterns)
            && self.extra.same(&other.extra)
    }
}

impl Same for MkFile {
    fn same(&self, other: &MkFile) -> bool {
        self.path.same(&other.path)
            && self.mode == other.mode
            && self.body.same(&other.body)
            && self.owner.same(&other.owner)
            && self.timestamp == other.timestamp
            && self.extra.same(&other.extra)
    }
}

impl Same for MkDir {
    fn same(&self, other: &MkDir) -> bool {
        self.path.same(&other.path)
            && self.mode == other.mode
            && self.make_parents == other.make_parents
            && self.owner.same(&other.owner)
            && self.timestamp == other.timestamp
            && self.extra.same(&other.extra)
    }
}

impl Same for Rm {
    fn same(&self, other: &Rm) -> bool {
        self.path.same(&other.path)
            && self.allow_not_found == other.allow_not_found
            && self.allow_wildcard == other.allow_wildcard
            && self.extra.same(&other.extra)
    }
}

impl Same for ChownOpt {
    fn same(&self, other: &ChownOpt) -> bool {
        self.user.same(&other.user)
            && self.group.same(&other.group)
            && self.extra.same(&other.extra)
    }
}

impl Same for UserOpt {
    fn same(&self, other: &UserOpt) -> bool {
        self.user.same(&other.user) && self.extra.same(&other.extra)
    }
}

impl Same for User {
    fn same(&self, other: &User) -> bool {
        match (self, other) {
            (User::ByName(name), User::ByName(other)) => name.same(other),
            (User::ById(id), User::ById(other)) => id == other,
            _ => false,
        }
    }
}

impl Same for MergeOp {
    fn same(&self, other: &MergeOp) -> bool {
        self.inputs.same(&other.inputs) && self.extra.same(&other.extra)
    }
}

impl Same for MergeInput {
    fn same(&self, other: &MergeInput) -> bool {
        self.input == other.input && self.extra.same(&other.extra)
    }
}
