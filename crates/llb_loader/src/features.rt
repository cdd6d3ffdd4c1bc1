//! Finds the unsupported features of ops. Each function looks at ops of one kind, and looks for features in the order of the list `features` in `specs/`.

ghost use Rattle.std.specs.Prelude.{◌≡◌};
ghost use Rattle.std.specs.List.{list_any, find};
ghost use Rattle.llb_ops.specs.declared.op.Kind.TheVariants as kind;
ghost use Rattle.llb_loader.specs.Mounts.{has_type};
ghost use Rattle.llb_loader.specs.MountTypes.{number_of};
ghost use Rattle.llb_loader.specs.Rules.{owner_of, owner_by_name, user_by_name};
ghost use Rattle.llb_loader.specs.Features.{is_nameless, copies_with, has_pattern, has_field, unpacks, has, features, feature_of};

use crate::fault::Feature;
use crate::mount_type::MountType;
use llb_ops::{
    Action, ActionKind, Boxed, ChownOpt, CopyFile, ExecOp, FileOp, Kind, Mount, Op, SourceOp, User,
    UserOpt,
};

// Returns the first unsupported feature of the op.
pub(crate) fn first_feature(op: &Op) -> Option<Feature>
    ensures { result ≡ feature_of op.now }
{
    match &op.kind {
        Some(Kind::Diff(_)) => Some(Feature::DiffOp),
        Some(Kind::Build(_)) => Some(Feature::BuildOp),
        Some(Kind::Source(source)) => source_feature(source.get()),
        Some(Kind::Exec(exec)) => exec_feature(exec.get()),
        Some(Kind::File(file)) => file_feature(file),
        Some(Kind::Merge(_)) => None,
        None => None,
    }
}

// Returns the first unsupported feature of a source.
fn source_feature(source: &SourceOp) -> Option<Feature>
    ensures { result ≡ find (has (Some (kind.Source source.now))) features }
{
    if !source.identifier.as_str().starts_with("local://") {
        return Some(Feature::Source);
    }
    None
}

// Returns the first unsupported feature of an exec.
fn exec_feature(exec: &ExecOp) -> Option<Feature>
    ensures { result ≡ find (has (Some (kind.Exec exec.now))) features }
{
    let mounts = exec.mounts.as_slice();
    if any_of_type(mounts, MountType::Secret) {
        return Some(Feature::SecretMount);
    }
    if any_of_type(mounts, MountType::Ssh) {
        return Some(Feature::SshMount);
    }
    if !exec.secretenv.is_empty() {
        return Some(Feature::SecretEnv);
    }
    None
}

/// Returns whether one of the mounts has the type.
pub fn any_of_type(mounts: &[Mount], mount_type: MountType) -> bool
    ensures { result ≡ list_any (has_type (number_of mount_type)) mounts.now }
{
    for mount in mounts {
        if mount_type.is_of(mount) {
            return true;
        }
    }
    false
}

// Returns the first unsupported feature of a file op.
fn file_feature(file: &FileOp) -> Option<Feature>
    ensures { result ≡ find (has (Some (kind.File file.now))) features }
{
    let actions = file.actions.as_slice();
    if any_nameless(actions) {
        return Some(Feature::Action);
    }
    if any_unpacks(actions) {
        return Some(Feature::Unpack);
    }
    if any_has_pattern(actions) {
        return Some(Feature::Patterns);
    }
    if any_owner_by_name(actions) {
        return Some(Feature::OwnerByName);
    }
    if any_has_field(actions) {
        return Some(Feature::CopyField);
    }
    None
}

/// Returns whether one of the actions is of no known kind: no member of its oneof is set.
pub fn any_nameless(actions: &[Action]) -> bool
    ensures { result ≡ list_any (λ a. is_nameless a.kind) actions.now }
{
    for action in actions {
        if action.kind.is_none() {
            return true;
        }
    }
    false
}

/// Returns whether one of the actions is a copy that unpacks archives.
pub fn any_unpacks(actions: &[Action]) -> bool
    ensures { result ≡ list_any (λ a. copies_with unpacks a.kind) actions.now }
{
    for action in actions {
        if let Some(ActionKind::Copy(copy)) = &action.kind {
            if copy.attempt_unpack_docker_compatibility {
                return true;
            }
        }
    }
    false
}

/// Returns whether one of the actions is a copy with include patterns or exclude patterns.
pub fn any_has_pattern(actions: &[Action]) -> bool
    ensures { result ≡ list_any (λ a. copies_with has_pattern a.kind) actions.now }
{
    for action in actions {
        if let Some(ActionKind::Copy(copy)) = &action.kind {
            if has_pattern(copy) {
                return true;
            }
        }
    }
    false
}

// Returns whether the copy has include patterns or exclude patterns.
fn has_pattern(copy: &CopyFile) -> bool
    ensures { result ≡ has_pattern copy.now }
{
    !copy.include_patterns.is_empty() || !copy.exclude_patterns.is_empty()
}

/// Returns whether one of the actions is a copy with a field that the table of messages does not name.
pub fn any_has_field(actions: &[Action]) -> bool
    ensures { result ≡ list_any (λ a. copies_with has_field a.kind) actions.now }
{
    for action in actions {
        if let Some(ActionKind::Copy(copy)) = &action.kind {
            if !copy.extra.as_slice().is_empty() {
                return true;
            }
        }
    }
    false
}

/// Returns whether one of the actions sets an owner that is given by name.
pub fn any_owner_by_name(actions: &[Action]) -> bool
    ensures { result ≡ list_any (λ a. owner_by_name (owner_of a.kind)) actions.now }
{
    for action in actions {
        if action_by_name(action) {
            return true;
        }
    }
    false
}

// Returns whether the action sets an owner that is given by name.
fn action_by_name(action: &Action) -> bool
    ensures { result ≡ owner_by_name (owner_of action.now.kind) }
{
    match &action.kind {
        Some(ActionKind::MkFile(made)) => by_name(&made.owner),
        Some(ActionKind::MkDir(made)) => by_name(&made.owner),
        Some(ActionKind::Copy(copy)) => by_name(&copy.owner),
        _ => false,
    }
}

// Returns whether the owner is given by name.
fn by_name(owner: &Option<Boxed<ChownOpt>>) -> bool
    ensures { result ≡ owner_by_name owner.now }
{
    match owner {
        Some(owner) => is_name(&owner.get().user) || is_name(&owner.get().group),
        None => false,
    }
}

// Returns whether the user is given by name.
fn is_name(user: &Option<UserOpt>) -> bool
    ensures { result ≡ user_by_name user.now }
{
    match user {
        Some(user) => matches!(&user.user, Some(User::ByName(_))),
        None => false,
    }
}
