//! Finds every unsupported feature of an op, in the order of the list `features` in `specs/`.

ghost use Rattle.std.specs.Prelude.{◌≡◌, IfOk};
ghost use Rattle.std.specs.List.{list_any, filter};
ghost use Rattle.llb_loader.specs.Mounts.{has_type};
ghost use Rattle.llb_loader.specs.MountTypes.{number_of};
ghost use Rattle.llb_loader.specs.Rules.{kind_actions, kind_mounts};
ghost use Rattle.llb_loader.specs.Features.{has, features, is_diff, is_build, is_remote, has_secret};

use llb_loader::features::{
    any_has_field, any_has_pattern, any_nameless, any_of_type, any_owner_by_name, any_unpacks,
};
use llb_loader::{Feature, MountType, mounts_of};
use llb_ops::{Action, Kind};
use std::alloc::{AllocError, Global};

// The unsupported features, in the order in which they are looked for.
const FEATURES: [Feature; 11] = [
    Feature::DiffOp,
    Feature::BuildOp,
    Feature::Source,
    Feature::SecretMount,
    Feature::SshMount,
    Feature::SecretEnv,
    Feature::Action,
    Feature::Unpack,
    Feature::Patterns,
    Feature::OwnerByName,
    Feature::CopyField,
];

/// Returns every unsupported feature of an op of this kind.
pub(crate) fn features_of(alloc: Global, kind: &Option<Kind>) -> Result<Vec<Feature>, AllocError>
    ensures { IfOk result (λ found. found.items ≡ filter (has kind.now) features) }
{
    let mut found = Vec::new(alloc);
    for feature in FEATURES {
        if has_feature(kind, feature) {
            found.push(feature)?;
        }
    }
    Ok(found)
}

// Returns whether an op of this kind has the feature.
fn has_feature(kind: &Option<Kind>, feature: Feature) -> bool
    ensures { result ≡ has kind.now feature }
{
    match feature {
        Feature::DiffOp => is_diff(kind),
        Feature::BuildOp => is_build(kind),
        Feature::Source => is_remote(kind),
        Feature::SecretMount => any_of_type(mounts_of(kind), MountType::Secret),
        Feature::SshMount => any_of_type(mounts_of(kind), MountType::Ssh),
        Feature::SecretEnv => has_secret(kind),
        Feature::Action => any_nameless(actions_of(kind)),
        Feature::Unpack => any_unpacks(actions_of(kind)),
        Feature::Patterns => any_has_pattern(actions_of(kind)),
        Feature::OwnerByName => any_owner_by_name(actions_of(kind)),
        Feature::CopyField => any_has_field(actions_of(kind)),
    }
}

// Returns whether the op is a diff.
fn is_diff(kind: &Option<Kind>) -> bool
    ensures { result ≡ is_diff kind.now }
{
    matches!(kind, Some(Kind::Diff(_)))
}

// Returns whether the op is a build.
fn is_build(kind: &Option<Kind>) -> bool
    ensures { result ≡ is_build kind.now }
{
    matches!(kind, Some(Kind::Build(_)))
}

// Returns whether the op is a source that is not local.
fn is_remote(kind: &Option<Kind>) -> bool
    ensures { result ≡ is_remote kind.now }
{
    match kind {
        Some(Kind::Source(source)) => !source.get().identifier.as_str().starts_with("local://"),
        _ => false,
    }
}

// Returns whether the op is an exec with a secret in its environment.
fn has_secret(kind: &Option<Kind>) -> bool
    ensures { result ≡ has_secret kind.now }
{
    match kind {
        Some(Kind::Exec(exec)) => !exec.get().secretenv.is_empty(),
        _ => false,
    }
}

// Returns the actions of a file op; returns no actions for an op of another kind.
fn actions_of(kind: &Option<Kind>) -> &[Action]
    ensures { result.now ≡ kind_actions kind.now }
{
    match kind {
        Some(Kind::File(file)) => file.actions.as_slice(),
        _ => &[],
    }
}
