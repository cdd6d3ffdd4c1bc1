//! Finds the mounts of an op, and the options of the cache that a mount shows.

ghost use Rattle.std.specs.Prelude.{◌≡◌};
ghost use Rattle.std.specs.Option.{option_copied};
ghost use Rattle.llb_loader.specs.Mounts.{cache_in};
ghost use Rattle.llb_loader.specs.Rules.{kind_mounts};

use crate::mount_type::MountType;
use llb_ops::{CacheOpt, Kind, Mount};

/// Returns the mounts of an exec; returns no mounts for an op of another kind. Does not allocate.
pub fn mounts_of(kind: &Option<Kind>) -> &[Mount]
    ensures { result.now ≡ kind_mounts kind.now }
{
    match kind {
        Some(Kind::Exec(exec)) => exec.get().mounts.as_slice(),
        _ => &[],
    }
}

/// Returns the options of the cache that a mount shows; `None` if the mount is no cache mount or has no options. Does not allocate.
pub fn cache_in(mount: &Mount) -> Option<&CacheOpt>
    ensures { option_copied result ≡ cache_in mount.now }
{
    if !MountType::Cache.is_of(mount) {
        return None;
    }
    mount.cache_opt.as_ref()
}
