//! The types of mounts, by their numbers.

ghost use Rattle.std.specs.Prelude.{◌≡◌};
ghost use Rattle.llb_loader.specs.Mounts.{has_type};
ghost use Rattle.llb_loader.specs.MountTypes.{number_of};

use llb_ops::Mount;

/// The type of a mount: what the mount shows.
#[derive(Clone, Copy, Debug, PartialEq, Eq)]
pub enum MountType {
    /// An input of the op, or the empty tree.
    Bind,
    /// A secret.
    Secret,
    /// An SSH agent.
    Ssh,
    /// A cache.
    Cache,
    /// An empty tree.
    Tmpfs,
}

impl MountType {
    /// Returns the number of the type in a definition. Does not allocate.
    pub fn number(self) -> i32
        ensures { result ≡ number_of self }
    {
        match self {
            MountType::Bind => 0,
            MountType::Secret => 1,
            MountType::Ssh => 2,
            MountType::Cache => 3,
            MountType::Tmpfs => 4,
        }
    }

    /// Returns whether a mount has this type. Does not allocate.
    pub fn is_of(self, mount: &Mount) -> bool
        ensures { result ≡ has_type (number_of self) mount.now }
    {
        mount.mount_type == self.number()
    }
}
