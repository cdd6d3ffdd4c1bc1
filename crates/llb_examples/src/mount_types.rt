//! Tests the numbers that the types of mounts have in a definition.

use super::tree_rows::is_so;
use llb_loader::MountType;

#[test]
fn the_types_of_mounts_are_numbered_from_0(rt: HostRuntime) {
    let numbers = [
        MountType::Bind.number(),
        MountType::Secret.number(),
        MountType::Ssh.number(),
        MountType::Cache.number(),
        MountType::Tmpfs.number(),
    ];
    is_so(&rt, numbers == [0, 1, 2, 3, 4]);
}
