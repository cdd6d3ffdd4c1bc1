//! Tests what is printed for a local source that has no tree.

use super::devices::Ran;
use llb_commands::{SourceFault, source_refusal};
use llb_treetext::TextFault;
use std::alloc::Global;

const REFUSALS: &[(SourceFault, u8, &str)] = &[
    (SourceFault::Read, 3, "fault 181\n"),
    (SourceFault::TooLong, 2, "fault 185\n"),
    (SourceFault::Text(TextFault::BadLine(7)), 2, "fault 31 7\n"),
    (SourceFault::Text(TextFault::Order(2)), 2, "fault 32 2\n"),
    (SourceFault::Text(TextFault::NoParent(3)), 2, "fault 33 3\n"),
    (SourceFault::Text(TextFault::Memory), 3, "fault 34\n"),
    (SourceFault::Reading, 3, "fault 184\n"),
    (SourceFault::Adding, 3, "fault 92\n"),
];

fn printed(alloc: Global, fault: &SourceFault) -> Ran {
    let mut err = Vec::new(alloc);
    let status = source_refusal(fault, &mut err);
    let out = Vec::new(alloc);
    Ran { status, out, err }
}

#[test]
fn a_source_without_a_tree_is_told_in_a_line(rt: HostRuntime) {
    for (fault, status, line) in REFUSALS {
        assert!(rt; printed(rt.alloc(), fault).is(*status, "", line));
    }
}
