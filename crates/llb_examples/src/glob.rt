//! Calls of patterns that no path shows. Which paths match a pattern, and which texts are no patterns, is tested by the program (`tests/patterns`).

use super::tree_rows::holds;
use llb_glob::{Pattern, PatternFault};
use std::alloc::Global;

fn has_no_parts(alloc: Global, text: &str) -> Result<bool, PatternFault> {
    Ok(Pattern::read(alloc, text)?.has_no_parts())
}

#[test]
fn a_pattern_may_have_no_parts(rt: HostRuntime) {
    for (text, wanted) in [("/a\\/..", true), ("*", false)] {
        holds(&rt, text, has_no_parts(rt.alloc(), text) == Ok(wanted));
    }
}
