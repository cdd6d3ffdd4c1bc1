//! Texts of local trees. Above the lines of each tree is a line with `== ` and the name of the tree's source.

use crate::trees::tree_from;
use llb_loader::Locals;
use llb_wire::Text;
use std::alloc::Global;

// One local tree, `p`, which is empty.
const EMPTY_P: &str = "== p\nd 0755 0 0 /\n";

/// The local tree `p`, which has a file `/old`, and `q`, which has a file `/f`.
pub const OLD_AND_F: &str = "== p
d 0755 0 0 /
f 0644 0 0 6869 /old
== q
d 0755 0 0 /
f 0644 0 0 6869 /f
";

// The local tree `p`, which is empty, and `q`, which has a directory `/sub` with a file `/sub/f`.
const EMPTY_AND_SUB: &str = "== p
d 0755 0 0 /
== q
d 0755 0 0 /
d 0755 0 0 /sub
f 0644 0 0 6869 /sub/f
";

// The trees of `EMPTY_AND_SUB`, but the content of `/sub/f` is a token, which the laws of `llb_laws` use in place of a content: the
// byte 255, and the number 1 in four bytes.
const SUB_BY_A_TOKEN: &str = "== p
d 0755 0 0 /
== q
d 0755 0 0 /
d 0755 0 0 /sub
f 0644 0 0 ff00000001 /sub/f
";

/// Returns the text of local trees by the name of its constant in this file; an empty text if no constant has the name.
pub fn locals_named(name: &str) -> &'static str {
    match name {
        "EMPTY_P" => EMPTY_P,
        "OLD_AND_F" => OLD_AND_F,
        "EMPTY_AND_SUB" => EMPTY_AND_SUB,
        "SUB_BY_A_TOKEN" => SUB_BY_A_TOKEN,
        _ => "",
    }
}

fn is_added(locals: &mut Locals, alloc: Global, name: &str, text: &str) -> bool {
    match (Text::from_str(alloc, name), tree_from(alloc, text)) {
        (Ok(name), Some(tree)) => locals.add(name, tree).is_ok(),
        _ => false,
    }
}

/// Returns the local trees that a text has, each below a line with `== ` and the name of its source; `None` if one of the trees can't be read or added.
pub fn locals_of(alloc: Global, given: &str) -> Option<Locals> {
    let mut locals = Locals::new(alloc);
    for local in given.split("== ") {
        if let Some((name, text)) = local.split_once('\n') {
            if !is_added(&mut locals, alloc, name, text) {
                return None;
            }
        }
    }
    Some(locals)
}
