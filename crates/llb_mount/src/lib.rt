//! A view: trees at dests, as the mounts of an execution show them. The crate is built on `llb_tree`.
//!
//! Types: `View` (its mounts, one of them at the root), `Shown` (a mount: dest, selector, whether it is read-only, tree), `ReadOnly`.
//! Promise: `View::route` (`longest`, `only`) returns the number of the mount with the longest dest that is a prefix of a path, by names. `View::set_tree`
//! (`set`, `refused`, `back`) replaces one mount's tree, or fails if the mount is read-only. These two calls do not allocate. `View::make` makes a view and,
//! for more than eight mounts, an order of the dests; if memory is refused for the order, the view does without it.
//!
//! A caller:
//!
//!     if !View::can_make(&mounts) {
//!         return None;
//!     }
//!     let view = View::make(Many::new(mounts)).ok()?;
//!     Some(view.route(&Path::read(alloc, "/src/a").ok()?).0)
#![tactic(auto)]

mod dest_order;
mod fault;
mod shown_tree;
mod view;

pub use fault::{Memory, ReadOnly};
pub use llb_tree::{Path, Tree};
pub use llb_wire::Many;
pub use shown_tree::Shown;
pub use view::View;
