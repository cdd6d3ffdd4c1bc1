//! File actions: making a file or a directory, removing, and copying. The crate is built on `llb_glob` and `llb_ops`, and does not use graphs.
//!
//! Types: `ActFault` (51 with the fault of a tree, 52 a bad pattern, 53 `Memory`), `Refusal` (why an action is refused; it names a `Field` of the action, or
//! an `Obstacle` at a path).
//! Promise: `act` returns exactly the tree after the action, or the first fault, by the rule of the same name (`specs/FileActions.antt`); the tree before
//! the action is borrowed, so it stays unchanged. `why_refused` returns a refusal exactly if `act` fails: the first one, by `specs/Refusals.antt`. Law:
//! `copies_one` says where each entry of a copied source is after the copy.
//!
//! A caller:
//!
//!     let after = match act(alloc, action, base, None) {
//!         Ok(tree) => tree,
//!         Err(_) => return None,
//!     };
//!     Some(after.same(base))
#![tactic(auto)]

mod action;
mod copying;
mod dest;
mod fault;
mod laws;
mod making;
mod merging;
mod owner;
mod refusal;
mod refused;
mod refused_copy;
mod removing;

pub use action::act;
pub use dest::resolve;
pub use fault::ActFault;
pub use laws::copies_one;
pub use refusal::{Field, Obstacle, Refusal};
pub use refused::why_refused;
