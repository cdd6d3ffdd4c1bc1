//! The instances of cache mounts, and leases of them. A key (an ID, a seed and a mode) has a list of trees, its instances. A lease takes an instance for each
//! of its needs; if one need is refused, it takes none. When a lease is given back, the trees stay. The crate is built on `llb_tree`.
//!
//! Types: `Caches`, `Key` with `Mode` (shared, private, locked), `Need` (a key, and the tree of a new instance), `Lease`, `Instance`,
//! `LeaseFault` (111, 112).
//! Promise: `Caches::lease` (clauses `gives`, `has`, `last`, `err`) is refused (111) with the first locked key whose instance a lease has; otherwise it takes
//! instance 0 of each shared or locked key, and of each private key the lowest-numbered instance that no lease has. Law: `is_exclusive`: no two leases
//! have the same instance of a locked or a private key.
//!
//! A caller:
//!
//!     let needs = Many::new(needs);
//!     if !caches.can_lease(needs.as_slice()) {
//!         return None;
//!     }
//!     caches.lease(needs).ok()
#![tactic(auto)]

mod caches;
mod copying;
mod fault;
mod instance_marks;
mod instance_search;
mod instance_trees;
mod key;
mod key_ref;
mod lease_additions;
mod lease_needs;
mod prepared_lease;
mod rows;
mod taken_instances;

pub use caches::{Caches, Lease};
pub use fault::{LeaseFault, Memory};
pub use key::{Key, Mode, Seed};
pub use key_ref::KeyRef;
pub use lease_additions::Growth;
pub use lease_needs::{Found, Instance, Need};
pub use llb_tree::{Text, Tree};
pub use llb_wire::Many;
pub use prepared_lease::Lent;
