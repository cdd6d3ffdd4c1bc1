//! A tree is a map from paths to entries; each call reads the map or makes one change of it. Names, paths (and how they are read from a text), modes and owners
//! are here too. The crate is built on `llb_wire`. A tree is kept as nodes, which are files and directories. Contents, lists of children and names are each
//! behind an `Arc`, so a copy shares everything, and an edit copies only the directories on its path (docs/DECISIONS.md, "Trees").
//!
//! Types: `Tree`, `Path`, `Name`, `Meta` (mode and owner), `Entry`, `Node` and `Children` (the nodes in memory), `Walk` (entries in
//! path order), `TreeFault`.
//! Promise: `Tree::put_file` (`gives`, `last`, `err`) makes one change of the map, or fails with the first fault and changes nothing; the
//! other edits do the same. `Tree::overlaid` (`paths`) lays one tree over another; `Tree::get` (`found`, `tree`) returns the entry at a path.
//!
//! A caller:
//!
//!     let mut tree = Tree::empty(alloc).ok()?;
//!     let path = Path::read(alloc, "/a").ok()?;
//!     tree.put_dir(&path, Meta::new_dir()).ok()?;
//!     Some(tree.is_dir(&path)) // true
#![tactic(auto)]

mod child_insertion;
mod child_pieces;
mod children;
mod compare;
mod content;
mod covering_children;
mod directory_listing;
mod directory_names;
mod edit;
mod fault;
mod mode_and_owner;
mod mode_texts;
mod name;
mod node;
mod overlay;
mod overlay_settings;
mod overlay_writing;
mod path;
mod path_length_check;
mod selected_paths;
mod selected_removal;
mod tree;
mod walk;

pub use children::Children;
pub use content::Content;
pub use directory_names::Names;
pub use fault::TreeFault;
pub use llb_wire::{Bytes, Text};
pub use mode_and_owner::Meta;
pub use mode_texts::Mode;
pub use name::Name;
pub use node::{Child, Entry, Node};
pub use overlay_settings::OverlaySettings;
pub use path::Path;
pub use selected_removal::NameTest;
pub use tree::Tree;
pub use walk::Walk;
