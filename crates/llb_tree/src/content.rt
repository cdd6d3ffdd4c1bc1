//! Contents that files share: sharing copies no bytes, so copying a file to another path, or giving a file
//! another mode or owner, costs only the edit of the tree.

ghost use Rattle.std.specs.Prelude.{◌≡◌, [], Ok, List, ℕ, IfOk, OnErr};
ghost use Rattle.std.specs.Arc.{arc_value};
ghost use Rattle.std.specs.FinMap as finite;
ghost use Rattle.llb_wire.specs.Spelling.{AreBytes};
ghost use Rattle.llb_tree.specs.Tree.{Gives, MemoryLast, put_file, content_of};
ghost use Rattle.llb_tree.specs.Nodes.{file_look};

use crate::fault::TreeFault;
use crate::mode_and_owner::Meta;
use crate::node::{Kind, Node};
use crate::path::Path;
use crate::tree::{Tree, file_may_stand};
use llb_wire::Bytes;
use std::alloc::AllocError;
use std::marker::Model;
use std::sync::Arc;

/// A content of a file; several files may share it. Contracts see the list of its bytes.
pub struct Content {
    bytes: Arc<Bytes>,
}

impl Drop for Content {
    fn drop(self) {
        let Content { bytes: _ } = self;
    }
}

impl Model for Content {
    ghost use Rattle.std.specs.Prelude.{ℕ, List};
    ghost use Rattle.std.specs.Arc.{arc_value};

    ghost Value = { List ℕ };

    ghost view = { λ c. arc_value c.bytes };
}

impl Content {
    /// Returns the bytes. Does not allocate.
    pub fn bytes(&self) -> &Bytes
        ensures { result.now ≡ self.now }
    {
        &self.bytes
    }

    // Returns the `Arc` that holds the bytes.
    fn into_shared(self) -> Arc<Bytes>
        ensures { arc_value result ≡ self }
    {
        let Content { bytes } = self;
        bytes
    }
}

impl Node {
    // Returns the content of a file, which is shared, not copied; `None` for a directory. Fails only if the content's count of owners is
    // at its limit.
    fn content(&self) -> Result<Option<Content>, AllocError>
        ensures { IfOk result (λ c. c ≡ content_of (finite.get self.now [])) }
    {
        match &self.kind {
            Kind::Dir(..) => Ok(None),
            Kind::File(_, content) => {
                let bytes = Arc::try_clone(content)?;
                Ok(Some(Content { bytes }))
            }
        }
    }

    // Makes the node of a file with this content, which other files may share.
    fn of_content(meta: Meta, content: Content) -> Node
        ensures { (q : List (List ℕ)) → finite.get result q ≡ file_look meta content q }
    {
        Node {
            kind: Kind::File(meta, content.into_shared()),
        }
    }
}

impl Tree {
    /// Returns the content of the file at a path, which is shared, not copied; `None` if no file is there. Fails with
    /// 27 `Memory` alone, and only if the content's count of owners is at its limit.
    pub fn content(&self, path: &Path) -> Result<Option<Content>, TreeFault>
        ensures { Gives (λ c. c) result (Ok (content_of (finite.get self.now path.now))) }
    {
        match self.root.at(path.names()) {
            None => Ok(None),
            Some(node) => Ok(node.content()?),
        }
    }

    /// Puts a file at a path, or replaces the file there, as `put_file` does, with a content that is shared and not
    /// copied. Fails, in this order, with 25 `Root` at the root, 21 `NotFound` or 22 `NotDir` at the first parent that
    /// is missing or a file, 23 `IsDir` if a directory is there; else with 27 `Memory`. After a refusal the tree is
    /// unchanged.
    pub fn put_content(
        &mut self,
        path: &Path,
        meta: Meta,
        content: Content,
    ) -> Result<(), TreeFault>
        ensures gives { Gives (λ _. self.new) result (put_file self.old path.now meta content) }
        ensures last { MemoryLast result (put_file self.old path.now meta content) }
        ensures err { OnErr result (self.new ≡ self.old) }
    {
        meta.is_meta();
        content.bytes().is_bytes();
        let names = path.names();
        if path.is_root() {
            return Err(TreeFault::Root);
        }
        self.root.walked(names)?;
        file_may_stand(&self.root, names)?;
        let node = Node::of_content(meta, content);
        self.root.set(self.alloc, names, Some(node))?;
        self.depth = self.depth.max(names.len());
        Ok(())
    }
}
