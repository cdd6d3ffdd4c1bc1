//! The mode and the owner of an entry. The type ensures that the mode is at most 4095; contracts see
//! the mode, the user and the group as numbers. Nothing here allocates.

ghost use Rattle.std.specs.Prelude.{◌≡◌, ◌≤◌};
ghost use Rattle.llb_tree.specs.ModeAndOwner.{IsMeta, meta_of, new_dir_meta};

use llb_wire::Same;
use std::marker::Model;

/// The mode and the owner of an entry. The mode is at most 4095: it has nine permission bits and the three bits above them.
#[derive(Clone, Copy)]
pub struct Meta {
    mode: u16,
    uid: u32,
    gid: u32,
}

impl Model for Meta {
    ghost use Rattle.std.specs.Prelude.{◌≤◌};
    ghost use Rattle.llb_tree.specs.ModeAndOwner.{MetaValue};

    ghost Value = { MetaValue };

    ghost view = { λ m. record { mode = m.mode; uid = m.uid; gid = m.gid } };

    ghost invariant = { λ m. m.mode ≤ 4095 };

    ghost inverse = { λ m. record { mode = m.mode; uid = m.uid; gid = m.gid } };
}

impl Meta {
    /// Makes the mode and the owner of an entry; `None` exactly if `mode` is above 4095.
    pub fn new(mode: u16, uid: u32, gid: u32) -> Option<Meta>
        ensures { result ≡ meta_of mode uid gid }
    {
        if mode > 4095 {
            None
        } else {
            Some(Meta { mode, uid, gid })
        }
    }

    /// Returns the mode and the owner of a new directory for which none are given: 0755 0:0.
    pub fn new_dir() -> Meta
        ensures { result ≡ new_dir_meta }
    {
        Meta {
            mode: 0o755,
            uid: 0,
            gid: 0,
        }
    }

    /// Proves that the mode is at most 4095, and that the user and the group are below 2^32.
    pub fn is_meta(&self)
        ensures { IsMeta self.now }
    {
        let _uid = self.uid;
        let _gid = self.gid;
    }

    /// Returns the mode, at most 4095.
    pub fn mode(&self) -> u16
        ensures value { result ≡ self.now.mode }
        ensures small { result ≤ 4095 }
    {
        self.mode
    }

    /// Returns the number of the user that owns the entry.
    pub fn uid(&self) -> u32
        ensures { result ≡ self.now.uid }
    {
        self.uid
    }

    /// Returns the number of the group that owns the entry.
    pub fn gid(&self) -> u32
        ensures { result ≡ self.now.gid }
    {
        self.gid
    }
}

impl Same for Meta {
    fn same(&self, other: &Meta) -> bool {
        self.mode == other.mode && self.uid == other.uid && self.gid == other.gid
    }
}
