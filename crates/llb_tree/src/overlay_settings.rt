//! How an overlay sets modes and owners.

ghost use Rattle.std.specs.Prelude.{◌≡◌, IsTrue, Some};
ghost use Rattle.llb_tree.specs.Tree.{Dir};
ghost use Rattle.llb_tree.specs.ModeAndOwner.{MetaValue};
ghost use Rattle.llb_tree.specs.Overlay.{settings_of, laid_meta, over};
ghost use Rattle.llb_tree.specs.Laying.{AreSettings, TakesWhole, owner_fits};

use crate::mode_and_owner::Meta;
use std::marker::Model;

/// What an overlay sets at each upper entry: a mode, a user and a group, each optional (the entry keeps what is not set);
/// and whether a directory that both trees have keeps the lower tree's mode and owner.
#[derive(Clone, Copy)]
pub struct OverlaySettings {
    mode: Option<u16>,
    uid: Option<u32>,
    gid: Option<u32>,
    keeps: bool,
}

impl Model for OverlaySettings {
    ghost use Rattle.std.specs.Prelude.{◌≡◌, true};
    ghost use Rattle.llb_tree.specs.Overlay.{SettingsValue, is_mode};

    ghost Value = { SettingsValue };

    ghost view = { λ w. record { mode = w.mode; uid = w.uid; gid = w.gid; keeps = w.keeps } };

    ghost invariant = { λ w. is_mode w.mode ≡ true };

    ghost inverse = { λ w. record { mode = w.mode; uid = w.uid; gid = w.gid; keeps = w.keeps } };
}

impl OverlaySettings {
    /// Makes the settings from a mode, a user and a group, each optional, and from `keeps`, which says whether a directory that both trees have
    /// keeps the lower tree's mode and owner; returns `None` exactly if the mode is above 4095.
    pub fn new(
        mode: Option<u16>,
        uid: Option<u32>,
        gid: Option<u32>,
        keeps: bool,
    ) -> Option<OverlaySettings>
        ensures { result ≡ settings_of mode uid gid keeps }
    {
        if let Some(mode) = mode {
            if mode > 4095 {
                return None;
            }
        }
        Some(OverlaySettings {
            mode,
            uid,
            gid,
            keeps,
        })
    }

    // Returns the mode and the owner that an upper entry gets in the result; `own` is the mode and the owner that the entry has in the upper tree.
    pub(crate) fn laid_meta(&self, own: Meta) -> Meta
        ensures { result ≡ laid_meta self.now own }
    {
        let mode = self.mode.unwrap_or(own.mode());
        let uid = self.uid.unwrap_or(own.uid());
        let gid = self.gid.unwrap_or(own.gid());
        Meta::new(mode, uid, gid).unwrap_or(own)
    }

    // Returns whether no mode, no user and no group is set, so that each upper entry keeps its mode and owner.
    pub(crate) fn gives_nothing(&self) -> bool
        ensures { IsTrue result → (own : MetaValue) → laid_meta self.now own ≡ own }
    {
        self.mode.is_none() && self.uid.is_none() && self.gid.is_none()
    }

    // Returns whether an overlay with these settings leaves every entry of the upper tree unchanged, also a directory that both trees have.
    pub(crate) fn takes_whole(&self) -> bool
        ensures { IsTrue result → TakesWhole self.now }
    {
        !self.keeps && self.gives_nothing()
    }

    // Returns the mode and the owner that a directory of both trees has after the overlay.
    pub(crate) fn met(&self, lower: Meta, upper: Meta) -> Meta
        ensures { Dir result ≡ over self.now (Some (Dir lower)) (Dir upper) }
    {
        if self.keeps {
            lower
        } else {
            self.laid_meta(upper)
        }
    }

    // Proves that the mode, if it is set, is at most 4095, and that the user and the group, if they are set, are below 2^32.
    pub(crate) fn are_settings(&self)
        ensures { AreSettings self.now }
    {
        fits(self.uid);
        fits(self.gid);
    }
}

// Proves that the number of an owner, if it is set, is below 2^32.
fn fits(owner: Option<u32>)
    ensures { owner_fits owner }
{
    match owner {
        Some(owner) => {
            let _owner = owner;
        }
        None => {}
    }
}
