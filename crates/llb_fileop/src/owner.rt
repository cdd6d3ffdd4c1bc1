//! The mode and the owner of what an action makes or copies.

ghost use Rattle.std.specs.Prelude.{◌≡◌, ◌≤◌, ℕ, true, unwrap_or};
ghost use Rattle.llb_tree.specs.ModeAndOwner.{MetaValue};
ghost use Rattle.llb_tree.specs.Overlay.{is_mode, laid_meta};
ghost use Rattle.llb_fileop.specs.Owners.{mode_of, mode_from, number_in, id_in, user_in, group_in, made, copied};

use llb_ops::{ChownOpt, CopyFile, User, UserOpt};
use llb_tree::{Meta, OverlaySettings};
use llb_wire::Boxed;

/// Returns the mode and the owner of what an action makes; a user or group that is not given by number is 0.
pub fn made(mode: i32, owner: &Option<Boxed<ChownOpt>>) -> Meta
    ensures { result ≡ made mode owner.now }
{
    let uid = user_in(owner).unwrap_or(0);
    let gid = group_in(owner).unwrap_or(0);
    Meta::new(low_bits(mode), uid, gid).unwrap()
}

/// Returns the mode and the owner of a copied entry: the mode, user and group of the action. The entry keeps its own mode if the action's mode is -1, and its
/// own user or group if the action gives none by number.
pub fn copied(action: &CopyFile, own: Meta) -> Meta
    ensures { result ≡ copied action.now.mode action.now.owner own }
{
    own.is_meta();
    let uid = user_in(&action.owner).unwrap_or(own.uid());
    let gid = group_in(&action.owner).unwrap_or(own.gid());
    Meta::new(mode_from(action.mode, own.mode()), uid, gid).unwrap()
}

/// Returns the settings with which a copied directory is laid over a tree: a directory that is there keeps its mode and owner.
pub fn settings(action: &CopyFile) -> OverlaySettings
    ensures given { (m : MetaValue) → laid_meta result m ≡ copied action.now.mode action.now.owner m }
    ensures keeps { result.keeps ≡ true }
{
    let uid = user_in(&action.owner);
    let gid = group_in(&action.owner);
    OverlaySettings::new(mode_given(action.mode), uid, gid, true).unwrap()
}

// Returns the mode of a copied entry: the low 12 bits of the action's mode, or the entry's own mode if the action's mode is -1.
fn mode_from(mode: i32, own: u16) -> u16
    requires { own ≤ 4095 }
    ensures value { result ≡ mode_from mode own }
    ensures small { result ≤ 4095 }
{
    mode_given(mode).unwrap_or(own)
}

// Returns the low 12 bits of an action's mode; `None` if the mode is -1.
fn mode_given(mode: i32) -> Option<u16>
    ensures value { (own : ℕ) → unwrap_or result own ≡ mode_from mode own }
    ensures small { is_mode result ≡ true }
{
    if mode == -1 {
        None
    } else {
        Some(low_bits(mode))
    }
}

// Returns the low 12 bits of a mode.
fn low_bits(mode: i32) -> u16
    ensures value { result ≡ mode_of mode }
    ensures small { result ≤ 4095 }
{
    mode.rem_euclid(4096) as u16
}

fn user_in(owner: &Option<Boxed<ChownOpt>>) -> Option<u32>
    ensures { result ≡ user_in owner.now }
{
    match owner {
        Some(owner) => id_in(&owner.get().user),
        None => None,
    }
}

fn group_in(owner: &Option<Boxed<ChownOpt>>) -> Option<u32>
    ensures { result ≡ group_in owner.now }
{
    match owner {
        Some(owner) => id_in(&owner.get().group),
        None => None,
    }
}

fn id_in(given: &Option<UserOpt>) -> Option<u32>
    ensures { result ≡ id_in given.now }
{
    match given {
        Some(given) => number_in(&given.user),
        None => None,
    }
}

fn number_in(user: &Option<User>) -> Option<u32>
    ensures { result ≡ number_in user.now }
{
    match user {
        Some(User::ById(id)) => Some(*id),
        Some(User::ByName(_)) => None,
        None => None,
    }
}
