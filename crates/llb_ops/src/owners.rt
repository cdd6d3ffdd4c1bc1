//! Owners of what a file action makes: users and groups. They are read from their records, and written as their canonical bytes.

use crate::fault::OpFault;
use crate::message::{Member, Message, one, one_of};
use crate::records::{Record, joined, last_uint32, unnamed};
use crate::table::MessageName;
use crate::writing::{put_extra, put_message, put_one_of, put_set_bytes, put_set_number};
use llb_wire::{Bytes, Memory};
use std::alloc::Global;

/// The owner of the entries that an action makes or copies.
pub struct ChownOpt {
    pub user: Option<UserOpt>,
    pub group: Option<UserOpt>,
    pub extra: Bytes,
}

impl Drop for ChownOpt {
    fn drop(self) {
        let ChownOpt {
            user: _,
            group: _,
            extra: _,
        } = self;
    }
}

impl Message for ChownOpt {
    ghost use Rattle.llb_ops.specs.Messages.{chown_opt_shape, chown_opt_in};

    ghost shape = { chown_opt_shape };

    fn name() -> MessageName {
        MessageName::ChownOpt
    }

    ghost reading = { chown_opt_in };

    #[tactic(auto, unfolding(crate::specs::Messages::chown_opt_in))]
    fn read(alloc: Global, records: &[Record<'_>]) -> Result<ChownOpt, OpFault> {
        let user = one::<UserOpt>(alloc, records, 1)?;
        let group = one::<UserOpt>(alloc, records, 2)?;
        let extra = unnamed(alloc, MessageName::ChownOpt, records)?;
        Ok(ChownOpt { user, group, extra })
    }

    ghost use Rattle.llb_ops.specs.Writing.{chown_opt_bytes};

    ghost writing = { chown_opt_bytes };

    #[tactic(auto, unfolding(crate::specs::Writing::chown_opt_bytes))]
    fn write(&self, alloc: Global) -> Result<Vec<u8>, Memory> {
        let mut out = Vec::new(alloc);
        put_message(alloc, &mut out, 1, &self.user)?;
        put_message(alloc, &mut out, 2, &self.group)?;
        put_extra(&mut out, &self.extra)?;
        Ok(out)
    }
}

/// `UserOpt`: a user or a group; `user` is `None` if no member of the oneof is set.
pub struct UserOpt {
    pub user: Option<User>,
    pub extra: Bytes,
}

impl Drop for UserOpt {
    fn drop(self) {
        let UserOpt { user: _, extra: _ } = self;
    }
}

const USERS: [u32; 2] = [1, 2];

impl Message for UserOpt {
    ghost use Rattle.llb_ops.specs.Messages.{user_opt_shape, user_opt_in};

    ghost shape = { user_opt_shape };

    fn name() -> MessageName {
        MessageName::UserOpt
    }

    ghost reading = { user_opt_in };

    #[tactic(auto, unfolding(crate::specs::Messages::user_opt_in))]
    fn read(alloc: Global, records: &[Record<'_>]) -> Result<UserOpt, OpFault> {
        let user = one_of::<User>(alloc, records, &USERS)?;
        let extra = unnamed(alloc, MessageName::UserOpt, records)?;
        Ok(UserOpt { user, extra })
    }

    ghost use Rattle.llb_ops.specs.Writing.{user_opt_bytes};

    ghost writing = { user_opt_bytes };

    #[tactic(auto, unfolding(crate::specs::Writing::user_opt_bytes))]
    fn write(&self, alloc: Global) -> Result<Vec<u8>, Memory> {
        let mut out = Vec::new(alloc);
        put_one_of(alloc, &mut out, &self.user)?;
        put_extra(&mut out, &self.extra)?;
        Ok(out)
    }
}

/// A user or a group: by name, as the bytes of a message `NamedUserOpt` that is kept but not read (the payloads of its records, joined); or by number.
#[derive(Drop)]
pub enum User {
    ByName(Bytes),
    ById(u32),
}

impl Member for User {
    ghost use Rattle.llb_ops.specs.Messages.{user_of};

    ghost reading = { user_of };

    fn read(alloc: Global, number: u32, records: &[Record<'_>]) -> Result<User, OpFault> {
        match number {
            1 => Ok(User::ByName(Bytes::new(joined(alloc, records, number)?))),
            _ => Ok(User::ById(last_uint32(records, number))),
        }
    }

    ghost use Rattle.llb_ops.specs.Writing.{user_bytes};

    ghost writing = { user_bytes };

    #[tactic(auto, unfolding(crate::specs::Writing::user_bytes))]
    fn write(&self, alloc: Global) -> Result<Vec<u8>, Memory> {
        let mut out = Vec::new(alloc);
        match self {
            User::ByName(name) => put_set_bytes(&mut out, 1, name.as_slice())?,
            User::ById(id) => put_set_number(&mut out, 2, u64::from(*id))?,
        }
        Ok(out)
    }
}
