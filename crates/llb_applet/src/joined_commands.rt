//! The commands of a script with their joins. A join says by the last status whether a command runs.

ghost use Rattle.std.specs.Prelude.{Ok};
ghost use Rattle.llb_applet.specs.CallResults.{Gives};

use crate::command::Command;
use crate::fault::ScriptFault;
use llb_wire::Same;

/// When a command runs, by the separator before it. The last status is the status of the last command that ran.
#[derive(Clone, Copy)]
pub enum Join {
    /// The first command of a script, or one after `;`: the command always runs.
    Then,
    /// After `&&`: the command runs if the last status is 0.
    And,
    /// After `||`: the command runs if the last status is not 0.
    Or,
}

/// A command of a script, and when it runs.
pub struct Joined {
    pub join: Join,
    pub command: Command,
}

impl Drop for Joined {
    fn drop(self) {
        let Joined {
            join: _,
            command: _,
        } = self;
    }
}

impl Joined {
    /// Copies the command and its join. Fails with 74 `Memory` alone.
    pub fn copy(&self) -> Result<Joined, ScriptFault>
        ensures { Gives (λ c. c) result (Ok self.now) }
    {
        let command = self.command.copy()?;
        Ok(Joined {
            join: self.join,
            command,
        })
    }
}

impl Same for Join {
    fn same(&self, other: &Join) -> bool {
        match (self, other) {
            (Join::Then, Join::Then) => true,
            (Join::And, Join::And) => true,
            (Join::Or, Join::Or) => true,
            _ => false,
        }
    }
}

impl Same for Joined {
    fn same(&self, other: &Joined) -> bool {
        self.join.same(&other.join) && self.command.same(&other.command)
    }
}
