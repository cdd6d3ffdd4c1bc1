//! The setting of a script's commands: their working directory and their environment.

ghost use Rattle.std.specs.Prelude.{◌≡◌, IfOk};

use crate::text_copies::copies;
use llb_tree::Path;
use llb_wire::{Many, Memory, Same, Text};

/// Where commands run: relative paths begin at the directory `cwd`, and `envfile` writes the variables `env`.
pub struct Setting {
    pub cwd: Path,
    pub env: Many<Text>,
}

impl Drop for Setting {
    fn drop(self) {
        let Setting { cwd: _, env: _ } = self;
    }
}

impl Setting {
    /// Copies the setting. Fails with 5 `Memory` alone.
    pub fn copy(&self) -> Result<Setting, Memory>
        ensures { IfOk result (λ s. s ≡ self.now) }
    {
        let cwd = self.cwd.copy()?;
        let env = copies(self.env.allocator(), self.env.as_slice())?;
        Ok(Setting {
            cwd,
            env: Many::new(env),
        })
    }
}

impl Same for Setting {
    fn same(&self, other: &Setting) -> bool {
        self.cwd.same(&other.cwd) && self.env.same(&other.env)
    }
}
