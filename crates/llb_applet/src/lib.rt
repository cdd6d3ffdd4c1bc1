//! Scripts: commands of thirteen small kinds, joined by `;`, `&&` and `||`. `read_script` reads a script, or refuses it; `run_command` runs one
//! command on a view of `llb_mount`. The crate starts no process, and reads no other shell syntax.
//!
//! Types: `Script` (commands, each with its join to the commands before it), `Command`, `Setting` (working directory and environment),
//! `ScriptFault` (71 to 74).
//! Promise: `read_script` (`gives`, `last`) returns the commands of the arguments, or their first fault. `run_command` (`status`, `view`,
//! `kept`, `err`) changes the view exactly as the definitions say, applet by applet; with a status other than 0 the view is unchanged.
//!
//! A caller:
//!
//!     let script = read_script(alloc, args).ok()?;
//!     let first = script.commands().first()?;
//!     let cwd = Path::root(alloc);
//!     let setting = Setting { cwd, env: Many::new(Vec::new(alloc)) };
//!     run_command(alloc, &first.command, &setting, view).ok()
#![tactic(auto)]

mod applet;
mod call;
mod cause;
mod command;
mod directory_and_variables;
mod edit_cause;
mod fault;
mod first_bad_position;
mod joined_commands;
mod laws;
mod path_in_mount;
mod run;
mod script;
mod text_copies;
mod view_changes;
mod written_contents;

pub use cause::{Cause, What, why_failed};
pub use command::{Command, Kind};
pub use directory_and_variables::Setting;
pub use fault::{Memory, ScriptFault};
pub use joined_commands::{Join, Joined};
pub use laws::{reads_again, splits_at_ands};
pub use llb_mount::View;
pub use llb_tree::{Mode, Path, Tree};
pub use llb_wire::{Many, Text};
pub use run::run_command;
pub use script::{Script, read_script};
