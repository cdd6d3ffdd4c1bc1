//! The program's commands (`run`, `show`, `step`, `asm`, `dis`) over any readers and writers, with contracts about the bytes that are read and
//! written; the words that ask for a command, and the exit status of each command. The crate is built on `llb_asm`, `llb_findings`,
//! `llb_laws`, `llb_session` and `llb_work`; the process's own words, files and streams are in `llbm`.
//!
//! Types: `Line` and `Command` (what words ask for), `Sources` (files by name), `Streams`, `ProgramFault`, `SourceFault`, `WordsFault`.
//! Promise: `laws::aim` is the aim of the whole machine (docs/CLAIMS.md). `program` is the program without its process: what it writes to
//! each stream, and its status, follow from the words, the files and the input. `run_many_over` prints the text of the result, and status 0
//! says that all of it is written.
//!
//! A caller:
//!
//!     let mut input = definition;
//!     let (mut out, mut err) = (Vec::new(alloc), Vec::new(alloc));
//!     let status = run_over(alloc, &mut input, &mut out, &mut err, Locals::new(alloc));
//!     Some((status, out))
#![tactic(auto)]

mod agreement_text;
mod assembling;
mod board_opening;
mod bounded_reading;
mod command_dispatch;
mod command_line;
mod command_line_words;
mod definition_loading;
mod disassembling;
mod fault;
mod finding_lines;
mod graph_text;
mod help_pages;
pub mod laws;
mod match_text;
mod plan_text;
mod run;
mod script_line;
mod show;
mod sources;
mod stepping;
mod text_output;

pub use agreement_text::agreements_over;
pub use assembling::asm_over;
pub use board_opening::open_over;
pub use bounded_reading::{ReadFault, read_bounded};
pub use command_dispatch::{Streams, program};
pub use command_line::{command_of, llbm_command};
pub use command_line_words::{Command, Line, Local, Shows, WordsFault, words_refusal};
pub use disassembling::{dis_over, ops_over};
pub use fault::{OutputFault, ProgramFault, refusal};
pub use finding_lines::findings_over;
pub use match_text::matches_over;
pub use plan_text::plan_over;
pub use run::{run_many_over, run_over};
pub use script_line::script_over;
pub use show::show_over;
pub use sources::{SourceFault, Sources, add_local, source_refusal};
pub use stepping::{look_over, step_over};
