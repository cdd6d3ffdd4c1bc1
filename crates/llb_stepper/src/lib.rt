//! Steps through a run, forwards and back: event by event, up to breakpoints, or over a given record. Each event that the stepper did can be taken back without
//! allocating. The crate is built on `llb_board`, and changes a board only by calls of that crate.
//!
//! Types: `Stepper` (a board, what undoes each event that the stepper did on it, and breakpoints), `Break`, `Stop`, `StepperFault` (171 to 174).
//! Promise: `Stepper::back` (`ok`, `fewer`, `none`) restores exactly the board before the last event. `Stepper::go` (`goes`, `err`) and
//! `Stepper::replay` (`stops`, `err`) stop at the first event that meets a breakpoint. Laws: `record_is_the_run`, `past_is_the_records`,
//! `replay_is_the_run`, `replies_are_recorded`.
//!
//! A caller:
//!
//!     let mut stepper = Stepper::new(alloc, board);
//!     stepper.break_at(Break::Fails).ok()?;
//!     stepper.go().ok()?;
//!     stepper.back().ok()
#![tactic(auto)]

mod breakpoints;
mod fault;
mod record_text;
mod stepper;
mod stop;

pub use fault::StepperFault;
pub use stepper::{
    Stepper, chosen_is_done, past_is_the_records, record_is_the_run, replay_is_the_run,
    replies_are_recorded, there_and_back,
};
pub use stop::{Break, Stop};
