//! The machine as mathematics: definitions in `specs/`, which the crates that run a graph cite. The events and refusals of the machine are types of
//! `llb_events`. The crate is built on `llb_events`, `llb_fileop`, `llb_loader` and `llb_merge`. Theorems about every list of granted events are proved in
//! `proofs/`; the laws of `llb_board` state them. `specs/Lib.antt` has the order in which to read the files, and docs/FORMATS.md describes the machine in
//! words.
//!
//! Types: none in code; in `specs/`: `State` (statuses, workers, the store of caches), `Table` (the transition table), `Program`, `Outcome`,
//! `Run`.
//! Promise: `rules_want_no_memory` (`claim`, `step`), its one law: no rule refuses an event for want of memory.
//!
//! A caller:
//!
//!     // A clause of `llb_board` cites the model: the record of a board leads to its state.
//!     ghost use Rattle.llb_model.specs.Run.{run};
//!     ghost use Rattle.llb_model.specs.State.{opening};
//!     // run b.build (opening b.build b.opening) b.events ≡ Some (b.state, replies)
#![tactic(auto)]

mod laws;

pub use laws::rules_want_no_memory;
