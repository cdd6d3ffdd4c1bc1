//! Laws of progress by the table: a board is never stuck, and every schedule ends; and functions that run a board by any schedule, which rely on these laws.
//! The crate is built on `llb_board`.
//!
//! Types: none.
//! Promise: `laws::never_stuck` (`running`, `ready`, `claims`, `end`): until a board is complete, some event other than a cancel is granted; a running
//! worker can always go on. `laws::ready_or_held_up`: a claim of a Ready vertex by an idle worker is granted, or refused only for a locked key that a
//! running worker holds. `laws::ends_whatever_comes` (`nearer`, `few`, `ends`, `within`, `longest`): every schedule of claims, steps and settles ends,
//! in a complete state, after at most the sum over all vertices of micro-steps + 2 events. `laws::complete_boards_agree`: two complete boards over one
//! graph without cache mounts and over the same local trees have the same statuses. `run_by` (`few`, `complete`) runs a board to its end by any
//! schedule; `run_both` (`agree`) runs two copies by two schedules, which end alike without cache mounts. No law speaks of threads.
//!
//! A caller:
//!
//!     fn reader(board: &Board, other: &Board) {
//!         never_stuck(board);
//!         ready_or_held_up(board);
//!         ends_whatever_comes(board);
//!         complete_boards_agree(board, other);
//!     }
//!
//!     fn runner(board: &Board, schedule: &[Event]) -> Result<(Board, Board), Memory> {
//!         run_both(board, schedule, &[])
//!     }
#![tactic(auto)]

pub mod laws;
mod schedule;

pub use schedule::{claim_ready, go_on, run_both, run_by};
