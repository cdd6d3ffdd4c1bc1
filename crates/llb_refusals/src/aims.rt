//! Calls `aim_is_met` while memory is refused. This call loads a definition and opens a board and a stepper that meet the
//! premises of the project's aim.

use super::boards::copy_of;
use super::refused_growths::{Row, Trial, are_refused};
use super::runs::printed_alone;
use super::value_texts::{printed_fault, printed_text, say};
use super::values_from_texts::{definition_of, entries_of, entries_text};
use llb_board::Board;
use llb_commands::ProgramFault;
use llb_commands::laws::{BoardOptions, aim_is_met};
use llb_loader::Locals;
use llb_ops::Entries;
use llb_stepper::Stepper;
use llb_wire::Bytes;
use std::alloc::Global;
use std::process::Abort;

// A text of the assembler, its entries, their definition, and the result of the latest call.
#[derive(Drop)]
struct OnDefinition {
    text: String,
    entries: Entries,
    definition: Bytes,
    answer: Option<Result<(Board, Stepper), ProgramFault>>,
}

fn options(alloc: Global, workers: u32) -> BoardOptions {
    BoardOptions {
        locals: Locals::new(alloc),
        workers,
    }
}

fn met(
    alloc: Global,
    text: &str,
    definition: &Bytes,
    entries: &Entries,
) -> Result<(Board, Stepper), ProgramFault> {
    let (board, stepper) = (options(alloc, 2), options(alloc, 1));
    aim_is_met(alloc, text.as_bytes(), definition, entries, board, stepper)
}

fn printed_copy(rt: &impl Abort, alloc: Global, board: &Board) -> String {
    printed_alone(rt, alloc, copy_of(rt, board))
}

fn board_in(stepper: &Stepper) -> &Board {
    stepper.board()
}

// Runs a copy of the board and a copy of the stepper's board to their ends. Returns the texts of both results, one after the
// other.
fn printed_results(rt: &impl Abort, alloc: Global, board: &Board, stepper: &Stepper) -> String {
    let mut text = printed_copy(rt, alloc, board);
    let other = printed_copy(rt, alloc, board_in(stepper));
    say(rt, &mut text, other.as_str());
    text
}

impl Trial for OnDefinition {
    fn ready(rt: &impl Abort, alloc: Global, row: &Row) -> OnDefinition {
        OnDefinition {
            text: entries_text(rt, alloc, row.1),
            entries: entries_of(rt, alloc, row.1),
            definition: definition_of(rt, alloc, row.1),
            answer: None,
        }
    }

    fn call(&mut self, alloc: Global) {
        let text = self.text.as_str();
        self.answer = Some(met(alloc, text, &self.definition, &self.entries));
    }

    fn printed(&self, rt: &impl Abort, alloc: Global) -> String {
        match &self.answer {
            None => printed_text(rt, alloc, "nothing"),
            Some(Ok((board, stepper))) => printed_results(rt, alloc, board, stepper),
            Some(Err(fault)) => printed_fault(rt, alloc, fault),
        }
    }

    fn is_as_before(&mut self, _rt: &impl Abort, _alloc: Global) -> bool {
        true
    }
}

const ROWS: &[Row] = &[(
    "aim_is_met",
    "MAKES_A; RESULT 0",
    "91 and 123",
    "d 0755 0 0 /\nf 0644 0 0 6869 /a\nd 0755 0 0 /\nf 0644 0 0 6869 /a\n",
)];

#[test]
fn boards_and_steppers(rt: HostRuntime) {
    are_refused::<OnDefinition>(&rt, rt.alloc(), ROWS);
}
