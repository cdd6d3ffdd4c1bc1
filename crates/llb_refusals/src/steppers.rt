//! Calls on steppers while memory is refused. A stepper is written as its board (see `boards`), then ` then ` and the commands that were done on the stepper,
//! which are written as in a session.

use super::boards::{are_same, board_in, board_of};
use super::refused_growths::{Row, Trial, are_refused};
use super::value_texts::{printed_fault, printed_text};
use llb_board::Event;
use llb_session::{Looks, Request, request_in};
use llb_stepper::{Break, Stepper, StepperFault, Stop};
use llb_wire::Text;
use std::alloc::Global;
use std::process::Abort;

#[derive(Drop)]
enum Answer {
    None,
    Done(Result<(), StepperFault>),
    Gone(Result<Stop, StepperFault>),
    Line(Result<Option<Text>, StepperFault>),
}

// A stepper, another stepper that is equal to it, and events to be replayed.
#[derive(Drop)]
struct OnStepper {
    call: &'static str,
    stepper: Stepper,
    twin: Stepper,
    events: Vec<Event>,
    answer: Answer,
}

fn broken(stepper: &mut Stepper, stop: Break) -> Answer {
    Answer::Done(stepper.break_at(stop))
}

fn done(stepper: &mut Stepper, event: Event) -> Answer {
    Answer::Done(stepper.do_event(event))
}

fn stop_of(stepper: &mut Stepper) -> Option<Stop> {
    stepper.go().ok()
}

fn gone(stepper: &mut Stepper) -> Answer {
    Answer::Gone(stepper.go())
}

fn replayed(stepper: &mut Stepper, events: &[Event]) -> Answer {
    Answer::Gone(stepper.replay(events))
}

fn asked(stepper: &mut Stepper, line: &str) -> Answer {
    match request_in(Looks::Refused, line.as_bytes()) {
        Some(Request::Break(stop)) => broken(stepper, stop),
        Some(Request::Event(event)) => done(stepper, event),
        Some(Request::Go) => gone(stepper),
        _ => Answer::None,
    }
}

// Does a command on a stepper, and drops the reply.
fn ask(stepper: &mut Stepper, line: &str) {
    let _ = asked(stepper, line);
}

pub(crate) fn stepper_of(rt: &impl Abort, alloc: Global, on: &'static str) -> Stepper {
    let (board, lines) = on.split_once(" then ").unwrap_or((on, ""));
    let mut stepper = Stepper::new(alloc, board_of(rt, alloc, &board_in(rt, board)));
    for line in lines.split("; ") {
        ask(&mut stepper, line);
    }
    stepper
}

// Makes the stepper that a text describes, and lets it go to the end of the run or to the first breakpoint. Returns the record.
fn run_of(rt: &impl Abort, alloc: Global, on: &'static str) -> Vec<Event> {
    let mut stepper = stepper_of(rt, alloc, on);
    let _ = stop_of(&mut stepper);
    Vec::from_slice(alloc, stepper.board().events().as_slice()).expect(rt, "memory")
}

fn back_many(stepper: &mut Stepper, count: u64) {
    stepper.back_many(count as usize);
}

fn printed_line(rt: &impl Abort, alloc: Global, line: &Option<Text>) -> String {
    match line {
        Some(line) => printed_text(rt, alloc, line.as_str()),
        None => printed_text(rt, alloc, "no line"),
    }
}

impl OnStepper {
    // Returns the line of the record's last event, or the fault.
    fn printed_last(&self, rt: &impl Abort, alloc: Global) -> String {
        let count = self.stepper.board().events().len();
        match self.stepper.record_line(count as u64) {
            Ok(line) => printed_line(rt, alloc, &line),
            Err(fault) => printed_fault(rt, alloc, &fault),
        }
    }

    // Lets the stepper and its twin go on, and takes the events back. Returns whether both stopped in the same way, with equal boards.
    fn goes_alike(&mut self) -> bool {
        match (stop_of(&mut self.stepper), stop_of(&mut self.twin)) {
            (Some(stop), Some(other)) => {
                let are_there = are_same(self.stepper.board(), self.twin.board());
                back_many(&mut self.stepper, stop.events);
                back_many(&mut self.twin, other.events);
                are_there && stop == other
            }
            _ => false,
        }
    }
}

impl OnStepper {
    // Makes the call, and returns its result.
    fn answered(&mut self, _alloc: Global) -> Answer {
        match self.call {
            "replay" => replayed(&mut self.stepper, &self.events),
            "record_line 1" => Answer::Line(self.stepper.record_line(1)),
            _ => asked(&mut self.stepper, self.call),
        }
    }
}

impl Trial for OnStepper {
    fn ready(rt: &impl Abort, alloc: Global, row: &Row) -> OnStepper {
        let (call, on, _, _) = *row;
        OnStepper {
            call,
            stepper: stepper_of(rt, alloc, on),
            twin: stepper_of(rt, alloc, on),
            events: run_of(rt, alloc, on),
            answer: Answer::None,
        }
    }

    fn call(&mut self, alloc: Global) {
        self.answer = self.answered(alloc);
    }

    fn printed(&self, rt: &impl Abort, alloc: Global) -> String {
        match &self.answer {
            Answer::None => printed_text(rt, alloc, "nothing"),
            Answer::Done(Ok(())) | Answer::Gone(Ok(_)) => self.printed_last(rt, alloc),
            Answer::Line(Ok(line)) => printed_line(rt, alloc, line),
            Answer::Done(Err(fault)) | Answer::Gone(Err(fault)) | Answer::Line(Err(fault)) => {
                printed_fault(rt, alloc, fault)
            }
        }
    }

    fn is_as_before(&mut self, rt: &impl Abort, alloc: Global) -> bool {
        let is_same_line = match (self.stepper.record_line(1), self.twin.record_line(1)) {
            (Ok(line), Ok(other)) => {
                printed_line(rt, alloc, &line).as_str() == printed_line(rt, alloc, &other).as_str()
            }
            _ => false,
        };
        is_same_line
            && are_same(self.stepper.board(), self.twin.board())
            && self.goes_alike()
            && are_same(self.stepper.board(), self.twin.board())
    }
}

const ONE_FILE: &str = "2: MAKES_A; RESULT 0";

const CLAIMED: &str = "2: MAKES_A; RESULT 0 then claim 0 0";

const TO_CLAIM: &str = "2: MAKES_A; MAKES_B; MERGES_0_1; RESULT 2 then break claim 2";

const ROWS: &[Row] = &[
    (
        "break settle 0",
        "2: MAKES_A; RESULT 0 then claim 0 0; step 0",
        "174",
        "2 step 0 -> acted 0",
    ),
    (
        "claim 0 0",
        ONE_FILE,
        "171 141 and 174",
        "1 claim 0 0 -> file 1",
    ),
    (
        "claim 0 0",
        TO_CLAIM,
        "171 141 and 174",
        "1 claim 0 0 -> file 1",
    ),
    (
        "step 0",
        "2: MAKES_A; RESULT 0 after claim 0 0",
        "171 141 and 174",
        "2 step 0 -> acted 0",
    ),
    (
        "settle 0",
        "2: MAKES_A; RESULT 0 after claim 0 0; step 0",
        "171 141 and 174",
        "3 settle 0 -> 0 done",
    ),
    (
        "cancel 0",
        "2: MAKES_A; RESULT 0 after claim 0 0; step 0",
        "171 141 and 174",
        "3 cancel 0 -> 0 1",
    ),
    ("go", ONE_FILE, "171 141 and 174", "3 settle 0 -> 0 done"),
    ("go", TO_CLAIM, "171 141 and 174", "7 claim 0 2 -> merge 2"),
    (
        "replay",
        ONE_FILE,
        "171 141 and 174",
        "3 settle 0 -> 0 done",
    ),
    (
        "replay",
        TO_CLAIM,
        "171 141 and 174",
        "7 claim 0 2 -> merge 2",
    ),
    ("record_line 1", CLAIMED, "174", "1 claim 0 0 -> file 1"),
];

#[test]
fn steppers(rt: HostRuntime) {
    are_refused::<OnStepper>(&rt, rt.alloc(), ROWS);
}
