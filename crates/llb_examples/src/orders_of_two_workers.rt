//! Tries all orders in which two workers can do their events.

use super::board_definitions::TWO_FILES;
use super::boards_from_texts::board_of;
use super::stories::{is_transcript, looking};
use super::tree_rows::is_so;
use llb_board::Event;
use llb_session::Session;
use llb_stepper::Stepper;
use std::alloc::Global;
use std::process::Abort;

// All events that two workers can have on three vertices, apart from cancels.
const EVENTS: [Event; 10] = [
    Event::Claim(0, 0),
    Event::Claim(0, 1),
    Event::Claim(0, 2),
    Event::Claim(1, 0),
    Event::Claim(1, 1),
    Event::Claim(1, 2),
    Event::Step(0),
    Event::Step(1),
    Event::Settle(0),
    Event::Settle(1),
];

// Commands at the end of a run, and what they print: the run is complete, and its result has both files.
const END: &str = "
    > next
    end
    > tree 0 0
    d 0755 0 0 /
    f 0644 0 0 6869 /a
    > tree 1 0
    d 0755 0 0 /
    f 0644 0 0 686f /b
    > tree 2 0
    d 0755 0 0 /
    f 0644 0 0 6869 /a
    f 0644 0 0 686f /b
    ";

// All events that workers 0 and 1 can do if there is only one vertex.
const ON_ONE_VERTEX: [Event; 8] = [
    Event::Claim(0, 0),
    Event::Claim(1, 0),
    Event::Step(0),
    Event::Step(1),
    Event::Settle(0),
    Event::Settle(1),
    Event::Cancel(0),
    Event::Cancel(1),
];

// Returns how many more cancels are allowed after an event; `None` if the event is one cancel too many.
fn cancels_left(event: Event, cancels: u32) -> Option<u32> {
    match event {
        Event::Cancel(_) => cancels.checked_sub(1),
        _ => Some(cancels),
    }
}

// Returns the length of the longest record to which the stepper can go on with at most `cancels` cancels. Tries at most `most` further events.
fn longest_run(stepper: &mut Stepper, cancels: u32, most: u32) -> usize {
    let mut longest = stepper.board().events().len();
    if most == 0 {
        return longest;
    }
    for event in ON_ONE_VERTEX {
        if let Some(cancels) = cancels_left(event, cancels) {
            if stepper.do_event(event).is_ok() {
                longest = longest.max(longest_run(stepper, cancels, most - 1));
                let _ = stepper.back();
            }
        }
    }
    longest
}

// The vertex has two commands. Each claim of it leads to at most four events: the claim, two steps, and a settle or a cancel. So each cancel allows four more
// events.
#[test]
fn a_run_has_four_events_for_a_claim_of_two_commands(rt: HostRuntime) {
    let appends = "locked: append /c/l a && append /c/l b; RESULT_0";
    for (cancels, wanted) in [(0, 4), (1, 8), (2, 12)] {
        let board = board_of(&rt, rt.alloc(), appends, "", 2);
        let mut stepper = Stepper::new(rt.alloc(), board);
        is_so(&rt, longest_run(&mut stepper, cancels, 20) == wanted);
    }
}

// Tries all runs that go on from the board of the session's stepper, for at most `most` events. Returns how many of them end, and at how many of these ends the
// commands of `END` print the lines of `END`.
fn ends(rt: &impl Abort, alloc: Global, session: &mut Session, most: u32) -> [u32; 2] {
    let mut all = 0u32;
    let mut right = 0u32;
    let mut goes_on = false;
    if most == 0 {
        return [all, right];
    }
    for event in EVENTS {
        if session.stepper.do_event(event).is_ok() {
            let behind = ends(rt, alloc, session, most - 1);
            let _ = session.stepper.back();
            all = all.saturating_add(behind[0]);
            right = right.saturating_add(behind[1]);
            goes_on = true;
        }
    }
    if goes_on {
        return [all, right];
    }
    [1, u32::from(is_transcript(rt, alloc, session, END))]
}

// Two files and their merge. Either one worker makes both files (2 workers, 2 orders), or each makes one (2 ways, 20 interleavings of their events). Then
// either worker does the merge: (2 * 2 + 2 * 20) * 2 = 88.
#[test]
fn all_88_interleavings_of_two_workers_end_in_the_same_trees(rt: HostRuntime) {
    let board = board_of(&rt, rt.alloc(), TWO_FILES, "", 2);
    let mut session = looking(Stepper::new(rt.alloc(), board));
    is_so(&rt, ends(&rt, rt.alloc(), &mut session, 20) == [88, 88]);
}
