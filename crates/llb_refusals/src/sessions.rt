//! Lines of sessions that are refused while every request for memory fails: each has its own number all the same.

use super::refused_growths::{print_count, refuse_all, was_refused};
use super::steppers::stepper_of;
use super::value_texts::is_same;
use llb_session::{Looks, Options, Session, answer};
use std::alloc::Global;
use std::process::Abort;
use std::str::from_utf8;

// A stepper (see `steppers`), a line that is refused on it, and the reply to this line if it is line 7 of a session without looks.
const REFUSED: &[(&str, &str, &str)] = &[
    (ONE_FILE, "", "fault 173 7\n"),
    (ONE_FILE, "jump", "fault 173 7\n"),
    (ONE_FILE, "claim 0", "fault 173 7\n"),
    (ONE_FILE, "work 0", "fault 173 7\n"),
    (ONE_FILE, "work 0 0", "fault 173 7\n"),
    (ONE_FILE, "caches", "fault 173 7\n"),
    (ONE_FILE, "cache 0 0", "fault 173 7\n"),
    (ONE_FILE, "graph", "fault 173 7\n"),
    (ONE_FILE, "digests", "fault 173 7\n"),
    (ONE_FILE, "back", "fault 172\n"),
    (ONE_FILE, "claim 9 0", "fault 171 131\n"),
    (ONE_FILE, "claim 0 9", "fault 171 133\n"),
    (ONE_FILE, "step 9", "fault 171 131\n"),
    (ONE_FILE, "step 0", "fault 171 136\n"),
    (ONE_FILE, "settle 9", "fault 171 131\n"),
    (ONE_FILE, "settle 0", "fault 171 136\n"),
    (ONE_FILE, "cancel 9", "fault 171 131\n"),
    (ONE_FILE, "cancel 0", "fault 171 136\n"),
    (CLAIMED, "claim 0 0", "fault 171 132\n"),
    (CLAIMED, "claim 1 0", "fault 171 134\n"),
    (CLAIMED, "settle 0", "fault 171 138\n"),
    (STEPPED, "step 0", "fault 171 137\n"),
];

const ONE_FILE: &str = "2: MAKES_A; RESULT 0";

const CLAIMED: &str = "2: MAKES_A; RESULT 0 then claim 0 0";

const STEPPED: &str = "2: MAKES_A; RESULT 0 then claim 0 0; step 0";

// Appends the reply to line 7 of a session while every request for memory fails. Returns whether the session goes on.
fn goes_on(alloc: Global, session: &mut Session, line: &str, out: &mut Vec<u8>) -> bool {
    refuse_all(alloc);
    let goes_on = answer(alloc, session, 7, line.as_bytes(), out);
    let _ = was_refused(alloc);
    matches!(goes_on, Ok(true))
}

// Returns the reply to a line on a stepper that a text describes; the memory for the reply is there before.
fn reply(rt: &impl Abort, alloc: Global, on: &'static str, line: &str) -> Vec<u8> {
    let mut session = Session {
        stepper: stepper_of(rt, alloc, on),
        options: Options {
            looks: Looks::Refused,
            ends: false,
        },
    };
    let mut out = Vec::with_capacity(alloc, 64).expect(rt, "memory");
    assert!(rt; goes_on(alloc, &mut session, line, &mut out), "{line}");
    out
}

#[test]
fn a_refused_line_takes_no_memory(rt: HostRuntime) {
    for (on, line, wanted) in REFUSED {
        let out = reply(&rt, rt.alloc(), on, line);
        is_same(&rt, from_utf8(out.as_slice()).expect(&rt, "a text"), wanted);
        print_count(&rt, 0, &(line, on, "", wanted));
    }
}
