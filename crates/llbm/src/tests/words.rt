//! Tests how many workers a run has by the words of its command line, and what is printed for words that are refused. What else words ask for, and which words
//! are refused, is tested by the program (`tests/command-line/words.md`, `tests/faults/command-lines.md`).

use super::devices::{Narrow, Ran};
use llb_commands::{Command, WordsFault, command_of, words_refusal};
use std::alloc::Global;

const RUNS: &[(&[&str], u32)] = &[
    (&[], 1),
    (&["run", "a=b"], 1),
    (&["run", "--workers", "2", "a=b"], 2),
    (&["run", "a=b", "--workers=64"], 64),
];

#[test]
fn words_of_a_run_name_the_workers_or_there_is_one(rt: HostRuntime) {
    for (words, workers) in RUNS {
        let line = command_of(rt.alloc(), words).expect(&rt, "a run");
        assert_eq!(rt; line.command, Command::Run);
        assert_eq!(rt; line.workers, *workers);
    }
}

const REFUSALS: &[(WordsFault<'static>, u8, &str)] = &[
    (WordsFault::Words(None), 2, "fault 183\n"),
    (WordsFault::Words(Some("x")), 2, "fault 183 x\n"),
    (WordsFault::Memory, 3, "fault 184\n"),
];

// Writes the refusal of a command line to a writer that fails after `room` bytes. Returns the status and what was written.
fn printed(alloc: Global, fault: &WordsFault<'_>, room: usize) -> Ran {
    let mut err = Narrow::new(alloc, room);
    let status = words_refusal(fault, &mut err);
    let (out, err) = (Vec::new(alloc), err.into_held());
    Ran { status, out, err }
}

#[test]
fn refused_words_are_told_in_a_line(rt: HostRuntime) {
    for (fault, status, line) in REFUSALS {
        assert!(rt; printed(rt.alloc(), fault, 100).is(*status, "", line));
        assert!(rt; printed(rt.alloc(), fault, 3).is(3, "", "fau"));
    }
}
