//! Tests of devices that fail. Each call is made many times: first its first read (or write, or flush) fails, then its second, and so on up to the last one
//! that the call needs.

use super::calls::tried;
use super::devices::{AMPLE, Ran, Rooms};
use std::alloc::Global;
use std::process::Abort;
use std::sync::Wait;
use std::thread::Threads;

// The device that fails. `Input`, `File` and `Local` have the number of reads of one byte that the call needs, including the read at the end of the input.
// `Out` and `Flush` have the line that the call writes to standard error after the failure.
#[derive(Clone, Copy)]
enum Device {
    Input(usize),
    File(usize),
    Local(usize),
    Out(&'static str),
    Flush(&'static str),
    Err,
}

// A case: the device that fails; the call; and the call's status, standard output and standard error if no device fails.
type Case = (Device, &'static str, u8, &'static str, &'static str);

// Returns how many reads, writes or flushes of the device the call needs.
fn needed(case: &Case) -> usize {
    let (device, _, _, out, err) = case;
    match device {
        Device::Input(reads) | Device::File(reads) | Device::Local(reads) => *reads,
        Device::Out(_) => out.len(),
        Device::Flush(_) => 1,
        Device::Err => err.len(),
    }
}

// Returns devices of which only `device` fails, after `room` reads, writes or flushes.
fn rooms_of(device: Device, room: usize) -> Rooms {
    let mut rooms = AMPLE;
    match device {
        Device::Input(_) => rooms.input = room,
        Device::File(_) => rooms.file = room,
        Device::Local(_) => rooms.local = room,
        Device::Out(_) => rooms.out = room,
        Device::Flush(_) => rooms.flushes = room,
        Device::Err => rooms.err = room,
    }
    rooms
}

// Returns whether a call ended as expected after its device failed. The device did `room` reads, writes or flushes before it failed, fewer than the call needs.
fn is_failure(ran: &Ran, case: &Case, room: usize) -> bool {
    let (device, _, _, out, err) = case;
    match device {
        Device::Input(_) | Device::File(_) | Device::Local(_) => ran.is(3, "", "fault 181\n"),
        Device::Out(fault) => ran.is_cut(out, room, fault),
        Device::Flush(fault) => ran.is(3, out, fault),
        Device::Err => ran.is_cut_line(err, room),
    }
}

fn is_right(ran: &Ran, case: &Case, room: usize) -> bool {
    let (_, _, status, out, err) = case;
    if room < needed(case) {
        return is_failure(ran, case, room);
    }
    ran.is(*status, out, err)
}

// Makes the call with a device that fails at its first read, write or flush, then at its second, and so on; and last with a device that does not fail. Ends
// the test if a result is not the expected one.
fn is_tried<R: Abort + Threads + Wait + Sync>(rt: &R, alloc: Global, case: &Case) {
    let (device, call, ..) = case;
    for room in 0..=needed(case) {
        let ran = tried(rt, alloc, call, rooms_of(*device, room));
        assert!(rt; is_right(&ran, case, room), "{call}: {room}");
    }
}

const TREE: &str = "d 0755 0 0 /\nf 0644 0 0 6869 /a\n";

const GRAPH: &str = "0 file steps 1 outputs 1 inputs -\nresult 0.0\n";

const LOCAL: &str = "d 0755 0 0 /\nf 0644 0 0 6869 /f\n";

const CLAIM: &str = "1 claim 0 0 -> file 1\n";

// A reader that fails; the call; and what the call prints if the reader does not fail. The definition of `MAKES_A; RESULT_0` has 129 bytes, so the call needs
// 130 reads. The text of `asm` has 11 bytes, and the local tree `Q` has 32.
const READ: &[(Device, &str, &str)] = &[
    (Device::Input(130), "run < MAKES_A; RESULT_0", TREE),
    (
        Device::Input(130),
        "run --workers 2 < MAKES_A; RESULT_0",
        TREE,
    ),
    (Device::Input(130), "show < MAKES_A; RESULT_0", GRAPH),
    (Device::Input(12), "asm < $raw 616263|", "\x0a\x03abc"),
    (Device::Input(6), "dis < =0a03616263", "raw 616263\n"),
    (
        Device::File(130),
        "step FILE < MAKES_A; RESULT_0 | next",
        CLAIM,
    ),
    (Device::Local(33), "run p=Q < SOURCE_P; RESULT_0", LOCAL),
    (
        Device::Local(33),
        "run --workers 2 p=Q < SOURCE_P; RESULT_0",
        LOCAL,
    ),
    (
        Device::Local(33),
        "step FILE p=Q < MAKES_A; RESULT_0 | next",
        CLAIM,
    ),
];

#[test]
fn a_reader_that_fails_at_any_read_gives_nothing(rt: HostRuntime) {
    for (device, call, out) in READ {
        is_tried(&rt, rt.alloc(), &(*device, call, 0, out, ""));
    }
}

const WRITTEN: &[(&str, &str, &str)] = &[
    ("run < MAKES_A; RESULT_0", TREE, "fault 35\n"),
    ("run --workers 2 < MAKES_A; RESULT_0", TREE, "fault 35\n"),
    ("show < MAKES_A; RESULT_0", GRAPH, "fault 182\n"),
    ("asm < $raw 616263|", "\x0a\x03abc", "fault 182\n"),
    ("dis < =0a03616263", "raw 616263\n", "fault 164\n"),
];

#[test]
fn a_writer_that_fails_at_any_write_has_a_prefix_of_the_text(rt: HostRuntime) {
    for (call, out, fault) in WRITTEN {
        is_tried(&rt, rt.alloc(), &(Device::Out(fault), call, 0, out, ""));
        is_tried(&rt, rt.alloc(), &(Device::Flush(fault), call, 0, out, ""));
    }
}

// Calls that are refused, and calls whose vertex fails. After each call come its status and its line on standard error.
const REFUSED: &[(&str, u8, &str)] = &[
    ("run < FIELD_ZERO; RESULT_0", 2, "fault 82 0 3\n"),
    (
        "run < MAKES_XA; RESULT_0",
        1,
        "failed 0 action 0 fault 21\n",
    ),
    (
        "run --workers 2 < MAKES_XA; RESULT_0",
        1,
        "failed 0 action 0 fault 21\n",
    ),
    ("run p=LATE < SOURCE_P; RESULT_0", 2, "fault 32 2\n"),
    ("show < FIELD_ZERO; RESULT_0", 2, "fault 82 0 3\n"),
    ("asm < $raw 0|", 2, "fault 161 1 BadValue\n"),
    ("dis < =0800", 2, "fault 11\n"),
    (
        "step FILE < FIELD_ZERO; RESULT_0 | next",
        2,
        "fault 82 0 3\n",
    ),
    ("step NONE < MAKES_A; RESULT_0 | next", 3, "fault 181\n"),
];

#[test]
fn a_line_that_standard_error_does_not_take_is_a_failed_write(rt: HostRuntime) {
    for (call, status, line) in REFUSED {
        is_tried(&rt, rt.alloc(), &(Device::Err, call, *status, "", line));
    }
}

const SESSION: &str =
    "step FILE < MAKES_A; RESULT_0 | break settle 0; go; back; status; next; tree 0 0; quit";

// The lines of `SESSION`, each with its reply.
const LINES: &[(&str, &str)] = &[
    ("break settle 0\n", ""),
    (
        "go\n",
        "1 claim 0 0 -> file 1\n2 step 0 -> acted 0\n3 settle 0 -> 0 done\nstop\n",
    ),
    ("back\n", "back 2\n"),
    ("status\n", "0 running 0\n"),
    ("next\n", "3 settle 0 -> 0 done\n"),
    ("tree 0 0\n", TREE),
    ("quit\n", ""),
];

// Returns how many lines of the session are complete within its first `bytes` bytes.
fn lines_within(bytes: usize) -> usize {
    let mut left = bytes;
    for (at, (line, _)) in LINES.iter().enumerate() {
        if left < line.len() {
            return at;
        }
        left -= line.len();
    }
    LINES.len()
}

// Returns the replies to the first `lines` lines.
fn answers(rt: &impl Abort, alloc: Global, lines: usize) -> String {
    let mut text = String::new(alloc);
    for (_, answer) in LINES.iter().take(lines) {
        text.push_str(answer).expect(rt, "memory");
    }
    text
}

// Returns whether the session prints exactly the replies to its first `lines` lines, and ends with the status and the standard error in `end`.
fn ends_after<R: Abort + Threads + Wait + Sync>(
    rt: &R,
    alloc: Global,
    rooms: Rooms,
    lines: usize,
    end: (u8, &str),
) -> bool {
    let text = answers(rt, alloc, lines);
    tried(rt, alloc, SESSION, rooms).is(end.0, text.as_str(), end.1)
}

// The session has 49 bytes, each read by one call. The reader fails after `room` reads; only lines that were read whole have replies. Nothing is read after
// `quit`, so a reader that would fail after 49 reads does not fail.
#[test]
fn commands_that_fail_have_their_whole_lines_answered(rt: HostRuntime) {
    let alloc = rt.alloc();
    for room in 0..49 {
        let (rooms, lines) = (rooms_of(Device::Input(49), room), lines_within(room));
        assert!(rt;
            ends_after(&rt, alloc, rooms, lines, (3, "fault 181\n")),
            "{room} reads"
        );
    }
    let rooms = rooms_of(Device::Input(49), 49);
    assert!(rt; ends_after(&rt, alloc, rooms, 7, (0, "")));
}

// Each reply is flushed before the next line is read; `quit` has no reply.
#[test]
fn answers_that_are_not_flushed_end_a_session(rt: HostRuntime) {
    let (alloc, flush) = (rt.alloc(), Device::Flush("fault 182\n"));
    for room in 0..6 {
        let rooms = rooms_of(flush, room);
        assert!(rt;
            ends_after(&rt, alloc, rooms, room + 1, (3, "fault 182\n")),
            "{room} flushes"
        );
    }
    assert!(rt; ends_after(&rt, alloc, rooms_of(flush, 6), 7, (0, "")));
}

#[test]
fn a_writer_that_fails_has_a_prefix_of_the_answers(rt: HostRuntime) {
    let text = answers(&rt, rt.alloc(), 7);
    for room in 0..text.len() {
        let rooms = rooms_of(Device::Out("fault 182\n"), room);
        let ran = tried(&rt, rt.alloc(), SESSION, rooms);
        assert!(rt;
            ran.is_cut(text.as_str(), room, "fault 182\n"),
            "{room} writes"
        );
    }
}

// Words that ask for a page, and the first bytes of what is printed for them. Standard error takes only these bytes, and then fails.
const NARROW: &[(&str, &str)] = &[
    ("--help", "fau"),
    ("run -h", "fault 183\nRu"),
    ("--version", "fault 183\nllbm 1.0, "),
];

#[test]
fn a_page_that_cannot_be_written_ends_with_three(rt: HostRuntime) {
    for (words, printed) in NARROW {
        let ran = tried(&rt, rt.alloc(), words, rooms_of(Device::Err, printed.len()));
        assert!(rt; ran.is(3, "", printed), "{words}");
    }
}
