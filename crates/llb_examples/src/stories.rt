//! Stories as transcripts: of calls on boards (`checks`), of plain outcomes (`plain`), of shared vertices (`sharing`) and of kept outputs (`keeping`). A line
//! that begins with `@ ` has what the story begins with, such as a board (see the module `written`). A line that begins with `> ` is a call, and the lines
//! below it are its result. A line that begins with `# ` describes the story. Spaces before and after a line are ignored. A session on a board has the same
//! form, with commands for calls; what sessions of the program show is tested by the transcripts of the repository's folder `tests`.

use super::boards_from_texts::board_in;
use super::kept_outputs::is_kept;
use super::plain_outcomes::are_outcomes;
use super::two_definitions::{are_matchings, are_parts, are_renamings, are_shared};
use super::worker_stories::is_answered;
use llb_session::{Looks, Options, Session, converse};
use llb_stepper::Stepper;
use std::alloc::Global;
use std::process::Abort;

pub(crate) const LIMIT: usize = 1 << 20;

pub(crate) const READS: u64 = 1 << 20;

// Returns the lines of a transcript without empty lines, descriptions, and spaces before and after a line.
pub(crate) fn wanted(rt: &impl Abort, alloc: Global, story: &str) -> String {
    let mut text = String::new(alloc);
    for line in story.lines() {
        let line = line.trim();
        if !line.is_empty() && !line.starts_with("# ") {
            text.push_str(line).expect(rt, "memory");
            text.push_str("\n").expect(rt, "memory");
        }
    }
    text
}

// Appends the line of a command and what the command prints; appends nothing if the line is no command.
fn say(rt: &impl Abort, alloc: Global, session: &mut Session, line: &str, out: &mut Vec<u8>) {
    if let Some(command) = line.strip_prefix("> ") {
        out.extend_from_slice(line.as_bytes()).expect(rt, "memory");
        out.push(b'\n').expect(rt, "memory");
        let mut command = command.as_bytes();
        converse(alloc, session, &mut command, out, LIMIT, READS).expect(rt, "an answer");
    }
}

// Returns a session on a stepper, with looks.
pub(crate) fn looking(stepper: Stepper) -> Session {
    Session {
        stepper,
        options: Options {
            looks: Looks::Allowed,
            ends: false,
        },
    }
}

// Returns whether the commands of a transcript print the lines that follow them.
pub(crate) fn is_transcript(
    rt: &impl Abort,
    alloc: Global,
    session: &mut Session,
    story: &str,
) -> bool {
    let mut out = Vec::new(alloc);
    for line in story.lines() {
        say(rt, alloc, session, line.trim(), &mut out);
    }
    out.as_slice() == wanted(rt, alloc, story).as_bytes()
}

// What a story is made of: calls on a board, plain outcomes, the vertices that two definitions share, or kept outputs.
#[derive(Clone, Copy)]
pub(crate) enum StoryKind {
    Calls,
    Outcomes,
    Sharing,
    Parts,
    Renamings,
    Matchings,
    Kept,
}

fn are_calls(rt: &impl Abort, alloc: Global, head: &str, lines: &str) -> bool {
    let mut board = board_in(rt, alloc, head);
    is_answered(rt, alloc, &mut board, lines)
}

fn is_story(rt: &impl Abort, alloc: Global, kind: StoryKind, head: &str, lines: &str) -> bool {
    match kind {
        StoryKind::Calls => are_calls(rt, alloc, head, lines),
        StoryKind::Outcomes => are_outcomes(rt, alloc, head, lines),
        StoryKind::Sharing => are_shared(rt, alloc, head, lines),
        StoryKind::Parts => are_parts(rt, alloc, head, lines),
        StoryKind::Renamings => are_renamings(rt, alloc, head, lines),
        StoryKind::Matchings => are_matchings(rt, alloc, head, lines),
        StoryKind::Kept => is_kept(rt, alloc, head, lines),
    }
}

// Ends the test at the first story whose result differs from the story's lines.
pub(crate) fn are_stories(rt: &impl Abort, alloc: Global, kind: StoryKind, story: &str) {
    let (_, stories) = story.split_once("@ ").expect(rt, "a story");
    for story in stories.split("@ ") {
        let (head, lines) = story.split_once('\n').expect(rt, "a line");
        assert!(rt; is_story(rt, alloc, kind, head, lines), "{head}");
    }
}
