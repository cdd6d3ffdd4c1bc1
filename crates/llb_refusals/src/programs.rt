//! The program's commands while memory is refused. The writers are lists in memory that have room for the whole output, so that writing does not allocate.

use super::refused_growths::{
    MOST, Row, Trial, are_refused, is_lack, print_count, refuse, was_refused,
};
use super::value_texts::{is_same, printed_bytes, printed_text, say};
use super::values_from_texts::{definition_of, entries_text, locals_of};
use llb_commands::{
    agreements_over, asm_over, dis_over, findings_over, look_over, matches_over, ops_over,
    plan_over, run_many_over, run_over, script_over, show_over, step_over,
};
use llb_loader::Locals;
use llb_samples::tree_text;
use std::alloc::Global;
use std::process::Abort;
use std::sync::Wait;
use std::thread::Threads;

// The status of a command, and what the command wrote to standard output and to standard error.
#[derive(Drop)]
struct Ran {
    status: u8,
    out: Vec<u8>,
    err: Vec<u8>,
}

fn ran_nothing(rt: &impl Abort, alloc: Global) -> Ran {
    Ran {
        status: 0,
        out: Vec::with_capacity(alloc, 4000).expect(rt, "memory"),
        err: Vec::with_capacity(alloc, 4000).expect(rt, "memory"),
    }
}

// Returns the input of a command: the assembler's text for `asm_over`, a script for `script_over`, and a definition for any other command.
fn input_of(rt: &impl Abort, alloc: Global, call: &str, on: &str) -> Vec<u8> {
    match call {
        "asm_over" => entries_text(rt, alloc, on).into_bytes(),
        "script_over" => printed_text(rt, alloc, on).into_bytes(),
        _ => definition_of(rt, alloc, on).into_vec(),
    }
}

impl Ran {
    fn clear(&mut self) {
        self.out.clear();
        self.err.clear();
    }

    // Returns the first line of standard output that is a refusal.
    fn refusal(&self) -> Option<&str> {
        let text = str::from_utf8(self.out.as_slice()).ok()?;
        for line in text.lines() {
            if line.starts_with("fault ") {
                return Some(line);
            }
        }
        None
    }

    // Returns the result of a command as text. If the command wrote to standard error, the text has the status and what it wrote there. If it did not, and the
    // status is 2, the text is standard output. If the status is 0, the text is the first refusal on standard output or, without a refusal, all of it.
    fn printed(&self, rt: &impl Abort, alloc: Global, is_text: bool) -> String {
        let (status, err) = (
            self.status,
            str::from_utf8(self.err.as_slice()).unwrap_or(""),
        );
        if status == 2 && err.is_empty() {
            return printed_text(rt, alloc, str::from_utf8(self.out.as_slice()).unwrap_or(""));
        }
        if status != 0 {
            return format!(in alloc; "{status} {}", err.trim()).expect(rt, "memory");
        }
        match (self.refusal(), str::from_utf8(self.out.as_slice())) {
            (Some(fault), _) => printed_text(rt, alloc, fault),
            (None, Ok(out)) if is_text => printed_text(rt, alloc, out),
            _ => printed_bytes(rt, alloc, self.out.as_slice()),
        }
    }
}

#[derive(Drop)]
struct OnInput {
    call: &'static str,
    input: Vec<u8>,
    commands: String,
    locals: Vec<Locals>,
    wanted: &'static str,
    ran: Ran,
}

fn run(alloc: Global, mut input: &[u8], handed: &mut Vec<Locals>, ran: &mut Ran) {
    if let Some(locals) = handed.pop() {
        ran.status = run_over(alloc, &mut input, &mut ran.out, &mut ran.err, locals);
    }
}

fn step(alloc: Global, mut file: &[u8], commands: &str, handed: &mut Vec<Locals>, ran: &mut Ran) {
    let mut lines = commands.as_bytes();
    if let Some(locals) = handed.pop() {
        ran.status = step_over(
            alloc,
            &mut file,
            &mut lines,
            &mut ran.out,
            &mut ran.err,
            locals,
            2,
        );
    }
}

fn look(alloc: Global, mut file: &[u8], commands: &str, handed: &mut Vec<Locals>, ran: &mut Ran) {
    let mut lines = commands.as_bytes();
    if let Some(locals) = handed.pop() {
        ran.status = look_over(
            alloc,
            &mut file,
            &mut lines,
            &mut ran.out,
            &mut ran.err,
            locals,
            2,
        );
    }
}

// Says which vertices agree on the tree of the source `q`, which is the newer tree too.
fn agree(alloc: Global, mut input: &[u8], handed: &[Locals], ran: &mut Ran) {
    if let Some(locals) = handed.first() {
        if let Some(newer) = locals.get("q") {
            ran.status = agreements_over(
                alloc,
                locals,
                newer,
                &mut input,
                &mut ran.out,
                &mut ran.err,
            );
        }
    }
}

// Calls a command that takes no local trees. `matches_over` has the definition also as the older one.
fn other(alloc: Global, call: &str, mut input: &[u8], ran: &mut Ran) {
    let Ran { status, out, err } = ran;
    *status = match call {
        "asm_over" => asm_over(alloc, &mut input, out, err),
        "dis_over" => dis_over(alloc, &mut input, out, err),
        "findings_over" => findings_over(alloc, &mut input, out, err),
        "ops_over" => ops_over(alloc, &mut input, out, err),
        "plan_over" => plan_over(alloc, &mut input, out, err),
        "matches_over" => matches_over(alloc, input, &mut input, out, err),
        "script_over" => script_over(alloc, str::from_utf8(input).unwrap_or(""), out, err),
        _ => show_over(alloc, &mut input, out, err),
    };
}

// Returns the commands of a session, each on a line of its own.
fn lines_of(rt: &impl Abort, alloc: Global, commands: &str) -> String {
    let lines: Vec<&str> = commands.split("; ").collect(alloc).expect(rt, "memory");
    let mut text = lines.join(alloc, "\n").expect(rt, "memory");
    say(rt, &mut text, "\n");
    text
}

fn two_locals(rt: &impl Abort, alloc: Global, given: &'static str) -> Vec<Locals> {
    let mut locals = Vec::new(alloc);
    for _ in 0..2 {
        locals
            .push(locals_of(rt, alloc, given))
            .expect(rt, "memory");
    }
    locals
}

impl Trial for OnInput {
    fn ready(rt: &impl Abort, alloc: Global, row: &Row) -> OnInput {
        let (call, commands) = row.0.split_once(": ").unwrap_or((row.0, ""));
        let (on, locals) = row.1.split_once(" on ").unwrap_or((row.1, ""));
        OnInput {
            call,
            input: input_of(rt, alloc, call, on),
            commands: lines_of(rt, alloc, commands),
            locals: two_locals(rt, alloc, locals),
            wanted: tree_text(row.3),
            ran: ran_nothing(rt, alloc),
        }
    }

    fn call(&mut self, alloc: Global) {
        let OnInput {
            call,
            input,
            commands,
            locals,
            wanted: _,
            ran,
        } = self;
        ran.clear();
        match *call {
            "run_over" => run(alloc, input.as_slice(), locals, ran),
            "step_over" => step(alloc, input.as_slice(), commands.as_str(), locals, ran),
            "agreements_over" => agree(alloc, input.as_slice(), locals.as_slice(), ran),
            "look_over" => look(alloc, input.as_slice(), commands.as_str(), locals, ran),
            _ => other(alloc, call, input.as_slice(), ran),
        }
    }

    fn printed(&self, rt: &impl Abort, alloc: Global) -> String {
        self.ran.printed(rt, alloc, self.call != "asm_over")
    }

    // Returns whether the output of a command that was refused memory is an expected one: `asm` has written nothing; a session may have gone on after the
    // refused command (`is_session`); any other command has written the beginning of its whole output.
    fn is_as_before(&mut self, _rt: &impl Abort, _alloc: Global) -> bool {
        match (self.call, str::from_utf8(self.ran.out.as_slice())) {
            ("asm_over", _) => self.ran.out.is_empty(),
            ("step_over" | "look_over", Ok(out)) => is_session(out, self.wanted),
            (_, Ok(out)) => self.wanted.starts_with(out),
            (_, Err(_)) => false,
        }
    }
}

// Returns whether the output of a session is an expected one. Either it is the beginning of the session's whole output; or it has a refusal, and a row of
// `GONE_ON` has the text before the refusal, the refusal, and the text after the refusal.
fn is_session(out: &str, wanted: &str) -> bool {
    match out.split_once("fault ") {
        None => wanted.starts_with(out),
        Some((before, rest)) => is_gone_on(before, rest),
    }
}

fn is_gone_on(before: &str, rest: &str) -> bool {
    match rest.split_once('\n') {
        Some((fault, after)) => is_row(before, fault, after),
        None => is_row(before, rest, ""),
    }
}

fn is_text(text: &str, other: &str) -> bool {
    text == other
}

// Returns whether a row of `GONE_ON` has the text `before`, the fault `fault` and the text `after`.
fn is_row(before: &str, fault: &str, after: &str) -> bool {
    for (wanted, lacks, behind) in GONE_ON {
        if is_text(before, wanted) && is_lack(fault, lacks) && is_text(after, behind) {
            return true;
        }
    }
    false
}

const ONE_FILE: &str = "MAKES_A; RESULT 0";

const A_TREE: &str = "d 0755 0 0 /\nf 0644 0 0 6869 /a\n";

const SHOWN: &str =
    "0 file steps 1 outputs 1 inputs -\n1 file steps 1 outputs 1 inputs 0.0\nresult 1.0\n";

const PLANNED: &str =
    "0 sha256:17d299b0a332287e9d0f57a4a7f23e97dbf1203cd154f7157e30471c769cda1b reads token cause - \
    marks -\nmarks no\n";

const MATCHED: &str =
    "0 sha256:17d299b0a332287e9d0f57a4a7f23e97dbf1203cd154f7157e30471c769cda1b matches 0 \
    sha256:17d299b0a332287e9d0f57a4a7f23e97dbf1203cd154f7157e30471c769cda1b\n";

const AGREED: &str =
    "0 sha256:c3bd776dc8ada86b35db79645f2b8763c39de02249922098ee9c7a6d8ca1146f agrees yes\n\
    1 sha256:d948e81ac9a822b1476ce022c71143ca71644a402c16687fe4555b4d0da1340f agrees yes\n\
    2 sha256:ae520fd9677b5f47046ce9ae521872fd25d33bad3ee71cf3021cb8c86ee4347f agrees yes\n";

const A_MERGE: &str = "raw 320d0a0b08ffffffffffffffffff01520e0a05616d64363412056c696e75785a00";

const MERGE_TEXT: &str =
    "op {\n  merge {\n    inputs {\n      input -1\n    }\n  }\n  extra 520e0a05616d64363412056c696e75785a00\n}\n";

const SESSION: &str = "step_over: break settle 0; go; back; status; next; tree 0 0; quit";

const ANSWERS: &str =
    "1 claim 0 0 -> file 1\n2 step 0 -> acted 0\n3 settle 0 -> 0 done\nstop\nback 2\n0 running 0\n\
    3 settle 0 -> 0 done\nd 0755 0 0 /\nf 0644 0 0 6869 /a\n";

const GONE: &str = "1 claim 0 0 -> file 1\n2 step 0 -> acted 0\n3 settle 0 -> 0 done\nstop\n";

const BACK: &str =
    "1 claim 0 0 -> file 1\n2 step 0 -> acted 0\n3 settle 0 -> 0 done\nstop\nback 2\n";

const LOOKED: &str =
    "1 claim 0 0 -> file 1\n2 step 0 -> acted 0\n3 settle 0 -> 0 done\nstop\nback 2\n0 running 0\n";

const SETTLED: &str =
    "1 claim 0 0 -> file 1\n2 step 0 -> acted 0\n3 settle 0 -> 0 done\nstop\nback 2\n0 running 0\n\
    3 settle 0 -> 0 done\n";

// For each command of the sessions below that can be refused memory: what is printed before the command, the faults with which the command may fail, and what
// the later commands print after the failure.
const GONE_ON: &[(&str, &str, &str)] = &[
    // The refused `break` added no breakpoint, so the run goes to its end.
    (
        "",
        "174",
        "1 claim 0 0 -> file 1\n2 step 0 -> acted 0\n3 settle 0 -> 0 done\nend\nback 2\n0 running 0\n\
        3 settle 0 -> 0 done\nd 0755 0 0 /\nf 0644 0 0 6869 /a\n",
    ),
    // The refused `go` did no event.
    (
        "",
        "171 141 or 174",
        "fault 172\n0 ready\n1 claim 0 0 -> file 1\nnone\n",
    ),
    // The refused `back` did not take the settle back.
    (
        GONE,
        "174",
        "0 done\nend\nd 0755 0 0 /\nf 0644 0 0 6869 /a\n",
    ),
    (
        BACK,
        "174",
        "3 settle 0 -> 0 done\nd 0755 0 0 /\nf 0644 0 0 6869 /a\n",
    ),
    // The refused `next` did not settle the vertex.
    (LOOKED, "171 141 or 174", "none\n"),
    (SETTLED, "174", ""),
    // The first `next` was refused and did no event, so the second one does the claim.
    (
        "",
        "171 141 or 174",
        "1 claim 0 0 -> exec 1\n0 mount /\n1 mount /c\nd 0755 0 0 /\nd 0755 0 0 /\n0 locked 1 - k\n\
        d 0755 0 0 /\nnone\n",
    ),
    (
        "1 claim 0 0 -> exec 1\n",
        "171 141 or 174",
        "0 mount /\n1 mount /c\nd 0755 0 0 /\nd 0755 0 0 /\n0 locked 1 - k\nd 0755 0 0 /\nnone\n",
    ),
    // A refused `work`, `caches` or `cache` changes nothing: the later commands print what they print without the refusal.
    (
        "1 claim 0 0 -> exec 1\n2 step 0 -> ran 0 0\n",
        "174",
        "d 0755 0 0 /\nd 0755 0 0 /\nf 0644 0 0 780a /a\n0 locked 1 - k\nd 0755 0 0 /\n\
        f 0644 0 0 780a /a\nnone\n",
    ),
    (
        "1 claim 0 0 -> exec 1\n2 step 0 -> ran 0 0\n0 mount /\n1 mount /c\n",
        "174",
        "d 0755 0 0 /\nf 0644 0 0 780a /a\n0 locked 1 - k\nd 0755 0 0 /\nf 0644 0 0 780a /a\nnone\n",
    ),
    (
        "1 claim 0 0 -> exec 1\n2 step 0 -> ran 0 0\n0 mount /\n1 mount /c\nd 0755 0 0 /\n",
        "174",
        "0 locked 1 - k\nd 0755 0 0 /\nf 0644 0 0 780a /a\nnone\n",
    ),
    (
        "1 claim 0 0 -> exec 1\n2 step 0 -> ran 0 0\n0 mount /\n1 mount /c\nd 0755 0 0 /\n\
        d 0755 0 0 /\nf 0644 0 0 780a /a\n",
        "174",
        "d 0755 0 0 /\nf 0644 0 0 780a /a\nnone\n",
    ),
    (
        "1 claim 0 0 -> exec 1\n2 step 0 -> ran 0 0\n0 mount /\n1 mount /c\nd 0755 0 0 /\n\
        d 0755 0 0 /\nf 0644 0 0 780a /a\n0 locked 1 - k\n",
        "174",
        "none\n",
    ),
    (
        "1 claim 0 0 -> exec 1\n2 step 0 -> ran 0 0\n0 mount /\n1 mount /c\nd 0755 0 0 /\n\
        d 0755 0 0 /\nf 0644 0 0 780a /a\n0 locked 1 - k\nd 0755 0 0 /\nf 0644 0 0 780a /a\n",
        "174",
        "",
    ),
];

const LOOKS: &str =
    "look_over: next; next; work 0; work 0 0; work 0 1; caches; cache 0 0; work 1; quit";

const SEEN: &str =
    "1 claim 0 0 -> exec 1\n2 step 0 -> ran 0 0\n0 mount /\n1 mount /c\nd 0755 0 0 /\n\
    d 0755 0 0 /\nf 0644 0 0 780a /a\n0 locked 1 - k\nd 0755 0 0 /\nf 0644 0 0 780a /a\nnone\n";

const ROWS: &[Row] = &[
    (
        "run_over",
        ONE_FILE,
        "3 fault 184 and 3 fault 91 and 3 fault 123 and 3 fault 151 and 3 fault 34",
        A_TREE,
    ),
    (
        "show_over",
        "MAKES_A; D_ON_0; RESULT 1",
        "3 fault 184 and 3 fault 91",
        SHOWN,
    ),
    (
        "findings_over",
        "raw 3a00; RESULT 0",
        "3 fault 184 and 3 fault 91",
        "fault 88 0 DiffOp\n",
    ),
    ("plan_over", ONE_FILE, "3 fault 184 and 3 fault 91", PLANNED),
    (
        "matches_over",
        ONE_FILE,
        "3 fault 184 and 3 fault 91",
        MATCHED,
    ),
    (
        "agreements_over",
        "SOURCE_P; SOURCE_Q; CHANGES_0_BY_1; RESULT 2 on q=F",
        "3 fault 184 and 3 fault 91",
        AGREED,
    ),
    ("script_over", "gzip /a", "3 fault 184", "fault 71 gzip\n"),
    (
        "asm_over",
        "# a comment; \traw b20000",
        "3 fault 184 and 3 fault 163 and 3 fault 14",
        "0a03b20000",
    ),
    (
        "dis_over",
        A_MERGE,
        "3 fault 184 and 3 fault 14 and 3 fault 163",
        MERGE_TEXT,
    ),
    (
        "ops_over",
        "raw b20000",
        "3 fault 184 and 3 fault 14 and 3 fault 163",
        "op {\n  merge {\n  }\n}\n",
    ),
    (
        SESSION,
        ONE_FILE,
        "3 fault 184 and 3 fault 91 and 3 fault 123 and fault 171 141 and fault 174",
        ANSWERS,
    ),
    (
        LOOKS,
        "locked: write /c/a x; RESULT 0",
        "3 fault 184 and 3 fault 91 and 3 fault 123 and fault 171 141 and fault 174",
        SEEN,
    ),
];

#[test]
fn commands(rt: HostRuntime) {
    are_refused::<OnInput>(&rt, rt.alloc(), ROWS);
}

fn run_many<R: Threads + Wait + Sync>(
    rt: &R,
    alloc: Global,
    mut input: &[u8],
    ran: &mut Ran,
    locals: Locals,
    workers: u32,
) {
    let Ran { status, out, err } = ran;
    *status = run_many_over(rt, alloc, &mut input, out, err, locals, workers);
}

// Runs a definition by two workers, and refuses growth `k` of the run (its request for memory with this number). Ends the test unless the run fails with a
// fault that the row has, or prints the right result without that memory. Returns whether the growth was refused.
fn is_growth<R: Abort + Threads + Wait + Sync>(rt: &R, alloc: Global, row: &Row, k: usize) -> bool {
    let (_, on, lacks, wanted) = *row;
    let input = input_of(rt, alloc, "run_many_over", on);
    let mut ran = ran_nothing(rt, alloc);
    refuse(alloc, k);
    run_many(rt, alloc, input.as_slice(), &mut ran, Locals::new(alloc), 2);
    let is_refused = was_refused(alloc);
    let printed = ran.printed(rt, alloc, true);
    if is_refused && is_lack(printed.as_str(), lacks) {
        assert!(rt;
            wanted.as_bytes().starts_with(ran.out.as_slice()),
            "growth {k}"
        );
        return true;
    }
    is_same(rt, printed.as_str(), wanted);
    is_refused
}

fn growths<R: Abort + Threads + Wait + Sync>(rt: &R, alloc: Global, row: &Row) -> usize {
    for k in 1..MOST {
        if !is_growth(rt, alloc, row, k) {
            return k.saturating_sub(1);
        }
    }
    panic!(rt; "no end of growths");
}

const MANY: Row = (
    "run_many_over",
    "MAKES_A; MAKES_B; MERGES_0_1; RESULT 2",
    "3 fault 184 or 3 fault 91 or 3 fault 123 or 3 fault 151 or 3 fault 153 or 3 fault 34",
    "d 0755 0 0 /\nf 0644 0 0 6869 /a\nf 0644 0 0 686f /b\n",
);

#[test]
fn runs_of_two_workers(rt: HostRuntime) {
    let count = growths(&rt, rt.alloc(), &MANY);
    print_count(&rt, count, &MANY);
}
