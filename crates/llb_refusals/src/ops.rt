//! Calls that read, write and copy ops, entries and definitions while memory is refused. None of these calls changes the
//! entries or the op on which it is made.

use super::refused_growths::{Row, Trial, are_refused};
use super::value_texts::{printed_bytes, printed_fault, printed_text};
use super::values_from_texts::{definition_of, entries_of, printed_entries};
use llb_ops::{
    Actions, Entries, FileOp, Kind, Op, OpFault, read_definition, read_op, write_definition,
    write_op,
};
use llb_wire::{Bytes, Memory, Same, all_same};
use std::alloc::Global;
use std::process::Abort;

#[derive(Drop)]
enum Answer {
    None,
    Op(Result<Op, OpFault>),
    Entries(Result<Entries, OpFault>),
    Bytes(Result<Bytes, OpFault>),
    File(Result<FileOp, OpFault>),
    Actions(Result<Actions, Memory>),
}

// A definition; the definition's entries, and the op of the first entry, each with an equal value to compare with.
#[derive(Drop)]
struct OnEntries {
    call: &'static str,
    definition: Bytes,
    entries: Entries,
    twin: Entries,
    op: Op,
    other: Op,
    answer: Answer,
}

fn first_op(rt: &impl Abort, alloc: Global, entries: &Entries) -> Op {
    let entry = entries.as_slice().first().expect(rt, "an entry");
    read_op(alloc, entry.as_slice()).expect(rt, "an op")
}

fn file_of(op: &Op) -> Option<&FileOp> {
    match &op.kind {
        Some(Kind::File(file)) => Some(file),
        _ => None,
    }
}

fn read_first(alloc: Global, entries: &Entries) -> Answer {
    match entries.as_slice().first() {
        Some(entry) => Answer::Op(read_op(alloc, entry.as_slice())),
        None => Answer::None,
    }
}

fn copy_file(op: &Op) -> Answer {
    match file_of(op) {
        Some(file) => Answer::File(file.copy()),
        None => Answer::None,
    }
}

fn copy_actions(op: &Op) -> Answer {
    match file_of(op) {
        Some(file) => Answer::Actions(file.actions.copy()),
        None => Answer::None,
    }
}

// Returns the bytes that `write_op` writes for an op, in hexadecimal.
fn printed_op(rt: &impl Abort, alloc: Global, op: &Op) -> String {
    let bytes = write_op(alloc, op).expect(rt, "memory");
    printed_bytes(rt, alloc, bytes.as_slice())
}

impl OnEntries {
    // Makes the call, and returns its result.
    fn answered(&mut self, alloc: Global) -> Answer {
        match self.call {
            "read_op" => read_first(alloc, &self.entries),
            "write_op" => Answer::Bytes(write_op(alloc, &self.op)),
            "read_definition" => {
                Answer::Entries(read_definition(alloc, self.definition.as_slice()))
            }
            "write_definition" => Answer::Bytes(write_definition(alloc, &self.entries)),
            "FileOp::copy" => copy_file(&self.op),
            _ => copy_actions(&self.op),
        }
    }
}

impl Trial for OnEntries {
    fn ready(rt: &impl Abort, alloc: Global, row: &Row) -> OnEntries {
        let (call, on, _, _) = *row;
        let entries = entries_of(rt, alloc, on);
        OnEntries {
            call,
            definition: definition_of(rt, alloc, on),
            op: first_op(rt, alloc, &entries),
            other: first_op(rt, alloc, &entries),
            entries,
            twin: entries_of(rt, alloc, on),
            answer: Answer::None,
        }
    }

    fn call(&mut self, alloc: Global) {
        self.answer = self.answered(alloc);
    }

    fn printed(&self, rt: &impl Abort, alloc: Global) -> String {
        match &self.answer {
            Answer::None => printed_text(rt, alloc, "nothing"),
            Answer::Op(Ok(op)) => printed_op(rt, alloc, op),
            Answer::Entries(Ok(entries)) => printed_entries(rt, alloc, entries),
            Answer::Bytes(Ok(bytes)) => printed_bytes(rt, alloc, bytes.as_slice()),
            Answer::File(Ok(file)) => printed_fault(rt, alloc, &file.actions.len()),
            Answer::Actions(Ok(actions)) => printed_fault(rt, alloc, &actions.len()),
            Answer::Op(Err(fault))
            | Answer::Entries(Err(fault))
            | Answer::Bytes(Err(fault))
            | Answer::File(Err(fault)) => printed_fault(rt, alloc, fault),
            Answer::Actions(Err(fault)) => printed_fault(rt, alloc, fault),
        }
    }

    fn is_as_before(&mut self, _rt: &impl Abort, _alloc: Global) -> bool {
        self.op.same(&self.other) && all_same(self.entries.as_slice(), self.twin.as_slice())
    }
}

// The bytes of a file op that makes the file `/a` with the content `hi` on the empty tree.
const A: &str =
    "raw 2230122e08ffffffffffffffffff0110ffffffffffffffffff012a160a022f6110a4031a02686928ffffffffffffffffff01";

const A_BYTES: &str =
    "2230122e08ffffffffffffffffff0110ffffffffffffffffff012a160a022f6110a4031a02686928ffffffffffffffffff01";

// A merge of one input, the empty tree, with a platform and constraints.
const MERGE: &str = "raw 320d0a0b08ffffffffffffffffff01520e0a05616d64363412056c696e75785a00";

const MERGE_BYTES: &str = "320d0a0b08ffffffffffffffffff01520e0a05616d64363412056c696e75785a00";

const TWO: &str =
    "raw 2230122e08ffffffffffffffffff0110ffffffffffffffffff012a160a022f6110a4031a02686928ffffffffffffffffff01; RESULT 0";

const TWO_BYTES: &str =
    "0a322230122e08ffffffffffffffffff0110ffffffffffffffffff012a160a022f6110a4031a02686928ffffffffffffffffff01\
    0a4b0a490a477368613235363a65303064363535393738393537393066376463323664626637323461343131626438336338653135383831616233656561313865613735303935373832646162";

const ROWS: &[Row] = &[
    ("read_op", A, "14", A_BYTES),
    ("read_op", MERGE, "14", MERGE_BYTES),
    ("read_op", "raw b20000", "14", "3200"),
    (
        "read_op",
        "raw 32020a00320d0a0b08ffffffffffffffffff01",
        "14",
        "320f0a000a0b08ffffffffffffffffff01",
    ),
    ("write_op", A, "14", A_BYTES),
    ("write_op", MERGE, "14", MERGE_BYTES),
    ("write_op", "raw 0a0410011002", "14", "0a021002"),
    ("read_definition", TWO, "14", TWO_BYTES),
    ("read_definition", "raw b20000", "14", "0a03b20000"),
    ("write_definition", TWO, "14", TWO_BYTES),
    ("write_definition", "raw b20000", "14", "0a03b20000"),
    ("FileOp::copy", TWO, "", "1"),
    ("Actions::copy", TWO, "", "1"),
];

#[test]
fn entries(rt: HostRuntime) {
    are_refused::<OnEntries>(&rt, rt.alloc(), ROWS);
}
