//! Tests the texts of faults that the program does not print, or not so. In a refusal of the program, the word `fault` is before such a text. All other faults
//! are tested elsewhere: in the module `loader`, and by commands and sessions in the repository's folder `tests`.

use super::board_definitions::IN_A_ROW;
use super::boards_from_texts::graph_from;
use super::tree_rows::prints;
use llb_applet::ScriptFault;
use llb_board::{ClaimFault, OpenFault, StepFault};
use llb_cache::Caches;
use llb_glob::PatternFault;
use llb_loader::{Graph, LoadFault, Locals};
use llb_ops::OpFault;
use llb_tree::TreeFault;
use llb_wire::{Memory, Text};
use std::alloc::Global;
use std::process::Abort;

const TREES: &[(TreeFault, &str)] = &[
    (TreeFault::NotFound, "21"),
    (TreeFault::NotDir, "22"),
    (TreeFault::IsDir, "23"),
    (TreeFault::Conflict, "24"),
    (TreeFault::Root, "25"),
    (TreeFault::BadName, "26"),
    (TreeFault::Memory, "27"),
];

#[test]
fn faults_of_trees_and_patterns(rt: HostRuntime) {
    let alloc = rt.alloc();
    for (fault, wanted) in TREES {
        prints(&rt, alloc, fault, wanted);
    }
    prints(&rt, alloc, &PatternFault::BadPattern, "41");
    prints(&rt, alloc, &PatternFault::Memory, "42");
}

#[test]
fn refusals_of_a_definition(rt: HostRuntime) {
    let alloc = rt.alloc();
    prints(&rt, alloc, &Memory, "5");
    prints(&rt, alloc, &OpFault::Memory, "14");
    let unreadable = LoadFault::Definition(OpFault::OverLimit);
    prints(&rt, alloc, &unreadable, "81 13");
    prints(
        &rt,
        alloc,
        &LoadFault::Entry(4, OpFault::NotUtf8),
        "82 4 12",
    );
    prints(&rt, alloc, &LoadFault::Memory, "91");
    prints(&rt, alloc, &llb_loader::Memory, "92");
}

// Returns the fault of a script that calls `apk`, which is none of the thirteen small commands.
fn no_applet(rt: &impl Abort, alloc: Global) -> ScriptFault {
    ScriptFault::NoApplet(Text::from_str(alloc, "apk").expect(rt, "memory"))
}

#[test]
fn faults_of_scripts(rt: HostRuntime) {
    let alloc = rt.alloc();
    prints(&rt, alloc, &no_applet(&rt, alloc), "71 apk");
    prints(&rt, alloc, &ScriptFault::Usage(3), "72 3");
    prints(&rt, alloc, &ScriptFault::ShellSyntax(12), "73 12");
    prints(&rt, alloc, &ScriptFault::Memory, "74");
    prints(&rt, alloc, &llb_applet::Memory, "75");
}

fn opening_fault(alloc: Global, graph: Graph) -> OpenFault {
    OpenFault::Memory(graph, Locals::new(alloc), Caches::new(alloc))
}

#[test]
fn want_of_memory_prints_the_number_of_its_call(rt: HostRuntime) {
    let alloc = rt.alloc();
    prints(&rt, alloc, &ClaimFault::Memory, "141");
    prints(&rt, alloc, &StepFault::Memory, "141");
    let fault = opening_fault(alloc, graph_from(&rt, alloc, IN_A_ROW));
    prints(&rt, alloc, &fault, "123");
}
