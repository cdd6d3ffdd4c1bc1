//! Tests runs and sessions of one worker in the thread of the call.

use super::calls::definition_of;
use super::devices::Ran;
use llb_commands::{look_over, run_over};
use llb_loader::Locals;

#[test]
fn one_worker_runs_in_the_thread_of_the_call(rt: HostRuntime) {
    let alloc = rt.alloc();
    let bytes = definition_of(&rt, alloc, "MAKES_A; RESULT_0");
    let mut input = bytes.as_slice();
    let (mut out, mut err) = (Vec::new(alloc), Vec::new(alloc));
    let status = run_over(alloc, &mut input, &mut out, &mut err, Locals::new(alloc));
    let ran = Ran { status, out, err };
    assert!(rt; ran.is(0, "d 0755 0 0 /\nf 0644 0 0 6869 /a\n", ""));
}

#[test]
fn look_over_answers_looks(rt: HostRuntime) {
    let alloc = rt.alloc();
    let bytes = definition_of(&rt, alloc, "MAKES_A; RESULT_0");
    let mut file = bytes.as_slice();
    let mut lines = b"work 0\njump\n".as_slice();
    let (mut out, mut err) = (Vec::new(alloc), Vec::new(alloc));
    let locals = Locals::new(alloc);
    let status = look_over(alloc, &mut file, &mut lines, &mut out, &mut err, locals, 1);
    let ran = Ran { status, out, err };
    assert!(rt; ran.is(0, "none\nfault 173 2\n", ""));
}
