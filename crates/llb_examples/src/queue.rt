//! Tests of a ready queue with room for one number or two, on one thread: what the queue returns, and what the queue's faults print.

ghost use Rattle.llb_ready.specs.PassKnowledge.{SamePart};
ghost use Rattle.llb_ready.specs.QueuePasses.{IsReadyPassOf, hand_of};

use super::tree_rows::{is_same, is_so};
use llb_ready::{Full, ReadyFault, ReadyPass, ReadyQueue};
use std::sync::Wait;

// Puts a number into the queue; `take` takes a number out of the queue. A caller needs a pass to do either. A story needs only one promise of these two
// calls: the pass is still a pass of this queue, and still the same fraction of the whole pass.
fn put<R: Wait>(rt: &R, queue: &ReadyQueue, pass: &mut ReadyPass, v: u32) -> Result<(), Full>
    requires { IsReadyPassOf queue.now pass.old }
    ensures pass { IsReadyPassOf queue.now pass.new }
    ensures part { SamePart (hand_of pass.old) (hand_of pass.new) }
{
    queue.put(rt, pass, v)
}

fn take<R: Wait>(rt: &R, queue: &ReadyQueue, pass: &mut ReadyPass) -> Option<u32>
    requires { IsReadyPassOf queue.now pass.old }
    ensures pass { IsReadyPassOf queue.now pass.new }
    ensures part { SamePart (hand_of pass.old) (hand_of pass.new) }
{
    queue.take(rt, pass)
}

#[test]
fn a_queue_of_two_gives_back_a_third_number_and_is_then_emptied_in_order(rt: HostRuntime) {
    match ReadyQueue::new(rt.alloc(), 2) {
        Err(_) => panic!(rt; "no queue"),
        Ok((queue, mut pass)) => {
            let puts = [
                put(&rt, &queue, &mut pass, 7),
                put(&rt, &queue, &mut pass, 8),
                put(&rt, &queue, &mut pass, 9),
            ];
            let takes = [
                take(&rt, &queue, &mut pass),
                take(&rt, &queue, &mut pass),
                take(&rt, &queue, &mut pass),
            ];
            queue.close(pass);
            is_so(&rt, puts == [Ok(()), Ok(()), Err(Full(9))]);
            is_so(&rt, takes == [Some(7), Some(8), None]);
        }
    }
}

#[test]
fn two_halves_put_and_take_and_come_together_again(rt: HostRuntime) {
    match ReadyQueue::new(rt.alloc(), 1) {
        Err(_) => panic!(rt; "no queue"),
        Ok((queue, pass)) => {
            let (mut first, mut second) = queue.split(pass);
            let puts = [
                put(&rt, &queue, &mut first, 5),
                put(&rt, &queue, &mut second, 6),
            ];
            let takes = [
                take(&rt, &queue, &mut second),
                take(&rt, &queue, &mut first),
            ];
            let whole = queue.join(first, second);
            queue.close(whole);
            is_so(&rt, puts == [Ok(()), Err(Full(6))]);
            is_so(&rt, takes == [Some(5), None]);
        }
    }
}

#[test]
fn faults_of_a_queue_print_their_numbers(rt: HostRuntime) {
    match format!(in rt.alloc(); "{}; {}", ReadyFault::Memory, Full(9)) {
        Err(_) => panic!(rt; "no memory"),
        Ok(text) => is_same(&rt, text.as_str(), "145; 146 9"),
    }
}
