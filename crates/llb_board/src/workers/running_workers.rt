//! What each worker runs, and what a running worker holds until its settle or cancel.

ghost use Rattle.std.specs.Prelude.{◌≡◌, ◌↔◌, ◌<◌, ◌+◌, ◌^◌, ◌||◌, ℕ, IsTrue, IfOk, Option, Some, is_some, length, map, nat_le, option_map};
ghost use Rattle.std.specs.Prelude.{replicate, slice_get, slice_set};
ghost use Rattle.llb_board.specs.declared.workers.running_workers.Execution as own;
ghost use Rattle.llb_board.specs.declared.workers.running_workers.Seat.TheVariants as seat;
ghost use Rattle.llb_board.specs.Jobs.{seat_left};
ghost use Rattle.llb_board.specs.WorkerUndo.{seat_before};
ghost use Rattle.llb_board.specs.WorkerModelValues.{IsRunning, execution_of, at_of, leased_by};

use llb_cache::{Instance, Lease};
use llb_events::VertexFault;
use llb_execution::{Saved, Steps, Workspace};
use llb_tree::Tree;
use llb_wire::{Same, all_same};
use std::alloc::{AllocError, Global};
use std::mem;

/// The state of a worker.
#[derive(Drop)]
pub(crate) enum Seat {
    /// The worker runs no vertex.
    Idle,
    /// The worker runs a vertex: the lease of the worker's cache instances, if there is one, and everything else that the worker holds.
    Runs(Option<Lease>, Execution),
}

/// The execution of a vertex, which is what a running worker holds: in `places` the cache instances that the worker has leased, in `outputs` an empty tree for
/// each output of the vertex, and in `steps` the vertex's micro-steps.
#[derive(Drop)]
pub(crate) struct Execution {
    pub vertex: u32,
    /// How many micro-steps are done; a micro-step that faults is counted too.
    pub done: u32,
    pub fault: Option<VertexFault>,
    pub view: Workspace,
    pub places: Vec<Instance>,
    pub outputs: Vec<Tree>,
    pub steps: Steps,
}

/// Returns `count` workers, all idle. Fails for want of memory alone.
pub(crate) fn idle(alloc: Global, count: u32) -> Result<Vec<Seat>, AllocError>
    ensures { IfOk result (λ v. v.items ≡ replicate count seat.Idle) }
{
    let mut seats = Vec::with_capacity(alloc, count as usize)?;
    for _i in 0..count {
        seats.push_reserved(Seat::Idle);
    }
    Ok(seats)
}

/// Returns the state of worker `w`; `None` if there is no such worker.
pub(crate) fn seat_at(seats: &[Seat], w: u32) -> Option<&Seat>
    ensures seat { option_map (λ s. s.now) result ≡ slice_get seats.now w }
    ensures does { option_map (λ s. at_of s.now) result ≡ slice_get (map at_of seats.now) w }
{
    seats.get(w as usize)
}

/// Returns whether an execution is finished: `steps` micro-steps are done, or one has faulted.
pub(crate) fn is_finished(execution: &Execution, steps: u32) -> bool
    ensures { result ≡ (is_some execution.now.fault || nat_le steps execution.now.done) }
{
    execution.fault.is_some() || steps <= execution.done
}

/// Makes a worker idle, and returns the lease that the worker had, if any.
pub(crate) fn make_idle(seats: &mut Vec<Seat>, w: u32) -> Option<Lease>
    requires { w < length seats.old.items }
    ensures idle { seats.new.items ≡ slice_set seats.old.items w seat.Idle }
    ensures leased { slice_get (map leased_by seats.old.items) w ≡ Some result }
{
    let lease = lease_of(&seats[w as usize]);
    seats[w as usize] = Seat::Idle;
    lease
}

/// Makes a running worker idle, and returns the lease that the worker had, if any, and its execution.
pub(crate) fn vacate(seats: &mut Vec<Seat>, w: u32) -> (Option<Lease>, Execution)
    requires low { w < length seats.old.items }
    requires runs { IsRunning (slice_get seats.old.items w) }
    ensures idle { seats.new.items ≡ slice_set seats.old.items w seat.Idle }
    ensures ran { slice_get seats.old.items w ≡ Some (seat.Runs result.0 result.1) }
{
    match mem::replace(&mut seats[w as usize], Seat::Idle) {
        Seat::Idle => unreachable!(),
        Seat::Runs(lease, execution) => (lease, execution),
    }
}

/// Takes back the last micro-step of a worker: its number of micro-steps done, its fault and its workspace are again as they were before it. Returns the
/// worker's lease, if any.
pub(crate) fn step_back(seats: &mut Vec<Seat>, w: u32, saved: Saved) -> Option<Lease>
    requires { w < length seats.old.items }
    ensures before { seats.new.items ≡ slice_set seats.old.items w (seat_before saved (slice_get seats.old.items w)) }
    ensures leased { slice_get (map leased_by seats.old.items) w ≡ Some result }
{
    let lease = lease_of(&seats[w as usize]);
    match &mut seats[w as usize] {
        Seat::Idle => {}
        Seat::Runs(_, execution) => {
            execution.done = execution.done.saturating_sub(1);
            execution.fault = None;
            execution.view.put_back(saved);
        }
    }
    lease
}

/// Adds the number of micro-steps in `done` to a running worker's count, sets the worker's fault and workspace to those after these micro-steps, and returns
/// the worker's lease, if any. Does not allocate.
pub(crate) fn put_left(
    seats: &mut Vec<Seat>,
    w: u32,
    done: (u32, Option<VertexFault>),
    view: Workspace,
) -> Option<Lease>
    requires low { w < length seats.old.items }
    requires few { (l : Option ℕ) (x : own.Execution) → slice_get seats.old.items w ≡ Some (seat.Runs l x) → x.done + done.0 < 2 ^ 32 }
    ensures left { seats.new.items ≡ slice_set seats.old.items w (seat_left done.0 done.1 view (slice_get seats.old.items w)) }
    ensures leased { slice_get (map leased_by seats.old.items) w ≡ Some result }
{
    let lease = lease_of(&seats[w as usize]);
    match &mut seats[w as usize] {
        Seat::Idle => {}
        Seat::Runs(_, execution) => {
            execution.done += done.0;
            execution.fault = done.1;
            execution.view = view;
        }
    }
    lease
}

/// Returns whether both lists are equally long and each worker has the same state in both, compared by value; the numbers of leases are not compared. Does not
/// allocate.
pub(crate) fn same_seats(seats: &[Seat], others: &[Seat]) -> bool
    ensures { IsTrue result ↔ (map at_of seats.now ≡ map at_of others.now) }
{
    if seats.len() != others.len() {
        return false;
    }
    for i in 0..seats.len() {
        if !same_seat(&seats[i], &others[i]) {
            return false;
        }
    }
    true
}

fn same_seat(seat: &Seat, other: &Seat) -> bool
    ensures { IsTrue result ↔ (at_of seat.now ≡ at_of other.now) }
{
    match (seat, other) {
        (Seat::Idle, Seat::Idle) => true,
        (Seat::Runs(_, execution), Seat::Runs(_, other)) => same_execution(execution, other),
        _ => false,
    }
}

// Returns whether two executions have the same vertex, workspace, instances, count of micro-steps done, and fault.
fn same_execution(execution: &Execution, other: &Execution) -> bool
    ensures { IsTrue result ↔ (execution_of execution.now ≡ execution_of other.now) }
{
    execution.vertex == other.vertex
        && execution.done == other.done
        && execution.fault.same(&other.fault)
        && execution.view.same(&other.view)
        && all_same(execution.places.as_slice(), other.places.as_slice())
}

// Returns the lease of a worker, if the worker has one.
fn lease_of(seat: &Seat) -> Option<Lease>
    ensures { result ≡ leased_by seat.now }
{
    match seat {
        Seat::Idle => None,
        Seat::Runs(lease, _) => *lease,
    }
}
