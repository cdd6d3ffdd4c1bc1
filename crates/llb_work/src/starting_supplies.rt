//! What the workers are supplied with before any thread starts: the queue with the number of every ready vertex, for each worker a list (of vertex numbers that
//! it still has to put into the queue), room for the threads and for the numbers of vertices that wait for a locked key, and which vertices have no cache mount
//! at or before them.

ghost use Rattle.std.specs.Prelude.{◌≡◌, ◌≤◌, vec_len, IfOk, IfSome};
ghost use Rattle.llb_work.specs.WorkerPasses.{IsUncut};
ghost use Rattle.llb_work.specs.StartingSupplies.{IsSupplyFor};

use crate::key_waiters::KeyWaiters;
use crate::plain_vertices::plain_marks;
use crate::worker_thread::WorkerThread;
use llb_board::{Board, Status};
use llb_ready::{ReadyPass, ReadyQueue};
use std::alloc::{AllocError, Global};
use std::sync::Wait;
use std::sync::ledger::Ledger;

/// A queue with room for the number of every vertex, and its whole pass; for each worker a list with as much room as the queue, and room for
/// a thread; a table with room for every vertex number that waits for a locked key; for each worker that it does not wait; and for each vertex
/// whether no cache mount is at or before it.
#[derive(Drop)]
pub(crate) struct Supply<S: Ledger> {
    pub queue: ReadyQueue,
    pub pass: ReadyPass,
    pub lists: Vec<Vec<u32>>,
    pub threads: Vec<WorkerThread<S>>,
    pub waiters: KeyWaiters,
    pub waits: Vec<bool>,
    pub plain: Vec<bool>,
}

/// Makes the `Supply` of a run of n workers: all that they need before a thread starts. Returns `None` if memory is refused.
pub(crate) fn make_supply<S: Ledger>(alloc: Global, board: &Board, n: u32) -> Option<Supply<S>>
    ensures { IfSome result (IsSupplyFor board.now.build n) }
{
    let room = vertices(board);
    let (queue, pass) = ReadyQueue::new(alloc, room).ok()?;
    let lists = make_lists(alloc, n, room).ok()?;
    let threads = Vec::with_capacity(alloc, n as usize).ok()?;
    let waiters = KeyWaiters::new(alloc, room).ok()?;
    let waits = Vec::from_elem(alloc, false, n as usize).ok()?;
    let plain = plain_marks(alloc, board)?;
    Some(Supply {
        queue,
        pass,
        lists,
        threads,
        waiters,
        waits,
        plain,
    })
}

// Returns how many vertices there are, 1 to 65536.
fn vertices(board: &Board) -> u32
    ensures some { 1 ≤ result }
    ensures few { result ≤ 65536 }
{
    board.graph().vertices().len() as u32
}

// Makes a list for each of n workers, each with room for `room` numbers.
fn make_lists(alloc: Global, n: u32, room: u32) -> Result<Vec<Vec<u32>>, AllocError>
    ensures { IfOk result (λ lists. vec_len lists ≡ n) }
{
    let mut lists = Vec::with_capacity(alloc, n as usize)?;
    for _w in 0..n {
        lists.push_reserved(Vec::with_capacity(alloc, room as usize)?);
    }
    Ok(lists)
}

/// Puts the number of every ready vertex into the queue, the least first.
pub(crate) fn put_ready<R: Wait>(
    rt: &R,
    queue: &ReadyQueue,
    board: &Board,
    pass: ReadyPass,
) -> ReadyPass
    requires { IsUncut queue.now pass }
    ensures { IsUncut queue.now result }
{
    let mut pass = pass;
    for v in 0..vertices(board) {
        if matches!(board.status(v), Some(Status::Ready)) {
            let _ = queue.put(rt, &mut pass, v);
        }
    }
    pass
}
