//! Copies what workers run. A copy shares the trees.

ghost use Rattle.std.specs.Prelude.{◌≡◌, map, IfOk};
ghost use Rattle.llb_board.specs.RunningWorkerSupplies.{ready_made};
ghost use Rattle.llb_board.specs.WorkerUndo.{left_in};
ghost use Rattle.llb_board.specs.WorkerModelValues.{at_of, leased_by};

use crate::tree_list_copies::copied_trees;
use crate::workers::running_workers::{Execution, Seat};
use llb_cache::Instance;
use llb_wire::Memory;
use std::alloc::Global;

/// Copies workers, with the same leases. Fails with 5 `Memory` alone.
pub(crate) fn copied_seats(alloc: Global, seats: &[Seat]) -> Result<Vec<Seat>, Memory>
    ensures workers { IfOk result (λ d. map at_of d.items ≡ map at_of seats.now) }
    ensures leases { IfOk result (λ d. map leased_by d.items ≡ map leased_by seats.now) }
    ensures made { IfOk result (λ d. map ready_made d.items ≡ map ready_made seats.now) }
{
    let mut copies = Vec::new(alloc);
    for seat in seats {
        copies.push(copied_seat(alloc, seat)?)?;
    }
    Ok(copies)
}

fn copied_seat(alloc: Global, seat: &Seat) -> Result<Seat, Memory>
    ensures worker { IfOk result (λ d. at_of d ≡ at_of seat.now) }
    ensures lease { IfOk result (λ d. leased_by d ≡ leased_by seat.now) }
    ensures made { IfOk result (λ d. ready_made d ≡ ready_made seat.now) }
{
    match seat {
        Seat::Idle => Ok(Seat::Idle),
        Seat::Runs(lease, execution) => Ok(Seat::Runs(*lease, copied(alloc, execution)?)),
    }
}

/// Copies what a running worker holds; the copy shares the trees. Fails with 5 `Memory` alone.
pub(crate) fn copied(alloc: Global, execution: &Execution) -> Result<Execution, Memory>
    ensures { IfOk result (λ x. left_in x ≡ left_in execution.now) }
{
    Ok(Execution {
        vertex: execution.vertex,
        done: execution.done,
        fault: execution.fault,
        view: execution.view.copy()?,
        places: copied_places(alloc, &execution.places)?,
        outputs: copied_trees(alloc, &execution.outputs)?,
        steps: execution.steps.copy()?,
    })
}

fn copied_places(alloc: Global, places: &[Instance]) -> Result<Vec<Instance>, Memory>
    ensures { IfOk result (λ p. p.items ≡ places.now) }
{
    let mut copies = Vec::new(alloc);
    for place in places {
        let key = place.key.copy()?;
        let number = place.number;
        copies.push(Instance { key, number })?;
    }
    Ok(copies)
}
