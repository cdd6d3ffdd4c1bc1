//! Counts a run's events in two ways. Workers that share the lock count the events that they add to the record, each with its share of a ledger; the ledger
//! makes sure that the counts add up to the number of these events. Events that one thread does alone are counted afterwards, from the record.

ghost use Rattle.std.specs.Prelude.{◌≡◌, ◌≤◌, ◌<◌, ◌+◌, ◌^◌, ◌==◌, ℕ, sum, length, drop, slice_index};
ghost use Rattle.std.specs.List.{count_by, All};
ghost use Rattle.llb_model.specs.Table.{worker_of};
ghost use Rattle.llb_model.specs.Run.{events_by};

use llb_board::{Board, Event};
use std::sync::ledger::{Book, Ledger, Share};

/// How many events a worker has made, kept twice: as the number `made`, and as the amount of the worker's share of the ledger. (A ledger makes sure that the
/// workers' counts add up.)
#[derive(Drop)]
pub(crate) struct Tally<S: Ledger> {
    pub made: u64,
    pub share: Share<S>,
    pub ghost one_part: { share.parts ≡ 1 },
    pub ghost counted: { share.amount ≡ made },
}

/// Makes the count of a worker's events (`Tally`), which is 0 at first. `share` must be one part of the ledger (which counts the events of all workers), with
/// the amount 0.
pub(crate) fn make_tally<S: Ledger>(share: Share<S>) -> Tally<S>
    requires part { share.parts ≡ 1 }
    requires empty { share.amount ≡ 0 }
{
    Tally { made: 0, share }
}

/// Adds `after - before`, the number of events that a worker has just added to the record, to the total of all workers' events, which is kept in `calls`, and
/// to the worker's own count and share in `mine`.
pub(crate) fn count<S: Ledger>(
    calls: &mut Book<S>,
    mine: &mut Tally<S>,
    before: usize,
    after: usize,
)
    requires counted { calls.old.total ≤ before }
    requires grown { before ≤ after }
    ensures { calls.new.total + before ≡ calls.old.total + after }
{
    let Tally { made, share } = mine;
    let more = (after - before) as u64;
    calls.audit(share);
    calls.add(share, more);
    *made += more;
}

/// Adds 1 to a worker's count for each event of this worker in a board's record, apart from the first `before` events of the record.
pub(crate) fn count_record(board: &Board, before: usize, made: &mut [u64; 64])
    requires within { before ≤ length board.now.events }
    requires counted { sum made.old ≤ before }
    ensures each { (w : ℕ) → w < 64 → slice_index made.new w ≡ slice_index made.old w + events_by w (drop before board.now.events) }
    ensures sum { sum made.new + before ≡ sum made.old + length board.now.events }
{
    board.replays();
    board.has_workers();
    let (_, added) = board.events().as_slice().split_at(before);
    count_events(added, made);
}

// Adds 1 to a worker's count for each of these events that is an event of this worker.
fn count_events(events: &[Event], made: &mut [u64; 64])
    requires workers { All (λ e. worker_of e < 64) events.now }
    requires room { sum made.old + length events.now < 2 ^ 64 }
    ensures each { (w : ℕ) → w < 64 → slice_index made.new w ≡ slice_index made.old w + count_by (λ e. worker_of e == w) events.now }
    ensures sum { sum made.new ≡ sum made.old + length events.now }
{
    for event in events {
        made[worker_of(*event) as usize] += 1;
    }
}

// Returns the worker of an event.
fn worker_of(event: Event) -> u32
    ensures { result ≡ worker_of event }
{
    match event {
        Event::Claim(w, _) | Event::Step(w) | Event::Settle(w) | Event::Cancel(w) => w,
    }
}
