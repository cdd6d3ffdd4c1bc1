//! Keeps the record of a board's events, for which memory is reserved in advance, and how often each vertex was cancelled.

ghost use Rattle.std.specs.Prelude.{◌≡◌, ◌+◌, ◌<◌, ◌≤◌, ◌∷◌, ◌++◌, [], length, replicate, get_or, IfOk, OnOk, OnErr};
ghost use Rattle.llb_model.specs.Landing.{steps_by};
ghost use Rattle.llb_events.specs.declared.event.Event.TheVariants as own;
ghost use Rattle.llb_board.specs.History.{claimed, unclaimed, cancelled, taken_by, uncancelled, front, last_of, space_back};

mod events;

pub use events::Events;
use llb_events::Event;
use llb_wire::Memory;
use std::alloc::{AllocError, Global};
use std::marker::Model;

/// The record of events, and for each vertex, by number, how often it was cancelled. Contracts see the list of events, for how many events there is room, and
/// for each vertex how often it was cancelled.
pub(crate) struct History {
    events: Events,
    cancels: Vec<usize>,
}

impl Drop for History {
    fn drop(self) {
        let History {
            events: _,
            cancels: _,
        } = self;
    }
}

impl Model for History {
    ghost use Rattle.llb_board.specs.History.{HistoryValue};

    ghost Value = { HistoryValue };

    ghost view = { λ h. record { list = h.events.list; space = record { room = h.events.room; cancels = h.cancels.items } } };
}

impl History {
    /// Makes a history without events, with room for `room` events and with 0 cancels for each of `vertices` vertices. Fails only for want of memory.
    pub(crate) fn new(alloc: Global, room: usize, vertices: usize) -> Result<History, AllocError>
        ensures none { IfOk result (λ h. h.list ≡ []) }
        ensures room { IfOk result (λ h. h.space.room ≡ room) }
        ensures cancels { IfOk result (λ h. h.space.cancels ≡ replicate vertices 0) }
    {
        Ok(History {
            events: Events::with_room(alloc, room)?,
            cancels: Vec::from_elem(alloc, 0, vertices)?,
        })
    }

    /// Returns the record.
    pub(crate) fn events(&self) -> &Events
        ensures list { result.now.list ≡ self.now.list }
        ensures room { result.now.room ≡ self.now.space.room }
    {
        &self.events
    }

    /// Appends an event. There must be room for the event.
    pub(crate) fn record(&mut self, event: Event)
        requires { length self.old.list < self.old.space.room }
        ensures list { self.new.list ≡ self.old.list ++ event ∷ [] }
        ensures space { self.new.space ≡ self.old.space }
    {
        self.events.push_reserved(event);
    }

    /// Appends a cancel by worker `w`, and adds one to the number that says how often vertex `v` was cancelled. There must be room for the event, and this
    /// number must be at most the number of events so far.
    pub(crate) fn record_cancel(&mut self, w: u32, v: u32)
        requires room { length self.old.list < self.old.space.room }
        requires low { v < length self.old.space.cancels }
        requires few { get_or self.old.space.cancels v 0 ≤ length self.old.list }
        ensures list { self.new.list ≡ self.old.list ++ own.Cancel w ∷ [] }
        ensures space { self.new.space ≡ cancelled v self.old.space }
    {
        self.events.push_reserved(Event::Cancel(w));
        let count = self.cancels[v as usize];
        let _ = self.events.len();
        self.cancels[v as usize] = count + 1;
    }

    /// Appends `count` micro-steps of a worker. There must be room for these events.
    pub(crate) fn record_steps(&mut self, w: u32, count: u32)
        requires { length self.old.list + count ≤ self.old.space.room }
        ensures list { self.new.list ≡ self.old.list ++ steps_by w count }
        ensures space { self.new.space ≡ self.old.space }
    {
        for _i in 0..count {
            self.events.push_reserved(Event::Step(w));
        }
    }

    /// Removes the last event, which is an event of vertex `v`. If the event is a claim, releases the room that the claim reserved (room for `events` events if
    /// the vertex was cancelled before, else none). If the event is a cancel, lowers by one the number that says how often the vertex was cancelled.
    pub(crate) fn take_back(&mut self, v: u32, events: usize)
        ensures list { self.new.list ≡ front self.old.list }
        ensures space { self.new.space ≡ space_back (last_of self.old.list) v events self.old.space }
    {
        match self.events.take_back() {
            Some(Event::Claim(_, _)) => {
                let less = self.claim_takes(v, events);
                self.events.give_room(less);
            }
            Some(Event::Cancel(_)) => self.uncount(v),
            _ => {}
        }
    }

    // Lowers by one the number that says how often vertex `v` was cancelled.
    fn uncount(&mut self, v: u32)
        ensures list { self.new.list ≡ self.old.list }
        ensures space { self.new.space ≡ uncancelled v self.old.space }
    {
        if (v as usize) < self.cancels.len() {
            let count = self.cancels[v as usize];
            self.cancels[v as usize] = count.saturating_sub(1);
        }
    }

    /// Reserves room for `events` more events, for a claim of vertex `v`; reserves nothing if the vertex was never cancelled. Fails with 5 `Memory` alone;
    /// then the room is as it was.
    pub(crate) fn reserve(&mut self, v: u32, events: usize) -> Result<(), Memory>
        ensures list { self.new.list ≡ self.old.list }
        ensures ok { OnOk result (self.new.space ≡ claimed v events self.old.space) }
        ensures err { OnErr result (self.new.space ≡ self.old.space) }
    {
        let more = self.claim_takes(v, events);
        self.events.take_room(more)
    }

    /// Releases the room that `reserve` reserved for vertex `v`.
    pub(crate) fn release(&mut self, v: u32, events: usize)
        ensures list { self.new.list ≡ self.old.list }
        ensures space { self.new.space ≡ unclaimed v events self.old.space }
    {
        let less = self.claim_takes(v, events);
        self.events.give_room(less);
    }

    // Returns for how many events a claim of a vertex reserves room: none if the vertex was never cancelled.
    fn claim_takes(&self, v: u32, events: usize) -> usize
        ensures { result ≡ taken_by v events self.now.space }
    {
        match self.cancels.get(v as usize).copied() {
            None | Some(0) => 0,
            Some(_) => events,
        }
    }

    /// Returns an equal copy, with as much room. Fails with 5 `Memory` alone.
    pub(crate) fn copy(&self, alloc: Global) -> Result<History, Memory>
        ensures { IfOk result (λ h. h ≡ self.now) }
    {
        Ok(History {
            events: self.events.with_same(alloc)?,
            cancels: Vec::from_slice(alloc, &self.cancels)?,
        })
    }
}
