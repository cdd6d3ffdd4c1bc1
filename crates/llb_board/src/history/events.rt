//! The record of events: a list that grows by one event at a time, in memory that was reserved before.

ghost use Rattle.std.specs.Prelude.{◌≡◌, ◌==◌, ◌≤◌, ◌<◌, ◌∷◌, ◌++◌, [], length, IfOk, OnOk, OnErr, ◌+◌, ◌-◌};
ghost use Rattle.llb_board.specs.History.{front, last_of};

use crate::fault;
use llb_events::Event;
use llb_wire::Memory;
use std::alloc::{AllocError, Global};
use std::marker::Model;

/// Events in their order. Contracts see the list of events, and for how many events memory is reserved.
pub struct Events {
    items: Vec<Event>,
    // Memory is reserved for at least this number of events, those in `items` included.
    room: usize,
}

impl Drop for Events {
    fn drop(self) {
        let Events { items: _, room: _ } = self;
    }
}

impl Model for Events {
    ghost use Rattle.std.specs.Prelude.{◌≤◌, vec_capacity};
    ghost use Rattle.llb_board.specs.History.{Recorded};

    ghost Value = { Recorded };

    ghost view = { λ e. record { list = e.items.items; room = e.room } };

    ghost invariant = { λ e. e.room ≤ vec_capacity e.items };
}

impl Events {
    /// Makes an empty record with room for `room` events. Fails only for want of memory.
    pub(crate) fn with_room(alloc: Global, room: usize) -> Result<Events, AllocError>
        ensures none { IfOk result (λ e. e.list ≡ []) }
        ensures room { IfOk result (λ e. e.room ≡ room) }
    {
        Ok(Events {
            items: Vec::with_capacity(alloc, room)?,
            room,
        })
    }

    /// Appends an event. There must be room for the event.
    pub(crate) fn push_reserved(&mut self, event: Event)
        requires { length self.old.list < self.old.room }
        ensures list { self.new.list ≡ self.old.list ++ event ∷ [] }
        ensures room { self.new.room ≡ self.old.room }
    {
        self.items.push_reserved(event);
    }

    /// Removes and returns the last event; `None` if there is none. The reserved room stays as it was.
    pub(crate) fn take_back(&mut self) -> Option<Event>
        ensures last { result ≡ last_of self.old.list }
        ensures list { self.new.list ≡ front self.old.list }
        ensures room { self.new.room ≡ self.old.room }
    {
        self.items.pop()
    }

    /// Adds `more` to the number of events for which memory is reserved (the room). Fails with 5 `Memory` alone; then this number is as it was.
    pub(crate) fn take_room(&mut self, more: usize) -> Result<(), Memory>
        ensures list { self.new.list ≡ self.old.list }
        ensures room { OnOk result (self.new.room ≡ self.old.room + more) }
        ensures err { OnErr result (self.new.room ≡ self.old.room) }
    {
        let Some(room) = self.room.checked_add(more) else {
            return Err(Memory);
        };
        self.items.reserve(room.saturating_sub(self.items.len()))?;
        self.room = room;
        Ok(())
    }

    /// Subtracts `more` from the number of events for which memory is reserved, down to 0 at the least. Does not free memory.
    pub(crate) fn give_room(&mut self, more: usize)
        ensures list { self.new.list ≡ self.old.list }
        ensures room { self.new.room ≡ self.old.room - more }
    {
        self.room = self.room.saturating_sub(more);
    }

    /// Returns a copy of the events. The copy has memory for as many events as the original has memory for. Fails with 5 `Memory` alone.
    pub(crate) fn with_same(&self, alloc: Global) -> Result<Events, Memory>
        ensures list { IfOk result (λ e. e.list ≡ self.now.list) }
        ensures room { IfOk result (λ e. e.room ≡ self.now.room) }
    {
        let mut items = Vec::with_capacity(alloc, self.room)?;
        items.extend_from_slice(&self.items)?;
        Ok(Events {
            items,
            room: self.room,
        })
    }

    /// Returns the events in their order.
    pub fn as_slice(&self) -> &[Event]
        ensures { result.now ≡ self.now.list }
    {
        self.items.as_slice()
    }

    /// Returns the number of events.
    pub fn len(&self) -> usize
        ensures { result ≡ length self.now.list }
    {
        self.items.len()
    }

    /// Returns whether there are no events.
    pub fn is_empty(&self) -> bool
        ensures { result ≡ (length self.now.list == 0) }
    {
        self.items.is_empty()
    }

    /// Returns a copy of the events, with no room for further events. Fails with 141 `Memory` alone.
    pub fn copy(&self) -> Result<Events, fault::Memory>
        ensures list { IfOk result (λ e. e.list ≡ self.now.list) }
        ensures room { IfOk result (λ e. e.room ≡ 0) }
    {
        Ok(Events {
            items: self.items.clone()?,
            room: 0,
        })
    }
}
