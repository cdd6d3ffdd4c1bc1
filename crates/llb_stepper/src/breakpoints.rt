//! The breakpoints of a stepper, as a list and as sets: the vertices with a breakpoint at their claims, and the vertices with a breakpoint at their settles.
//! The vertex of an event is looked up in these sets, so a look-up takes at most logarithmic time in the number of breakpoints.

ghost use Rattle.std.specs.Prelude.{◌≡◌, ◌++◌, ◌∷◌, [], OnOk, OnErr};
ghost use Rattle.std.specs.List.{list_any};
ghost use Rattle.llb_stepper.specs.UndoableEventReplies.{meets_told};
ghost use Rattle.llb_stepper.specs.BreakpointSets.{AreKinds, AreKindsOfOneMore, AreUnchanged, is_met_by_event, is_met_by_reply};

use crate::stop::Break;
use llb_board::{Event, Reply, Settled};
use std::alloc::{AllocError, Global};
use std::collections::BTreeSet;
use std::marker::Model;

// The breakpoints of a list as sets of vertices, and a flag for the breakpoint at failures.
#[derive(Drop)]
struct Kinds {
    /// The vertices with a breakpoint at their claims.
    claims: BTreeSet<u32>,
    /// The vertices with a breakpoint at their settles.
    settles: BTreeSet<u32>,
    /// Whether there is a breakpoint at failures.
    failures: bool,
}

/// Breakpoints, in the order in which they were added. In contracts they are a list.
#[derive(Drop)]
pub(crate) struct Breakpoints {
    /// The breakpoints as the list that contracts see; the code searches `kinds` instead.
    list: Vec<Break>,
    kinds: Kinds,
}

impl Model for Breakpoints {
    ghost use Rattle.std.specs.Prelude.{List};
    ghost use Rattle.llb_stepper.specs.declared.stop.Break.{Break};
    ghost use Rattle.llb_stepper.specs.BreakpointSets.{AreKinds};

    ghost Value = { List Break };

    ghost view = { λ b. b.list.items };

    ghost invariant = { λ b. AreKinds b.list.items b.kinds };
}

impl Kinds {
    // Returns sets without breakpoints.
    fn new(alloc: Global) -> Kinds
        ensures { AreKinds [] result }
    {
        Kinds {
            claims: BTreeSet::new(alloc),
            settles: BTreeSet::new(alloc),
            failures: false,
        }
    }

    // Adds one breakpoint to the sets.
    fn add(&mut self, stop: Break) -> Result<(), AllocError>
        ensures ok { OnOk result (AreKindsOfOneMore self.old stop self.new) }
        ensures err { OnErr result (AreUnchanged self.old self.new) }
    {
        match stop {
            Break::Claims(v) => {
                self.claims.insert(v)?;
            }
            Break::Settles(v) => {
                self.settles.insert(v)?;
            }
            Break::Fails => self.failures = true,
        }
        Ok(())
    }

    // Removes all breakpoints.
    fn clear(&mut self)
        ensures { AreKinds [] self.new }
    {
        self.claims.clear();
        self.settles.clear();
        self.failures = false;
    }

    fn is_met_by_event(&self, event: Event) -> bool
        ensures { result ≡ is_met_by_event self.now event }
    {
        match event {
            Event::Claim(_, v) => self.claims.contains(&v),
            Event::Step(_) | Event::Settle(_) | Event::Cancel(_) => false,
        }
    }

    fn is_met_by_reply(&self, reply: Reply) -> bool
        ensures { result ≡ is_met_by_reply self.now reply }
    {
        match reply {
            Reply::Settled(Settled::Done(v)) => self.settles.contains(&v),
            Reply::Settled(Settled::Failed(v)) => self.failures || self.settles.contains(&v),
            Reply::Claimed | Reply::Stepped(_) | Reply::Cancelled(_) => false,
        }
    }
}

impl Breakpoints {
    /// Returns an empty list of breakpoints. Does not allocate.
    pub(crate) fn new(alloc: Global) -> Breakpoints
        ensures { result ≡ [] }
    {
        Breakpoints {
            list: Vec::new(alloc),
            kinds: Kinds::new(alloc),
        }
    }

    /// Adds a breakpoint at the end of the list.
    pub(crate) fn push(&mut self, stop: Break) -> Result<(), AllocError>
        ensures ok { OnOk result (self.new ≡ self.old ++ stop ∷ []) }
        ensures err { OnErr result (self.new ≡ self.old) }
    {
        self.list.reserve(1)?;
        self.kinds.add(stop)?;
        self.list.push_reserved(stop);
        Ok(())
    }

    /// Removes all breakpoints. Does not allocate.
    pub(crate) fn clear(&mut self)
        ensures { self.new ≡ [] }
    {
        self.list.clear();
        self.kinds.clear();
    }

    /// Returns whether an event that was done, with its reply, meets one of the breakpoints.
    pub(crate) fn is_met_by(&self, event: Event, reply: Reply) -> bool
        ensures { result ≡ list_any (meets_told event reply) self.now }
    {
        self.kinds.is_met_by_event(event) || self.kinds.is_met_by_reply(reply)
    }
}
