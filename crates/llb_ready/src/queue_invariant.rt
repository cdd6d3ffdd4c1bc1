//! The invariant of the queue, and how a pass changes when a queue is made, when passes are split or joined, and when a number is put or taken. These types
//! are for contracts; no code here runs.

use crate::pass_knowledge::Hand;
use crossbeam_queue::protocol::{Join, Lesson, Outcome, Protocol, Split};

/// The invariant: the numbers that were put are those that were taken and those in the queue, and the fractions of all passes add up to 1.
pub(crate) struct Fair;

impl Protocol<u32, Hand> for Fair {
    ghost use Rattle.llb_ready.specs.PassKnowledge.{first_hand};
    ghost use Rattle.llb_ready.specs.QueueInvariant.{IsBalanced};

    ghost holds = { IsBalanced };

    ghost first = { first_hand 0 };
}

/// The step by which the room of a queue grows by one number, while the queue is made.
pub(crate) struct Widens;

impl Split<Hand> for Widens {
    ghost use Rattle.llb_ready.specs.PassKnowledge.{widened, spent};

    ghost left = { widened };

    ghost right = { λ _. spent };
}

/// The step in which a pass is split into halves.
pub(crate) struct Halves;

impl Split<Hand> for Halves {
    ghost use Rattle.llb_ready.specs.PassKnowledge.{halved, other_half};

    ghost left = { halved };

    ghost right = { other_half };
}

/// The step in which two passes are joined.
pub(crate) struct Joins;

impl Join<Hand> for Joins {
    ghost use Rattle.llb_ready.specs.PassKnowledge.{together, spent};

    ghost both = { together };

    ghost spent = { spent };
}

/// How putting a number into the queue changes the pass with which it is put.
pub(crate) struct Puts;

impl Outcome<u32, Hand> for Puts {
    ghost use Rattle.llb_ready.specs.Conservation.{GainsPut};

    ghost then = { GainsPut };
}

/// How taking a number from the queue changes the pass with which it is taken.
pub(crate) struct Takes;

impl Outcome<u32, Hand> for Takes {
    ghost use Rattle.llb_ready.specs.Conservation.{GainsTaken};

    ghost then = { GainsTaken };
}

impl Lesson<u32, Hand> for Puts {
    ghost use Rattle.llb_ready.specs.Conservation.{Knows};

    ghost fact = { Knows };
}

impl Lesson<u32, Hand> for Takes {
    ghost use Rattle.llb_ready.specs.Conservation.{Knows};

    ghost fact = { Knows };
}

/// What is known of the queue if the pass is whole (no part of it is given away). For each number, how often it was taken and how often it is in the queue add
/// up to how often it was put; and the queue holds no more numbers than it has room for.
pub(crate) struct Learns;

impl Lesson<u32, Hand> for Learns {
    ghost use Rattle.llb_ready.specs.Conservation.{Knows};

    ghost fact = { Knows };
}
