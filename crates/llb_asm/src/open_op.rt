//! An op that is open: the current message, and the messages around it.

ghost use Rattle.std.specs.Prelude.{◌≡◌, ◌<◌, ◌^◌, ◌++◌, ◌∷◌, IfOk, length, reverse};
ghost use Rattle.llb_asm.specs.TextGrammar.{is_within, item_at, labels_of, added};
ghost use Rattle.llb_asm.specs.LineReader.{OpenOp, open_op_of, at_front, room_in, hand_of, with_item, closing_of, ended};

use crate::complete_entries::{Earlier, record_length};
use crate::fault::Rule;
use crate::line::{Held, Here, Item, Refusal, inside, line_in, put_bytes};
use llb_ops::{ENTRY_LIMIT, MessageName};
use llb_wire::{Bytes, Many, Memory};
use std::alloc::Global;

/// A message around the current one: the context of its next line (`Here`: what came before that line in the message), its bytes so far, and the number of
/// the field in which the inner message was opened.
#[derive(Drop)]
pub struct Frame {
    pub here: Here,
    pub number: u32,
    pub bytes: Bytes,
}

/// An op that is open: what came before the next line in the current message (`Here`), this message's bytes so far, and the messages around it, innermost last.
#[derive(Drop)]
pub struct Open {
    pub here: Here,
    pub bytes: Bytes,
    pub below: Many<Frame>,
}

/// The state after a closing line: the op is complete, or still open.
#[derive(Drop)]
pub enum Closed {
    /// The op is complete; these are the bytes of its records.
    Whole(Bytes),
    /// The op is still open: the message around the closed one is now the current one.
    Still(Open),
}

#[tactic(auto, using(crate::proofs::PrintedLengths::no_room, crate::proofs::PrintedLengths::turned_below))]
// Returns whether the entry would be within the limits if the current message had `size` bytes and all open messages were closed after it.
fn has_room(earlier: &Earlier, below: &[Frame], size: usize) -> bool
    ensures { result ≡ room_in (is_within earlier.now) (reverse below.now) size }
{
    if size > ENTRY_LIMIT {
        return false;
    }
    match below {
        [rest @ .., frame] => {
            let size = frame.bytes.as_slice().len() + record_length(frame.number, size);
            has_room(earlier, rest, size)
        }
        [] => earlier.has_room(size),
    }
}

/// Returns how many bytes a line adds to its message; a line that opens a message counts as the record of an empty message.
fn added(held: &Held) -> usize
    ensures same { result ≡ added held.now }
    ensures small { result < 2 ^ 63 }
{
    match held {
        Held::Record(bytes) => bytes.as_slice().len(),
        Held::Opens(number, _) => record_length(*number, 0),
    }
}

impl Open {
    /// Returns an open op that has no items yet.
    pub(crate) fn new(alloc: Global) -> Open
        ensures { open_op_of result ≡ at_front }
    {
        Open {
            here: inside(MessageName::Op),
            bytes: Bytes::new(Vec::new(alloc)),
            below: Many::new(Vec::new(alloc)),
        }
    }

    /// Returns what a line adds to the current message, or why the line is refused, for example because of a limit.
    pub(crate) fn item_at(
        &self,
        alloc: Global,
        earlier: &Earlier,
        line: &[u8],
    ) -> Result<Result<Item, Refusal>, Memory>
        ensures { IfOk result (λ r. r ≡ item_at (labels_of earlier.now) (hand_of (is_within earlier.now) (open_op_of self.now)) line.now) }
    {
        match line_in(alloc, earlier.labels(), self.here, line)? {
            Err(refusal) => Ok(Err(refusal)),
            Ok(item) => {
                let size = self.bytes.as_slice().len() + added(&item.held);
                if has_room(earlier, self.below.as_slice(), size) {
                    return Ok(Ok(item));
                }
                Ok(Err(Refusal::Breaks(Rule::OverLimit)))
            }
        }
    }

    // Adds an item to the op.
    pub(crate) fn with_item(self, alloc: Global, item: Item) -> Result<Open, Memory>
        ensures { IfOk result (λ s. open_op_of s ≡ with_item (open_op_of self) item) }
    {
        let Open {
            here: _,
            bytes,
            below,
        } = self;
        let Item { next, held } = item;
        match held {
            Held::Record(record) => {
                let mut bytes = bytes.into_vec();
                bytes.extend_from_slice(record.as_slice())?;
                Ok(Open {
                    here: next,
                    bytes: Bytes::new(bytes),
                    below,
                })
            }
            Held::Opens(number, message) => {
                let mut below = below.into_vec();
                below.push(Frame {
                    here: next,
                    number,
                    bytes,
                })?;
                Ok(Open {
                    here: inside(message),
                    bytes: Bytes::new(Vec::new(alloc)),
                    below: Many::new(below),
                })
            }
        }
    }

    // Closes the current message, and returns the op, which is complete or still open.
    pub(crate) fn close(self) -> Result<Closed, Memory>
        ensures { IfOk result (λ c. ended c ≡ closing_of (open_op_of self)) }
    {
        let mut below = self.below.into_vec();
        let Some(frame) = below.pop() else {
            return Ok(Closed::Whole(self.bytes));
        };
        let Frame {
            here,
            number,
            bytes,
        } = frame;
        let mut bytes = bytes.into_vec();
        put_bytes(&mut bytes, number, self.bytes.as_slice())?;
        Ok(Closed::Still(Open {
            here,
            bytes: Bytes::new(bytes),
            below: Many::new(below),
        }))
    }
}
