//! What contracts know of a pass, as a type that only contracts use.

use std::collections::LinkedList;

/// What contracts see of a pass: `num`/`den`, its fraction of the whole; `room`, how many numbers the queue has room for; and the lists of the numbers that the
/// pass put and took, each in order. No value of this type exists at run time.
pub struct Hand {
    pub num: u64,
    pub den: u64,
    pub room: u64,
    pub put: LinkedList<u32>,
    pub taken: LinkedList<u32>,
}
