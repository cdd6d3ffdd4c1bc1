//! The marks of the instances of a key. For a locked or a private key an instance is marked exactly if a lease has it, so a look-up does
//! not search the leases.

ghost use Rattle.std.specs.Prelude.{◌≡◌, ◌<◌, ◌==◌, ℕ, true, false, if◌then◌else◌, length, slice_index_or, IfOk, []};

use llb_wire::Memory;
use std::alloc::Global;
use std::marker::Model;

// The marks of the instances of a key, each at the position of the instance's number. A number past the end of the list has no mark.
pub(crate) struct Marks {
    items: Vec<bool>,
}

impl Drop for Marks {
    fn drop(self) {
        let Marks { items: _ } = self;
    }
}

impl Model for Marks {
    ghost use Rattle.std.specs.Prelude.{List, Bool};

    ghost Value = { List Bool };

    ghost view = { λ m. m.items.items };
}

impl Marks {
    pub(crate) fn new(alloc: Global) -> Marks
        ensures { result ≡ [] }
    {
        Marks {
            items: Vec::new(alloc),
        }
    }

    // Makes a list with room for the marks of the numbers 0 to `number`, none of which is set.
    pub(crate) fn up_to(alloc: Global, number: u32) -> Result<Marks, Memory>
        ensures room { IfOk result (λ m. number < length m) }
        ensures clear { IfOk result (λ m. (k : ℕ) → slice_index_or m k false ≡ false) }
    {
        let items = vec![in alloc; false; number as usize + 1]?;
        Ok(Marks { items })
    }

    // Returns whether a number is marked.
    pub(crate) fn has(&self, number: u32) -> bool
        ensures { result ≡ slice_index_or self.now number false }
    {
        match self.items.get(number as usize) {
            Some(mark) => *mark,
            None => false,
        }
    }

    // Returns the least number without a mark.
    pub(crate) fn first_clear(&self) -> usize
        ensures below { (k : ℕ) → k < result → slice_index_or self.now k false ≡ true }
        ensures clear { slice_index_or self.now result false ≡ false }
    {
        for (number, mark) in self.items.iter().enumerate() {
            if !*mark {
                return number;
            }
        }
        self.items.len()
    }

    // Removes the mark of a number.
    pub(crate) fn clear(&mut self, number: u32)
        ensures { (k : ℕ) → slice_index_or self.new k false ≡ (if k == number then false else slice_index_or self.old k false) }
    {
        if (number as usize) < self.items.len() {
            self.items[number as usize] = false;
        }
    }

    // Sets the mark of a number. If the list is too short for this number, all marks are first moved into the longer list `room`.
    pub(crate) fn set(&mut self, number: u32, room: Marks)
        requires room { number < length room }
        requires clear { (k : ℕ) → slice_index_or room k false ≡ false }
        ensures { (k : ℕ) → slice_index_or self.new k false ≡ (if k == number then true else slice_index_or self.old k false) }
    {
        if number as usize >= self.items.len() {
            self.move_into(room);
        }
        self.items[number as usize] = true;
    }

    // Moves the marks into the longer list `room`.
    fn move_into(&mut self, room: Marks)
        requires room { length self.old < length room }
        requires clear { (k : ℕ) → slice_index_or room k false ≡ false }
        ensures same { (k : ℕ) → slice_index_or self.new k false ≡ slice_index_or self.old k false }
        ensures len { length self.new ≡ length room }
    {
        let Marks { items } = room;
        let mut items = items;
        for (number, mark) in self.items.iter().enumerate() {
            items[number] = *mark;
        }
        self.items = items;
    }

    pub(crate) fn copy(&self) -> Result<Marks, Memory>
        ensures { IfOk result (λ m. m ≡ self.now) }
    {
        Ok(Marks {
            items: self.items.clone()?,
        })
    }
}
