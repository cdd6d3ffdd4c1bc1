//! Keeps the numbers of vertices whose claim was refused because another worker holds a locked key; these vertices wait for the key. The numbers of the
//! vertices that wait for one key are put into the queue again one by one: the first when the vertex that holds the key ends, and each later one when the
//! vertex before it ends, or when the claim of the vertex before it is refused for another key. So no vertex is claimed again and again while the key is held.
//! The table is made with all the room that it needs, and later calls do not allocate. Nothing in this module knows about the board.

use llb_cache::Key;
use std::alloc::{AllocError, Global};

// The vertices, by number, that wait for one locked key: the first and the last of them, in the order in which they came. `put` is the vertex that waited for
// this key, was put into the queue again, and whose claim is still to be tried, if there is such a vertex. The field `after` of `KeyWaiters` says which vertex
// follows which.
#[derive(Drop)]
struct Row {
    key: Key,
    first: Option<u32>,
    last: u32,
    put: Option<u32>,
}

impl Row {
    // Returns whether the row has no number of a vertex: no vertex waits for the key, and `put` is `None`.
    fn is_empty(&self) -> bool {
        self.put.is_none() && self.first.is_none()
    }
}

/// The numbers that wait, in a row for each key that they wait for. A row is kept only while a worker holds the row's key, or while the claim of the row's
/// `put` vertex is still to be tried; so there are few rows.
#[derive(Drop)]
pub(crate) struct KeyWaiters {
    rows: Vec<Row>,
    // For each vertex, by number, the number of the next vertex that waits for the same key.
    after: Vec<Option<u32>>,
}

impl KeyWaiters {
    /// Makes a table for the vertices with numbers below `count`, none of which waits for a key yet. Fails if memory is refused.
    pub(crate) fn new(alloc: Global, count: u32) -> Result<KeyWaiters, AllocError> {
        let rows = Vec::with_capacity(alloc, count as usize)?;
        let mut after = Vec::with_capacity(alloc, count as usize)?;
        for _v in 0..count {
            after.push(None)?;
        }
        Ok(KeyWaiters { rows, after })
    }

    // Returns the index of a key's row; `None` if the key has no row.
    fn place_of(&self, key: &Key) -> Option<usize> {
        self.rows.iter().position(|row| row.key == *key)
    }

    // Notes that `next` is the number that waits right after the number `v`; `next` is `None` if no number waits after it.
    fn set_after(&mut self, v: u32, next: Option<u32>) {
        if let Some(after) = self.after.get_mut(v as usize) {
            *after = next;
        }
    }

    /// Adds vertex `v` to the vertices that wait for a key. Returns false if there is no room for the key, which does not occur: no vertex waits twice, so
    /// there are at most as many keys as vertices.
    pub(crate) fn push(&mut self, key: Key, v: u32) -> bool {
        self.set_after(v, None);
        match self.place_of(&key) {
            Some(at) => self.push_at(at, v),
            None => self.push_row(key, v),
        }
    }

    // Adds vertex `v` to the row of a key, which is at this index. Returns false if there is no such row.
    fn push_at(&mut self, at: usize, v: u32) -> bool {
        let Some(row) = self.rows.get_mut(at) else {
            return false;
        };
        let last = row.last;
        row.last = v;
        if row.first.is_none() {
            row.first = Some(v);
        } else {
            self.set_after(last, Some(v));
        }
        true
    }

    // Adds a row for a key, for which one vertex waits: the vertex with the number `v`. Returns false if there is no room for the row.
    fn push_row(&mut self, key: Key, v: u32) -> bool {
        if self.rows.len() >= self.rows.capacity() {
            return false;
        }
        let (first, last, put) = (Some(v), v, None);
        self.rows.push_reserved(Row {
            key,
            first,
            last,
            put,
        });
        true
    }

    // Takes the number of the next vertex of a row, to be put into the queue again. Returns `None` if no vertex waits, or if the number of an earlier vertex of
    // this row was put into the queue again and the claim of that vertex is still to be tried.
    fn next_at(&mut self, at: usize) -> Option<u32> {
        let KeyWaiters { rows, after } = self;
        let row = rows.get_mut(at)?;
        if row.put.is_some() {
            return None;
        }
        let v = row.first?;
        row.first = after.get(v as usize).copied().unwrap_or(None);
        row.put = Some(v);
        row.put
    }

    /// Takes the number of the next vertex that waits for a key that is about to be free. Returns `None` if no vertex waits for this key. Returns `None` too if
    /// an earlier vertex that waited for this key was put into the queue again, and its claim is still to be tried.
    pub(crate) fn next_of(&mut self, key: &Key) -> Option<u32> {
        let at = self.place_of(key)?;
        self.next_at(at)
    }

    /// Notes how the claim of vertex `v` was answered: refused because the locked key `refused` is held, or granted (`refused` is `None`). If `v` had waited
    /// for one key and is now refused for another, the earlier key may be free: then returns the number of the next vertex that waits for the earlier key.
    pub(crate) fn answered(&mut self, v: u32, refused: Option<&Key>) -> Option<u32> {
        let at = self.rows.iter().position(|row| row.put == Some(v))?;
        let row = self.rows.get_mut(at)?;
        row.put = None;
        let next = match refused {
            Some(key) if row.key != *key => self.next_at(at),
            _ => None,
        };
        self.drop_empty(at);
        next
    }

    // Removes the row at an index if the row is empty (`is_empty`).
    fn drop_empty(&mut self, at: usize) {
        if at < self.rows.len() && self.rows[at].is_empty() {
            self.rows.swap_remove(at);
        }
    }
}
