//! Finds which instances leases have, and which numbers are free. A look-up of a key reads the key's row and the marks of this
//! row, but no lease.

ghost use Rattle.std.specs.Prelude.{◌≡◌, ◌≢◌, ◌↔◌, ◌<◌, ◌≤◌, ◌&&◌, false, IsTrue, AllPairs, List, length, map, slice_get, slice_index_or};
ghost use Rattle.std.specs.Prelude.{IfOk, IfSome, MatchResult, Some, None, option_and_then, option_map, position};
ghost use Rattle.std.specs.List.{All, list_any, find};
ghost use Rattle.std.specs.Map.{keys_of, values_of};
ghost use Rattle.llb_tree.specs.Tree.{TreeMap};
ghost use Rattle.llb_cache.specs.Key.{same_key};
ghost use Rattle.llb_cache.specs.Caches.{place, trees_of, is_held, leases, taken, number_for, is_locked, is_locked_and_held, free_lease};
ghost use Rattle.llb_cache.specs.LeasePreparation.{shown, FitsIn, IsRefusal};

use crate::caches::Caches;
use crate::fault::LeaseFault;
use crate::instance_marks::Marks;
use crate::instance_trees::Room;
use crate::key::Mode;
use crate::key_ref::KeyRef;
use crate::lease_needs::{Found, Instance, Need};
use crate::rows::{Rows, row_near};
use crate::taken_instances::Ready;
use llb_wire::{Many, Memory};

// Returns how many leases are current.
pub(crate) fn count(out: &[Option<Many<Instance>>]) -> u32
    requires { length out.now ≤ 65536 }
    ensures { result ≡ leases out.now }
{
    let mut count = 0;
    for lease in out {
        if lease.is_some() {
            count += 1;
        }
    }
    count
}

impl Caches {
    /// Returns what the caches have for a key. The row with number `near` is tried first, at the cost of one comparison;
    /// the other rows are searched only if row `near` does not have the key. Does not allocate.
    pub fn look_up(&self, key: &KeyRef<'_>, near: Option<usize>) -> Found<'_>
        ensures row { result.row ≡ position (same_key key.now) (keys_of self.now.rows) }
        ensures held { result.is_held ≡ (is_locked key.now.mode && is_held self.now.out (place key.now 0)) }
        ensures number { result.number ≡ number_for self.now.out key.now key.now.mode }
        ensures tree { option_map (λ t. t.now) result.tree ≡ slice_get (trees_of self.now.rows key.now) result.number }
    {
        let Some(row) = row_near(&self.rows, key, near) else {
            return nothing_found();
        };
        let marks = &self.marks[row];
        match key.mode() {
            Mode::Shared => found_in(&self.rows, row, 0, false),
            Mode::Private => found_in(&self.rows, row, marks.first_clear() as u32, false),
            Mode::Locked => found_in(&self.rows, row, 0, marks.has(0)),
        }
    }

    // Returns whether a key is locked and a lease has the key's instance. The rows are searched, row `near` first, only for a locked key.
    pub(crate) fn holds_locked(&self, key: &KeyRef<'_>, near: Option<usize>) -> bool
        ensures { result ≡ (is_locked key.now.mode && is_held self.now.out (place key.now 0)) }
    {
        match key.mode() {
            Mode::Shared => false,
            Mode::Private => false,
            Mode::Locked => self.look_up(key, near).is_held,
        }
    }

    // Returns the number of the instance that a new lease takes for a key. The rows are searched, row `near` first, only for a private key.
    pub(crate) fn number_for(&self, key: &KeyRef<'_>, near: Option<usize>) -> u32
        ensures { result ≡ number_for self.now.out key.now key.now.mode }
    {
        match key.mode() {
            Mode::Shared => 0,
            Mode::Locked => 0,
            Mode::Private => self.look_up(key, near).number,
        }
    }

    // Returns the index of the first need whose key is locked and whose instance a lease has; `None` if there is none.
    fn first_held(&self, needs: &[Need], rows: &[Option<usize>]) -> Option<usize>
        ensures found { find (is_locked_and_held self.now.out) needs.now ≡ option_and_then (slice_get needs.now) result }
        ensures within { IfSome result (λ i. i < length needs.now) }
    {
        for (i, need) in needs.iter().enumerate() {
            if self.holds_locked(&need.key.by_ref(), row_for(rows, i)) {
                return Some(i);
            }
        }
        None
    }

    // Returns the needs unchanged, or fails with 111 `Held` and the first of their locked keys whose instance a lease has.
    pub(crate) fn admitted(
        &self,
        needs: Vec<Need>,
        rows: &[Option<usize>],
    ) -> Result<Vec<Need>, LeaseFault>
        ensures { MatchResult result (λ ns. (find (is_locked_and_held self.now.out) needs.items ≡ None) × (ns.items ≡ needs.items))
            (IsRefusal (find (is_locked_and_held self.now.out) needs.items)) }
    {
        match self.first_held(&needs, rows) {
            Some(i) => {
                let mut needs = needs;
                let need = needs.swap_remove(i);
                Err(LeaseFault::Held(need.key))
            }
            None => Ok(needs),
        }
    }

    // Chooses an instance for each need by the current leases, and allocates room for the instance and its mark.
    pub(crate) fn readied(
        &self,
        needs: Vec<Need>,
        rows: &[Option<usize>],
    ) -> Result<Vec<Ready>, Memory>
        ensures takes { IfOk result (λ rs. map shown rs.items ≡ taken self.now.out needs.items) }
        ensures room { IfOk result (λ rs. All FitsIn rs.items) }
    {
        let alloc = *self.out.allocator();
        let mut readies = Vec::new(alloc);
        for need in needs {
            let near = row_for(rows, readies.len());
            let number = self.number_for(&need.key.by_ref(), near);
            let room = Room::up_to(alloc, number)?;
            let marks = Marks::up_to(alloc, number)?;
            let place = Instance {
                key: need.key,
                number,
            };
            readies.push(Ready {
                place,
                near,
                tree: need.tree,
                room,
                marks,
            })?;
        }
        Ok(readies)
    }
}

// Returns the result of a look-up of a key that has no row.
fn nothing_found<'a>() -> Found<'a>
    ensures row { result.row ≡ None }
    ensures held { result.is_held ≡ false }
    ensures number { result.number ≡ 0 }
    ensures tree { option_map (λ t. t.now) result.tree ≡ None }
{
    Found {
        row: None,
        is_held: false,
        number: 0,
        tree: None,
    }
}

// Returns the result of a look-up that found this row: `number` is the instance that a lease would take, and `is_held` says whether a
// lease would be refused.
fn found_in(rows: &Rows, row: usize, number: u32, is_held: bool) -> Found<'_>
    requires { row < length rows.now.entries.items }
    ensures row { result.row ≡ Some row }
    ensures held { result.is_held ≡ is_held }
    ensures number { result.number ≡ number }
    ensures tree { (trees : List TreeMap) → slice_get (values_of rows.now.entries.items) row ≡ Some trees
        → option_map (λ t. t.now) result.tree ≡ slice_get trees number }
{
    Found {
        row: Some(row),
        is_held,
        number,
        tree: rows.entries[row].1.get(number),
    }
}

// Returns the row that the list `rows` has for the need with this number: the row at which the search for the need's key begins. `None` if it has none.
fn row_for(rows: &[Option<usize>], need: usize) -> Option<usize>
    ensures { result ≡ slice_index_or rows.now need None }
{
    match rows.get(need) {
        Some(row) => *row,
        None => None,
    }
}

// Returns the least number that no current lease has.
pub(crate) fn free_lease(out: &[Option<Many<Instance>>]) -> usize
    ensures { result ≡ free_lease out.now }
{
    for (i, lease) in out.iter().enumerate() {
        if lease.is_none() {
            return i;
        }
    }
    out.len()
}

// Returns whether one of `needs` has the same key as `need`.
fn has_key_of(needs: &[Need], need: &Need) -> bool
    ensures { result ≡ list_any (λ n. same_key need.now.key n.key) needs.now }
{
    for other in needs {
        if need.key == other.key {
            return true;
        }
    }
    false
}

// Returns whether no two needs have the same key.
pub(crate) fn keys_differ(needs: &[Need]) -> bool
    ensures { IsTrue result ↔ AllPairs (λ n m. n.key ≢ m.key) needs.now }
{
    for i in 0..needs.len() {
        let (before, _) = needs.split_at(i);
        let need = &needs[i];
        if has_key_of(before, need) {
            return false;
        }
    }
    true
}
