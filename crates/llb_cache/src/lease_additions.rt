//! Finds what a lease of a key would add to the rows, before the lease is granted. Takes a lease back, and removes what the lease added.

ghost use Rattle.std.specs.Prelude.{◌≡◌, ◌≢◌, List, length, AllPairs};
ghost use Rattle.std.specs.Map.{keys_of};
ghost use Rattle.llb_cache.specs.Caches.{IsOut, AreThere, granted, place_for};
ghost use Rattle.llb_cache.specs.declared.lease_needs.Need as asked;
ghost use Rattle.llb_cache.specs.LeaseAdditions.{growth_at, growths, unmade_one, unmade, taken_back};
ghost use Rattle.llb_cache.specs.InstanceMarks.{Unmarks};
ghost use Rattle.llb_cache.specs.RowOrder.{AreOrdered};

use crate::caches::{Caches, Lease};
use crate::instance_marks::Marks;
use crate::key_ref::KeyRef;
use crate::lease_needs::Instance;
use crate::rows::{Rows, pop_instance, pop_row, row_of};
use crate::taken_instances::{places_at, take_back, unmark_all};

/// What a lease of a key adds to the rows.
#[derive(Clone, Copy)]
pub enum Growth {
    /// The instance exists already.
    Nothing,
    /// The key has a row, which gets one more instance.
    NewInstance,
    /// The key has no row, and gets a row with one instance.
    NewRow,
}

impl Caches {
    /// Returns what a lease of this key would add to the rows now. Does not allocate.
    pub fn growth(&self, key: &KeyRef<'_>) -> Growth
        ensures { result ≡ growth_at self.now.rows (place_for self.now.out key.now) }
    {
        let row = row_of(&self.rows, key);
        let number = self.number_for(key, row);
        match row {
            Some(i) => {
                if (number as usize) < self.rows.entries[i].1.len() {
                    Growth::Nothing
                } else {
                    Growth::NewInstance
                }
            }
            None => Growth::NewRow,
        }
    }

    /// Takes a current lease back, and removes what the lease added to the rows. For each need of the lease, `growths` must have what the call `growth`
    /// returned before the lease was granted: what the lease would add. No other lease may have an instance that is removed. Does not allocate.
    pub fn take_back(&mut self, lease: Lease, growths: &[Growth])
        requires out { IsOut self.old.out lease }
        requires there { AreThere (taken_back self.old lease growths.now).rows (taken_back self.old lease growths.now).out }
        ensures { self.new ≡ taken_back self.old lease growths.now }
    {
        unmark_all(
            &self.rows,
            &mut self.marks,
            places_at(&self.out, lease.number),
        );
        unmake_all(
            &mut self.rows,
            &mut self.marks,
            places_at(&self.out, lease.number),
            growths,
        );
        take_back(&mut self.out, lease.number);
    }

    /// Proves that granting a lease of needs with distinct keys and taking it back at once leaves the caches exactly as they were, if for each need
    /// `take_back` is passed what the call `growth` returned before the lease: what the lease would add.
    pub fn grants_come_back(&self)
        ensures { (needs : List asked.Need) → AllPairs (λ n m. n.key ≢ m.key) needs → taken_back (granted self.now needs).1 (granted self.now needs).0
            (growths self.now needs) ≡ self.now }
    {
        let _out = &self.out;
    }
}

// Removes what a lease added to the rows for an instance, as `growth` says: nothing, the last instance of its key, or the last row.
fn unmake(rows: &mut Rows, marks: &mut Vec<Marks>, place: &Instance, growth: Growth)
    requires order { AreOrdered rows.old }
    requires each { length marks.old.items ≡ length rows.old.entries.items }
    ensures rows { rows.new.entries.items ≡ unmade_one rows.old.entries.items place.now growth }
    ensures order { AreOrdered rows.new }
    ensures each { length marks.new.items ≡ length rows.new.entries.items }
    ensures marks { Unmarks rows.old.entries.items marks.old.items rows.new.entries.items marks.new.items }
{
    match growth {
        Growth::Nothing => {}
        Growth::NewInstance => pop_instance(rows, &place.key),
        Growth::NewRow => {
            pop_row(rows);
            marks.pop();
        }
    }
}

// Removes what was added to the rows for each of these instances, beginning with the last instance.
fn unmake_all(rows: &mut Rows, marks: &mut Vec<Marks>, places: &[Instance], growths: &[Growth])
    requires order { AreOrdered rows.old }
    requires each { length marks.old.items ≡ length rows.old.entries.items }
    ensures rows { rows.new.entries.items ≡ unmade rows.old.entries.items places.now growths.now }
    ensures order { AreOrdered rows.new }
    ensures each { length marks.new.items ≡ length rows.new.entries.items }
    ensures marks { Unmarks rows.old.entries.items marks.old.items rows.new.entries.items marks.new.items }
{
    let mut left = places.len().min(growths.len());
    while left > 0 {
        left -= 1;
        let growth = growths[left];
        unmake(rows, marks, &places[left], growth);
    }
}
