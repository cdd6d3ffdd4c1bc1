//! Caches with their leases. Contracts see the keys in the order in which they were first leased, each with the trees of its instances, and the instances
//! that each lease has. A refusal changes nothing. Of these calls only `lease`, `lease_near` and `copy` allocate.

ghost use Rattle.std.specs.Prelude.{◌≡◌, ◌≢◌, ◌↔◌, IsTrue, ◌<◌, ◌&&◌, length, map, slice_get, option_map, AllPairs, OnErr, IfOk, Some, []};
ghost use Rattle.std.specs.Map.{keys_of};
ghost use Rattle.llb_cache.specs.Caches.{IsOut, place_for, AreExclusive, IsCaches, leases, lease_of, place_at, places_of, trees_of};
ghost use Rattle.llb_cache.specs.Caches.{tree_at, with_content, given_back, is_locked, is_held, number_for, place};
ghost use Rattle.llb_cache.specs.CallResults.{Gives, MemoryLast};

use crate::copying::{copied_leases, copied_marks, copied_rows, same_rows};
use crate::fault::{LeaseFault, Memory};
use crate::instance_marks::Marks;
use crate::instance_search::{count, keys_differ};
use crate::key::Key;
use crate::key_ref::KeyRef;
use crate::lease_needs::{Instance, Need};
use crate::rows::{Rows, key_at, no_rows, reserve, trees_at, trees_with};
use crate::taken_instances::{
    make_all, places_at, places_for, set_at, take_back, take_lease, unmark_all,
};
use llb_tree::Tree;
use llb_wire::{Many, all_same};
use std::alloc::Global;
use std::marker::Model;

/// A lease, known by its number.
#[derive(Clone, Copy)]
pub struct Lease {
    pub(crate) number: u32,
}

impl Model for Lease {
    ghost use Rattle.std.specs.Prelude.{ℕ};

    ghost Value = { ℕ };

    ghost view = { λ l. l.number };

    ghost inverse = { λ n. record { number = n } };
}

impl Lease {
    /// Returns the number of the lease: the least number that no other current lease had when this lease was granted.
    pub fn number(&self) -> u32
        ensures { result ≡ self.now }
    {
        self.number
    }
}

/// Caches and their leases. Contracts see a list of the keys with their trees, and a list of the leases.
pub struct Caches {
    pub(crate) rows: Rows,
    // For each row, the marks of its instances. An instance of a locked or a private key is marked exactly if a lease has it.
    pub(crate) marks: Vec<Marks>,
    pub(crate) out: Vec<Option<Many<Instance>>>,
}

impl Drop for Caches {
    fn drop(self) {
        let Caches {
            rows: _,
            marks: _,
            out: _,
        } = self;
    }
}

impl Model for Caches {
    ghost use Rattle.std.specs.Coded.{codes};
    ghost use Rattle.llb_tree.specs.CodedTrees.{coded_tree};
    ghost use Rattle.llb_cache.specs.Caches.{CachesValue};
    ghost use Rattle.llb_cache.specs.InstanceMarks.{IsMarked};
    ghost use Rattle.llb_cache.specs.RowOrder.{AreOrdered};

    ghost Value = { CachesValue };

    ghost coded = { Prim.hlevel (codes, coded_tree) };

    ghost view = { λ c. record { rows = c.rows.entries.items; out = c.out.items } };

    ghost invariant = { λ c. IsMarked (record { rows = c.rows.entries.items; out = c.out.items }) c.marks.items × AreOrdered c.rows };
}

impl Caches {
    /// Returns caches without instances and without leases. Does not allocate.
    pub fn new(alloc: Global) -> Caches
        ensures { result ≡ record { rows = []; out = [] } }
    {
        Caches {
            rows: no_rows(alloc),
            marks: Vec::new(alloc),
            out: Vec::new(alloc),
        }
    }

    /// Returns whether a lease of these needs may be requested: the keys of the needs are distinct, and fewer than 65,536 leases are current. Does not
    /// allocate. The time grows with the square of the number of needs.
    pub fn can_lease(&self, needs: &[Need]) -> bool
        ensures { IsTrue result ↔ (AllPairs (λ n m. n.key ≢ m.key) needs.now × (leases self.now.out < 65536)) }
    {
        if count(&self.out) >= 65_536 {
            return false;
        }
        keys_differ(needs)
    }

    /// Leases an instance for each need, or none at all: for a shared or a locked key instance 0, for a private key the lowest-numbered instance that no lease
    /// has. An instance that does not exist is made with the tree of its need. The keys of the needs must be distinct, and fewer than 65,536 leases must be
    /// current. Fails with 111 `Held` and the first locked key whose instance a lease has; if there is no such key, fails with 112 `Memory` alone. After a
    /// refusal the caches are unchanged.
    pub fn lease(&mut self, needs: Many<Need>) -> Result<Lease, LeaseFault>
        requires differ { AllPairs (λ n m. n.key ≢ m.key) needs }
        requires few { leases self.old.out < 65536 }
        ensures gives { Gives (λ l. (l, self.new)) result (lease_of self.old needs) }
        ensures has { IfOk result (λ l. places_of self.new.out l ≡ map (λ n. place_for self.old.out n.key) needs) }
        ensures last { MemoryLast result (lease_of self.old needs) }
        ensures err { OnErr result (self.new ≡ self.old) }
    {
        self.lease_near(needs, &[])
    }

    /// Leases and fails as `lease` does. If `rows[i]` is the number of a row, this row is tried first when the rows are searched for the key of need `i`.
    pub fn lease_near(
        &mut self,
        needs: Many<Need>,
        rows: &[Option<usize>],
    ) -> Result<Lease, LeaseFault>
        requires differ { AllPairs (λ n m. n.key ≢ m.key) needs }
        requires few { leases self.old.out < 65536 }
        ensures gives { Gives (λ l. (l, self.new)) result (lease_of self.old needs) }
        ensures has { IfOk result (λ l. places_of self.new.out l ≡ map (λ n. place_for self.old.out n.key) needs) }
        ensures last { MemoryLast result (lease_of self.old needs) }
        ensures err { OnErr result (self.new ≡ self.old) }
    {
        let needs = self.admitted(needs.into_vec(), rows)?;
        let readies = self.readied(needs, rows)?;
        let places = places_for(*self.out.allocator(), &readies)?;
        reserve(&mut self.rows, readies.len())?;
        self.marks.reserve(readies.len())?;
        self.out.reserve(1)?;
        make_all(&mut self.rows, &mut self.marks, readies);
        let number = take_lease(&mut self.out, places);
        Ok(Lease { number })
    }

    /// Returns whether a lease is current. Does not allocate.
    pub fn is_out(&self, lease: Lease) -> bool
        ensures { IsTrue result ↔ IsOut self.now.out lease }
    {
        match self.out.get(lease.number as usize) {
            Some(Some(_)) => true,
            _ => false,
        }
    }

    /// Returns how many needs a lease has; 0 if the lease is not current. Does not allocate.
    pub fn needs(&self, lease: Lease) -> usize
        ensures { result ≡ length (places_of self.now.out lease) }
    {
        match self.out.get(lease.number as usize) {
            Some(Some(places)) => places.len(),
            _ => 0,
        }
    }

    /// Returns the number of the instance that a current lease has for a need. Does not allocate.
    pub fn instance_of(&self, lease: &Lease, need: u32) -> u32
        requires { need < length (places_of self.now.out lease.now) }
        ensures { result ≡ (place_at self.now.out lease.now need).number }
    {
        places_at(&self.out, lease.number)[need as usize].number
    }

    /// Returns the tree of the instance that a current lease has for a need. Does not allocate.
    pub fn content(&self, lease: &Lease, need: u32) -> &Tree
        requires { need < length (places_of self.now.out lease.now) }
        ensures { tree_at self.now.rows (place_at self.now.out lease.now need) ≡ Some result.now }
    {
        let place = &places_at(&self.out, lease.number)[need as usize];
        trees_at(&self.rows, &place.key).at(place.number)
    }

    /// Replaces the tree of the instance that a current lease has for a need; all leases that have this instance see the new tree. Does not allocate.
    pub fn set_content(&mut self, lease: &Lease, need: u32, tree: Tree)
        requires { need < length (places_of self.old.out lease.now) }
        ensures { self.new ≡ with_content self.old lease.now need tree }
    {
        let place = &places_at(&self.out, lease.number)[need as usize];
        set_at(&mut self.rows, place, tree);
    }

    /// Gives a current lease back, so that other leases can have its instances. No tree changes. Does not allocate.
    pub fn give_back(&mut self, lease: Lease)
        requires { IsOut self.old.out lease }
        ensures { self.new ≡ given_back self.old lease }
    {
        unmark_all(
            &self.rows,
            &mut self.marks,
            places_at(&self.out, lease.number),
        );
        take_back(&mut self.out, lease.number);
    }

    /// Returns whether a lease of this key would be refused: the key is locked, and a lease has the key's instance. Does not allocate.
    pub fn is_locked_and_held(&self, key: &KeyRef<'_>) -> bool
        ensures { result ≡ (is_locked key.now.mode && is_held self.now.out (place key.now 0)) }
    {
        self.holds_locked(key, None)
    }

    /// Returns the number of the instance that a lease of this key would take now. Does not allocate.
    pub fn next_instance(&self, key: &Key) -> u32
        ensures { result ≡ number_for self.now.out key.now key.now.mode }
    {
        self.number_for(&key.by_ref(), None)
    }

    /// Returns how many leases are current. Does not allocate.
    pub fn leases(&self) -> u32
        ensures { result ≡ leases self.now.out }
    {
        count(&self.out)
    }

    /// Returns how many keys have a row. Does not allocate.
    pub fn keys(&self) -> usize
        ensures { result ≡ length self.now.rows }
    {
        self.rows.entries.len()
    }

    /// Returns key `k` in the order in which the keys were first leased; `None` past the last one. Does not allocate.
    pub fn key(&self, k: usize) -> Option<&Key>
        ensures { option_map (λ x. x.now) result ≡ slice_get (keys_of self.now.rows) k }
    {
        key_at(&self.rows, k)
    }

    /// Returns how many instances a key has. Does not allocate.
    pub fn instances(&self, key: &Key) -> u32
        ensures { result ≡ length (trees_of self.now.rows key.now) }
    {
        match trees_with(&self.rows, key) {
            Some(trees) => trees.len() as u32,
            None => 0,
        }
    }

    /// Returns the tree of an instance of a key; `None` if there is no such instance. Does not allocate.
    pub fn instance(&self, key: &Key, number: u32) -> Option<&Tree>
        ensures { option_map (λ t. t.now) result ≡ slice_get (trees_of self.now.rows key.now) number }
    {
        trees_with(&self.rows, key)?.get(number)
    }

    /// Copies the caches with their leases; the copy shares the trees. Fails with 112 `Memory` alone.
    pub fn copy(&self) -> Result<Caches, Memory>
        ensures { IfOk result (λ c. c ≡ self.now) }
    {
        let rows = copied_rows(&self.rows)?;
        let marks = copied_marks(&self.marks)?;
        let out = copied_leases(&self.out)?;
        Ok(Caches { rows, marks, out })
    }

    /// Returns whether these caches and the others have the same keys in the same order with the same trees, and the same leases. Does not allocate.
    pub fn same(&self, other: &Caches) -> bool
        ensures { IsTrue result ↔ (self.now ≡ other.now) }
    {
        same_rows(&self.rows.entries, &other.rows.entries)
            && all_same(self.out.as_slice(), other.out.as_slice())
    }

    /// Returns whether these caches and the others have the same keys in the same order with the same trees, whatever their leases. Does not allocate.
    pub fn has_same_trees(&self, other: &Caches) -> bool
        ensures { IsTrue result ↔ (self.now.rows ≡ other.now.rows) }
    {
        same_rows(&self.rows.entries, &other.rows.entries)
    }

    /// Proves that no two rows have the same key.
    pub fn keys_differ(&self)
        ensures { AllPairs (λ k l. k ≢ l) (keys_of self.now.rows) }
    {
        let _rows = &self.rows;
    }

    /// Proves that no two leases have the same instance of a locked or a private key; that the instances of one lease have distinct keys; that every instance
    /// of a lease exists; that no key has more than 65,536 instances, and the list of leases no more than 65,536 items; and that the last item of this list,
    /// if it has one, is a current lease.
    pub fn is_exclusive(&self)
        ensures { IsCaches self.now }
    {
        let _out = &self.out;
    }
}
