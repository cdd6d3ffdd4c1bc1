//! The rows of caches: the keys with the trees of their instances. A look-up is a binary search of the rows in the order of their keys, so the time of a
//! look-up grows with the logarithm of the number of rows.

ghost use Rattle.std.specs.Prelude.{◌≡◌, ◌<◌, ◌+◌, ℕ, false, [], length, IfSome, OnOk, IsSome, Some};
ghost use Rattle.std.specs.Prelude.{is_some, option_map, position, slice_get};
ghost use Rattle.std.specs.Map.{keys_of, values_of, lookup};
ghost use Rattle.llb_cache.specs.Caches.{with_trees};
ghost use Rattle.llb_cache.specs.LeaseAdditions.{front, shorter};
ghost use Rattle.llb_cache.specs.Key.{same_key};
ghost use Rattle.llb_cache.specs.RowOrder.{has_key, is_before, IsPlace, AreOrdered, HasRoom};

use crate::instance_trees::Trees;
use crate::key::Key;
use crate::key_ref::KeyRef;
use llb_wire::Memory;
use std::alloc::Global;

// The rows, each a key with the trees of its instances, in the order in which the keys were first leased (`entries`), and the numbers of the rows in
// the order of their keys (`order`).
pub(crate) struct Rows {
    pub(crate) entries: Vec<(Key, Trees)>,
    pub(crate) order: Vec<usize>,
}

impl Drop for Rows {
    fn drop(self) {
        let Rows {
            entries: _,
            order: _,
        } = self;
    }
}

pub(crate) fn no_rows(alloc: Global) -> Rows
    ensures empty { result.entries.items ≡ [] }
    ensures order { AreOrdered result }
{
    Rows {
        entries: Vec::new(alloc),
        order: Vec::new(alloc),
    }
}

// Returns whether the key of a row comes before this key in the order of keys.
fn comes_before(rows: &Rows, row: usize, key: &KeyRef<'_>) -> bool
    requires { row < length rows.now.entries.items }
    ensures { result ≡ is_before rows.now.entries.items row key.now }
{
    rows.entries[row].0.by_ref().order(key).is_lt()
}

// Returns the position of a key in the order: how many rows have keys that come before it.
fn place_of(rows: &Rows, key: &KeyRef<'_>) -> usize
    requires { AreOrdered rows.now }
    ensures { IsPlace rows.now.entries.items rows.now.order.items key.now result }
{
    let mut low = 0;
    let mut high = rows.order.len();
    while low < high {
        let middle = low + (high - low) / 2;
        if comes_before(rows, rows.order[middle], key) {
            low = middle + 1;
        } else {
            high = middle;
        }
    }
    low
}

// Returns the number of the row of a key; `None` if no row has the key.
pub(crate) fn row_of(rows: &Rows, key: &KeyRef<'_>) -> Option<usize>
    requires { AreOrdered rows.now }
    ensures at { result ≡ position (same_key key.now) (keys_of rows.now.entries.items) }
    ensures found { is_some result ≡ is_some (lookup (same_key key.now) rows.now.entries.items) }
    ensures within { IfSome result (λ i. i < length rows.now.entries.items) }
    ensures value { IfSome result (λ i. slice_get (values_of rows.now.entries.items) i ≡ lookup (same_key key.now) rows.now.entries.items) }
{
    let place = place_of(rows, key);
    if place >= rows.order.len() {
        return None;
    }
    let row = rows.order[place];
    if key.is(&rows.entries[row].0.by_ref()) {
        Some(row)
    } else {
        None
    }
}

// Returns whether the row with this number exists and has this key.
fn has_key(rows: &Rows, row: usize, key: &KeyRef<'_>) -> bool
    ensures { result ≡ has_key rows.now.entries.items row key.now }
{
    match rows.entries.get(row) {
        Some(entry) => key.is(&entry.0.by_ref()),
        None => false,
    }
}

// Returns the number of the row of a key; `None` if no row has the key. Row `near` is tried first; the other
// rows are searched only if row `near` does not have the key.
pub(crate) fn row_near(rows: &Rows, key: &KeyRef<'_>, near: Option<usize>) -> Option<usize>
    requires { AreOrdered rows.now }
    ensures at { result ≡ position (same_key key.now) (keys_of rows.now.entries.items) }
    ensures found { is_some result ≡ is_some (lookup (same_key key.now) rows.now.entries.items) }
    ensures within { IfSome result (λ i. i < length rows.now.entries.items) }
    ensures value { IfSome result (λ i. slice_get (values_of rows.now.entries.items) i ≡ lookup (same_key key.now) rows.now.entries.items) }
{
    if let Some(row) = near {
        if has_key(rows, row, key) {
            return Some(row);
        }
    }
    row_of(rows, key)
}

pub(crate) fn key_at(rows: &Rows, row: usize) -> Option<&Key>
    ensures { option_map (λ k. k.now) result ≡ slice_get (keys_of rows.now.entries.items) row }
{
    match rows.entries.get(row) {
        Some(entry) => Some(&entry.0),
        None => None,
    }
}

// Returns the trees of a key; `None` if the key has no row.
pub(crate) fn trees_with<'a>(rows: &'a Rows, key: &Key) -> Option<&'a Trees>
    requires { AreOrdered rows.now }
    ensures { option_map (λ t. t.now) result ≡ lookup (same_key key.now) rows.now.entries.items }
{
    match row_of(rows, &key.by_ref()) {
        Some(i) => Some(&rows.entries[i].1),
        None => None,
    }
}

// Returns the trees of a key that has a row.
pub(crate) fn trees_at<'a>(rows: &'a Rows, key: &Key) -> &'a Trees
    requires order { AreOrdered rows.now }
    requires there { IsSome (lookup (same_key key.now) rows.now.entries.items) }
    ensures { lookup (same_key key.now) rows.now.entries.items ≡ Some result.now }
{
    let i = row_of(rows, &key.by_ref()).unwrap();
    &rows.entries[i].1
}

// Reserves room for `more` further rows.
pub(crate) fn reserve(rows: &mut Rows, more: usize) -> Result<(), Memory>
    ensures entries { rows.new.entries.items ≡ rows.old.entries.items }
    ensures order { rows.new.order.items ≡ rows.old.order.items }
    ensures kept { AreOrdered rows.old → AreOrdered rows.new }
    ensures room { OnOk result (HasRoom rows.new more) }
{
    rows.entries.reserve(more)?;
    rows.order.reserve(more)?;
    Ok(())
}

// Adds a row for a key that has none. Both lists of `rows` must have room for one more item.
pub(crate) fn add_row(rows: &mut Rows, key: Key, trees: Trees)
    requires order { AreOrdered rows.old }
    requires room { HasRoom rows.old 1 }
    requires apart { is_some (lookup (same_key key) rows.old.entries.items) ≡ false }
    ensures rows { rows.new.entries.items ≡ with_trees rows.old.entries.items key trees }
    ensures order { AreOrdered rows.new }
    ensures room { (more : ℕ) → HasRoom rows.old (more + 1) → HasRoom rows.new more }
{
    let place = place_of(rows, &key.by_ref());
    rows.order.insert(place, rows.entries.len()).unwrap();
    rows.entries.push_reserved((key, trees));
}

// Removes the last row, if there is one.
pub(crate) fn pop_row(rows: &mut Rows)
    requires { AreOrdered rows.old }
    ensures rows { rows.new.entries.items ≡ front rows.old.entries.items }
    ensures order { AreOrdered rows.new }
{
    let len = rows.entries.len();
    if len > 0 {
        let place = place_of(rows, &rows.entries[len - 1].0.by_ref());
        rows.order.remove(place);
        rows.entries.truncate(len - 1);
    }
}

// Removes the last instance of a key, if the key has one.
pub(crate) fn pop_instance(rows: &mut Rows, key: &Key)
    requires { AreOrdered rows.old }
    ensures rows { rows.new.entries.items ≡ shorter rows.old.entries.items key.now (lookup (same_key key.now) rows.old.entries.items) }
    ensures keys { keys_of rows.new.entries.items ≡ keys_of rows.old.entries.items }
    ensures order { AreOrdered rows.new }
{
    if let Some(i) = row_of(rows, &key.by_ref()) {
        rows.entries[i].1.pop();
    }
}
