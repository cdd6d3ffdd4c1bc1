//! Finds the caches that a vertex mounts, and what a claim takes of these caches: instances, the trees of the instances, and the needs for a lease.
//! Nothing here changes the caches.

ghost use Rattle.std.specs.Prelude.{◌≡◌, ◌<◌, ◌^◌, IfErr, IfOk, MatchResult, Some, None, true, map, length, option_map};
ghost use Rattle.std.specs.List.{All};
ghost use Rattle.llb_loader.specs.Mounts.{key_of, seed_of};
ghost use Rattle.llb_loader.specs.Rules.{kind_mounts};
ghost use Rattle.llb_model.specs.TwoCacheModels.{asked, growth_for};
ghost use Rattle.llb_model.specs.Program.{needs_of, mount_of, base_in, mode_of, key_as, seed_as};
ghost use Rattle.llb_board.specs.CacheNeeds.{need_of, first_held_key, unless_held, if_locked, number_of, HasEdges};
ghost use Rattle.llb_board.specs.CacheNeeds.{IsFound, place_found, row_found, first_tree};
ghost use Rattle.llb_cache.specs.Key.{seed_by};
ghost use Rattle.llb_events.specs.Faults.{GivesClaim, claim_memory, claim_may_want};

use llb_cache::{Caches, Found, Growth, Instance, KeyRef, Mode, Need};
use llb_events::ClaimFault;
use llb_execution::input_tree;
use llb_loader::{Vertex, cache_in, mounts_of};
use llb_ops::Mount;
use llb_tree::Tree;
use llb_wire::Memory;
use std::alloc::Global;

/// A cache that an exec mounts: the number of the mount, the key, the number of the input with whose tree a new instance begins (-1 for none), and what was
/// found in the caches for the key.
#[derive(Drop)]
pub(crate) struct Wanted<'a> {
    pub mount: u32,
    pub key: KeyRef<'a>,
    pub input: i64,
    pub found: Found<'a>,
}

// Returns the caches that a vertex mounts, in the order of the mounts. Fails with 135 `Held` and the first locked key whose instance a lease has; in that
// case the call allocates only a copy of the key, and fails with 141 `Memory` if memory for the copy is refused. If no key is held, fails with 141 alone.
pub(crate) fn wanted_by<'a>(
    alloc: Global,
    caches: &'a Caches,
    vertex: &'a Vertex,
) -> Result<Vec<Wanted<'a>>, ClaimFault>
    requires seeds { HasEdges vertex.now }
    requires few { length (kind_mounts vertex.now.op.kind) < 2 ^ 32 }
    ensures gives { GivesClaim (λ ws. map need_of ws.items) result (unless_held (needs_of vertex.now) (first_held_key caches.now.out (needs_of vertex.now))) }
    ensures last { IfErr result (λ e. claim_memory e ≡ true
        → claim_may_want (unless_held (needs_of vertex.now) (first_held_key caches.now.out (needs_of vertex.now))) ≡ true) }
    ensures found { IfOk result (λ ws. All (IsFound caches.now) ws.items) }
{
    match last_locked(caches, vertex) {
        Err(key) => Err(ClaimFault::Held(key.to_key(alloc)?)),
        Ok(row) => Ok(wants(alloc, caches, vertex, row)?),
    }
}

/// Returns what a claim of a vertex would add to the caches, for each cache that the vertex mounts. Fails with 5 `Memory` alone.
pub(crate) fn growths_of(
    alloc: Global,
    caches: &Caches,
    vertex: &Vertex,
) -> Result<Vec<Growth>, Memory>
    requires { HasEdges vertex.now }
    ensures { IfOk result (λ gs. gs.items ≡ map (growth_for caches.now) (needs_of vertex.now)) }
{
    let mut growths = Vec::new(alloc);
    for mount in mounts_of(&vertex.op.kind) {
        if let Some(key) = key_shown(vertex, mount) {
            growths.push(caches.growth(&key))?;
        }
    }
    Ok(growths)
}

// Returns the number of the row of the last key of a locked cache that a vertex mounts; `None` if the vertex mounts no locked key, or if that key has no row.
// If leases have instances of locked keys that the vertex mounts, fails with the first such key. Does not allocate.
fn last_locked<'a>(caches: &Caches, vertex: &'a Vertex) -> Result<Option<usize>, KeyRef<'a>>
    requires { HasEdges vertex.now }
    ensures { MatchResult result (λ _. first_held_key caches.now.out (needs_of vertex.now) ≡ None)
        (λ k. first_held_key caches.now.out (needs_of vertex.now) ≡ Some k) }
{
    let mut row = None;
    for mount in mounts_of(&vertex.op.kind) {
        let Some(key) = locked_key_shown(vertex, mount) else {
            continue;
        };
        let found = caches.look_up(&key, None);
        if found.is_held {
            return Err(key);
        }
        row = found.row;
    }
    Ok(row)
}

// Looks up the caches that a vertex mounts. For each key, the row with the number `near` is tried first. Fails with 5 `Memory` alone, as do those
// functions below that allocate.
fn wants<'a>(
    alloc: Global,
    caches: &'a Caches,
    vertex: &'a Vertex,
    near: Option<usize>,
) -> Result<Vec<Wanted<'a>>, Memory>
    requires seeds { HasEdges vertex.now }
    requires few { length (kind_mounts vertex.now.op.kind) < 2 ^ 32 }
    ensures needs { IfOk result (λ ws. map need_of ws.items ≡ needs_of vertex.now) }
    ensures found { IfOk result (λ ws. All (IsFound caches.now) ws.items) }
{
    let mut wanted = Vec::new(alloc);
    for (i, mount) in mounts_of(&vertex.op.kind).iter().enumerate() {
        let Some(key) = key_shown(vertex, mount) else {
            continue;
        };
        let found = caches.look_up(&key, near);
        wanted.push(Wanted {
            mount: i as u32,
            key,
            input: mount.input,
            found,
        })?;
    }
    Ok(wanted)
}

// Returns the key of the cache that a mount of a vertex shows, if the mount shows one and the key is locked. Does not allocate.
fn locked_key_shown<'a>(vertex: &'a Vertex, mount: &'a Mount) -> Option<KeyRef<'a>>
    requires { HasEdges vertex.now }
    ensures { result ≡ if_locked (option_map key_as (key_of vertex.now.op.inputs mount.now)) }
{
    let key = key_shown(vertex, mount)?;
    if key.is_locked() {
        return Some(key);
    }
    None
}

// Returns the key of the cache that a mount of a vertex shows, if the mount shows a cache. Does not allocate.
fn key_shown<'a>(vertex: &'a Vertex, mount: &'a Mount) -> Option<KeyRef<'a>>
    requires { HasEdges vertex.now }
    ensures { result ≡ option_map key_as (key_of vertex.now.op.inputs mount.now) }
{
    let options = cache_in(mount)?;
    let seed = seed_shown(vertex, mount.input);
    Some(KeyRef::new(options.id.as_str(), seed, mode_of(options.sharing)))
}

// Returns the seed of a cache (the output with whose tree a new instance begins): the digest text and the index that input number `input` of the vertex names;
// `None` if `input` is negative or there is no such input.
fn seed_shown(vertex: &Vertex, input: i64) -> Option<(&str, u32)>
    requires { HasEdges vertex.now }
    ensures { option_map (λ s. seed_by s.0.now s.1) result ≡ option_map seed_as (seed_of vertex.now.op.inputs input) }
{
    if input < 0 {
        return None;
    }
    let at = input as usize;
    let shown = vertex.op.inputs.as_slice().get(at)?;
    Some((shown.digest.as_str(), vertex.inputs.as_slice()[at].index))
}

// Returns the mode of a cache, by the number in the `sharing` field of its mount.
fn mode_of(sharing: i32) -> Mode
    ensures { result ≡ mode_of sharing }
{
    match sharing {
        1 => Mode::Private,
        2 => Mode::Locked,
        _ => Mode::Shared,
    }
}

// Returns the numbers of the mounts that show caches.
pub(crate) fn mount_numbers(alloc: Global, wanted: &[Wanted<'_>]) -> Result<Vec<u32>, Memory>
    ensures { IfOk result (λ ns. ns.items ≡ map mount_of (map need_of wanted.now)) }
{
    let mut numbers = Vec::new(alloc);
    for want in wanted {
        numbers.push(want.mount)?;
    }
    Ok(numbers)
}

// Returns the instances that a lease of these caches would take.
pub(crate) fn places_found(alloc: Global, wanted: &[Wanted<'_>]) -> Result<Vec<Instance>, Memory>
    ensures { IfOk result (λ ps. ps.items ≡ map place_found wanted.now) }
{
    let mut places = Vec::new(alloc);
    for want in wanted {
        let key = want.key.to_key(alloc)?;
        let number = want.found.number;
        places.push(Instance { key, number })?;
    }
    Ok(places)
}

// Returns the numbers of instances.
pub(crate) fn instance_numbers(alloc: Global, places: &[Instance]) -> Result<Vec<u32>, Memory>
    ensures { IfOk result (λ ns. ns.items ≡ map number_of places.now) }
{
    let mut numbers = Vec::new(alloc);
    for place in places {
        numbers.push(place.number)?;
    }
    Ok(numbers)
}

// Copies the tree of the instance of each wanted cache or, if the instance is a new one, the tree of its seed.
pub(crate) fn first_trees(
    alloc: Global,
    inputs: &[Tree],
    wanted: &[Wanted<'_>],
) -> Result<Vec<Tree>, Memory>
    ensures { IfOk result (λ ts. ts.items ≡ map (first_tree inputs.now) wanted.now) }
{
    let mut trees = Vec::new(alloc);
    for want in wanted {
        let tree = first_tree(alloc, inputs, want)?;
        trees.push(tree)?;
    }
    Ok(trees)
}

// Copies the tree of an instance, or the tree of its seed if the instance does not exist.
fn first_tree(alloc: Global, inputs: &[Tree], want: &Wanted<'_>) -> Result<Tree, Memory>
    ensures { IfOk result (λ t. t ≡ first_tree inputs.now want.now) }
{
    match want.found.tree {
        Some(tree) => Ok(tree.copy()?),
        None => seed_tree(alloc, inputs, want.input),
    }
}

// Copies the tree of a seed; returns the empty tree if there is no seed.
fn seed_tree(alloc: Global, inputs: &[Tree], input: i64) -> Result<Tree, Memory>
    ensures { IfOk result (λ t. t ≡ base_in input inputs.now) }
{
    match input_tree(inputs, input) {
        Some(tree) => Ok(tree.copy()?),
        None => Ok(Tree::empty(alloc)?),
    }
}

// Makes a `Need` for each cache that a vertex mounts: the cache's key, and the tree that a new instance begins with.
pub(crate) fn asked(
    alloc: Global,
    inputs: &[Tree],
    wanted: &[Wanted<'_>],
) -> Result<Vec<Need>, Memory>
    ensures { IfOk result (λ ns. ns.items ≡ asked inputs.now (map need_of wanted.now)) }
{
    let mut needs = Vec::new(alloc);
    for want in wanted {
        let key = want.key.to_key(alloc)?;
        let tree = seed_tree(alloc, inputs, want.input)?;
        needs.push(Need { key, tree })?;
    }
    Ok(needs)
}

// Returns for each of these caches the index of the row that has the cache's key; `None` if no row has it.
pub(crate) fn rows_found(alloc: Global, wanted: &[Wanted<'_>]) -> Result<Vec<Option<usize>>, Memory>
    ensures { IfOk result (λ rs. rs.items ≡ map row_found wanted.now) }
{
    let mut rows = Vec::new(alloc);
    for want in wanted {
        rows.push(want.found.row)?;
    }
    Ok(rows)
}
