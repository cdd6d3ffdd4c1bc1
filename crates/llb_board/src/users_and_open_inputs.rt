//! Keeps the users of each vertex (the vertices that have an edge to it), and how many inputs of each vertex are not done.

ghost use Rattle.std.specs.Prelude.{◌≡◌, ◌<◌, ◌≤◌, ◌+◌, ◌^◌, ℕ, List, false, [], ◌∷◌, ◌++◌, length, map, replicate, get_or};
ghost use Rattle.std.specs.Prelude.{IfOk, vec_capacity};
ghost use Rattle.std.specs.List.{All};
ghost use Rattle.llb_loader.specs.declared.graph.Edge as edge;
ghost use Rattle.llb_board.specs.UsersAndOpenInputs.{Linked, IsLinked, AreBelow, IsEntered, AreLowered, AreRaised, Spreads, users_at, has_inputs};

mod downstream_marks;

use downstream_marks::spread;
use llb_loader::{Edge, Vertex};
use std::alloc::{AllocError, Global};
use std::marker::Model;
use std::sync::Arc;

/// For each vertex of a graph: its users (the vertices that have an edge to it), ascending, each once; and its count of open inputs (how many of the vertices
/// to which it has an edge are not done). Copies share the lists of users. `reached` is an empty list with room for all vertices, which `spread` fills and
/// empties. Contracts see the users and the counts, as lists.
pub(crate) struct Links {
    users: Arc<Vec<Vec<u32>>>,
    counts: Vec<u32>,
    reached: Vec<u32>,
}

impl Drop for Links {
    fn drop(self) {
        let Links {
            users: _,
            counts: _,
            reached: _,
        } = self;
    }
}

impl Model for Links {
    ghost use Rattle.std.specs.Prelude.{◌≡◌, ◌≤◌, [], map, length, vec_capacity};
    ghost use Rattle.std.specs.Arc.{arc_value};
    ghost use Rattle.llb_board.specs.UsersAndOpenInputs.{Linked, HasRoom};

    ghost Value = { Linked };

    ghost view = { λ l. record { users = map (λ u. u.items) (arc_value l.users).items; counts = l.counts.items } };

    ghost invariant = { λ l. HasRoom (length l.counts.items) l.reached.items (vec_capacity l.reached) };
}

impl Links {
    /// Makes the links of a graph in which no vertex is done. Every edge of a vertex must lead to a vertex with a lower number. The memory that the links take
    /// grows with the number of edges; the call fails for want of memory alone.
    pub(crate) fn new(alloc: Global, vertices: &[Vertex]) -> Result<Links, AllocError>
        requires below { AreBelow vertices.now }
        requires few { length vertices.now < 2 ^ 32 }
        ensures { IfOk result (λ l. IsLinked vertices.now (λ u. false) l) }
    {
        let count = vertices.len();
        let mut users = empty(alloc, count)?;
        let mut counts = Vec::with_capacity(alloc, count)?;
        for v in 0..count {
            let more = enter(&mut users, v as u32, vertices[v].inputs.as_slice())?;
            counts.push_reserved(more);
        }
        Ok(Links {
            users: Arc::new(alloc, users)?,
            counts,
            reached: Vec::with_capacity(alloc, count)?,
        })
    }

    /// Copies the links: the lists of users are shared, the counts are copied. Fails for want of memory alone.
    pub(crate) fn copy(&self, alloc: Global) -> Result<Links, AllocError>
        ensures { IfOk result (λ l. l ≡ self.now) }
    {
        Ok(Links {
            users: Arc::try_clone(&self.users)?,
            counts: Vec::from_slice(alloc, &self.counts)?,
            reached: Vec::with_capacity(alloc, self.counts.len())?,
        })
    }

    /// Returns the users of a vertex, ascending, each once; none past the last vertex. Does not allocate.
    pub(crate) fn users(&self, v: u32) -> &[u32]
        ensures { result.now ≡ users_at self.now v }
    {
        match self.users.get(v as usize) {
            Some(users) => users.as_slice(),
            None => &[],
        }
    }

    /// Returns whether, by the counts, all inputs of a vertex are done; false past the last vertex. Does not allocate.
    pub(crate) fn has_inputs(&self, v: u32) -> bool
        ensures { result ≡ has_inputs self.now v }
    {
        match self.counts.get(v as usize) {
            Some(count) => *count == 0,
            None => false,
        }
    }

    /// Records that a vertex is done: decrements the count of open inputs (inputs that are not done yet) of each of its users. Does not allocate.
    pub(crate) fn count_down(&mut self, v: u32)
        requires low { v < length self.old.users }
        requires below { All (λ x. x < length self.old.counts) (users_at self.old v) }
        ensures users { self.new.users ≡ self.old.users }
        ensures counts { AreLowered (users_at self.old v) self.old.counts self.new.counts }
    {
        let Links {
            users,
            counts,
            reached: _,
        } = self;
        lower(counts, &users[v as usize]);
    }

    /// Records that a vertex is no longer done: increments the count of open inputs (inputs that are not done) of each of its users. Does not allocate.
    pub(crate) fn count_up(&mut self, v: u32)
        requires low { v < length self.old.users }
        requires below { All (λ x. x < length self.old.counts) (users_at self.old v) }
        requires few { (x : ℕ) → get_or self.old.counts x 0 + length (users_at self.old v) < 2 ^ 32 }
        ensures users { self.new.users ≡ self.old.users }
        ensures counts { AreRaised (users_at self.old v) self.old.counts self.new.counts }
    {
        let Links {
            users,
            counts,
            reached: _,
        } = self;
        raise(counts, &users[v as usize]);
    }

    /// Marks a vertex and everything downstream of it. Before the call, everything downstream of a marked vertex must be marked too. Does not allocate.
    pub(crate) fn spread(&mut self, marks: &mut [bool], v: u32)
        requires count { (length self.old.users ≡ length marks.old) × (length self.old.counts ≡ length marks.old) }
        requires low { v < length marks.old }
        requires below { All (λ l. All (λ x. x < length marks.old) l) self.old.users }
        ensures marks { Spreads self.old.users v marks.old marks.new }
        ensures same { self.new ≡ self.old }
    {
        let Links {
            users,
            counts: _,
            reached,
        } = self;
        spread(users, reached, marks, v);
    }
}

fn empty(alloc: Global, count: usize) -> Result<Vec<Vec<u32>>, AllocError>
    ensures { IfOk result (λ l. map (λ u. u.items) l.items ≡ replicate count []) }
{
    let mut lists = Vec::with_capacity(alloc, count)?;
    for _i in 0..count {
        lists.push_reserved(Vec::new(alloc));
    }
    Ok(lists)
}

// Appends vertex `v` to the list of each vertex that one of the edges leads to, and returns how many such vertices there are. The number `v` must be above all
// numbers that the lists have before the call.
fn enter(users: &mut Vec<Vec<u32>>, v: u32, edges: &[Edge]) -> Result<u32, AllocError>
    requires below { All (λ (e : edge.Edge). e.vertex < length users.old.items) edges.now }
    requires few { length users.old.items < 2 ^ 32 }
    requires above { All (λ l. All (λ x. x < v) l.items) users.old.items }
    ensures { IfOk result (λ n. IsEntered edges.now v (map (λ u. u.items) users.old.items) (map (λ u. u.items) users.new.items) n) }
{
    let mut more = 0;
    for edge in edges {
        more += enter_once(&mut users[edge.vertex as usize], v)?;
    }
    Ok(more)
}

// Appends a number to a list, unless the last item is that number; returns how many items were appended, 0 or 1.
fn enter_once(list: &mut Vec<u32>, v: u32) -> Result<u32, AllocError>
    ensures again { (front : List ℕ) → list.old.items ≡ front ++ v ∷ [] → IfOk result (λ n. (list.new.items ≡ list.old.items) × (n ≡ 0)) }
    ensures fresh { All (λ x. x < v) list.old.items → IfOk result (λ n. (list.new.items ≡ list.old.items ++ v ∷ []) × (n ≡ 1)) }
{
    if list.last() == Some(&v) {
        return Ok(0);
    }
    list.push(v)?;
    Ok(1)
}

// Decrements the count of each listed vertex, once for each time that it is listed.
fn lower(counts: &mut [u32], users: &[u32])
    requires { All (λ x. x < length counts.old) users.now }
    ensures { AreLowered users.now counts.old counts.new }
{
    for user in users {
        counts[*user as usize] = counts[*user as usize].saturating_sub(1);
    }
}

// Increments the count of open inputs (inputs that are not done) of each listed vertex, once for each time that the vertex is listed.
fn raise(counts: &mut [u32], users: &[u32])
    requires below { All (λ x. x < length counts.old) users.now }
    requires few { (x : ℕ) → get_or counts.old x 0 + length users.now < 2 ^ 32 }
    ensures { AreRaised users.now counts.old counts.new }
{
    for user in users {
        counts[*user as usize] += 1;
    }
}
