//! Spreads a mark from a vertex to everything downstream of the vertex.

ghost use Rattle.std.specs.Prelude.{◌≡◌, ◌<◌, ◌≤◌, ◌+◌, [], ◌∷◌, length, map, vec_capacity};
ghost use Rattle.std.specs.List.{All};
ghost use Rattle.llb_board.specs.UsersAndOpenInputs.{Spreads, Visits, unmarked};

/// Marks a vertex and everything downstream of it. Everything downstream of a vertex that is already marked must be marked too. The list `reached` must be
/// empty, and must have room for all vertices; it is empty again after the call.
pub(crate) fn spread(users: &[Vec<u32>], reached: &mut Vec<u32>, marks: &mut [bool], v: u32)
    requires count { length users.now ≡ length marks.old }
    requires low { v < length marks.old }
    requires below { All (λ l. All (λ x. x < length marks.old) l.items) users.now }
    requires empty { reached.old.items ≡ [] }
    requires room { length marks.old ≤ vec_capacity reached.old }
    ensures marks { Spreads (map (λ l. l.items) users.now) v marks.old marks.new }
    ensures empty { reached.new.items ≡ [] }
    ensures room { vec_capacity reached.new ≡ vec_capacity reached.old }
{
    marks[v as usize] = true;
    reached.push_reserved(v);
    for i in 0..users.len() {
        let Some(next) = reached.get(i).copied() else {
            break;
        };
        visit(marks, reached, &users[next as usize]);
    }
    reached.clear();
}

// Marks each of these vertices, and appends those that were not marked before to the list `reached`.
fn visit(marks: &mut [bool], reached: &mut Vec<u32>, users: &[u32])
    requires below { All (λ x. x < length marks.old) users.now }
    requires room { unmarked marks.old + length reached.old.items ≤ vec_capacity reached.old }
    ensures visits { Visits users.now marks.old marks.new reached.old.items reached.new.items }
    ensures room { vec_capacity reached.new ≡ vec_capacity reached.old }
{
    for user in users {
        reach(marks, reached, *user);
    }
}

// Marks one vertex, and appends it to the list `reached` if it was not marked before.
fn reach(marks: &mut [bool], reached: &mut Vec<u32>, x: u32)
    requires low { x < length marks.old }
    requires room { unmarked marks.old + length reached.old.items ≤ vec_capacity reached.old }
    ensures visits { Visits (x ∷ []) marks.old marks.new reached.old.items reached.new.items }
    ensures room { vec_capacity reached.new ≡ vec_capacity reached.old }
{
    if marks[x as usize] {
        return;
    }
    marks[x as usize] = true;
    reached.push_reserved(x);
}
