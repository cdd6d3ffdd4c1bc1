//! Leases of caches while memory is refused. A need is written as the ID and the mode of its key and, if the key has a seed, the name of the tree with which
//! a new instance begins. Two needs have `, ` between them. The needs of earlier leases follow after ` after `, with ` then ` between two leases.

use super::refused_growths::{Row, Trial, are_refused};
use super::value_texts::{printed_fault, printed_text, text_of};
use super::values_from_texts::tree_named;
use llb_cache::{Caches, Instance, Key, Lease, LeaseFault, Lent, Many, Memory, Mode, Need, Seed};
use std::alloc::Global;
use std::process::Abort;

#[derive(Drop)]
enum Answer {
    None,
    Lease(Result<Lease, LeaseFault>),
    Copied(Result<Caches, Memory>),
    Ready(Result<Lent, llb_wire::Memory>),
}

// Two equal values of caches; two copies of the list of `Need`s that `lease` is given, since each of its two calls consumes one; and for the key of each `Need`
// an instance.
#[derive(Drop)]
struct OnCaches {
    call: &'static str,
    caches: Caches,
    twin: Caches,
    needs: Vec<Many<Need>>,
    instances: Vec<Instance>,
    answer: Answer,
}

fn mode_of(way: &str) -> Mode {
    match way {
        "locked" => Mode::Locked,
        "private" => Mode::Private,
        _ => Mode::Shared,
    }
}

// Returns a key. The key has a seed if `tree` is not empty.
fn key_of(rt: &impl Abort, alloc: Global, id: &str, way: &str, tree: &str) -> Key {
    let seed = if tree.is_empty() {
        None
    } else {
        let digest = text_of(rt, alloc, "sha256:00");
        Some(Seed { digest, index: 0 })
    };
    Key {
        id: text_of(rt, alloc, id),
        seed,
        mode: mode_of(way),
    }
}

fn need_of(rt: &impl Abort, alloc: Global, need: &str) -> Need {
    let (id, rest) = need.split_once(' ').unwrap_or((need, ""));
    let (way, tree) = rest.split_once(' ').unwrap_or((rest, ""));
    let key = key_of(rt, alloc, id, way, tree);
    let tree = tree_named(rt, alloc, if tree.is_empty() { "EMPTY" } else { tree });
    Need { key, tree }
}

fn needs_of(rt: &impl Abort, alloc: Global, written: &'static str) -> Many<Need> {
    let mut needs = Vec::new(alloc);
    for need in written.split(", ") {
        needs.push(need_of(rt, alloc, need)).expect(rt, "memory");
    }
    Many::new(needs)
}

fn leased(caches: &mut Caches, needs: Many<Need>) -> Answer {
    if caches.can_lease(needs.as_slice()) {
        return Answer::Lease(caches.lease(needs));
    }
    Answer::None
}

// Requests a lease, and ignores whether the lease is granted.
fn lease_out(caches: &mut Caches, needs: Many<Need>) {
    let _ = leased(caches, needs);
}

// Returns caches with a lease for each list of needs in `out`.
fn caches_of(rt: &impl Abort, alloc: Global, out: &'static str) -> Caches {
    let mut caches = Caches::new(alloc);
    for needs in out.split(" then ") {
        if !needs.is_empty() {
            lease_out(&mut caches, needs_of(rt, alloc, needs));
        }
    }
    caches
}

fn taken(caches: &mut Caches, handed: &mut Vec<Many<Need>>) -> Answer {
    match handed.pop() {
        Some(needs) => leased(caches, needs),
        None => Answer::None,
    }
}

fn two_needs(rt: &impl Abort, alloc: Global, written: &'static str) -> Vec<Many<Need>> {
    let mut needs = Vec::new(alloc);
    for _ in 0..2 {
        needs
            .push(needs_of(rt, alloc, written))
            .expect(rt, "memory");
    }
    needs
}

// Returns for each need instance 0 of the need's key.
fn instances_of(rt: &impl Abort, alloc: Global, written: &'static str) -> Vec<Instance> {
    let mut instances = Vec::new(alloc);
    for need in needs_of(rt, alloc, written).into_vec() {
        let instance = Instance {
            key: need.key,
            number: 0,
        };
        instances.push(instance).expect(rt, "memory");
    }
    instances
}

impl OnCaches {
    // Returns the number of a lease, the number of the instance that the lease has for its first need, and how many leases are current.
    fn printed_lease(&self, rt: &impl Abort, alloc: Global, lease: Lease) -> String {
        let number = lease.number();
        let mut instance = u32::MAX;
        if self.caches.needs(lease) > 0 {
            instance = self.caches.instance_of(&lease, 0);
        }
        let out = self.caches.leases();
        format!(in alloc; "lease {number} of instance {instance}, {out} out").expect(rt, "memory")
    }

    fn printed_copy(&self, copy: &Caches) -> &'static str {
        if copy.same(&self.twin) {
            "the caches"
        } else {
            "others"
        }
    }
}

impl OnCaches {
    // Makes the call, and returns its result.
    fn answered(&mut self, alloc: Global) -> Answer {
        match self.call {
            "Caches::copy" => Answer::Copied(self.caches.copy()),
            "Lent::new" => Answer::Ready(Lent::new(alloc, &self.instances, 2)),
            _ => taken(&mut self.caches, &mut self.needs),
        }
    }
}

impl Trial for OnCaches {
    fn ready(rt: &impl Abort, alloc: Global, row: &Row) -> OnCaches {
        let (call, on, _, _) = *row;
        let (needs, out) = on.split_once(" after ").unwrap_or((on, ""));
        OnCaches {
            call,
            caches: caches_of(rt, alloc, out),
            twin: caches_of(rt, alloc, out),
            needs: two_needs(rt, alloc, needs),
            instances: instances_of(rt, alloc, needs),
            answer: Answer::None,
        }
    }

    fn call(&mut self, alloc: Global) {
        self.answer = self.answered(alloc);
    }

    fn printed(&self, rt: &impl Abort, alloc: Global) -> String {
        match &self.answer {
            Answer::None => printed_text(rt, alloc, "nothing"),
            Answer::Lease(Ok(lease)) => self.printed_lease(rt, alloc, *lease),
            Answer::Copied(Ok(copy)) => printed_text(rt, alloc, self.printed_copy(copy)),
            Answer::Ready(Ok(_)) => printed_text(rt, alloc, "a lease that is ready"),
            Answer::Lease(Err(fault)) => printed_fault(rt, alloc, fault),
            Answer::Copied(Err(fault)) => printed_fault(rt, alloc, fault),
            Answer::Ready(Err(fault)) => printed_fault(rt, alloc, fault),
        }
    }

    fn is_as_before(&mut self, _rt: &impl Abort, _alloc: Global) -> bool {
        self.caches.same(&self.twin) && self.caches.leases() == self.twin.leases()
    }
}

const ROWS: &[Row] = &[
    ("lease", "k locked", "112", "lease 0 of instance 0, 1 out"),
    ("lease", "k locked after k locked", "", "111 k"),
    ("lease", "a locked, b locked after b locked", "", "111 b"),
    (
        "lease",
        "a locked after b locked",
        "112",
        "lease 1 of instance 0, 2 out",
    ),
    (
        "lease",
        "p private F",
        "112",
        "lease 0 of instance 0, 1 out",
    ),
    (
        "lease",
        "p private F after p private F",
        "112",
        "lease 1 of instance 1, 2 out",
    ),
    (
        "lease",
        "k shared after k shared",
        "112",
        "lease 1 of instance 0, 2 out",
    ),
    (
        "Caches::copy",
        "k locked after b locked then p private F",
        "112",
        "the caches",
    ),
    (
        "Lent::new",
        "k locked, p private F",
        "5",
        "a lease that is ready",
    ),
];

#[test]
fn leases(rt: HostRuntime) {
    are_refused::<OnCaches>(&rt, rt.alloc(), ROWS);
}
