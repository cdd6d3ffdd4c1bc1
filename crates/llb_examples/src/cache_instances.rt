//! Stories of calls on boards: what each worker does, and which instances of caches a job has. Which trees the instances have after each step is tested by
//! sessions (`tests/caches`, `tests/stepping/looks-at-caches.md`).

use super::boards_from_texts::CacheRow;
use super::stories::{StoryKind, are_stories};
use llb_cache::Mode;

pub(crate) const K_SHARED: CacheRow<'static> = ("k", Mode::Shared, None);

pub(crate) const K_PRIVATE: CacheRow<'static> = ("k", Mode::Private, None);

pub(crate) const K_LOCKED: CacheRow<'static> = ("k", Mode::Locked, None);

pub(crate) const K_SEEDED: CacheRow<'static> = ("k", Mode::Locked, Some(0));

const WORKERS: &str = "
    # A worker is idle, runs a vertex with some of its steps done, has finished it, and is idle again.
    @ 1: MAKES_A; D_ON_0; RESULT_1
    > worker 0
    idle
    > worker 1
    none
    > job 0 0
    0 at 0, 0 done
    > worker 0
    runs 0, 0 done, false
    > step 0
    > worker 0
    runs 0, 1 done, true
    > settle 0
    > worker 0
    idle

    # A worker whose action has failed has finished.
    @ 1: MAKES_XA; D_ON_0; RESULT_1
    > claim 0 0
    > step 0
    > worker 0
    runs 0, 1 done, true

    # A worker that merges has finished behind the last input.
    @ 1 on OLD_AND_F: SOURCE_P; SOURCE_Q; MERGES_0_1_EMPTY; RESULT_2
    > claim 0 0
    > step 0
    > settle 0
    > job 0 1
    0 at 1, 0 done
    > step 0
    > settle 0
    > job 0 2
    0 at 2, 0 done
    > step 0
    > step 0
    > worker 0
    runs 2, 2 done, false
    > step 0
    > worker 0
    runs 2, 3 done, true

    # A worker that runs commands has finished behind the last.
    @ 1 on EMPTY_AND_SUB: SOURCE_P; SOURCE_Q; COPIES_BY_A_TMPFS; RESULT_2
    > claim 0 0
    > step 0
    > settle 0
    > claim 0 1
    > step 0
    > settle 0
    > job 0 2
    0 at 2, 0 done
    > step 0
    > step 0
    > worker 0
    runs 2, 2 done, false
    > step 0
    > worker 0
    runs 2, 3 done, true

    # A worker whose command has failed has finished.
    @ 1 on EMPTY_AND_SUB: SOURCE_P; SOURCE_Q; FAILS_AT_1; RESULT_2
    > claim 0 0
    > step 0
    > settle 0
    > claim 0 1
    > step 0
    > settle 0
    > claim 0 2
    > step 0
    > step 0
    > worker 0
    runs 2, 2 done, true

    # What two workers do, each by itself.
    @ 2: MAKES_A; MAKES_B; MERGES_0_1; RESULT_2
    > claim 0 0
    > step 0
    > job 1 1
    1 at 1, 0 done
    > worker 0
    runs 0, 1 done, true
    > worker 1
    runs 1, 0 done, false
    ";

const JOBS: &str = "
    # A locked cache is had by one worker at a time; its first job begins with the seed, and the next with what that one left.
    @ 2: MAKES_A; locked on 0: rm /c/a; locked on 0: write /c/b y; MERGES_1_2; RESULT_3
    > claim 0 0
    > step 0
    > settle 0
    > instance seeded 0
    none
    > job 0 1
    0 at 1, 0 done
    instance 0
    d 0755 0 0 /
    f 0644 0 0 6869 /a
    > job 1 2
    135 k
    > worker 1
    idle
    > leases
    1
    > step 0
    > settle 0
    > leases
    0
    > job 1 2
    1 at 2, 0 done
    instance 0
    d 0755 0 0 /
    > instance locked 0
    none

    # Each new instance of a private cache begins with its seed.
    @ 2: MAKES_A; private on 0: rm /c/a; private on 0: write /c/b y; MERGES_1_2; RESULT_3
    > claim 0 0
    > step 0
    > settle 0
    > job 0 1
    0 at 1, 0 done
    instance 0
    d 0755 0 0 /
    f 0644 0 0 6869 /a
    > step 0
    > job 1 2
    1 at 2, 0 done
    instance 1
    d 0755 0 0 /
    f 0644 0 0 6869 /a

    # One ID in two ways is two caches.
    @ 2: IN_TWO_WAYS; RESULT_0
    > job 0 0
    0 at 0, 0 done
    instance 0
    d 0755 0 0 /
    instance 0
    d 0755 0 0 /
    > leases
    1
    > step 0
    > step 0
    > settle 0
    > instance locked 0
    d 0755 0 0 /
    f 0644 0 0 780a /a
    > instance shared 0
    d 0755 0 0 /
    f 0644 0 0 790a /b
    > instance private 0
    none
    ";

#[test]
fn a_worker_is_told_by_its_vertex_and_its_steps(rt: HostRuntime) {
    are_stories(&rt, rt.alloc(), StoryKind::Calls, WORKERS);
}

#[test]
fn a_job_has_the_instances_of_its_caches(rt: HostRuntime) {
    are_stories(&rt, rt.alloc(), StoryKind::Calls, JOBS);
}
