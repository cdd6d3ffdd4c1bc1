//! Tests leases of caches by transcripts (module `leases`), and compares caches with copies of caches.

use super::lease_transcripts::{is_copy, transcript};
use super::library_transcripts::is_story_of;
use super::tree_rows::row_holds;

const STORIES: &str = "
    # A held key refuses all needs.
    > new
    > lease b locked -
    0:0
    > lease a locked -, b locked -
    111 b
    > count a locked -
    0/1
    > lease a locked -
    1:0
    > count a locked -
    1/2 -

    # The first held key in the order of the needs is named.
    > new
    > lease b locked -
    0:0
    > lease a locked -
    1:0
    > lease p private 0 f, a locked -, b locked -
    111 a
    > lease b locked -, s shared -, a locked -
    111 b
    > count p private 0 f
    0/2

    # A private key gives the least free instance.
    > new
    > lease p private 0 f
    0:0
    > see 0 0
    f
    > set 0 0
    > see 0 0
    -
    > lease p private 0 f
    1:1
    > see 1 0
    f
    > back 0
    > lease p private 0 f
    0:0
    > see 2 0
    -
    > count p private 0 f
    2/2 - f

    # A locked key is free once its lease is given back.
    > new
    > lease a locked -
    0:0
    > set 0 0 g
    > lease a locked -
    111 a
    > back 0
    > lease a locked - h
    0:0
    > see 1 0
    g

    # A shared instance is seen by all leases.
    > new
    > lease s shared -
    0:0
    > lease s shared -, p private 0 f
    1:00
    > set 0 0 g
    > see 1 0
    g
    > see 1 1
    f
    > set 1 1 h
    > see 0 0
    g
    > see 1 1
    h

    # One id in two modes or with two seeds is two keys.
    > new
    > lease a locked -, a shared - g
    0:00
    > lease a locked 0 h, a locked 1 i
    1:00
    > see 0 1
    g
    > see 1 1
    i
    > lease a locked -, a locked -
    twice
    > lease a locked 1
    111 a

    # A lease takes the least free number.
    > new
    > lease p private 0 f
    0:0
    > lease p private 0 f, s shared -
    1:10
    > lease
    2:
    > back 1
    > count p private 0 f
    2/2 f f
    > lease s shared -
    1:0
    > back 0
    > back 2
    > lease p private 0 f
    0:0
    > lease p private 0 f
    2:1
    > count s shared -
    1/3 -

    # What a lease would have is told before.
    > new
    > next a locked -
    0
    > lease a locked -, p private 0 f, s shared -
    0:000
    > next a locked -
    shut
    > next p private 0 f
    1
    > next s shared -
    0
    > next a locked 0
    0
    > lease p private 0 f
    1:1
    > back 0
    > next a locked -
    0
    > next p private 0 f
    0
    ";

#[test]
fn leases_exclude_one_another(rt: HostRuntime) {
    is_story_of(&rt, transcript(&rt, rt.alloc(), STORIES).as_str(), STORIES);
}

const FOUND: &str = "
    # A key that has no row.
    > new
    > look - a locked -
    - free 0
    > look 3 p private 0 f
    - free 0
    > grow a locked -
    a row

    # The row that is tried first changes nothing.
    > lease b locked -, a locked - g, p private 0 f
    0:000
    > look - b locked -
    0 held 0 -
    > look 0 b locked -
    0 held 0 -
    > look 0 a locked -
    1 held 0 g
    > look 1 a locked -
    1 held 0 g
    > look 7 p private 0 f
    2 free 1
    > look 2 s shared -
    - free 0
    > grow a locked -
    nothing
    > grow p private 0 f
    an instance
    > grow s shared -
    a row

    # A lease that tries a row first is the lease.
    > near 0 a locked -
    111 a
    > near 2 p private 0 f, s shared - h
    1:10
    > look 3 s shared -
    3 free 0 h
    > look 2 p private 0 f
    2 free 2
    > near 0 s shared -, s shared -
    twice
    > back 0
    > look 1 a locked -
    1 free 0 g
    > look 2 p private 0 f
    2 free 0 f
    > near 9 b locked -, a locked -
    0:00
    > count a locked -
    1/2 g
    ";

#[test]
fn a_key_is_found_whichever_row_is_tried_first(rt: HostRuntime) {
    is_story_of(&rt, transcript(&rt, rt.alloc(), FOUND).as_str(), FOUND);
}

const LEASED: &str = "lease a locked -, p private 0 f\nlease s shared -";

const SET: &str = "lease a locked -, p private 0 f\nlease s shared -\nset 0 1 g";

const BACK: &str = "lease a locked -, p private 0 f\nlease s shared -\nset 0 1 g\nback 1";

// The calls that change the caches after they were copied: one call for each of `LEASED`, `SET` and `BACK`.
const MORE: [&str; 3] = ["set 0 1 h", "back 0", "lease s shared -"];

#[test]
fn a_copy_is_what_the_caches_were(rt: HostRuntime) {
    let calls = [LEASED, SET, BACK];
    for (i, (one, more)) in calls.iter().zip(MORE).enumerate() {
        for (j, other) in calls.iter().enumerate() {
            let same = is_copy(&rt, rt.alloc(), one, more, other);
            row_holds(&rt, i, same == (i == j));
        }
    }
}
