//! The entries of the definitions in tests. Above each entry is a line with `== `, the entry's name and a description. The entry is written as the
//! assembler's text, in which ` | ` replaces some line ends. `%0`, `%1` and `%2` are the digests of the first three entries of the definition in which the
//! entry is used: `MERGES_0_1` merges the first two entries, whatever they are. A digest of one letter is the digest of a row in tests of `link`.

pub(crate) const ENTRIES: &str = r#"
== MAKES_A: a file `/a` with the content `hi` on nothing
op { | file { | actions { | input -1 | mkfile { | path "/a" | mode 420 | data 6869 | } | } | } | }
== MAKES_B: a file `/b` with the content `ho` on nothing
op { | file { | actions { | input -1 | mkfile { | path "/b" | mode 420 | data 686f | } | } | } | }
== MAKES_Z: a file `/z` with the content `hi` on nothing
op { | file { | actions { | input -1 | mkfile { | path "/z" | mode 420 | data 6869 | } | } | } | }
== MAKES_XA: a file `/x/a`, whose directory is missing
op { | file { | actions { | input -1 | mkfile { | path "/x/a" | mode 420 | data 6869 | } | } | } | }
== MAKES_P: a file `/p` with the content `2`
op { | file { | actions { | input -1 | mkfile { | path "/p" | mode 420 | data 32 | } | } | } | }
== MAKES_PQ: a directory `/p`, and in it a file `/p/q` with the content `1`
op { | file {
actions { | input -1 | output -1 | mkdir { | path "/p" | mode 493 | } | }
actions { | mkfile { | path "/p/q" | mode 420 | data 31 | } | }
} | }
== MAKES_PR: a directory `/p`, and in it a file `/p/r` with the content `3`
op { | file {
actions { | input -1 | output -1 | mkdir { | path "/p" | mode 493 | } | }
actions { | mkfile { | path "/p/r" | mode 420 | data 33 | } | }
} | }
== D_ON_0: a directory `/d` on what the first entry gives
op { | inputs { | digest %0 | } | file { | actions { | mkdir { | path "/d" | mode 493 | } | } | } | }
== D_ON_1_OF_0_1: a directory `/d` on what the second entry gives; the first is an input that is not looked at
op { | inputs { | digest %0 | } | inputs { | digest %1 | }
file { | actions { | input 1 | mkdir { | path "/d" | mode 493 | } | } | } | }
== D_ON_A: a directory `/d` on what the row A gives
op { | inputs { | digest "A" | } | file { | actions { | mkdir { | path "/d" | mode 493 | } | } | } | }
== D_ON_C: a directory `/d` on what the row C gives
op { | inputs { | digest "C" | } | file { | actions { | mkdir { | path "/d" | mode 493 | } | } | } | }
== D_ON_T: a directory `/d` on what the row T gives
op { | inputs { | digest "T" | } | file { | actions { | mkdir { | path "/d" | mode 493 | } | } | } | }
== CHANGES_0_BY_1: on the first entry: a directory `/d`, in it a copy of the file `/f` of the second, and `/old` goes
op { | inputs { | digest %0 | } | inputs { | digest %1 | } | file {
actions { | output -1 | mkdir { | path "/d" | mode 493 | } | }
actions { | input 2 | secondaryInput 1 | output -1 | copy { | src "/f" | dest "/d/" | mode -1 | } | }
actions { | input 3 | rm { | path "/old" | } | }
} | }
== MERGES_0_1: what the second entry gives, laid over what the first does
op { | inputs { | digest %0 | } | inputs { | digest %1 | } | merge { | inputs { | } | inputs { | input 1 | } | } | }
== MERGES_1_2: the same of the third and the second entry
op { | inputs { | digest %1 | } | inputs { | digest %2 | } | merge { | inputs { | } | inputs { | input 1 | } | } | }
== MERGES_0_1_2: the first three entries laid over one another
op { | inputs { | digest %0 | } | inputs { | digest %1 | } | inputs { | digest %2 | }
merge { | inputs { | } | inputs { | input 1 | } | inputs { | input 2 | } | } | }
== MERGES_0_1_EMPTY: the first entry, then the second, then the empty tree, laid over each other
op { | inputs { | digest %0 | } | inputs { | digest %1 | }
merge { | inputs { | } | inputs { | input 1 | } | inputs { | input -1 | } | } | }
== ON_A: a merge of what the row A gives
op { | inputs { | digest "A" | } | merge { | inputs { | } | } | }
== ON_B: a merge of what the row B gives
op { | inputs { | digest "B" | } | merge { | inputs { | } | } | }
== ON_C: a merge of what the row C gives
op { | inputs { | digest "C" | } | merge { | inputs { | } | } | }
== SOURCE_P: the local source `p`
op { | source { | identifier "local://p" | } | }
== SOURCE_Q: the local source `q`
op { | source { | identifier "local://q" | } | }
== NAMES_A: the terminal on what the row A gives
op { | inputs { | digest "A" | } | }
== NAMES_B: the terminal on what the row B gives
op { | inputs { | digest "B" | } | }
== NAMES_INDEX_ONE_OF_ROW_A: a terminal on an output that the row A has not
op { | inputs { | digest "A" | index 1 | } | }
== DIFF: an op that is refused where it is reached
op { | diff - | }
== FIELD_ZERO: bytes whose first field has the number 0
raw 00
== SCRIPT_ON_A: a script on what the row A gives
op { | inputs { | digest "A" | } | exec {
meta { | args "/bin/sh" | args "-c" | args "write /b x && true" | cwd "/" | } | mounts { | dest "/" | }
} | }
== COPIES_BY_A_TMPFS: three commands on the first entry at `/`, a tmpfs at `/t`, and `/sub` of the second at `/t/in`; outputs are the first mount and the last
op { | inputs { | digest %0 | } | inputs { | digest %1 | } | exec {
meta { | args "/bin/sh" | args "-c" | args "cp /t/in/f /t/x && cp /t/x /y && write /t/in/g k" | cwd "/" | }
mounts { | dest "/" | }
mounts { | dest "/t" | output -1 | mountType 4 | }
mounts { | input 1 | selector "/sub" | dest "/t/in" | output 1 | }
} | }
== FAILS_AT_1: a command on the first entry that is done, one that ends with status 1, and one after it; the second entry is not looked at
op { | inputs { | digest %0 | } | inputs { | digest %1 | } | exec {
meta { | args "/bin/sh" | args "-c" | args "write /x k && false && write /y k" | cwd "/" | } | mounts { | dest "/" | }
} | }
== ENDS_IN_SUB: on the first entry at `/`, which is output 1, and the second at `/in`, which is output 0: two commands in `/in/sub`, with `A=1`
op { | inputs { | digest %0 | } | inputs { | digest %1 | } | exec {
meta { | args "/bin/sh" | args "-c" | args "write g k && envfile e" | env "A=1" | cwd "/in/sub" | }
mounts { | dest "/" | output 1 | }
mounts { | input 1 | dest "/in" | }
} | }
== IN_TWO_WAYS: one ID in two ways: locked at `/c`, and shared at `/e`
op { | exec { | meta { | args "/bin/sh" | args "-c" | args "write /c/a x && write /e/b y" | cwd "/" | }
mounts { | input -1 | dest "/" | }
mounts { | input -1 | dest "/c" | output -1 | mountType 3 | cacheOpt { | ID "k" | sharing 2 | } | }
mounts { | input -1 | dest "/e" | output -1 | mountType 3 | cacheOpt { | ID "k" | } | }
} | }
== LOCKS: `true` on the empty tree, with a locked cache
op { | exec { | meta { | args "true" | } | mounts { | input -1 | dest "/" | }
mounts { | input -1 | dest "/d" | output -1 | mountType 3 | cacheOpt { | ID "a" | sharing 2 | } | }
} | }
== LOCKS_ON_B: `true` on the empty tree, with the same cache, and the row B as an input
op { | inputs { | digest "B" | } | exec { | meta { | args "true" | } | mounts { | input -1 | dest "/" | }
mounts { | input -1 | dest "/c" | output -1 | mountType 3 | cacheOpt { | ID "a" | sharing 2 | } | }
} | }
== LOCKS_TWICE: `true` on the empty tree, with one locked cache at two places
op { | exec { | meta { | args "true" | } | mounts { | input -1 | dest "/" | }
mounts { | input -1 | dest "/c" | output -1 | mountType 3 | cacheOpt { | ID "a" | sharing 2 | } | }
mounts { | input -1 | dest "/d" | output -1 | mountType 3 | cacheOpt { | ID "a" | sharing 2 | } | }
} | }
== LOCKS_TWICE_ON_B: the same, and the row B as an input
op { | inputs { | digest "B" | } | exec { | meta { | args "true" | } | mounts { | input -1 | dest "/" | }
mounts { | input -1 | dest "/c" | output -1 | mountType 3 | cacheOpt { | ID "a" | sharing 2 | } | }
mounts { | input -1 | dest "/d" | output -1 | mountType 3 | cacheOpt { | ID "a" | sharing 2 | } | }
} | }
== SEEDS_FROM_B: `true` on what the row B gives, with a locked cache that begins with it
op { | inputs { | digest "B" | } | exec { | meta { | args "true" | } | mounts { | dest "/" | }
mounts { | dest "/c" | output -1 | mountType 3 | cacheOpt { | ID "a" | sharing 2 | } | }
} | }
== MOUNTS_BARE: `true` on the empty tree, with a cache that has no options
op { | exec { | meta { | args "true" | } | mounts { | input -1 | dest "/" | }
mounts { | input -1 | dest "/c" | output -1 | mountType 3 | }
} | }
"#;
