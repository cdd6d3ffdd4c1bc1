//! The rows for calls on boards. A row has the call; the board, written as in `boards`; the fault with which the call fails if memory is refused; and the
//! result of the call if no memory is refused.

use super::boards::TWO_FILES;
use super::refused_growths::Row;

pub(crate) const ROWS: &[Row] = &[
    ("claim 0 0", TWO_FILES, "141", "0 at 0, the board"),
    (
        "claim 0 0",
        "copy of 2: MAKES_A; MAKES_B; MERGES_0_1; RESULT 2",
        "141",
        "0 at 0, the board",
    ),
    ("claim 0 0", LOCKED, "141", "0 at 0, the board"),
    (
        "claim 0 0",
        "2: private: write /c/a x; RESULT 0",
        "141",
        "0 at 0, the board",
    ),
    ("claim 1 1", LOCKED_ONCE, "141", "135 k"),
    ("claim 1 0", GIVEN_UP, "141", "1 at 0, the board"),
    ("claim 0 2", ON_VIEW, "141", "0 at 2, the board"),
    ("step 0", CLAIMED, "141", "Acted(0), the board"),
    (
        "step 0",
        "copy of 2: MAKES_A; MAKES_B; MERGES_0_1; RESULT 2 after claim 0 0",
        "141",
        "Acted(0), the board",
    ),
    ("step 0", MERGING, "141", "Merged(1), the board"),
    ("step 0", VIEW_CLAIMED, "141", "Ran(0, 0), the board"),
    (
        "step 0",
        COPY_OF_VIEW_CLAIMED,
        "141",
        "Ran(0, 0), the board",
    ),
    ("step 0", VIEW_TWICE, "141", "Ran(2, 0), the board"),
    ("step 0", LOCKED_ONCE, "141", "Ran(0, 0), the board"),
    (
        "step 0",
        "2: locked: write /c/a x && false; RESULT 0 after claim 0 0; step 0",
        "141",
        "Ran(1, 1), the board",
    ),
    ("step 1", SHARED_TWICE, "141", "Ran(0, 0), the board"),
    ("step 0", SKIPS, "", "Skipped(1), the board"),
    ("Board::copy", LOCKED_ONCE, "141", "the board"),
    ("Events::copy", LOCKED_ONCE, "141", "the events"),
    ("Board::worked_on", LOCKED_ONCE, "", "a tree"),
    ("Board::cached", LOCKED_ONCE, "", "a tree"),
    ("Board::cached", TWO_FILES, "", "nothing"),
    ("work 0", TWO_FILES, "142", "1 done, false"),
    ("work 0", LOCKED, "142", "1 done, false"),
    ("work 2", ON_VIEW, "142", "3 done, false"),
    (
        "work 0",
        "2: locked: write /c/a x && false; RESULT 0",
        "142",
        "2 done, true",
    ),
    (
        "work 0",
        "2: sh: write /x a || false && write /y b; RESULT 0",
        "142",
        "3 done, false",
    ),
];

const LOCKED: &str = "2: locked: write /c/a x; locked: write /c/b y; MERGES_0_1; RESULT 2";

const LOCKED_ONCE: &str =
    "2: locked: write /c/a x; locked: write /c/b y; MERGES_0_1; RESULT 2 after claim 0 0";

const GIVEN_UP: &str =
    "2: locked: append /c/l a && append /c/l b; RESULT 0 after claim 0 0; step 0; cancel 0";

const SHARED_TWICE: &str =
    "2: shared: append /c/l a; shared: append /c/l c; MERGES_0_1; RESULT 2 after claim 0 0; claim 1 1; step 0";

const CLAIMED: &str = "2: MAKES_A; MAKES_B; MERGES_0_1; RESULT 2 after claim 0 0";

const MERGING: &str = "2: MAKES_A; MAKES_B; MERGES_0_1; RESULT 2 after \
    claim 0 0; step 0; settle 0; claim 0 1; step 0; settle 0; claim 0 2; step 0";

const ON_VIEW: &str = "2: SOURCE_P; SOURCE_Q; COPIES_BY_A_TMPFS; RESULT 2 on p=EMPTY q=SUB after \
    claim 0 0; step 0; settle 0; claim 0 1; step 0; settle 0";

const VIEW_CLAIMED: &str =
    "2: SOURCE_P; SOURCE_Q; COPIES_BY_A_TMPFS; RESULT 2 on p=EMPTY q=SUB after \
    claim 0 0; step 0; settle 0; claim 0 1; step 0; settle 0; claim 0 2";

const COPY_OF_VIEW_CLAIMED: &str =
    "copy of 2: SOURCE_P; SOURCE_Q; COPIES_BY_A_TMPFS; RESULT 2 on p=EMPTY q=SUB after \
    claim 0 0; step 0; settle 0; claim 0 1; step 0; settle 0; claim 0 2";

const VIEW_TWICE: &str =
    "2: SOURCE_P; SOURCE_Q; COPIES_BY_A_TMPFS; RESULT 2 on p=EMPTY q=SUB after \
    claim 0 0; step 0; settle 0; claim 0 1; step 0; settle 0; claim 0 2; step 0; step 0";

const SKIPS: &str = "2: sh: write /x a || write /y b; RESULT 0 after claim 0 0; step 0";
