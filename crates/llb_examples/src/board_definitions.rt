//! Definitions, in short form (`llb_samples`), of the boards that several tests run.

pub(crate) const ONE_FILE: &str = "MAKES_A; RESULT_0";

pub(crate) const IN_A_ROW: &str = "MAKES_A; D_ON_0; RESULT_1";

pub(crate) const FAILS_FIRST: &str = "MAKES_XA; D_ON_0; RESULT_1";

pub(crate) const TWO_FILES: &str = "MAKES_A; MAKES_B; MERGES_0_1; RESULT_2";

pub(crate) const D_ON_SECOND: &str = "MAKES_A; MAKES_B; D_ON_1_OF_0_1; RESULT_2";

pub(crate) const WRITES_AND_FAILS: &str = "locked: write /c/a x && false; RESULT_0";
