//! This crate has only tests. A test makes the same call again and again, and each time another growth (another request for memory) of the call fails. A
//! library, which `dev/dev refuse` loads into the tests, makes growths fail. Without the library each test makes each call once, and no growth fails. In the
//! tests of `sessions` every growth of a call fails.
#![tactic(auto)]

#[cfg(test)]
mod actions;
#[cfg(test)]
mod aims;
#[cfg(test)]
mod board_rows;
#[cfg(test)]
mod boards;
#[cfg(test)]
mod caches;
#[cfg(test)]
mod command_lines;
#[cfg(test)]
mod graphs;
#[cfg(test)]
mod ops;
#[cfg(test)]
mod programs;
#[cfg(test)]
mod refused_growths;
#[cfg(test)]
mod runs;
#[cfg(test)]
mod scripts;
#[cfg(test)]
mod sessions;
#[cfg(test)]
mod steppers;
#[cfg(test)]
mod texts;
#[cfg(test)]
mod trees;
#[cfg(test)]
mod value_texts;
#[cfg(test)]
mod values_from_texts;
#[cfg(test)]
mod wire;
