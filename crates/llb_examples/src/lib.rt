//! This crate has only tests: of calls of the libraries, and of whole runs on boards and by workers. What shows in the program's output is not tested here,
//! but by the transcripts of the repository's folder `tests`. The expected values are written by hand from the rules.
#![tactic(auto)]

#[cfg(test)]
mod board_calls;
#[cfg(test)]
mod board_definitions;
#[cfg(test)]
mod boards_from_texts;
#[cfg(test)]
mod cache_instances;
#[cfg(test)]
mod cache_keys;
#[cfg(test)]
#[cfg(test)]
mod cache_leases;
#[cfg(test)]
mod calling_page;
#[cfg(test)]
mod conversations;
#[cfg(test)]
mod copies;
#[cfg(test)]
mod equal_boards;
#[cfg(test)]
mod faults;
#[cfg(test)]
mod fileop;
#[cfg(test)]
mod gates;
#[cfg(test)]
mod glob;
#[cfg(test)]
mod idle_crowds;
#[cfg(test)]
mod kept_outputs;
#[cfg(test)]
mod landings;
#[cfg(test)]
mod lease_transcripts;
#[cfg(test)]
mod library_transcripts;
#[cfg(test)]
mod loader;
#[cfg(test)]
mod longest_chain;
#[cfg(test)]
mod many_files;
#[cfg(test)]
mod many_threads;
#[cfg(test)]
mod merge;
#[cfg(test)]
mod mount;
#[cfg(test)]
mod mount_types;
#[cfg(test)]
mod nodes;
#[cfg(test)]
mod openings;
#[cfg(test)]
mod ops;
#[cfg(test)]
mod orders_of_two_workers;
#[cfg(test)]
mod overlay;
#[cfg(test)]
mod plain_outcomes;
#[cfg(test)]
mod queue;
#[cfg(test)]
mod running_boards;
#[cfg(test)]
mod runs_taken_back;
#[cfg(test)]
mod shared_nodes;
#[cfg(test)]
mod stories;
#[cfg(test)]
mod thread_records;
#[cfg(test)]
mod tokens;
#[cfg(test)]
mod tree;
#[cfg(test)]
mod tree_calls;
#[cfg(test)]
mod tree_rows;
#[cfg(test)]
mod treetext;
#[cfg(test)]
mod two_definitions;
#[cfg(test)]
mod two_threads;
#[cfg(test)]
mod wire;
#[cfg(test)]
mod worker_stories;
