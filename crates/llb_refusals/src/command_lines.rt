//! The words of a command line, and bytes that are read up to a bound, while memory is refused.

use super::refused_growths::{Row, Trial, are_refused};
use super::value_texts::printed_text;
use llb_commands::{ReadFault, WordsFault, command_of, read_bounded};
use std::alloc::Global;
use std::process::Abort;

// Which words of a command line, or which bytes, the call reads; and the result of the latest call in words.
#[derive(Drop)]
struct OnWords {
    call: &'static str,
    came: &'static str,
}

const NO_WORDS: [&str; 0] = [];

fn printed_words(alloc: Global, words: &[&str]) -> &'static str {
    match command_of(alloc, words) {
        Ok(_) => "granted",
        Err(WordsFault::Memory) => "184",
        Err(WordsFault::Words(_)) => "183",
    }
}

fn printed_read(alloc: Global) -> &'static str {
    let mut input = b"hello".as_slice();
    match read_bounded(alloc, &mut input, 5, 10) {
        Ok(bytes) if bytes.as_slice() == b"hello".as_slice() => "granted",
        Err(ReadFault::Memory) => "memory",
        _ => "another answer",
    }
}

impl Trial for OnWords {
    fn ready(_rt: &impl Abort, _alloc: Global, row: &Row) -> OnWords {
        OnWords {
            call: row.1,
            came: "nothing",
        }
    }

    fn call(&mut self, alloc: Global) {
        self.came = match self.call {
            "hello" => printed_read(alloc),
            "no words" => printed_words(alloc, &NO_WORDS),
            "show" => printed_words(alloc, &["show"]),
            "show --findings" => printed_words(alloc, &["show", "--findings"]),
            "show --matches a" => printed_words(alloc, &["show", "--matches", "a"]),
            "show --agrees a --older p=b" => printed_words(
                alloc,
                &["show", "--agrees", "a", "--older", "p=b"],
            ),
            "show x" => printed_words(alloc, &["show", "x"]),
            _ => printed_words(alloc, &["run", "--workers", "3", "p=a"]),
        };
    }

    fn printed(&self, rt: &impl Abort, alloc: Global) -> String {
        printed_text(rt, alloc, self.came)
    }

    fn is_as_before(&mut self, _rt: &impl Abort, _alloc: Global) -> bool {
        true
    }
}

const WORDS: &[Row] = &[
    ("read_bounded", "hello", "memory", "granted"),
    ("command_of", "no words", "184", "granted"),
    ("command_of", "show", "184", "granted"),
    ("command_of", "show --findings", "184", "granted"),
    ("command_of", "show --matches a", "184", "granted"),
    (
        "command_of",
        "show --agrees a --older p=b",
        "184",
        "granted",
    ),
    ("command_of", "show x", "184", "183"),
    ("command_of", "run --workers 3 p=a", "184", "granted"),
];

#[test]
fn are_read(rt: HostRuntime) {
    are_refused::<OnWords>(&rt, rt.alloc(), WORDS);
}
