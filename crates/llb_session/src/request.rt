//! What a line of a session asks for.

ghost use Rattle.std.specs.Prelude.{◌≡◌, option_map};
ghost use Rattle.llb_session.specs.Request.{parted, number_in, pair_in, alone, break_in, break_at, word_with_rest, command_in};
ghost use Rattle.llb_session.specs.Request.{look_alone, work_in, look_with_rest, look_in, asked_in, request_in};

use llb_board::Event;
use llb_stepper::Break;
use llb_wire::magnitude;
use std::str::from_utf8;

/// Whether the looks are requests of a session.
#[derive(Clone, Copy, Debug, PartialEq, Eq)]
pub enum Looks {
    /// They are not: the session refuses the line of a look with 173.
    Refused,
    /// They are.
    Allowed,
}

/// What a look shows: the trees that a worker works on, the caches, or the graph.
#[derive(Clone, Copy, Debug, PartialEq, Eq)]
pub enum Look {
    /// Prints a line for each tree that worker `w` works on, for `Work(w)`.
    Work(u32),
    /// Prints as text tree `i`, counted from 0, of the trees that worker `w` works on, for `WorkTree(w, i)`.
    WorkTree(u32, u32),
    /// Prints a line for each key of the caches.
    Caches,
    /// Prints as text the tree of instance `i` of the cache key with the number `k`, for `Cache(k, i)`.
    Cache(u32, u32),
    /// Prints why command `k` of the exec, or action `k` of the file op, that worker `w` runs fails on the trees that the worker works on now.
    Why(u32, u32),
    /// Prints the text of the graph, as `llbm show` does.
    Graph,
    /// Prints a line for each vertex, by number, with the digest of its entry.
    Digests,
}

/// What a line of a session asks for.
#[derive(Clone, Copy, Debug, PartialEq, Eq)]
pub enum Request {
    /// Adds a breakpoint.
    Break(Break),
    /// Removes all breakpoints.
    Clear,
    /// Does an event.
    Event(Event),
    /// Does the chosen event (the event that `Stepper::next` returns).
    Next,
    /// Does events one after another, each of which `Stepper::next` returns, until an event meets a breakpoint or there is no further event.
    Go,
    /// Takes the last event back.
    Back,
    /// Prints the statuses of the vertices.
    Status,
    /// Prints as text output `i` of vertex `v`, for `Tree(v, i)`.
    Tree(u32, u32),
    /// Prints what a look shows.
    Look(Look),
    /// Ends the session.
    Quit,
}

// Returns the number below 2^32 that a text spells in decimal digits; `None` for any other text.
fn number(text: &str) -> Option<u32>
    ensures { result ≡ number_in text.now }
{
    let number = magnitude(text.as_bytes())?;
    if number < 1 << 32 {
        Some(number as u32)
    } else {
        None
    }
}

// Returns the two numbers that a text spells with a space between them; `None` for any other text.
fn pair(text: &str) -> Option<(u32, u32)>
    ensures { result ≡ pair_in text.now }
{
    let (first, second) = text.split_once(' ')?;
    let (first, second) = (number(first)?, number(second)?);
    Some((first, second))
}

// Returns the command that a line of one word spells.
fn alone(word: &str) -> Option<Request>
    ensures { result ≡ alone word.now }
{
    if word == "clear" {
        Some(Request::Clear)
    } else if word == "next" {
        Some(Request::Next)
    } else if word == "go" {
        Some(Request::Go)
    } else if word == "back" {
        Some(Request::Back)
    } else if word == "status" {
        Some(Request::Status)
    } else if word == "quit" {
        Some(Request::Quit)
    } else {
        None
    }
}

// Returns the command of a line `break claim V` or `break settle V`, given its second word and the text after that word.
fn break_at(word: &str, rest: &str) -> Option<Request>
    ensures { result ≡ break_at word.now rest.now }
{
    if word == "claim" {
        let v = number(rest)?;
        Some(Request::Break(Break::Claims(v)))
    } else if word == "settle" {
        let v = number(rest)?;
        Some(Request::Break(Break::Settles(v)))
    } else {
        None
    }
}

// Returns the command of a line `break ..`, given the text after `break`.
fn break_in(rest: &str) -> Option<Request>
    ensures { result ≡ break_in rest.now }
{
    if rest == "fail" {
        return Some(Request::Break(Break::Fails));
    }
    let (word, number) = rest.split_once(' ')?;
    break_at(word, number)
}

// Returns the command that a line of two or more words spells, given its first word and the text after this word.
fn word_with_rest(word: &str, rest: &str) -> Option<Request>
    ensures { result ≡ word_with_rest word.now rest.now }
{
    if word == "break" {
        break_in(rest)
    } else if word == "claim" {
        let (w, v) = pair(rest)?;
        Some(Request::Event(Event::Claim(w, v)))
    } else if word == "step" {
        let w = number(rest)?;
        Some(Request::Event(Event::Step(w)))
    } else if word == "settle" {
        let w = number(rest)?;
        Some(Request::Event(Event::Settle(w)))
    } else if word == "cancel" {
        let w = number(rest)?;
        Some(Request::Event(Event::Cancel(w)))
    } else if word == "tree" {
        let (v, i) = pair(rest)?;
        Some(Request::Tree(v, i))
    } else {
        None
    }
}

// Returns the command that a text spells.
fn command_in(line: &str) -> Option<Request>
    ensures { result ≡ command_in line.now }
{
    match line.split_once(' ') {
        None => alone(line),
        Some((word, rest)) => word_with_rest(word, rest),
    }
}

// Returns the look that a line of one word asks for.
fn look_alone(word: &str) -> Option<Look>
    ensures { result ≡ look_alone word.now }
{
    if word == "caches" {
        Some(Look::Caches)
    } else if word == "graph" {
        Some(Look::Graph)
    } else if word == "digests" {
        Some(Look::Digests)
    } else {
        None
    }
}

// Returns the look of a line `work ..`, given the text after `work`: the number of a worker, or the numbers of a worker and a tree.
fn work_in(rest: &str) -> Option<Look>
    ensures { result ≡ work_in rest.now }
{
    if let Some(w) = number(rest) {
        return Some(Look::Work(w));
    }
    let (w, i) = pair(rest)?;
    Some(Look::WorkTree(w, i))
}

// Returns the look that a line of two or more words asks for, given its first word and the text after this word.
fn look_with_rest(word: &str, rest: &str) -> Option<Look>
    ensures { result ≡ look_with_rest word.now rest.now }
{
    if word == "work" {
        work_in(rest)
    } else if word == "cache" {
        let (k, i) = pair(rest)?;
        Some(Look::Cache(k, i))
    } else if word == "why" {
        let (w, k) = pair(rest)?;
        Some(Look::Why(w, k))
    } else {
        None
    }
}

// Returns the look that a text spells.
fn look_in(line: &str) -> Option<Look>
    ensures { result ≡ look_in line.now }
{
    match line.split_once(' ') {
        None => look_alone(line),
        Some((word, rest)) => look_with_rest(word, rest),
    }
}

// Returns what a text asks for.
fn asked(looks: Looks, line: &str) -> Option<Request>
    ensures { result ≡ asked_in looks line.now }
{
    if let Some(request) = command_in(line) {
        return Some(request);
    }
    match looks {
        Looks::Refused => None,
        Looks::Allowed => look_in(line).map(Request::Look),
    }
}

/// Returns what a line without its end asks for; `None` if the line is no request, for example if it is empty or not UTF-8, or if it is a look and looks are
/// refused. Words are separated by exactly one space, and numbers are decimal digits below 2^32. Does not allocate.
pub fn request_in(looks: Looks, line: &[u8]) -> Option<Request>
    ensures { result ≡ request_in looks line.now }
{
    match from_utf8(line) {
        Ok(line) => asked(looks, line),
        Err(_) => None,
    }
}
