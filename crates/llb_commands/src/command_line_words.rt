//! What the words of the command line ask for, or why they are refused.

ghost use Rattle.std.specs.Prelude.{◌≡◌, Some};
ghost use Rattle.llb_commands.specs.CommandLine.{words_status, words_text, TellsWords};
ghost use Rattle.llb_commands.specs.HelpPages.{TellsWithPage};

use llb_session::Looks;
use llb_wire::Many;
use std::alloc::{AllocError, AllocFailed};
use std::fmt;
use std::io::Write;

/// The command that the program is to do.
#[derive(Clone, Copy, Debug, PartialEq, Eq)]
pub enum Command {
    /// Runs a definition and prints the tree of its result.
    Run,
    /// Prints the graph of a definition.
    Show,
    /// Steps through the run of a definition.
    Step,
    /// Writes the definition of the entries in a text.
    Assemble,
    /// Writes the entries of a definition as text.
    Disassemble,
}

/// What `show` prints of a definition.
#[derive(Clone, Copy, Debug, PartialEq, Eq)]
pub enum Shows {
    /// The text of its graph.
    Graph,
    /// A line for each of its faults.
    Findings,
    /// For each vertex whether what it reads goes by value.
    Plan,
    /// For each vertex which vertex of an older definition it matches.
    Matches,
    /// The ops of its entries.
    Ops,
    /// For each vertex whether it reads the same of local sources that have a newer tree.
    Agrees,
    /// The words ask for more than one of these, or for one that has no use for trees of local sources, or lacks them; they are refused.
    Several,
}

/// A local source: the name of the source, and the file with the text of its tree.
#[derive(Clone, Copy, Debug)]
pub struct Local<'a> {
    pub name: &'a str,
    pub file: &'a str,
}

/// What the words of a command line ask for.
#[derive(Debug, Drop)]
pub struct Line<'a> {
    pub command: Command,
    /// The number of workers; if none is given, 2 for a session, and 1 for every other command.
    pub workers: u32,
    /// Whether a session answers looks; refused for every other command.
    pub looks: Looks,
    /// Whether an empty line ends each reply of a session; false for every other command.
    pub ends: bool,
    /// What `show` prints; the text of the graph for every other command.
    pub shows: Shows,
    /// The file of the definition for `step`; that of the older definition or of the newer tree for `show`, if the words name one.
    pub file: Option<&'a str>,
    /// The local sources, in the order of the words.
    pub locals: Many<Local<'a>>,
}

/// Why the words of a command line are refused. A fault prints what follows the word `fault` in its line.
#[derive(Clone, Copy, Debug)]
pub enum WordsFault<'a> {
    /// 183: the words are refused; if a word follows, it should be `NAME=FILE`, but has no `=`.
    Words(Option<&'a str>),
    /// 184: memory was refused while the words were read.
    Memory,
}

impl fmt::Display for WordsFault<'_> {
    ghost output = { λ e. Some (words_text e) };

    fn fmt<W: fmt::Write>(&self, f: &mut fmt::Formatter<W>) -> fmt::Result {
        match self {
            WordsFault::Words(Some(word)) => write!(f, "183 {word}"),
            WordsFault::Words(None) => write!(f, "183"),
            WordsFault::Memory => write!(f, "184"),
        }
    }
}

impl From<AllocError> for WordsFault<'_> {
    ghost use Rattle.std.specs.Prelude.{◌≡◌};
    ghost use Rattle.llb_commands.specs.declared.command_line_words.WordsFault.TheVariants.{Memory};

    ghost from_gives = { λ _ e. e ≡ Memory };

    fn from(_: AllocError) -> Self {
        WordsFault::Memory
    }
}

impl<T: Drop> From<AllocFailed<T>> for WordsFault<'_> {
    ghost use Rattle.std.specs.Prelude.{◌≡◌};
    ghost use Rattle.llb_commands.specs.declared.command_line_words.WordsFault.TheVariants.{Memory};

    ghost from_gives = { λ _ e. e ≡ Memory };

    fn from(_: AllocFailed<T>) -> Self {
        WordsFault::Memory
    }
}

impl WordsFault<'_> {
    // Returns the status with which the program ends, once the fault's line is written: 2 for refused words, 3 for refused
    // memory.
    fn status(&self) -> u8
        ensures { result ≡ words_status self.now }
    {
        match self {
            WordsFault::Words(_) => 2,
            WordsFault::Memory => 3,
        }
    }
}

/// Writes the line for refused words, and returns the exit status for their fault; 3 if the line can't be written.
pub fn words_refusal<E: Write>(fault: &WordsFault<'_>, err: &mut E) -> u8
    ensures { TellsWords (E.contents err.old) (E.contents err.new) fault.now result }
{
    if writeln!(err, "fault {fault}").is_err() {
        return 3;
    }
    fault.status()
}

/// The refusal of words: the fault, and the page that the words ask for, which is empty if they ask for none.
#[derive(Clone, Copy, Debug)]
pub(crate) struct Refusal<'a> {
    pub(crate) fault: WordsFault<'a>,
    pub(crate) page: &'static str,
}

impl<'a> From<WordsFault<'a>> for Refusal<'a> {
    ghost use Rattle.std.specs.Prelude.{◌≡◌, []};

    ghost from_gives = { λ fault e. (e.fault ≡ fault) × (e.page.now ≡ []) };

    fn from(fault: WordsFault<'a>) -> Self {
        Refusal { fault, page: "" }
    }
}

impl From<AllocError> for Refusal<'_> {
    ghost use Rattle.std.specs.Prelude.{◌≡◌, []};
    ghost use Rattle.llb_commands.specs.declared.command_line_words.WordsFault.TheVariants.{Memory};

    ghost from_gives = { λ _ e. (e.fault ≡ Memory) × (e.page.now ≡ []) };

    fn from(_: AllocError) -> Self {
        Refusal::from(WordsFault::Memory)
    }
}

/// Writes the line with the fault of refused words, and below it the page that the words ask for. Returns the fault's exit status, or
/// 3 if the line and the page can't be written.
pub(crate) fn tell_refusal<E: Write>(refusal: &Refusal<'_>, err: &mut E) -> u8
    ensures { TellsWithPage (E.contents err.old) (E.contents err.new) refusal.now.fault refusal.now.page.now result }
{
    if write!(err, "fault {}\n{}", refusal.fault, refusal.page).is_err() {
        return 3;
    }
    refusal.fault.status()
}
