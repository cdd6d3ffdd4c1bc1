//! The pages of help and of the version. If the words of the command line ask for a page, the program writes a line that refuses the words, and then the page.
//! `clap` can render these pages, but no contract says what `clap` renders. So the pages are constants here, and a test of the program compares them with the
//! pages that `clap` renders.

ghost use Rattle.std.specs.Prelude.{◌≡◌, map};
ghost use Rattle.llb_commands.specs.HelpPages.{command_named, help_page, named_first, page_for};

use crate::command_line_words::Command;
use clap::error::ErrorKind;
use std::convert::AsStr;

/// The version of the program, and the logic that it is proved with, as `rt version` names it.
pub(crate) const VERSION: &str = "1.0, proved with Rattle logic dac8208d650f15bf";

const VERSION_PAGE: &str = "llbm 1.0, proved with Rattle logic dac8208d650f15bf\n";

const PROGRAM_PAGE: &str = "Solves graphs of BuildKit's LLB

Usage: llbm [COMMAND]

Commands:
  run   Runs the definition on standard input, and prints the tree of its result
  show  Prints the graph of the definition on standard input
  step  Steps through the run of a definition, by commands on standard input
  asm   Writes the definition of the entries in the text on standard input
  dis   Prints the entries of the definition on standard input, as text

Options:
  -h, --help     Print help
  -V, --version  Print version

Without a command the definition is run by one worker, on no local sources.
";

const RUN_PAGE: &str = "Runs the definition on standard input, and prints the tree of its result

Usage: llbm run [OPTIONS] [NAME=FILE]...

Arguments:
  [NAME=FILE]...  The tree of the local source NAME, as its text in FILE

Options:
      --workers <N>  The number of workers, 1 to 64; without it, 1
  -h, --help         Print help
";

const SHOW_PAGE: &str = "Prints the graph of the definition on standard input

Usage: llbm show [OPTIONS]

Options:
      --findings          Print all faults of the definition instead
      --plan              Print for each vertex whether what it reads goes by value
      --matches <OLD>     Print for each vertex which vertex of the definition OLD it matches
      --ops               Print the ops of all entries that can be read instead
      --agrees <NEW>      Print for each vertex whether it reads the same of the tree NEW and of each OLD
      --older <NAME=OLD>  The older tree of the local source NAME, with --agrees
  -h, --help              Print help
";

const STEP_PAGE: &str = "Steps through the run of a definition, by commands on standard input

Usage: llbm step [OPTIONS] <FILE> [NAME=FILE]...

Arguments:
  <FILE>          The definition
  [NAME=FILE]...  The tree of the local source NAME, as its text in FILE

Options:
      --workers <N>  The number of workers, 1 to 64; without it, 2
      --looks        Answer looks at workers, caches and the graph
      --ends         End each reply with an empty line
  -h, --help         Print help
";

const ASM_PAGE: &str = "Writes the definition of the entries in the text on standard input

Usage: llbm asm

Options:
  -h, --help  Print help
";

const DIS_PAGE: &str = "Prints the entries of the definition on standard input, as text

Usage: llbm dis

Options:
  -h, --help  Print help
";

/// Returns the command with this name; `None` if no command has the name.
pub(crate) fn named(name: &str) -> Option<Command>
    ensures { result ≡ command_named name.now }
{
    if name == "run" {
        Some(Command::Run)
    } else if name == "show" {
        Some(Command::Show)
    } else if name == "step" {
        Some(Command::Step)
    } else if name == "asm" {
        Some(Command::Assemble)
    } else if name == "dis" {
        Some(Command::Disassemble)
    } else {
        None
    }
}

/// Returns the command that the first word names; `None` if there is no word, or if the first word names no command.
pub(crate) fn named_first<S: AsStr>(words: &[S]) -> Option<Command>
    ensures { result ≡ named_first (map S.text words.now) }
{
    match words.first() {
        Some(word) => named(word.as_str()),
        None => None,
    }
}

// Returns the page of help on a command, or on the program.
fn help_page(command: Option<Command>) -> &'static str
    ensures { result.now ≡ help_page command }
{
    match command {
        Some(Command::Run) => RUN_PAGE,
        Some(Command::Show) => SHOW_PAGE,
        Some(Command::Step) => STEP_PAGE,
        Some(Command::Assemble) => ASM_PAGE,
        Some(Command::Disassemble) => DIS_PAGE,
        None => PROGRAM_PAGE,
    }
}

/// Returns the page that words ask for, by the kind of `clap`'s refusal and the command that the first word names; an empty text if they ask for no page.
pub(crate) fn page_for(kind: ErrorKind, command: Option<Command>) -> &'static str
    ensures { result.now ≡ page_for kind command }
{
    match kind {
        ErrorKind::DisplayHelp => help_page(command),
        ErrorKind::DisplayVersion => VERSION_PAGE,
        _ => "",
    }
}
