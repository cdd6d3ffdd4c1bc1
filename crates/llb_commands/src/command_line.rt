//! The command line, which `clap` reads. `run` takes the number of workers, and local sources as NAME=FILE; `step` takes these, the file of a definition, and
//! whether looks are answered and whether an empty line ends each reply; `show` takes what it prints in place of the graph, and older trees of local sources;
//! `asm` and `dis` take no words. No words at all mean `run`. The texts of the pages of help are in `pages`.

ghost use Rattle.std.specs.Prelude.{◌≡◌, false, map, option_map, IfOk, IfErr};
ghost use Rattle.clap.specs.Words.{app_of, kind_of, fault_of, found_of, new_app, rows_of, rule_of, subcommand_of};
ghost use Rattle.clap.specs.declared.builder.command.Command.TheViews.{out-Command as fields_of};
ghost use Rattle.llb_commands.specs.CommandLine.{
  llbm_app,
  base_app,
  graph_app,
  run_app,
  show_app,
  show_options_app,
  step_app,
  step_options_app,
  findings_rule,
  plan_rule,
  matches_rule,
  ops_rule,
  agrees_rule,
  older_rule,
  local_rule,
  file_rule,
  workers_rule,
  looks_rule,
  ends_rule,
  local_words,
  named_local_words,
  AreSplit,
  IsFile,
  IsLooks,
  IsEnds,
  IsName,
  looks_by,
  is_set,
  IsShows,
  either,
  shows_by,
  IsWorkers,
  name_of,
  Says,
  SaysCommand,
  IsByWords,
  RefusesWord,
  IsFaultOfKind,
};
ghost use Rattle.llb_commands.specs.HelpPages.{IsByWordsWithPage};

use crate::command_line_words::{Command, Line, Local, Refusal, Shows, WordsFault};
use crate::help_pages::{VERSION, named, named_first, page_for};
use clap::error::ErrorKind;
use clap::{Arg, ArgAction, ArgMatches, Error, value_parser};
use llb_session::Looks;
use llb_wire::Many;
use std::alloc::{AllocError, Global};
use std::convert::AsStr;

// Returns `clap`'s description of the words for local sources.
fn local_arg<'a>(alloc: Global) -> Arg<'a>
    ensures rule { rule_of result ≡ local_rule }
    ensures plain { result.global ≡ false }
{
    Arg::new(alloc, "local")
        .value_name("NAME=FILE")
        .help("The tree of the local source NAME, as its text in FILE")
        .action(ArgAction::Append)
}

// Returns `clap`'s description of the required positional argument that names the file of the definition.
fn file_arg<'a>(alloc: Global) -> Arg<'a>
    ensures rule { rule_of result ≡ file_rule }
    ensures plain { result.global ≡ false }
{
    Arg::new(alloc, "file")
        .value_name("FILE")
        .help("The definition")
        .required(true)
        .action(ArgAction::Set)
}

// Returns `clap`'s description of the option for the number of workers.
fn workers_arg<'a>(alloc: Global, help: &'a str) -> Arg<'a>
    ensures rule { rule_of result ≡ workers_rule }
    ensures plain { result.global ≡ false }
{
    Arg::new(alloc, "workers")
        .long("workers")
        .value_name("N")
        .help(help)
        .action(ArgAction::Set)
        .value_parser(value_parser!(u32))
}

// Returns `clap`'s description of the option that allows looks.
fn looks_arg<'a>(alloc: Global) -> Arg<'a>
    ensures rule { rule_of result ≡ looks_rule }
    ensures plain { result.global ≡ false }
{
    Arg::new(alloc, "looks")
        .long("looks")
        .help("Answer looks at workers, caches and the graph")
        .action(ArgAction::SetTrue)
}

// Returns `clap`'s description of the option by which an empty line ends each reply.
fn ends_arg<'a>(alloc: Global) -> Arg<'a>
    ensures rule { rule_of result ≡ ends_rule }
    ensures plain { result.global ≡ false }
{
    Arg::new(alloc, "ends")
        .long("ends")
        .help("End each reply with an empty line")
        .action(ArgAction::SetTrue)
}

// Returns `clap`'s description of the option by which `show` prints faults.
fn findings_arg<'a>(alloc: Global) -> Arg<'a>
    ensures rule { rule_of result ≡ findings_rule }
    ensures plain { result.global ≡ false }
{
    Arg::new(alloc, "findings")
        .long("findings")
        .help("Print all faults of the definition instead")
        .action(ArgAction::SetTrue)
}

// Returns `clap`'s description of the option by which `show` prints what goes by value.
fn plan_arg<'a>(alloc: Global) -> Arg<'a>
    ensures rule { rule_of result ≡ plan_rule }
    ensures plain { result.global ≡ false }
{
    Arg::new(alloc, "plan")
        .long("plan")
        .help("Print for each vertex whether what it reads goes by value")
        .action(ArgAction::SetTrue)
}

// Returns `clap`'s description of the option for the older definition.
fn matches_arg<'a>(alloc: Global) -> Arg<'a>
    ensures rule { rule_of result ≡ matches_rule }
    ensures plain { result.global ≡ false }
{
    Arg::new(alloc, "matches")
        .long("matches")
        .value_name("OLD")
        .help("Print for each vertex which vertex of the definition OLD it matches")
        .action(ArgAction::Set)
}

// Returns `clap`'s description of the option by which `show` prints ops.
fn ops_arg<'a>(alloc: Global) -> Arg<'a>
    ensures rule { rule_of result ≡ ops_rule }
    ensures plain { result.global ≡ false }
{
    Arg::new(alloc, "ops")
        .long("ops")
        .help("Print the ops of all entries that can be read instead")
        .action(ArgAction::SetTrue)
}

// Returns `clap`'s description of the option for the newer tree.
fn agrees_arg<'a>(alloc: Global) -> Arg<'a>
    ensures rule { rule_of result ≡ agrees_rule }
    ensures plain { result.global ≡ false }
{
    Arg::new(alloc, "agrees")
        .long("agrees")
        .value_name("NEW")
        .help("Print for each vertex whether it reads the same of the tree NEW and of each OLD")
        .action(ArgAction::Set)
}

// Returns `clap`'s description of the option for an older tree of a local source.
fn older_arg<'a>(alloc: Global) -> Arg<'a>
    ensures rule { rule_of result ≡ older_rule }
    ensures plain { result.global ≡ false }
{
    Arg::new(alloc, "local")
        .long("older")
        .value_name("NAME=OLD")
        .help("The older tree of the local source NAME, with --agrees")
        .action(ArgAction::Append)
}

// Returns `clap`'s description of the command `run`.
fn run_command<'a>(alloc: Global) -> Result<clap::Command<'a>, AllocError>
    ensures app { IfOk result (λ c. app_of c ≡ run_app) }
    ensures plain { IfOk result (λ c. (fields_of c).has_globals ≡ false) }
{
    clap::Command::new(alloc, "run")
        .about("Runs the definition on standard input, and prints the tree of its result")
        .arg(workers_arg(alloc, "The number of workers, 1 to 64; without it, 1"))?
        .arg(local_arg(alloc))
}

// Returns `clap`'s description of the command `show` with the options that need no tree.
fn show_options<'a>(alloc: Global) -> Result<clap::Command<'a>, AllocError>
    ensures app { IfOk result (λ c. app_of c ≡ show_options_app) }
    ensures plain { IfOk result (λ c. (fields_of c).has_globals ≡ false) }
{
    clap::Command::new(alloc, "show")
        .about("Prints the graph of the definition on standard input")
        .arg(findings_arg(alloc))?
        .arg(plan_arg(alloc))?
        .arg(matches_arg(alloc))?
        .arg(ops_arg(alloc))
}

// Returns `clap`'s description of the command `show`.
fn show_command<'a>(alloc: Global) -> Result<clap::Command<'a>, AllocError>
    ensures app { IfOk result (λ c. app_of c ≡ show_app) }
    ensures plain { IfOk result (λ c. (fields_of c).has_globals ≡ false) }
{
    show_options(alloc)?
        .arg(agrees_arg(alloc))?
        .arg(older_arg(alloc))
}

// Returns `clap`'s description of the command `step` with its options alone.
fn step_options<'a>(alloc: Global) -> Result<clap::Command<'a>, AllocError>
    ensures app { IfOk result (λ c. app_of c ≡ step_options_app) }
    ensures plain { IfOk result (λ c. (fields_of c).has_globals ≡ false) }
{
    clap::Command::new(alloc, "step")
        .about("Steps through the run of a definition, by commands on standard input")
        .arg(workers_arg(alloc, "The number of workers, 1 to 64; without it, 2"))?
        .arg(looks_arg(alloc))?
        .arg(ends_arg(alloc))
}

// Returns `clap`'s description of the command `step`.
fn step_command<'a>(alloc: Global) -> Result<clap::Command<'a>, AllocError>
    ensures app { IfOk result (λ c. app_of c ≡ step_app) }
    ensures plain { IfOk result (λ c. (fields_of c).has_globals ≡ false) }
{
    step_options(alloc)?
        .arg(file_arg(alloc))?
        .arg(local_arg(alloc))
}

// Returns `clap`'s description of a command that takes no words.
fn plain_command<'a>(alloc: Global, name: &'a str, about: &'a str) -> clap::Command<'a>
    ensures app { app_of result ≡ new_app name.now }
    ensures plain { (fields_of result).has_globals ≡ false }
{
    clap::Command::new(alloc, name).about(about)
}

// Returns `clap`'s description of the program without its commands.
fn base_command<'a>(alloc: Global) -> Result<clap::Command<'a>, AllocError>
    ensures app { IfOk result (λ c. app_of c ≡ base_app) }
    ensures plain { IfOk result (λ c. (fields_of c).has_globals ≡ false) }
{
    clap::Command::new(alloc, "llbm")
        .about("Solves graphs of BuildKit's LLB")
        .after_help("Without a command the definition is run by one worker, on no local sources.")
        .version(VERSION)
        .no_binary_name(true)
        .disable_help_subcommand(true)
        .bin_name("llbm")
}

// Returns `clap`'s description of the program with the commands `run`, `show` and `step`.
fn graph_commands<'a>(alloc: Global) -> Result<clap::Command<'a>, AllocError>
    ensures { IfOk result (λ c. app_of c ≡ graph_app) }
{
    base_command(alloc)?
        .subcommand(run_command(alloc)?)?
        .subcommand(show_command(alloc)?)?
        .subcommand(step_command(alloc)?)
}

/// Returns `clap`'s description of the program with all its commands.
pub fn llbm_command<'a>(alloc: Global) -> Result<clap::Command<'a>, AllocError>
    ensures { IfOk result (λ c. app_of c ≡ llbm_app) }
{
    let asm = plain_command(
        alloc,
        "asm",
        "Writes the definition of the entries in the text on standard input",
    );
    let dis = plain_command(
        alloc,
        "dis",
        "Prints the entries of the definition on standard input, as text",
    );
    graph_commands(alloc)?.subcommand(asm)?.subcommand(dis)
}

// Returns the command with this name, which must be the name of a command.
fn command_named(name: &str) -> Command
    requires { IsName name.now }
    ensures { name_of result ≡ name.now }
{
    named(name).unwrap_or(Command::Run)
}

// Splits each word for a local source at its first `=`; fails with the first word that has no `=`.
fn split_words<'a>(alloc: Global, words: &[&'a str]) -> Result<Many<Local<'a>>, WordsFault<'a>>
    ensures split { IfOk result (AreSplit (map (λ w. w.now) words.now)) }
    ensures refuses { IfErr result (RefusesWord (map (λ w. w.now) words.now)) }
{
    let mut locals = Vec::new(alloc);
    for word in words {
        match word.split_once('=') {
            Some((name, file)) => locals.push(Local { name, file })?,
            None => return Err(WordsFault::Words(Some(word))),
        }
    }
    Ok(Many::new(locals))
}

// Returns the local sources in what `clap` found for a command (the command's matches).
fn locals_in<'a>(alloc: Global, matches: &ArgMatches<'a>) -> Result<Many<Local<'a>>, WordsFault<'a>>
    ensures split { IfOk result (AreSplit (local_words (rows_of (found_of matches.now)))) }
    ensures refuses { IfErr result (RefusesWord (local_words (rows_of (found_of matches.now)))) }
{
    match matches.get_strs("local") {
        Some(words) => split_words(alloc, words),
        None => Ok(Many::new(Vec::new(alloc))),
    }
}

// Returns the number of workers in what `clap` found for a command (`matches`); if it found none, 2 for `step` and 1 for any other command.
fn workers_in(command: Command, matches: &ArgMatches<'_>) -> u32
    ensures { IsWorkers command (rows_of (found_of matches.now)) result }
{
    match command {
        Command::Run => matches.get_one("workers").unwrap_or(1),
        Command::Step => matches.get_one("workers").unwrap_or(2),
        _ => 1,
    }
}

// Returns the looks that a flag allows, given the text that `clap` has for the flag.
fn looks_by(text: Option<&str>) -> Looks
    ensures { result ≡ looks_by (option_map (λ t. t.now) text.entry) }
{
    match text {
        Some("true") => Looks::Allowed,
        _ => Looks::Refused,
    }
}

// Returns whether the words of `step` allow looks, by what `clap` found in them; for any other command they are refused.
fn looks_in(command: Command, matches: &ArgMatches<'_>) -> Looks
    ensures { IsLooks command (rows_of (found_of matches.now)) result }
{
    match command {
        Command::Step => looks_by(matches.get_str("looks")),
        _ => Looks::Refused,
    }
}

// Returns whether a flag is set, given the text that `clap` has for the flag.
fn is_set(text: Option<&str>) -> bool
    ensures { result ≡ is_set (option_map (λ t. t.now) text.entry) }
{
    matches!(text, Some("true"))
}

// Returns whether the words of `step` ask for an empty line after each reply, by what `clap` found in them; for any other command they do not.
fn ends_in(command: Command, matches: &ArgMatches<'_>) -> bool
    ensures { IsEnds command (rows_of (found_of matches.now)) result }
{
    match command {
        Command::Step => is_set(matches.get_str("ends")),
        _ => false,
    }
}

// Returns what `show` prints, by which of its options the words have, and by whether they have local sources.
fn shows_by(
    findings: bool,
    plan: bool,
    matches: bool,
    ops: bool,
    agrees: bool,
    named: bool,
) -> Shows
    ensures { result ≡ shows_by findings plan matches ops agrees named }
{
    match (findings, plan, matches, ops, agrees, named) {
        (false, false, false, false, false, false) => Shows::Graph,
        (true, false, false, false, false, false) => Shows::Findings,
        (false, true, false, false, false, false) => Shows::Plan,
        (false, false, true, false, false, false) => Shows::Matches,
        (false, false, false, true, false, false) => Shows::Ops,
        (false, false, false, false, true, true) => Shows::Agrees,
        _ => Shows::Several,
    }
}

// Returns what the words of `show` ask to be printed, by what `clap` found in them; the text of the graph for any other command.
fn shows_in(command: Command, matches: &ArgMatches<'_>) -> Shows
    ensures { IsShows command (rows_of (found_of matches.now)) result }
{
    match command {
        Command::Show => shows_by(
            is_set(matches.get_str("findings")),
            is_set(matches.get_str("plan")),
            matches.get_str("matches").is_some(),
            is_set(matches.get_str("ops")),
            matches.get_str("agrees").is_some(),
            matches.get_strs("local").is_some(),
        ),
        _ => Shows::Graph,
    }
}

// Returns the first of two texts, if there is one, or else the second.
fn either<'a>(first: Option<&'a str>, second: Option<&'a str>) -> Option<&'a str>
    ensures { option_map (λ w. w.now) result ≡ either (option_map (λ w. w.now) first.entry) (option_map (λ w. w.now) second.entry) }
{
    match first {
        Some(text) => Some(text),
        None => second,
    }
}

// Returns the file that `clap` found for the command `step`, or that of the older definition or of the newer tree for `show`; `None` for any other command.
fn file_in<'a>(command: Command, matches: &ArgMatches<'a>) -> Option<&'a str>
    ensures { IsFile command (rows_of (found_of matches.now)) result }
{
    match command {
        Command::Step => matches.get_str("file"),
        Command::Show => either(matches.get_str("matches"), matches.get_str("agrees")),
        _ => None,
    }
}

// Returns the `Line` with this command, and with the number of workers, the looks, what `show` prints, the file and the local sources that `clap` found in the
// words (`matches`).
fn line_of<'a>(
    alloc: Global,
    command: Command,
    matches: &ArgMatches<'a>,
) -> Result<Line<'a>, WordsFault<'a>>
    ensures says { IfOk result (SaysCommand (name_of command) (rows_of (found_of matches.now))) }
    ensures refuses { IfErr result (RefusesWord (local_words (rows_of (found_of matches.now)))) }
{
    let locals = locals_in(alloc, matches)?;
    Ok(Line {
        command,
        workers: workers_in(command, matches),
        looks: looks_in(command, matches),
        ends: ends_in(command, matches),
        shows: shows_in(command, matches),
        file: file_in(command, matches),
        locals,
    })
}

// Returns the `Line` for no words at all: `run` with one worker and without local sources.
fn bare_run<'a>(alloc: Global) -> Line<'a>
    ensures { Says None result }
{
    Line {
        command: Command::Run,
        workers: 1,
        looks: Looks::Refused,
        ends: false,
        shows: Shows::Graph,
        file: None,
        locals: Many::new(Vec::new(alloc)),
    }
}

// Returns the fault for a refusal by `clap`: 184 if memory was refused to `clap`, else 183 without a word.
fn refused_by<'a>(error: Error) -> WordsFault<'a>
    ensures { IsFaultOfKind (kind_of error) result }
{
    if error.kind() == ErrorKind::OutOfMemory {
        WordsFault::Memory
    } else {
        WordsFault::Words(None)
    }
}

/// Returns what `command_of` returns; if the words are refused, the fault is returned with the page that the words ask for.
pub(crate) fn line_or_page<'a, S: AsStr>(
    alloc: Global,
    words: &'a [S],
) -> Result<Line<'a>, Refusal<'a>>
    ensures says { IfOk result (Says (subcommand_of llbm_app (map S.text words.entry.now))) }
    ensures refuses { IsByWordsWithPage (fault_of llbm_app (map S.text words.entry.now))
        (named_local_words (subcommand_of llbm_app (map S.text words.entry.now)))
        (map S.text words.entry.now) result }
{
    let command = llbm_command(alloc)?;
    let matches = match command.try_get_matches_from(words) {
        Ok(matches) => matches,
        Err(error) => {
            let page = page_for(error.kind(), named_first(words));
            let fault = refused_by(error);
            return Err(Refusal { fault, page });
        }
    };
    match matches.subcommand() {
        Some((name, own)) => Ok(line_of(alloc, command_named(name), own)?),
        None => Ok(bare_run(alloc)),
    }
}

/// Returns what the words after the program's name ask for; no words at all mean `run`. Fails with 183 and no word if `clap` refuses the words, also if they
/// ask for help or for the version; with 183 and the first word that should be a local source but has no `=`; or with 184 if memory is refused.
pub fn command_of<'a, S: AsStr>(alloc: Global, words: &'a [S]) -> Result<Line<'a>, WordsFault<'a>>
    ensures says { IfOk result (Says (subcommand_of llbm_app (map S.text words.entry.now))) }
    ensures refuses { IsByWords (fault_of llbm_app (map S.text words.entry.now))
        (named_local_words (subcommand_of llbm_app (map S.text words.entry.now))) result }
{
    match line_or_page(alloc, words) {
        Ok(line) => Ok(line),
        Err(refusal) => Err(refusal.fault),
    }
}
