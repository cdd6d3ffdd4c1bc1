//! Scripts. A text is first checked, and then its calls are made into commands. The check allocates nothing but the word of
//! a fault 71 `NoApplet`, so want of memory can hide no other refusal.

ghost use Rattle.std.specs.Prelude.{◌≡◌, ◌+◌, ◌<◌, ◌++◌, ◌∷◌, [], List, ℕ, length, OnOk, IsTrue, slice_index_or, Ok};
ghost use Rattle.llb_applet.specs.CallResults.{Gives, MemoryLast};
ghost use Rattle.llb_applet.specs.Scripts.{is_shell, script_of, commands_in, commands_of, BeginsWithThen};
ghost use Rattle.llb_applet.specs.Words.{calls_of, first_call};

use crate::applet::is_word;
use crate::call::{Begun, judge_text};
use crate::command::command_of;
use crate::fault::ScriptFault;
use crate::first_bad_position::{bad_place, join_of};
use crate::joined_commands::{Join, Joined};
use crate::text_copies::copies;
use llb_wire::{Same, Text, all_same};
use std::alloc::Global;
use std::marker::Model;
use std::mem;
use std::sync::Arc;

/// A script: one or more commands in the order in which they run, each with its join. By the type's invariant the first command
/// always runs. Copies of a script share the commands. In contracts a script is the list of its commands.
pub struct Script {
    commands: Arc<Vec<Joined>>,
}

impl Drop for Script {
    fn drop(self) {
        let Script { commands: _ } = self;
    }
}

impl Model for Script {
    ghost use Rattle.std.specs.Prelude.{List};
    ghost use Rattle.std.specs.Arc.{arc_value};
    ghost use Rattle.llb_applet.specs.declared.joined_commands.Joined.{Joined};
    ghost use Rattle.llb_applet.specs.Scripts.{BeginsWithThen};

    ghost Value = { List Joined };

    ghost view = { λ s. (arc_value s.commands).items };

    ghost invariant = { λ s. BeginsWithThen (arc_value s.commands).items };
}

impl Script {
    /// Returns the commands in their order.
    pub fn commands(&self) -> &[Joined]
        ensures { result.now ≡ self.now }
    {
        self.commands.as_slice()
    }

    /// Proves that there is a first command, and that it always runs.
    pub fn begins_with_then(&self)
        ensures { BeginsWithThen self.now }
    {
        let _ = &self.commands;
    }

    /// Copies the script; the copy shares the commands with the script. Fails with 74 `Memory` alone.
    pub fn copy(&self) -> Result<Script, ScriptFault>
        ensures { Gives (λ s. s) result (Ok self.now) }
    {
        let commands = Arc::try_clone(&self.commands)?;
        Ok(Script { commands })
    }
}

impl Same for Script {
    fn same(&self, other: &Script) -> bool {
        all_same(self.commands(), other.commands())
    }
}

/// The state while calls are read: the commands of the calls before the current one, the join of the current call, and its words so far.
#[derive(Drop)]
pub struct Reading {
    commands: Vec<Joined>,
    join: Join,
    words: Vec<Text>,
}

impl Reading {
    ghost use Rattle.llb_applet.specs.CallReading.{some_word, ahead, with_call, Reads};

    // Takes the text between two spaces: a separator ends the current call, any other word is added to the call, and an empty text is no word.
    fn take(&mut self, alloc: Global, part: &str) -> Result<(), ScriptFault>
        ensures { (rest : List (List ℕ)) → Reads result (ahead self.old (some_word part.now ++ rest)) (ahead self.new rest) }
    {
        if let Some(join) = join_of(part) {
            self.end_call(alloc)?;
            self.join = join;
            return Ok(());
        }
        if part.is_empty() {
            return Ok(());
        }
        let word = Text::from_str(alloc, part)?;
        self.words.push(word)?;
        Ok(())
    }

    // Makes the words of the current call into a command.
    fn end_call(&mut self, alloc: Global) -> Result<(), ScriptFault>
        ensures gives { Gives (λ _. self.new.commands.items) result (with_call self.old) }
        ensures words { OnOk result (self.new.words.items ≡ []) }
    {
        let words = mem::replace(&mut self.words, Vec::new(alloc));
        let command = command_of(alloc, self.commands.len(), words)?;
        self.commands.push(Joined {
            join: self.join,
            command,
        })?;
        Ok(())
    }
}

// Makes the calls of a text into commands, or fails with the fault of the first call that makes no command.
fn read_text(alloc: Global, text: &str) -> Result<Vec<Joined>, ScriptFault>
    ensures { Gives (λ c. c.items) result (commands_of 0 (calls_of text.now)) }
{
    let mut reading = Reading {
        commands: Vec::new(alloc),
        join: Join::Then,
        words: Vec::new(alloc),
    };
    for part in text.split(' ') {
        reading.take(alloc, part)?;
    }
    reading.end_call(alloc)?;
    Ok(reading.commands)
}

// Reads the commands of a text, or fails with its first fault.
fn read_shell(alloc: Global, text: &str) -> Result<Vec<Joined>, ScriptFault>
    ensures gives { Gives (λ c. c.items) result (commands_in text.now) }
    ensures last { MemoryLast result (commands_in text.now) }
{
    if let Some(place) = bad_place(text) {
        return Err(ScriptFault::ShellSyntax(place));
    }
    judge_text(alloc, text)?;
    read_text(alloc, text)
}

// Reads arguments as the words of one call, and makes the call's command; or fails with the call's fault.
fn read_call(alloc: Global, args: &[Text]) -> Result<Vec<Joined>, ScriptFault>
    requires { 0 < length args.now }
    ensures gives { Gives (λ c. c.items) result (commands_of 0 (first_call args.now ∷ [])) }
    ensures last { MemoryLast result (commands_of 0 (first_call args.now ∷ [])) }
{
    let begun = Begun {
        number: 0,
        count: args.len(),
        name: args[0].as_str(),
        first: second(args),
    };
    begun.judge(alloc)?;
    let words = copies(alloc, args)?;
    let command = command_of(alloc, 0, words)?;
    let mut commands = Vec::new(alloc);
    commands.push(Joined {
        join: Join::Then,
        command,
    })?;
    Ok(commands)
}

// Returns whether arguments are `/bin/sh`, `-c` and one text.
fn is_shell(args: &[Text]) -> bool
    ensures value { result ≡ is_shell args.now }
    ensures three { IsTrue result → length args.now ≡ 3 }
{
    if args.len() != 3 {
        return false;
    }
    is_word(args[0].as_str(), b"/bin/sh") && is_word(args[1].as_str(), b"-c")
}

// Returns the second of these texts, or an empty one if there is none.
fn second(args: &[Text]) -> &str
    ensures { result.now ≡ slice_index_or args.now 1 [] }
{
    if args.len() < 2 {
        return "";
    }
    args[1].as_str()
}

// Reads the commands of arguments, or fails with their first fault.
fn read_commands(alloc: Global, args: &[Text]) -> Result<Vec<Joined>, ScriptFault>
    requires { 0 < length args.now }
    ensures gives { Gives (λ c. c.items) result (script_of args.now) }
    ensures last { MemoryLast result (script_of args.now) }
{
    if is_shell(args) {
        read_shell(alloc, args[2].as_str())
    } else {
        read_call(alloc, args)
    }
}

/// Reads arguments as a script: `/bin/sh`, `-c` and one text, or else one call, an applet's name and its words. In a text words are between spaces, and a
/// separator, which is a word `;`, `&&` or `||`, is between two calls; any other word has only ASCII letters and digits, `_ - . / , : + @ % =` and characters
/// past ASCII. Fails with 73 `ShellSyntax` at the first bad position of the text, in bytes from 0: a byte that no word may have, a separator with no call
/// before it, or the text's end if the last call is missing. Otherwise fails at the first call that makes no command: with 71 `NoApplet` if its first word is
/// no applet's name, or with 72 `Usage` if the other words are in none of the applet's forms. Fails with 74 `Memory` only if there is no other fault, or in
/// place of 71, which needs memory for its word.
pub fn read_script(alloc: Global, args: &[Text]) -> Result<Script, ScriptFault>
    requires { 0 < length args.now }
    ensures gives { Gives (λ s. s) result (script_of args.now) }
    ensures last { MemoryLast result (script_of args.now) }
{
    let commands = read_commands(alloc, args)?;
    let commands = Arc::new(alloc, commands)?;
    Ok(Script { commands })
}
