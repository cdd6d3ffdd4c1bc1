//! Checks the calls of a text without making commands. To check a call it is enough to know how many words it has, and its
//! first two words.

ghost use Rattle.std.specs.Prelude.{◌≡◌, ◌+◌, ◌≤◌, ◌<◌, ◌^◌, ◌++◌, ◌∷◌, [], List, ℕ};
ghost use Rattle.llb_applet.specs.CallResults.{Gives, MemoryLast};
ghost use Rattle.llb_applet.specs.Scripts.{commands_of};
ghost use Rattle.llb_applet.specs.Words.{calls_of};
ghost use Rattle.llb_applet.specs.CallReading.{IsBegun, Judges, JudgesCall, verdict};

use crate::applet::Applet;
use crate::command::is_form;
use crate::fault::ScriptFault;
use crate::first_bad_position::is_separator;
use llb_wire::Text;
use std::alloc::Global;

/// The current call so far: its number, how many words it has, and its first two words.
#[derive(Drop)]
pub struct Begun<'a> {
    pub number: usize,
    pub count: usize,
    pub name: &'a str,
    pub first: &'a str,
}

impl<'a> Begun<'a> {
    /// Checks the call, once all its words are added. Fails with 71 `NoApplet` or 72 `Usage`, and with 74 `Memory` only in place of 71.
    pub fn judge(&self, alloc: Global) -> Result<(), ScriptFault>
        ensures { (call : List (List ℕ)) → IsBegun call self.now → JudgesCall result self.now.number call }
    {
        match Applet::find(self.name) {
            None => {
                let word = Text::from_str(alloc, self.name)?;
                Err(ScriptFault::NoApplet(word))
            }
            Some(applet) => {
                if is_form(applet, self.count.saturating_sub(1), self.first) {
                    return Ok(());
                }
                Err(ScriptFault::Usage(self.number))
            }
        }
    }

    // Reads what is between two spaces: a separator ends the call, any other word is added to the call, and an empty part is no word.
    fn take(&mut self, alloc: Global, part: &'a str) -> Result<(), ScriptFault>
        requires { self.old.number + self.old.count < 2 ^ 63 }
        ensures judges { (call : List (List ℕ)) → IsBegun call self.old → Judges result part.now call self.old self.new }
        ensures room { self.new.number + self.new.count ≤ self.old.number + self.old.count + 1 }
    {
        if is_separator(part) {
            self.judge(alloc)?;
            self.number += 1;
            self.count = 0;
            self.name = "";
            self.first = "";
            return Ok(());
        }
        if part.is_empty() {
            return Ok(());
        }
        self.push(part);
        Ok(())
    }

    // Adds a word to the call.
    fn push(&mut self, word: &'a str)
        requires { self.old.count < 2 ^ 63 }
        ensures begun { (call : List (List ℕ)) → IsBegun call self.old → IsBegun (call ++ word.now ∷ []) self.new }
        ensures number { self.new.number ≡ self.old.number }
        ensures count { self.new.count ≡ self.old.count + 1 }
    {
        if self.count == 0 {
            self.name = word;
        }
        if self.count == 1 {
            self.first = word;
        }
        self.count += 1;
    }
}

/// Checks the calls of a text. Fails with the fault of the first call that makes no command, 71 `NoApplet` or 72 `Usage`; fails with 74
/// `Memory` only in place of 71.
pub fn judge_text(alloc: Global, text: &str) -> Result<(), ScriptFault>
    ensures gives { Gives (λ _. tt) result (verdict (commands_of 0 (calls_of text.now))) }
    ensures last { MemoryLast result (verdict (commands_of 0 (calls_of text.now))) }
{
    let mut begun = Begun {
        number: 0,
        count: 0,
        name: "",
        first: "",
    };
    for part in text.split(' ') {
        begun.take(alloc, part)?;
    }
    begun.judge(alloc)
}
