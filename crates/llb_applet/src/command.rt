//! Commands. A command is a call whose applet exists and whose words fit one of the applet's forms. When a command runs, its form is not checked again.

ghost use Rattle.std.specs.Prelude.{◌≡◌, List, ℕ, is_some, Ok};
ghost use Rattle.llb_applet.specs.declared.applet.Applet.TheVariants.{Mkdir, Concat, Chmod, Test};
ghost use Rattle.llb_applet.specs.CallResults.{Gives};
ghost use Rattle.llb_applet.specs.Calls.{alone, pair, kind_of, form, command_of, IsFront};

use crate::applet::{Applet, is_word};
use crate::fault::ScriptFault;
use crate::text_copies::copies;
use llb_tree::Mode;
use llb_wire::{Many, Same, Text};
use std::alloc::Global;

/// What `test` asks about a path.
#[derive(Clone, Copy)]
pub enum Kind {
    /// `-e`: something is there.
    Something,
    /// `-f`: a file is there.
    File,
    /// `-d`: a directory is there.
    Dir,
}

/// A call of an applet with its words. Paths are still words: they are read when the command runs.
pub enum Command {
    /// `true`: succeeds.
    True,
    /// `false`: fails.
    False,
    /// `mkdir P`: makes directory P. `mkdir -p P` also makes missing parents, and succeeds if directory P is there.
    Mkdir { parents: bool, path: Text },
    /// `rm P`: removes what is at and below P.
    Rm { path: Text },
    /// `write P W`: writes the word W and a line end to file P.
    Write { path: Text, word: Text },
    /// `append P W`: appends the word W and a line end to file P.
    Append { path: Text, word: Text },
    /// `cp A B`: copies file A to path B or, if a directory is there, into this directory.
    Cp { from: Text, to: Text },
    /// `concat OUT A ..`, with one or more words A: writes the joined contents of the files A to file OUT.
    Concat { out: Text, parts: Many<Text> },
    /// `chmod MODE P`: sets the mode of the entry at P.
    Chmod { mode: Mode, path: Text },
    /// `test -e P` succeeds if there is an entry at P, `test -f P` if it is a file, `test -d P` if it is a directory.
    Test { kind: Kind, path: Text },
    /// `listing P OUT`: writes a line for each name in directory P to file OUT.
    Listing { path: Text, out: Text },
    /// `envfile OUT`: writes a line for each entry of the environment to file OUT.
    Envfile { out: Text },
    /// `sha256 P OUT`: writes the SHA-256 of file P, as a line of hex digits, to file OUT.
    Sha256 { path: Text, out: Text },
}

impl Drop for Command {
    fn drop(self) {
        match self {
            Command::True => {}
            Command::False => {}
            Command::Mkdir {
                parents: _,
                path: _,
            } => {}
            Command::Rm { path: _ } => {}
            Command::Write { path: _, word: _ } => {}
            Command::Append { path: _, word: _ } => {}
            Command::Cp { from: _, to: _ } => {}
            Command::Concat { out: _, parts: _ } => {}
            Command::Chmod { mode: _, path: _ } => {}
            Command::Test { kind: _, path: _ } => {}
            Command::Listing { path: _, out: _ } => {}
            Command::Envfile { out: _ } => {}
            Command::Sha256 { path: _, out: _ } => {}
        }
    }
}

// Returns copies of two texts.
fn both(first: &Text, second: &Text) -> Result<(Text, Text), ScriptFault>
    ensures { Gives (λ p. p) result (Ok (first.now, second.now)) }
{
    let first = first.copy()?;
    Ok((first, second.copy()?))
}

impl Command {
    /// Copies the command. Fails with 74 `Memory` alone.
    pub fn copy(&self) -> Result<Command, ScriptFault>
        ensures { Gives (λ c. c) result (Ok self.now) }
    {
        match self {
            Command::True => Ok(Command::True),
            Command::False => Ok(Command::False),
            Command::Mkdir { parents, path } => {
                let (parents, path) = (*parents, path.copy()?);
                Ok(Command::Mkdir { parents, path })
            }
            Command::Rm { path } => Ok(Command::Rm { path: path.copy()? }),
            Command::Write { path, word } => {
                let (path, word) = both(path, word)?;
                Ok(Command::Write { path, word })
            }
            Command::Append { path, word } => {
                let (path, word) = both(path, word)?;
                Ok(Command::Append { path, word })
            }
            Command::Cp { from, to } => {
                let (from, to) = both(from, to)?;
                Ok(Command::Cp { from, to })
            }
            Command::Concat { out, parts } => {
                let out = out.copy()?;
                let parts = Many::new(copies(parts.allocator(), parts.as_slice())?);
                Ok(Command::Concat { out, parts })
            }
            Command::Chmod { mode, path } => {
                let (mode, path) = (*mode, path.copy()?);
                Ok(Command::Chmod { mode, path })
            }
            Command::Test { kind, path } => {
                let (kind, path) = (*kind, path.copy()?);
                Ok(Command::Test { kind, path })
            }
            Command::Listing { path, out } => {
                let (path, out) = both(path, out)?;
                Ok(Command::Listing { path, out })
            }
            Command::Envfile { out } => Ok(Command::Envfile { out: out.copy()? }),
            Command::Sha256 { path, out } => {
                let (path, out) = both(path, out)?;
                Ok(Command::Sha256 { path, out })
            }
        }
    }
}

impl Same for Kind {
    fn same(&self, other: &Kind) -> bool {
        match (self, other) {
            (Kind::Something, Kind::Something) => true,
            (Kind::File, Kind::File) => true,
            (Kind::Dir, Kind::Dir) => true,
            _ => false,
        }
    }
}

impl Same for Command {
    fn same(&self, other: &Command) -> bool {
        match (self, other) {
            (Self::True, Self::True) => true,
            (Self::False, Self::False) => true,
            (
                Self::Mkdir { parents, path },
                Self::Mkdir {
                    parents: also,
                    path: p,
                },
            ) => { parents == also && path.same(p) }
            (Self::Rm { path }, Self::Rm { path: p }) => path.same(p),
            (Self::Write { path, word }, Self::Write { path: p, word: w }) => {
                path.same(p) && word.same(w)
            }
            (Self::Append { path, word }, Self::Append { path: p, word: w }) => {
                path.same(p) && word.same(w)
            }
            (Self::Cp { from, to }, Self::Cp { from: f, to: t }) => from.same(f) && to.same(t),
            (Self::Concat { out, parts }, Self::Concat { out: o, parts: p }) => {
                out.same(o) && parts.same(p)
            }
            (Self::Chmod { mode, path }, Self::Chmod { mode: m, path: p }) => {
                mode.same(m) && path.same(p)
            }
            (Self::Test { kind, path }, Self::Test { kind: k, path: p }) => {
                kind.same(k) && path.same(p)
            }
            (Self::Listing { path, out }, Self::Listing { path: p, out: o }) => {
                path.same(p) && out.same(o)
            }
            (Self::Envfile { out }, Self::Envfile { out: o }) => out.same(o),
            (Self::Sha256 { path, out }, Self::Sha256 { path: p, out: o }) => {
                path.same(p) && out.same(o)
            }
            _ => false,
        }
    }
}

/// Returns the kind that an option of `test` asks for; `None` if the word is no such option.
fn kind_of(word: &str) -> Option<Kind>
    ensures { result ≡ kind_of word.now }
{
    if is_word(word, b"-e") {
        return Some(Kind::Something);
    }
    if is_word(word, b"-f") {
        return Some(Kind::File);
    }
    if is_word(word, b"-d") {
        return Some(Kind::Dir);
    }
    None
}

// Returns the word of a list that has exactly one word; `None` for any other list.
fn alone(words: Vec<Text>) -> Option<Text>
    ensures { result ≡ alone words.items }
{
    let mut words = words;
    if words.len() != 1 {
        return None;
    }
    Some(words.remove(0))
}

// Returns the words of a list that has exactly two words; `None` for any other list.
fn pair(words: Vec<Text>) -> Option<(Text, Text)>
    ensures { result ≡ pair words.items }
{
    let mut words = words;
    if words.len() != 2 {
        return None;
    }
    let first = words.remove(0);
    Some((first, words.remove(0)))
}

// Returns the command of the call `mkdir` with these words after it; `None` if the words are in neither form of `mkdir`.
fn mkdir_of(words: Vec<Text>) -> Option<Command>
    ensures { result ≡ form Mkdir words.items }
{
    if words.len() == 1 {
        let path = alone(words)?;
        return Some(Command::Mkdir {
            parents: false,
            path,
        });
    }
    let (option, path) = pair(words)?;
    if !is_word(option.as_str(), b"-p") {
        return None;
    }
    Some(Command::Mkdir {
        parents: true,
        path,
    })
}

// Returns the command of the call `concat` with these words after it; `None` if there are fewer than two words.
fn concat_of(words: Vec<Text>) -> Option<Command>
    ensures { result ≡ form Concat words.items }
{
    let mut words = words;
    if words.len() < 2 {
        return None;
    }
    let out = words.remove(0);
    Some(Command::Concat {
        out,
        parts: Many::new(words),
    })
}

// Returns the command of the call `chmod` with these words after it; `None` if the words are not a mode and a path.
fn chmod_of(words: Vec<Text>) -> Option<Command>
    ensures { result ≡ form Chmod words.items }
{
    let (mode, path) = pair(words)?;
    let mode = Mode::read(mode.as_str())?;
    Some(Command::Chmod { mode, path })
}

// Returns the command of the call `test` with these words after it; `None` if the words are not an option and a path.
fn test_of(words: Vec<Text>) -> Option<Command>
    ensures { result ≡ form Test words.items }
{
    let (option, path) = pair(words)?;
    let kind = kind_of(option.as_str())?;
    Some(Command::Test { kind, path })
}

// Returns the command of an applet with the words after its name; `None` if the words fit none of its forms.
fn form(applet: Applet, words: Vec<Text>) -> Option<Command>
    ensures { result ≡ form applet words.items }
{
    match applet {
        Applet::True => words.is_empty().then_some(Command::True),
        Applet::False => words.is_empty().then_some(Command::False),
        Applet::Mkdir => mkdir_of(words),
        Applet::Concat => concat_of(words),
        Applet::Chmod => chmod_of(words),
        Applet::Test => test_of(words),
        Applet::Rm => {
            let path = alone(words)?;
            Some(Command::Rm { path })
        }
        Applet::Envfile => {
            let out = alone(words)?;
            Some(Command::Envfile { out })
        }
        Applet::Write => {
            let (path, word) = pair(words)?;
            Some(Command::Write { path, word })
        }
        Applet::Append => {
            let (path, word) = pair(words)?;
            Some(Command::Append { path, word })
        }
        Applet::Cp => {
            let (from, to) = pair(words)?;
            Some(Command::Cp { from, to })
        }
        Applet::Listing => {
            let (path, out) = pair(words)?;
            Some(Command::Listing { path, out })
        }
        Applet::Sha256 => {
            let (path, out) = pair(words)?;
            Some(Command::Sha256 { path, out })
        }
    }
}

/// Makes the command of the call with this number. Fails with 71 `NoApplet` if its first word is no applet's name, with 72 `Usage` if the other words are in
/// none of the applet's forms, or with 74 `Memory`.
pub fn command_of(alloc: Global, number: usize, words: Vec<Text>) -> Result<Command, ScriptFault>
    ensures { Gives (λ c. c) result (command_of number words.items) }
{
    let mut words = words;
    if words.is_empty() {
        return Err(ScriptFault::NoApplet(Text::new(String::new(alloc))));
    }
    let name = words.remove(0);
    match Applet::find(name.as_str()) {
        None => Err(ScriptFault::NoApplet(name)),
        Some(applet) => match form(applet, words) {
            Some(command) => Ok(command),
            None => Err(ScriptFault::Usage(number)),
        },
    }
}

/// Returns whether a call with `count` words after the applet's name, the first of which is `first`, is in one of the applet's forms.
pub fn is_form(applet: Applet, count: usize, first: &str) -> bool
    ensures { (words : List (List ℕ)) → IsFront words count first.now → result ≡ is_some (form applet words) }
{
    match applet {
        Applet::True => count == 0,
        Applet::False => count == 0,
        Applet::Mkdir => {
            if count == 2 {
                return is_word(first, b"-p");
            }
            count == 1
        }
        Applet::Rm => count == 1,
        Applet::Envfile => count == 1,
        Applet::Concat => count >= 2,
        Applet::Chmod => {
            if count != 2 {
                return false;
            }
            Mode::read(first).is_some()
        }
        Applet::Test => {
            if count != 2 {
                return false;
            }
            kind_of(first).is_some()
        }
        Applet::Write => count == 2,
        Applet::Append => count == 2,
        Applet::Cp => count == 2,
        Applet::Listing => count == 2,
        Applet::Sha256 => count == 2,
    }
}
