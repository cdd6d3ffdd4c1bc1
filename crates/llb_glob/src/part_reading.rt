//! How a part of a pattern is read: character by character, once from left to right. What a character does to the part that is read (`Effect`) depends on
//! the stage of the reader and on whether a `\` quotes the character, and on nothing further back.

ghost use Rattle.std.specs.Prelude.{◌≡◌};
ghost use Rattle.llb_glob.specs.ItemReading.{at, start, literal, outside, inside, closed, dashed, plain, cut, is_whole};

use crate::fault::PatternFault;
use crate::item::{Item, Letter};

/// The stage of the reader in a part.
#[derive(Clone, Copy)]
pub enum Stage {
    /// The reader is in no class of the part.
    Outside,
    /// Right after the `[` of a class.
    Opened,
    /// Right after the `^` of a class that excludes.
    Caret,
    /// After a character of a class; the character may begin a range.
    Single,
    /// After the `-` of a range.
    Dash,
    /// After a whole range.
    Range,
}

/// The stage of the reader, and whether a `\` quotes the next character.
#[derive(Clone, Copy)]
pub struct Cursor {
    pub stage: Stage,
    pub quotes: bool,
}

/// What a character does to the part that is read.
#[derive(Drop)]
pub enum Effect {
    /// The character completes nothing.
    Nothing,
    /// The character completes an item of the part.
    Whole(Item),
    /// The character, a `^`, makes the current class exclude its items.
    Exclude,
    /// The character is one more item of the current class.
    Add(char),
    /// The character is the high end of the last item of the current class.
    Extend(char),
    /// The character closes the current class.
    Close,
}

impl Cursor {
    /// Returns the cursor at the start of a part.
    pub fn start() -> Cursor
        ensures { result ≡ start }
    {
        at(Stage::Outside)
    }

    /// Returns whether a part may end at this cursor: in no class, and with no `\` that quotes the next character.
    pub fn is_whole(self) -> bool
        ensures { result ≡ is_whole self }
    {
        matches!(self.stage, Stage::Outside) && !self.quotes
    }

    /// Returns the cursor after the next character, and what the character does to the part that is read (`Effect`). Fails with 41 `BadPattern` alone.
    pub fn cut(self, letter: char) -> Result<(Cursor, Effect), PatternFault>
        ensures { result ≡ cut self letter }
    {
        if self.quotes {
            return Ok(literal(self.stage, letter));
        }
        if letter == '\\' {
            let quoting = Cursor {
                stage: self.stage,
                quotes: true,
            };
            return Ok((quoting, Effect::Nothing));
        }
        plain(self.stage, letter)
    }
}

// Returns the cursor at a stage, with no `\` that quotes the next character.
fn at(stage: Stage) -> Cursor
    ensures { result ≡ at stage }
{
    Cursor {
        stage,
        quotes: false,
    }
}

// Returns the cursor after a literal character (one that matches itself), and the `Effect` of the character on the part that is read.
fn literal(stage: Stage, letter: char) -> (Cursor, Effect)
    ensures { result ≡ literal stage letter }
{
    match stage {
        Stage::Outside => (
            at(Stage::Outside),
            Effect::Whole(Item::One(Letter::Only(letter))),
        ),
        Stage::Dash => (at(Stage::Range), Effect::Extend(letter)),
        _ => (at(Stage::Single), Effect::Add(letter)),
    }
}

// Returns the cursor after a character that is no `\` and that no `\` quotes, and what the character does to the part that is read (`Effect`).
fn plain(stage: Stage, letter: char) -> Result<(Cursor, Effect), PatternFault>
    ensures { result ≡ plain stage letter }
{
    match stage {
        Stage::Outside => Ok(outside(letter)),
        Stage::Opened if letter == '^' => Ok((at(Stage::Caret), Effect::Exclude)),
        _ => inside(stage, letter),
    }
}

// Returns the cursor after a character outside a class, and what the character does (`Effect`). The character must be no `\`, and no `\` may quote it.
fn outside(letter: char) -> (Cursor, Effect)
    ensures { result ≡ outside letter }
{
    match letter {
        '[' => (at(Stage::Opened), Effect::Nothing),
        '*' => (at(Stage::Outside), Effect::Whole(Item::Run)),
        '?' => (at(Stage::Outside), Effect::Whole(Item::One(Letter::Any))),
        _ => literal(Stage::Outside, letter),
    }
}

// Returns the cursor after a character in a class, and what the character does (`Effect`). The character must be no `\`, and no `\` may quote it.
fn inside(stage: Stage, letter: char) -> Result<(Cursor, Effect), PatternFault>
    ensures { result ≡ inside stage letter }
{
    match letter {
        ']' => closed(stage),
        '-' => dashed(stage),
        _ => Ok(literal(stage, letter)),
    }
}

// Returns the cursor after a `]`, and what the `]` does (`Effect`): it closes the class. Fails with 41 `BadPattern` if the class has no item, or if a `-` is
// right before the `]`, as in `[a-]`.
fn closed(stage: Stage) -> Result<(Cursor, Effect), PatternFault>
    ensures { result ≡ closed stage }
{
    match stage {
        Stage::Single | Stage::Range => Ok((at(Stage::Outside), Effect::Close)),
        _ => Err(PatternFault::BadPattern),
    }
}

// Reads a `-` inside a class: returns the reader's next stage, after the `-` of a range; the `-` itself adds nothing to the class. Fails with 41
// `BadPattern` unless the character before the `-` may begin a range.
fn dashed(stage: Stage) -> Result<(Cursor, Effect), PatternFault>
    ensures { result ≡ dashed stage }
{
    match stage {
        Stage::Single => Ok((at(Stage::Dash), Effect::Nothing)),
        _ => Err(PatternFault::BadPattern),
    }
}
