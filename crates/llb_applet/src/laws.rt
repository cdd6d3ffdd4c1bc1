//! Laws that hold for the texts of all scripts.

ghost use Rattle.std.specs.Prelude.{◌≡◌, None, true};
ghost use Rattle.llb_applet.specs.Words.{bad_place_of};
ghost use Rattle.llb_applet.specs.ScriptTextLaws.{IsShellText, texts_of, only_ands, IsSplitAtAnds};

/// Proves that a text in which `read_script` finds no bad position (73 `ShellSyntax`) is a list of calls, each of one or more words, with a separator between
/// each two calls; and that the text of these calls, with single spaces between their words and separators, is read as the same commands.
pub fn reads_again(text: &str)
    ensures { bad_place_of text.now ≡ None → IsShellText text.now }
{
    let _ = text;
}

/// Proves that if `&&` is the only separator in a text, its calls are the lists of words between the words `&&`, and each call but the first runs only if the
/// last status is 0.
pub fn splits_at_ands(text: &str)
    ensures { only_ands (texts_of text.now) ≡ true → IsSplitAtAnds text.now }
{
    let _ = text;
}
