//! Laws of reading patterns.

ghost use Rattle.std.specs.Prelude.{◌≡◌, ◌↔◌, List, Ok, Err};
ghost use Rattle.llb_glob.specs.declared.item.Item.{Item};
ghost use Rattle.llb_glob.specs.Pattern.{pattern_of};
ghost use Rattle.llb_glob.specs.ClasslessPatterns.{simple_pattern_of};
ghost use Rattle.llb_glob.specs.PatternGrammar.{SpellsPattern};

use crate::fault::PatternFault;

/// Proves that a text is read as the pattern that it spells by the grammar, which does not mention how parts are read. The text is
/// refused as a bad pattern exactly if it spells none, and no text spells two patterns.
pub fn reads_by_the_grammar(text: &str)
    ensures spelled { (parts : List (List Item)) → (pattern_of text.now ≡ Ok parts) ↔ SpellsPattern parts text.now }
    ensures refused { (pattern_of text.now ≡ Err PatternFault.BadPattern) ↔ ((parts : List (List Item)) → ¬ SpellsPattern parts text.now) }
    ensures one { (parts others : List (List Item)) → SpellsPattern parts text.now → SpellsPattern others text.now → parts ≡ others }
{
    let _ = text;
}

/// Proves that the rules with classes extend the rules without classes, by which each `[` needs a `\` before it: a text that is a pattern by the rules without
/// classes is read as the same pattern by the rules with classes.
pub fn reads_without_classes(text: &str)
    ensures { (parts : List (List Item)) → simple_pattern_of text.now ≡ Ok parts → pattern_of text.now ≡ Ok parts }
{
    let _ = text;
}
