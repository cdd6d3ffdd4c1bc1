//! Laws that hold for all texts and all entries.

ghost use Rattle.llb_asm.specs.TextGrammar.{HasOneAnswer};
ghost use Rattle.llb_asm.specs.DisassembledText.{ReadsBack};

use llb_ops::Entries;

/// Proves that a text is read as at most one list of entries, that it has at most one first fault, and that a text that is read as a list has no fault.
pub fn one_answer(text: &[u8])
    ensures { HasOneAnswer text.now }
{
    let _ = text;
}

/// Proves that what `disassemble` writes for the entries of a definition is read as these entries.
pub fn reads_back(entries: &Entries)
    ensures { ReadsBack entries.now }
{
    for entry in entries.as_slice() {
        entry.is_bytes();
    }
}
