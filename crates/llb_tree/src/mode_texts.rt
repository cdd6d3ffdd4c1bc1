//! Modes as they are written: one to four octal digits.

ghost use Rattle.std.specs.Prelude.{◌≡◌, ◌≤◌};
ghost use Rattle.llb_tree.specs.ModeTexts.{mode_of, is_octal_digit};

use llb_wire::Same;
use std::marker::Model;

/// A mode, at most 4095. Contracts see the number.
#[derive(Clone, Copy)]
pub struct Mode {
    bits: u16,
}

impl Model for Mode {
    ghost use Rattle.std.specs.Prelude.{ℕ, ◌≤◌};

    ghost Value = { ℕ };

    ghost view = { λ m. m.bits };

    ghost invariant = { λ m. m.bits ≤ 4095 };

    ghost inverse = { λ n. record { bits = n } };
}

impl Mode {
    /// Reads a word of one to four octal digits as a mode; returns `None` for any other word.
    pub fn read(word: &str) -> Option<Mode>
        ensures { result ≡ mode_of word.now }
    {
        let digits = word.as_bytes();
        if digits.is_empty() {
            return None;
        }
        if digits.len() > 4 {
            return None;
        }
        let mut bits = 0u16;
        for digit in digits {
            if !is_octal_digit(*digit) {
                return None;
            }
            bits = 8 * bits + u16::from(*digit - b'0');
        }
        Some(Mode { bits })
    }

    /// Returns the mode as a number.
    pub fn bits(&self) -> u16
        ensures value { result ≡ self.now }
        ensures small { result ≤ 4095 }
    {
        self.bits
    }
}

impl Same for Mode {
    fn same(&self, other: &Mode) -> bool {
        self.bits == other.bits
    }
}

// Returns whether a byte is one of `0` to `7`.
fn is_octal_digit(byte: u8) -> bool
    ensures { result ≡ is_octal_digit byte }
{
    byte >= b'0' && byte <= b'7'
}
