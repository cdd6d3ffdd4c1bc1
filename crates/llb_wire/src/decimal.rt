//! Decimal numbers in texts.

ghost use Rattle.std.specs.Prelude.{◌≡◌};
ghost use Rattle.std.specs.Option.{option_map};
ghost use Rattle.llb_wire.specs.Decimal.{capped, magnitude};

/// Reads a decimal number; a number above 2^64 - 1 is read as 2^64 - 1. Returns `None` if the text is empty or has a byte
/// that is no digit. Does not allocate.
#[tactic(auto, unfolding(crate::specs::Decimal::magnitude))]
pub fn magnitude(text: &[u8]) -> Option<u64>
    ensures { result ≡ option_map capped (magnitude text.now) }
{
    if text.is_empty() {
        return None;
    }
    let mut number: u64 = 0;
    for byte in text {
        if !byte.is_ascii_digit() {
            return None;
        }
        number = number
            .saturating_mul(10)
            .saturating_add(u64::from(*byte - b'0'));
    }
    Some(number)
}
