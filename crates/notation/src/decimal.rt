// Digits, and numbers in decimal.
ghost use Rattle.std.specs.Prelude.{◌≡◌};
ghost use Rattle.notation.specs.Decimal.{decimal_within, digit_value};
ghost use Rattle.notation.specs.Testing.{HasNumbers, Tests};

use crate::lines::{part, separators};

// The value of a hexadecimal digit; nothing for any other letter.
#[tactic(auto, unfolding(crate::specs::Decimal::digit_value))]
pub fn digit(letter: u8) -> Option<u8>
    ensures { result ≡ digit_value letter }
{
    match letter {
        b'0'..=b'9' => Some(letter - b'0'),
        b'a'..=b'f' => Some(10 + (letter - b'a')),
        _ => None,
    }
}

// The number that a text has in decimal, if it is no larger than a limit.
pub fn number_of(text: &[u8], limit: u64) -> Option<u64>
    ensures { result ≡ decimal_within limit text.now }
{
    if text.is_empty() {
        return None;
    }
    let mut value = 0u64;
    for letter in text {
        let units = digit(*letter)?;
        if 9 < units {
            return None;
        }
        value = value.checked_mul(10)?.checked_add(u64::from(units))?;
    }
    if limit < value { None } else { Some(value) }
}

// Does a text have just these numbers, with one space between two?
pub fn numbers_are(text: &[u8], numbers: &[u64]) -> bool
    ensures { Tests result (HasNumbers text.now numbers.now) }
{
    let spaces = separators(text, b' ');
    if numbers.len() <= spaces {
        return false;
    }
    for (at, number) in numbers.iter().enumerate() {
        if number_of(part(text, b' ', at), u64::MAX) != Some(*number) {
            return false;
        }
    }
    true
}
