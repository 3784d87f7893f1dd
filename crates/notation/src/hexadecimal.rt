// Byte strings: two hexadecimal digits for each byte, `-` for none; `00*4096` is one byte so many times.
ghost use Rattle.std.specs.Prelude.{◌≡◌, [], Some};
ghost use Rattle.std.specs.Option.{option_map};
ghost use Rattle.notation.specs.Bytes.{bytes_in};
ghost use Rattle.notation.specs.Decimal.{decimal};
ghost use Rattle.notation.specs.Hexadecimal.{byte_string, hexadecimal, longest, no_longer, pair_byte, times};
ghost use Rattle.notation.specs.Testing.{Tests};

pub use crate::bytes::Bytes;
use crate::bytes::LONGEST;
use crate::decimal::{digit, number_of};
use check::same;

// The byte that two digits have.
fn pair(high: u8, low: u8) -> Option<u8>
    ensures { result ≡ pair_byte high low }
{
    let high = digit(high)?;
    let low = digit(low)?;
    Some(16 * high + low)
}

// The bytes of pairs of digits, put where no byte is. The text is cut as it is read; a digit that is left over is no byte.
fn pairs(text: &[u8], bytes: &mut Bytes) -> Option<()>
    requires { bytes.old.bytes ≡ [] }
    ensures { option_map (λ _. bytes.new.bytes) result ≡ no_longer longest (hexadecimal text.now) }
{
    let mut rest = text;
    while let [high, low, behind @ ..] = rest {
        bytes.push(pair(*high, *low)?)?;
        rest = behind;
    }
    if rest.is_empty() { Some(()) } else { None }
}

// A byte as many times as a text says.
fn run(byte: u8, count: &[u8], bytes: &mut Bytes) -> Option<()>
    ensures { option_map (λ _. bytes.new.bytes) result ≡ no_longer longest (times byte (decimal count.now)) }
{
    // std has no `From` between `usize` and `u64`.
    let count = number_of(count, LONGEST as u64)?;
    bytes.fill(byte, count as usize);
    Some(())
}

// The byte string that a text has, put in place of another: each has a long array, and so none is moved.
pub fn put(text: &[u8], bytes: &mut Bytes) -> Option<()>
    ensures { option_map (λ _. bytes.new.bytes) result ≡ byte_string text.now }
{
    bytes.clear();
    if same(text, b"-") {
        return Some(());
    }
    let [high, low, third, count @ ..] = text else {
        return pairs(text, bytes);
    };
    if *third != b'*' {
        return pairs(text, bytes);
    }
    run(pair(*high, *low)?, count, bytes)
}

// The byte string that a text has.
pub fn bytes_of(text: &[u8]) -> Option<Bytes>
    ensures { bytes_in result ≡ byte_string text.now }
{
    let mut bytes = Bytes::empty();
    put(text, &mut bytes)?;
    Some(bytes)
}

// Are these the bytes that a text has, all of them?
pub fn bytes_are(text: &[u8], bytes: &[u8]) -> bool
    ensures { Tests result (byte_string text.now ≡ Some bytes.now) }
{
    let mut stored = Bytes::empty();
    put(text, &mut stored).is_some() && same(stored.as_slice(), bytes)
}
