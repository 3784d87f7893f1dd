// The fields of a line that have byte strings.
ghost use Rattle.std.specs.Prelude.{◌≡◌};
ghost use Rattle.notation.specs.Bytes.{bytes_in};
ghost use Rattle.notation.specs.Hexadecimal.{byte_string};
ghost use Rattle.notation.specs.Parts.{field_at};

use notation::bytes::Bytes;
use notation::hexadecimal::put;
use notation::lines::field;

// The byte string that a field has. It is put where it is answered from, and not moved once more, as the answer of another function would be.
pub fn field_bytes(line: &[u8], number: usize) -> Option<Bytes>
    ensures { bytes_in result ≡ byte_string (field_at line.now number) }
{
    let mut bytes = Bytes::empty();
    put(field(line, number), &mut bytes)?;
    Some(bytes)
}
