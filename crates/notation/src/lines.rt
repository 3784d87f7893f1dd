// Texts in parts: the lines of a file, the fields of a line, the numbers of a field.
ghost use Rattle.std.specs.Prelude.{◌≡◌, ◌+◌, drop, length};
ghost use Rattle.notation.specs.Parts.{field_at, part_at, parts};

// What stands between the fields of a line.
pub const TAB: u8 = 9;

// What stands behind each line.
pub const NEWLINE: u8 = 10;

// The part with this number, from 0, between the separators; nothing where there are fewer parts.
pub fn part(text: &[u8], separator: u8, number: usize) -> &[u8]
    ensures { result.now ≡ part_at separator text.now number }
{
    text.split(|letter| *letter == separator)
        .nth(number)
        .unwrap_or(&[])
}

// The first place of a separator from a place on; the text's end where there is none.
pub fn end_of(text: &[u8], separator: u8, from: usize) -> usize
    ensures { result ≡ from + length (part_at separator (drop from text.now) 0) }
{
    from + part(text.get(from..).unwrap_or(&[]), separator, 0).len()
}

// A field of a line.
pub fn field(line: &[u8], number: usize) -> &[u8]
    ensures { result.now ≡ field_at line.now number }
{
    part(line, TAB, number)
}

// How many separators a text has: one less than parts.
pub fn separators(text: &[u8], separator: u8) -> usize
    ensures { result + 1 ≡ length (parts separator text.now) }
{
    text.iter().filter(|letter| **letter == separator).count()
}
