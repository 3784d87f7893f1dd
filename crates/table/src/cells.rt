// Reading the cells of a table (questions 4 and 5) into arrays of arrays, and each state's images into a word.
ghost use Rattle.std.specs.Prelude.{◌≡◌, ◌<◌, ◌≤◌, IfOk};
ghost use Rattle.rule.specs.Limits.{max_states};
ghost use Rattle.rule.specs.Inner.Padded.{blank_cells, blank_row, blank_square};
ghost use Rattle.rule.specs.Inner.Lookup.{grid_words, row_word, square_words};
ghost use Rattle.table.specs.Table.{read_byte, read_cell, read_row};
ghost use Rattle.table.specs.Inner.Reader.{ahead, byte_read, progress, read_padded, read_square};

use crate::byte_reader::Reader;
use crate::header::Header;
use base::refusal::Refusal;
use rule::lanes::{in_lane, spread, with_state};
use rule::limits::{Cells, Row, Square, SquareWords, Words};

// Questions 4 and 5 at one cell byte, in which the bits below `width` may stand: it is not above 255 shifted down to these bits. This
// limit is the same for many bytes; compiled, `fits` shifts each byte.
#[tactic(auto, using(crate::proofs::CellByte::byte_missing))]
fn read_byte(reader: &mut Reader<'_>, width: usize) -> Result<u8, Refusal>
    requires { width ≤ max_states }
    ensures { byte_read (ahead reader.new) result ≡ read_byte width (ahead reader.old) }
{
    match reader.next() {
        None => Err(Refusal::CellMissing),
        Some(byte) => {
            if 255u16 >> (8 - width) < u16::from(byte) {
                return Err(Refusal::CellMisfit);
            }
            Ok(byte)
        }
    }
}

// The set bytes of a cell, "as many set bytes as the map has standing bits, lowest bit first", into a blank row, and the row's word.
// The count of ones on the cell map is the number of set bytes that follow; each takes its bit from the map.
// In lane 0 the word has the map itself.
fn read_row(
    reader: &mut Reader<'_>,
    map: u8,
    header: Header,
    row: &mut Row,
    word: &mut u64,
) -> Result<(), Refusal>
    requires { row.old ≡ blank_row }
    ensures { (progress (ahead reader.new) result row.new ≡ read_row header.sets max_states map (ahead reader.old))
        × IfOk result (λ _. word.new ≡ row_word row.new) }
{
    let mut rest = u64::from(map);
    let mut made = in_lane(u16::from(map), 0);
    for _ in 0..map.count_ones() {
        // `usize` has no `From` of `u32`.
        let r = rest.trailing_zeros() as usize;
        rest &= rest - 1;
        let sets = read_byte(reader, header.sets)?;
        row[r] = sets;
        made = with_state(made, r, spread(2 * u16::from(sets)));
    }
    *word = made;
    Ok(())
}

// A cell: its map byte, in which bits below n may stand, then its set bytes, into a blank row.
#[tactic(auto, unfolding(crate::specs::Table::read_cell))]
fn read_cell(
    reader: &mut Reader<'_>,
    header: Header,
    row: &mut Row,
    word: &mut u64,
) -> Result<(), Refusal>
    requires { row.old ≡ blank_row }
    ensures { (progress (ahead reader.new) result row.new ≡ read_cell header.states header.sets max_states (ahead reader.old))
        × IfOk result (λ _. word.new ≡ row_word row.new) }
{
    let map = read_byte(reader, header.states)?;
    read_row(reader, map, header, row, word)
}

// The n cells of one letter, states 0 to n−1.
fn read_letter(
    reader: &mut Reader<'_>,
    header: Header,
    square: &mut Square,
    words: &mut SquareWords,
) -> Result<(), Refusal>
    requires { (square.old ≡ blank_square) × (words.old ≡ square_words square.old) }
    ensures { (progress (ahead reader.new) result square.new ≡ read_square header.states header.sets (ahead reader.old))
        × IfOk result (λ _. words.new ≡ square_words square.new) }
{
    for state in 0..header.states {
        read_cell(reader, header, &mut square[state], &mut words[state])?;
    }
    Ok(())
}

// "m times n cells, letter 0 with states 0 to n−1 first".
pub fn read_cells(
    reader: &mut Reader<'_>,
    header: Header,
    cells: &mut Cells,
    words: &mut Words,
) -> Result<(), Refusal>
    requires { (cells.old ≡ blank_cells) × (words.old ≡ grid_words cells.old) }
    ensures { (progress (ahead reader.new) result cells.new ≡ read_padded header.states header.letters header.sets (ahead reader.old))
        × IfOk result (λ _. words.new ≡ grid_words cells.new) }
{
    for letter in 0..header.letters {
        read_letter(reader, header, &mut cells[letter], &mut words[letter])?;
    }
    Ok(())
}
