// Grid bytes from the read table: letter by letter, row by row, column by column.
ghost use Rattle.std.specs.Prelude.{◌≡◌, ◌+◌, ◌*◌, ◌≤◌, length, take};
ghost use Rattle.base.specs.LentBuffer.{stored};
ghost use Rattle.table.specs.Table.{grid_bytes};
ghost use Rattle.table.specs.Inner.GridBytes.{narrow, square_bytes};

use crate::header::Header;
use rule::limits::{Cells, Row, Square};

// The first n bytes of a row, stored from a place on. Answers the place behind them. Buffer and place go side by side, as in the definition `stored`.
#[tactic(auto, using(crate::proofs::GridWriting::part_stored))]
fn put_row(row: &Row, header: Header, out: &mut [u8], from: usize) -> usize
    requires { from + header.states ≤ length out.old }
    ensures { (result ≡ from + length (take header.states row.now)) × ((length (take header.states row.now) ≡ header.states)
        × (out.new ≡ stored from (take header.states row.now) out.old)) }
{
    let to = from + header.states;
    out[from..to].copy_from_slice(&row[..header.states]);
    to
}

// The n rows of a square.
fn put_letter(square: &Square, header: Header, out: &mut [u8], from: usize) -> usize
    requires { from + header.states * header.states ≤ length out.old }
    ensures { (result ≡ from + length (square_bytes header.states square.now)) × ((result ≡ from + header.states * header.states)
        × (out.new ≡ stored from (square_bytes header.states square.now) out.old)) }
{
    let mut at = from;
    for row in &square[..header.states] {
        at = put_row(row, header, out, at);
    }
    at
}

// The squares of m letters.
pub fn put_cells(cells: &Cells, header: Header, out: &mut [u8])
    requires { header.letters * (header.states * header.states) ≤ length out.old }
    ensures { out.new ≡ stored 0 (grid_bytes (narrow header.states header.letters cells.now)) out.old }
{
    let mut at = 0;
    for square in &cells[..header.letters] {
        at = put_letter(square, header, out, at);
    }
}
