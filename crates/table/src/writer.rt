// The writer: a rule's numbers and its grid bytes to table bytes in a lent buffer.
ghost use Rattle.std.specs.Prelude.{◌≡◌, [], ◌∷◌, ◌+◌, ◌*◌, ◌<◌, ◌≤◌, length};
ghost use Rattle.base.specs.Outcome.{accepted, refused};
ghost use Rattle.base.specs.Refusals.{refusal_number, Answers};
ghost use Rattle.base.specs.LentBuffer.{stored};
ghost use Rattle.rule.specs.Limits.{max_states};
ghost use Rattle.table.specs.Table.{cell_bytes, map_byte, set_bytes, table_bytes, write_rule};
ghost use Rattle.table.specs.WriteCall.{WriteCall, table_after, write_answer, write_outcome};
ghost use Rattle.table.specs.Inner.Header.{header_outcome};
ghost use Rattle.table.specs.Inner.Writing.{counted_as, row_cells, transition_count};

use crate::header::{Header, fits};
use base::refusal::Refusal;
use rule::limits::NO_TRANSITION;

// The writer's answer: 0 and the table's length, or the number of the question that failed and zero. Numbers, since C reads it.
#[repr(C)]
#[derive(Clone, Copy)]
pub struct WriteAnswer {
    pub number: u8,
    pub written: usize,
}

// A refusal: its number and zero.
#[tactic(auto, unfolding(crate::specs::WriteCall::write_answer))]
impl From<Refusal> for WriteAnswer {
    ghost from_gives = { λ refusal answer. answer ≡ write_answer (refused (refusal_number refusal)) };

    fn from(refusal: Refusal) -> WriteAnswer {
        WriteAnswer {
            number: refusal.into(),
            written: 0,
        }
    }
}

// Question 11's "each 255 or below 2^k", and the number of transitions. The loop ends at the first misfit, so it is no filter and count.
fn count_transitions(grid: &[u8], k: usize) -> Option<usize>
    requires { k < 16 }
    ensures { counted_as result ≡ transition_count k grid.now }
{
    let mut count = 0;
    for sets in grid {
        if *sets == NO_TRANSITION {
            continue;
        }
        if !fits(u16::from(*sets), k) {
            return None;
        }
        count += 1;
    }
    Some(count)
}

// "A cell is one map byte of next states": bit r stands where the row has a transition to r.
fn row_map(row: &[u8]) -> u8
    requires { length row.now ≤ max_states }
    ensures { result ≡ map_byte row.now }
{
    let mut map = 0;
    for (r, sets) in row.iter().enumerate() {
        if *sets != NO_TRANSITION {
            map += 1 << r;
        }
    }
    map
}

// "Then as many set bytes as the map has standing bits, lowest bit first", stored from a place on. Answers the place
// behind them.
fn put_sets(row: &[u8], table: &mut [u8], from: usize) -> usize
    requires { from + length (set_bytes row.now) ≤ length table.old }
    ensures { (result ≡ from + length (set_bytes row.now))
        × (table.new ≡ stored from (set_bytes row.now) table.old) }
{
    // Only transitions have a byte, so the place is no place of the row.
    let mut at = from;
    for sets in row {
        if *sets != NO_TRANSITION {
            table[at] = *sets;
            at += 1;
        }
    }
    at
}

// A cell: the map byte, then the set bytes, stored from a place on. Answers the place behind it.
fn put_cell(row: &[u8], table: &mut [u8], from: usize) -> usize
    requires { (length row.now ≤ max_states) × (from + length (cell_bytes row.now) ≤ length table.old) }
    ensures { (result ≡ from + length (cell_bytes row.now))
        × (table.new ≡ stored from (cell_bytes row.now) table.old) }
{
    table[from] = row_map(row);
    put_sets(row, table, from + 1)
}

// "Then m times n cells, letter 0 with states 0 to n−1 first": a cell for each row of the grid, behind the header.
fn put_cells(grid: &[u8], header: Header, table: &mut [u8])
    requires { (length grid.now ≡ header.letters * header.states * header.states)
        × (4 + length (row_cells header.states (header.letters * header.states) grid.now) ≤ length table.old) }
    ensures { table.new ≡ stored 4 (row_cells header.states (header.letters * header.states) grid.now) table.old }
{
    let n = header.states;
    let mut at = 4;
    for row in 0..header.letters * n {
        let from = row * n;
        at = put_cell(&grid[from..from + n], table, at);
    }
}

// "Table bytes: n, m, k, the map of starting states": the header. Each of them fits a byte.
#[tactic(auto, unfolding(base::specs::LentBuffer::stored))]
fn put_header(header: Header, table: &mut [u8])
    requires { (header.start < 256) × (4 ≤ length table.old) }
    ensures { table.new ≡ stored 0 (header.states ∷ header.letters ∷ header.sets ∷ header.start ∷ []) table.old }
{
    table[..4].copy_from_slice(&[
        header.states as u8,
        header.letters as u8,
        header.sets as u8,
        header.start as u8,
    ]);
}

// Question 11, behind 2 and 3: "has the grid m·n·n bytes, each 255 or below 2^k?" On yes the exact length of the table:
// the header, a map byte for each row and a set byte for each transition.
fn table_length(header: Header, grid: &[u8]) -> Result<usize, Refusal>
    requires { header_outcome header.states header.letters header.sets header.start ≡ accepted tt }
    ensures { Answers (write_rule header.states header.letters header.sets header.start grid.now) (λ R size. size ≡ length (table_bytes R)) result }
{
    let rows = header.letters * header.states;
    if grid.len() != rows * header.states {
        return Err(Refusal::GridMisfit);
    }
    let count = count_transitions(grid, header.sets).ok_or(Refusal::GridMisfit)?;
    Ok(4 + rows + count)
}

// Questions 2, 3 and 11, then 10; only then the table is written. Answers its length.
fn put_table(
    n: usize,
    m: usize,
    k: usize,
    start: u16,
    grid: &[u8],
    table: &mut [u8],
) -> Result<usize, Refusal>
    ensures { Answers (write_outcome n m k start grid.now table.old) (λ bytes size. size ≡ length bytes) result
        × (table.new ≡ table_after (write_outcome n m k start grid.now table.old) table.old) }
{
    let header = Header::checked(n, m, k, start)?;
    let length = table_length(header, grid)?;
    if table.len() < length {
        return Err(Refusal::NoRoom);
    }
    put_header(header, table);
    put_cells(grid, header, table);
    Ok(length)
}

// THE WRITER: a rule's numbers and grid bytes to table bytes in a lent buffer. C lends four numbers; they are a `Header` once they are asked. Questions 2, 3 and 11, then 10; only then
// the table is written.
#[tactic(auto, unfolding(crate::specs::WriteCall::write_answer))]
pub fn write(n: usize, m: usize, k: usize, start: u16, grid: &[u8], table: &mut [u8]) -> WriteAnswer
    ensures { WriteCall n m k start grid.now table.old result table.new }
{
    match put_table(n, m, k, start, grid, table) {
        Err(refusal) => refusal.into(),
        Ok(written) => WriteAnswer { number: 0, written },
    }
}
