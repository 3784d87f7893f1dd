// The reader: questions 1 to 6 put to a table, and the call that gives its grid.
ghost use Rattle.std.specs.Prelude.{◌≡◌, drop};
ghost use Rattle.base.specs.Outcome.{refused};
ghost use Rattle.base.specs.Refusals.{Answers, refusal_number};
ghost use Rattle.table.specs.Table.{read_body, read_rule};
ghost use Rattle.table.specs.Inner.ReadRule.{Blank, NumbersOf, ReadBehind, ReadInto};
ghost use Rattle.table.specs.ReadCall.{ReadCall, grid_after, read_answer, read_outcome};

use crate::byte_reader::Reader;
use crate::cells::read_cells;
use crate::grid::put_cells;
use crate::header::Header;
use base::refusal::Refusal;
use rule::limits::{Cells, LETTERS, NO_TRANSITION, STATES, Words};

// The reader's answer: 0 and the rule's numbers, or the number of the question that failed and zeros. Numbers, since C reads it.
#[repr(C)]
#[derive(Clone, Copy)]
pub struct ReadAnswer {
    pub number: u8,
    pub states: usize,
    pub letters: usize,
    pub sets: usize,
    pub start: u16,
}

// A refusal: its number and zero for all else.
#[tactic(auto, unfolding(crate::specs::ReadCall::read_answer))]
impl From<Refusal> for ReadAnswer {
    ghost from_gives = { λ refusal answer. answer ≡ read_answer (refused (refusal_number refusal)) };

    fn from(refusal: Refusal) -> ReadAnswer {
        ReadAnswer {
            number: refusal.into(),
            states: 0,
            letters: 0,
            sets: 0,
            start: 0,
        }
    }
}

// Questions 4, 5 and 6: the cells behind the header, into blank arrays, and the end of the table.
fn read_body(
    table: &[u8],
    header: Header,
    cells: &mut Cells,
    words: &mut Words,
) -> Result<(), Refusal>
    requires { Blank cells.old words.old }
    ensures { ReadBehind (read_body header.states header.letters header.sets header.start (drop 4 table.now)) result cells.new words.new }
{
    let mut reader = Reader::new(table, 4);
    read_cells(&mut reader, header, cells, words)?;
    match reader.next() {
        Some(_) => Err(Refusal::TableTooLong),
        None => Ok(()),
    }
}

// Questions 1 to 6, with blank arrays. On yes they hold the rule's grid; on no they are blank. The words are those of the grid. Cells and words go
// side by side: both are arrays of arrays, which no struct can hold here. Each caller makes them blank on its own stack, so none is copied.
pub fn read_rule(table: &[u8], cells: &mut Cells, words: &mut Words) -> Result<Header, Refusal>
    requires { Blank cells.old words.old }
    ensures { ReadInto (read_rule table.now) result cells.new words.new }
{
    let [n, m, k, start, ..] = table else {
        return Err(Refusal::TableTooShort);
    };
    let header = Header::checked(
        usize::from(*n),
        usize::from(*m),
        usize::from(*k),
        u16::from(*start),
    )?;
    if let Err(refusal) = read_body(table, header, cells, words) {
        *cells = [[[NO_TRANSITION; STATES]; STATES]; LETTERS];
        *words = [[0; STATES]; LETTERS];
        return Err(refusal);
    }
    Ok(header)
}

// Questions 1 to 6, then 10; only then the grid is written. Answers the rule's numbers.
#[tactic(auto, using(crate::proofs::Asked::arrays_blank))]
fn put_grid(table: &[u8], grid: &mut [u8]) -> Result<Header, Refusal>
    ensures { Answers (read_outcome table.now grid.old) NumbersOf result × (grid.new ≡ grid_after (read_outcome table.now grid.old) grid.old) }
{
    // blank, on this stack: see `read_rule`
    let mut cells = [[[NO_TRANSITION; STATES]; STATES]; LETTERS];
    let mut words = [[0; STATES]; LETTERS];
    let header = read_rule(table, &mut cells, &mut words)?;
    if grid.len() < header.letters * header.states * header.states {
        return Err(Refusal::NoRoom);
    }
    put_cells(&cells, header, grid);
    Ok(header)
}

// THE READER: table bytes to grid bytes in a lent buffer. Questions 1 to 6, then 10; only then the grid is written.
#[tactic(auto, unfolding(crate::specs::ReadCall::read_answer))]
pub fn read(table: &[u8], grid: &mut [u8]) -> ReadAnswer
    ensures { ReadCall table.now grid.old result grid.new }
{
    match put_grid(table, grid) {
        Err(refusal) => refusal.into(),
        Ok(header) => ReadAnswer {
            number: 0,
            states: header.states,
            letters: header.letters,
            sets: header.sets,
            start: header.start,
        },
    }
}
