// The limits of document 01, "The rule table"; specs/Limits.antt has the same numbers.
pub const STATES: usize = 8;

pub const LETTERS: usize = 16;

pub const SETS: usize = 4;

// A grid's byte for "no transition": a byte of the format, which the arrays of a read table keep.
pub const NO_TRANSITION: u8 = 255;

// The read table: arrays of arrays by letter, state and next state, as document 01 asks.
pub type Row = [u8; STATES];

pub type Square = [Row; STATES];

pub type Cells = [Square; LETTERS];

// The images of each state alone, by letter and state: one word of lanes each, made while the state's cell is read.
pub type SquareWords = [u64; STATES];

pub type Words = [SquareWords; LETTERS];
