// Why a call is refused: each refusal is the number of the question that is answered no.
ghost use Rattle.std.specs.Prelude.{◌≡◌, ◌++◌, Some, codes, decimal};
ghost use Rattle.base.specs.Refusals.{refusal_number};

use std::error::Error;
use std::fmt;

// The refusals, each by its number in the documents.
#[derive(Clone, Copy, Debug, PartialEq, Eq)]
pub enum Refusal {
    TableTooShort = 1,
    NumbersOutOfRange = 2,
    StartMisfit = 3,
    CellMissing = 4,
    CellMisfit = 5,
    TableTooLong = 6,
    WalkLength = 7,
    LetterOutOfRange = 8,
    NoRecord = 9,
    NoRoom = 10,
    GridMisfit = 11,
    JobMisfit = 12,
}

impl From<Refusal> for u8 {
    ghost from_gives = { λ refusal given. given ≡ refusal_number refusal };

    fn from(refusal: Refusal) -> u8 {
        // the number of the case: std has no `From` of an enum
        refusal as u8
    }
}

// As the program prints a refusal.
impl fmt::Display for Refusal {
    ghost output = { λ refusal. Some (codes "refused " ++ decimal (refusal_number refusal)) };

    fn fmt<W: fmt::Write>(&self, f: &mut fmt::Formatter<W>) -> fmt::Result {
        write!(f, "refused {}", u8::from(*self))
    }
}

impl Error for Refusal {}
