// One letter of a table: its questions, and its look-up.
ghost use Rattle.base.specs.Refusals.{Answers};
ghost use Rattle.table.specs.LetterQuestions.{letter_questions};
ghost use Rattle.table.specs.Inner.Preparing.{PreparedLetter};

use crate::header::Header;
use crate::reader::read_rule;
use base::refusal::Refusal;
use rule::limits::{LETTERS, NO_TRANSITION, STATES};
use rule::lookup::{Lookup, fill_lookup};

// Questions 1 to 6 to a table, and 8 to a letter. On yes the letter's look-up is made in place.
#[tactic(auto, using(crate::proofs::Asked::arrays_blank))]
pub fn letter_questions(table: &[u8], letter: u8, lookup: &mut Lookup) -> Result<Header, Refusal>
    ensures { Answers (letter_questions table.now letter)
        (λ R header. PreparedLetter R header letter lookup.new) result }
{
    // blank, on this stack: see `read_rule`
    let mut cells = [[[NO_TRANSITION; STATES]; STATES]; LETTERS];
    let mut words = [[0; STATES]; LETTERS];
    let header = read_rule(table, &mut cells, &mut words)?;
    let a = usize::from(letter);
    if header.letters <= a {
        return Err(Refusal::LetterOutOfRange);
    }
    fill_lookup(&words[a], lookup);
    Ok(header)
}
