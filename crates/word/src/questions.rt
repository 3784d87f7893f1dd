// The questions to a table and a walk, and the look-ups of the walk's letters. Both judges begin so.
ghost use Rattle.base.specs.Refusals.{Answers};
ghost use Rattle.word.specs.Judging.{walk_questions};
ghost use Rattle.word.specs.Inner.Prepared.{Prepared};

use crate::lookups::{Lookups, walk_lookups};
use crate::walk::check_walk;
use base::refusal::Refusal;
use rule::limits::{LETTERS, NO_TRANSITION, STATES};
use table::header::Header;
use table::reader::read_rule;

// Questions 1 to 6 to a table, 7 and 8 to a walk. On yes the look-ups of the walk's letters are made in place.
pub fn walk_questions(
    table: &[u8],
    u: &[u8],
    v: &[u8],
    lookups: &mut Lookups,
) -> Result<Header, Refusal>
    ensures { Answers (walk_questions table.now u.now v.now)
        (λ R header. Prepared R header lookups.new u.now v.now) result }
{
    // blank, on this stack: see `read_rule`
    let mut cells = [[[NO_TRANSITION; STATES]; STATES]; LETTERS];
    let mut words = [[0; STATES]; LETTERS];
    let header = read_rule(table, &mut cells, &mut words)?;
    check_walk(header.letters, u, v)?;
    walk_lookups(&words, header.letters, u, v, lookups);
    Ok(header)
}
