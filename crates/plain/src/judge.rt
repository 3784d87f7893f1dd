// The plain judge. It knows the table and nothing of trees.
ghost use Rattle.std.specs.Prelude.{◌≡◌, ◌↔◌, IsTrue};
ghost use Rattle.base.specs.Refusals.{refusal_number};
ghost use Rattle.rule.specs.Rule.{Rule};
ghost use Rattle.word.specs.Judging.{ask_room};
ghost use Rattle.word.specs.Keeps.{KeepsByLasso};
ghost use Rattle.word.specs.Inner.Prepared.{Prepared};
ghost use Rattle.plain.specs.PlainCall.{PlainCall, PlainDone, scratch_length};

use crate::lead::states_after;
use crate::limits::SCRATCH_LENGTH;
use crate::matrix::Matrix;
use crate::scratch::clear;
use base::refusal::Refusal;
use rule::limits::LETTERS;
use rule::lookup::ENTRIES;
use table::header::Header;
use word::lookups::Lookups;
use word::questions::walk_questions;
use word::walk::letters_left;

// The plain judge's answer: 0 and the verdict (1 yes, 0 no), or the number of the question that failed and zero. Numbers, since C reads it.
#[repr(C)]
#[derive(Clone, Copy)]
pub struct PlainAnswer {
    pub number: u8,
    pub verdict: u8,
}

// A refusal: its number and zero. It is promised for every number, so it stands beside the `From`.
pub fn plain_refusal(number: u8) -> PlainAnswer
    ensures { result ≡ record { number = number; verdict = 0 } }
{
    PlainAnswer { number, verdict: 0 }
}

impl From<Refusal> for PlainAnswer {
    ghost from_gives = { λ refusal answer. answer ≡ record { number = refusal_number refusal; verdict = 0 } };

    fn from(refusal: Refusal) -> PlainAnswer {
        plain_refusal(refusal.into())
    }
}

// The verdict on a walk, right for every rule with these numbers and these look-ups of the walk's letters. `Prepared` is asked in each function:
// look-ups are arrays of arrays, which no struct can hold with it.
fn walk_verdict<'a>(lookups: &Lookups, header: Header, u: &'a [u8], v: &'a [u8]) -> bool
    requires { (R : Rule) × Prepared R header lookups.now u.now v.now }
    ensures { (R : Rule) → Prepared R header lookups.now u.now v.now
        → (IsTrue result ↔ KeepsByLasso R u.now v.now) }
{
    // the states that "u" leads to from a starting state
    let lead = letters_left(u, v, false, 0);
    let from = states_after(lookups, header.start, lead);
    // the ways that one tail opens between any two states, then those of one or more tails
    let tail = letters_left(u, v, true, 0);
    let mut ways = Matrix::of_tail(lookups, tail, header.states);
    ways.close();
    // a state s such that "u and i tails lead from a starting state to s, and j further tails lead from s back to s
    // taking at least one transition of each set"
    ways.has_lasso(from, header.sets)
}

// The judge on look-ups that are ready for a walk: question 10 to the scratch bytes, then the verdict. It is right for every rule that the
// look-ups are of.
#[tactic(auto, using(crate::proofs::Judging::decides_byte), unfolding(crate::specs::PlainCall::scratch_length, crate::specs::PlainCall::scratch_after))]
pub fn judge_prepared<'a>(
    lookups: &Lookups,
    header: Header,
    u: &'a [u8],
    v: &'a [u8],
    scratch: &mut [u8],
) -> PlainAnswer
    requires { (R : Rule) × Prepared R header lookups.now u.now v.now }
    ensures { (R : Rule) → Prepared R header lookups.now u.now v.now
        → PlainDone (ask_room scratch_length scratch.old R) u.now v.now scratch.old
        result scratch.new }
{
    if scratch.len() < SCRATCH_LENGTH {
        return Refusal::NoRoom.into();
    }
    let verdict = walk_verdict(lookups, header, u, v);
    // "leaves them zero"
    clear(scratch);
    PlainAnswer {
        number: 0,
        verdict: u8::from(verdict),
    }
}

// THE PLAIN JUDGE: questions 1 to 6 to the table, 7 and 8 to the walk, 10 to the scratch bytes, then the verdict.
#[tactic(auto, unfolding(crate::specs::PlainCall::plain_outcome, crate::specs::PlainCall::scratch_after, word::specs::Judging::judge_questions))]
pub fn plain_judge<'a>(table: &[u8], u: &'a [u8], v: &'a [u8], scratch: &mut [u8]) -> PlainAnswer
    ensures { PlainCall table.now u.now v.now scratch.old result scratch.new }
{
    let mut lookups = [[0u64; ENTRIES]; LETTERS];
    match walk_questions(table, u, v, &mut lookups) {
        Err(refusal) => refusal.into(),
        Ok(header) => judge_prepared(&lookups, header, u, v, scratch),
    }
}
