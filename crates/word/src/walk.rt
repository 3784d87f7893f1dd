// Walks: the endless words u v v v …, with a lead-in u and a tail v that repeats for ever. Questions 7 and 8, and the
// letters still to be read. The lead-in and the tail stay two slices, as the calls for C lend them: the letters left are a part of one of them.
ghost use Rattle.std.specs.Prelude.{◌≡◌};
ghost use Rattle.base.specs.Outcome.{number_of};
ghost use Rattle.base.specs.Refusals.{AnswersAlone};
ghost use Rattle.word.specs.Walk.{lengths_fit, walk_outcome, letters_left};

use base::bytes::all_below;
use base::refusal::Refusal;

// "A walk is a lead-in u (0 to 4,096 letters, a byte each) and a tail v (1 to 4,096)."
pub const MAX_LENGTH: usize = 4096;

// "Are u and v of allowed length?"
#[tactic(auto, unfolding(crate::specs::Walk::lengths_fit))]
pub fn lengths_fit(u: &[u8], v: &[u8]) -> bool
    ensures { result ≡ lengths_fit u.now v.now }
{
    u.len() <= MAX_LENGTH && 1 <= v.len() && v.len() <= MAX_LENGTH
}

// Questions 7 and 8 to a walk by itself: "Is each letter, u before v, below m?"
#[tactic(auto, unfolding(crate::specs::Walk::walk_outcome, crate::specs::Walk::ask_walk))]
pub fn check_walk(m: usize, u: &[u8], v: &[u8]) -> Result<(), Refusal>
    ensures { AnswersAlone (walk_outcome m u.now v.now) result }
{
    if !lengths_fit(u, v) {
        return Err(Refusal::WalkLength);
    }
    if !(all_below(m, u) && all_below(m, v)) {
        return Err(Refusal::LetterOutOfRange);
    }
    Ok(())
}

// The number of the first of questions 7 and 8 that is answered no, or 0: the number that `WalkNumber` speaks of.
pub fn walk_number(m: usize, u: &[u8], v: &[u8]) -> u8
    ensures { result ≡ number_of (walk_outcome m u.now v.now) }
{
    match check_walk(m, u, v) {
        Err(refusal) => refusal.into(),
        Ok(()) => 0,
    }
}

// "At each place the letters still to be read are the rest of whichever of u and v is being read": of v in the tail,
// of u before it. From a place past the end there are none.
#[tactic(auto, unfolding(crate::specs::Walk::letters_left))]
pub fn letters_left<'a>(u: &'a [u8], v: &'a [u8], in_tail: bool, at: usize) -> &'a [u8]
    ensures { result.now ≡ letters_left in_tail u.now v.now at }
{
    let read = if in_tail { v } else { u };
    read.get(at..).unwrap_or(&[])
}
