// Two walks compared letter by letter, wherever their lead-ins end and however often their tails are written.
ghost use Rattle.std.specs.Prelude.{true, false, ◌≡◌, ◌↔◌, ◌+◌, ◌<◌, IsTrue, MatchResult, length};
ghost use Rattle.base.specs.Refusals.{Answers, refusal_number};
ghost use Rattle.word.specs.Walk.{SameLetters, lengths_fit, letter_at};
ghost use Rattle.spelling.specs.Inner.Comparing.{wrapped};
ghost use Rattle.spelling.specs.SameCall.{SameCall, same_outcome};

use base::refusal::Refusal;
use word::walk::lengths_fit;

// The answer: 0 and whether the walks are one (1 yes, 0 no), or the number of the question that failed and zero. Numbers, since C reads it.
#[repr(C)]
#[derive(Clone, Copy)]
pub struct SameAnswer {
    pub number: u8,
    pub same: u8,
}

// A refusal: its number and zero for all else.
impl From<Refusal> for SameAnswer {
    ghost from_gives = { λ refusal answer. answer ≡ record { number = refusal_number refusal; same = 0 } };

    fn from(refusal: Refusal) -> SameAnswer {
        SameAnswer {
            number: refusal.into(),
            same: 0,
        }
    }
}

// A walk of allowed length.
#[derive(Clone, Copy)]
struct Walk<'a> {
    u: &'a [u8],
    v: &'a [u8],
    ghost fits: { lengths_fit u.now v.now ≡ true },
}

impl<'a> Walk<'a> {
    // Question 7 to a walk.
    fn checked(u: &'a [u8], v: &'a [u8]) -> Result<Walk<'a>, Refusal>
        ensures { MatchResult result (λ walk. (walk.u.now ≡ u.now) × (walk.v.now ≡ v.now))
            (λ refusal. (lengths_fit u.now v.now ≡ false) × (refusal_number refusal ≡ 7)) }
    {
        if !lengths_fit(u, v) {
            return Err(Refusal::WalkLength);
        }
        Ok(Walk { u, v })
    }

    // The letter at a position before the end of the first tail.
    fn letter_at(&self, position: usize) -> u8
        requires { position < length self.now.u.now + length self.now.v.now }
        ensures { result ≡ letter_at self.now.u.now self.now.v.now position }
    {
        if position < self.u.len() {
            self.u[position]
        } else {
            self.v[position - self.u.len()]
        }
    }

    // The position to read next: behind the last letter of the first tail, its first again.
    fn position_after(&self, position: usize) -> usize
        requires { position < length self.now.u.now + length self.now.v.now }
        ensures { result ≡ wrapped position (length self.now.u.now) (length self.now.u.now + length self.now.v.now) }
    {
        if position + 1 < self.u.len() + self.v.len() {
            position + 1
        } else {
            self.u.len()
        }
    }
}

// Do two walks have the same letter at every position? They do if they agree up to the end of the longer lead-in and then on one
// letter less than both tails have together. The two positions go round in tails of
// two lengths, so neither is the loop's counter.
fn same_letters(first: &Walk, second: &Walk) -> bool
    ensures { IsTrue result ↔ SameLetters first.now.u.now first.now.v.now second.now.u.now second.now.v.now }
{
    let lead = first.u.len().max(second.u.len());
    let count = lead + first.v.len() + second.v.len() - 1;
    let mut position = 0;
    let mut position2 = 0;
    for _ in 0..count {
        let letter = first.letter_at(position);
        let letter2 = second.letter_at(position2);
        if letter != letter2 {
            return false;
        }
        position = first.position_after(position);
        position2 = second.position_after(position2);
    }
    true
}

// Question 7 to the first walk, then to the second; then whether they have the same letter at every position.
#[tactic(auto, unfolding(crate::specs::SameCall::same_outcome))]
fn compare(u: &[u8], v: &[u8], u2: &[u8], v2: &[u8]) -> Result<bool, Refusal>
    ensures { Answers (same_outcome u.now v.now u2.now v2.now) (λ _ same. IsTrue same ↔ SameLetters u.now v.now u2.now v2.now) result }
{
    let first = Walk::checked(u, v)?;
    let second = Walk::checked(u2, v2)?;
    Ok(same_letters(&first, &second))
}

// ARE TWO WALKS ONE: the questions, and the answer.
pub fn same_walk(u: &[u8], v: &[u8], u2: &[u8], v2: &[u8]) -> SameAnswer
    ensures { SameCall u.now v.now u2.now v2.now result }
{
    match compare(u, v, u2, v2) {
        Err(refusal) => refusal.into(),
        Ok(same) => SameAnswer {
            number: 0,
            same: same.into(),
        },
    }
}
