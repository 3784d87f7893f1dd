// The look-up of a set's successors as a call: for screens that show which accepting sets a letter can serve.
ghost use Rattle.std.specs.Prelude.{◌≡◌, ℕ, suc};
ghost use Rattle.base.specs.Outcome.{refused};
ghost use Rattle.base.specs.Lists.{tabulate};
ghost use Rattle.base.specs.Refusals.{refusal_number};
ghost use Rattle.rule.specs.Limits.{max_sets};
ghost use Rattle.rule.specs.Inner.Lanes.{map_of};
ghost use Rattle.successors.specs.SuccessorsCall.{SuccessorsCall, successors_answer};

use base::refusal::Refusal;
use rule::lanes::map_of;
use rule::limits::SETS;
use rule::lookup::{ENTRIES, look_up};
use std::array;
use table::letter::letter_questions;

// 0, the map of the next states, and for each accepting set the map of those that a transition of it reaches: set i at place i − 1,
// 0 for a set that the rule does not have. Or the number of the question that failed and zeros. Numbers, since C reads it.
#[repr(C)]
#[derive(Clone, Copy)]
pub struct SuccessorsAnswer {
    pub number: u8,
    pub next: u16,
    pub reached: [u16; SETS],
}

// A refusal: its number and zero for all else.
impl From<Refusal> for SuccessorsAnswer {
    ghost from_gives = { λ refusal answer. (a s : ℕ) → answer ≡ successors_answer (refused (refusal_number refusal)) a s };

    #[tactic(auto, unfolding(crate::specs::SuccessorsCall::successors_answer))]
    fn from(refusal: Refusal) -> SuccessorsAnswer {
        SuccessorsAnswer {
            number: refusal.into(),
            next: 0,
            reached: [0; SETS],
        }
    }
}

// The maps of the accepting sets in a word of images, set 1 first.
fn maps_by_set(images: u64) -> [u16; SETS]
    ensures { result ≡ tabulate max_sets (λ i. map_of images (suc i)) }
{
    array::from_fn(|i| map_of(images, i + 1))
}

// THE SUCCESSORS of some states under a letter. Questions 1 to 6, then 8.
pub fn successors(table: &[u8], letter: u8, states: u16) -> SuccessorsAnswer
    ensures { SuccessorsCall table.now letter states result }
{
    let mut lookup = [0; ENTRIES];
    match letter_questions(table, letter, &mut lookup) {
        Err(refusal) => refusal.into(),
        Ok(_) => {
            let images = look_up(&lookup, states);
            SuccessorsAnswer {
                number: 0,
                next: map_of(images, 0),
                reached: maps_by_set(images),
            }
        }
    }
}
