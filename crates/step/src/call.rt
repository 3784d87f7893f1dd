// One letter on a record.
ghost use Rattle.std.specs.Prelude.{◌≡◌, ℕ};
ghost use Rattle.base.specs.Outcome.{refused};
ghost use Rattle.base.specs.Refusals.{refusal_number};
ghost use Rattle.rule.specs.Rule.{Rule};
ghost use Rattle.table.specs.Inner.Preparing.{PreparedLetter};
ghost use Rattle.step.specs.StepCall.{StepCall, StepDone, step_answer, step_under};

use crate::pass::step_nodes;
use base::refusal::Refusal;
use rule::lookup::{ENTRIES, Lookup};
use table::header::Header;
use table::letter::letter_questions;
use tree::nodes::Tree;
use tree::writing::put_record;

// 0, the new record's length, the accepting and the stable map by old node number; or the number of the question that
// failed and zeros: the C interface.
#[repr(C)]
#[derive(Clone, Copy)]
pub struct StepAnswer {
    pub number: u8,
    pub written: usize,
    pub accepting: u16,
    pub stable: u16,
}

// A refusal: its number and zero for all else.
#[tactic(auto, unfolding(crate::specs::StepCall::step_answer))]
impl From<Refusal> for StepAnswer {
    ghost from_gives = { λ refusal answer. answer ≡ step_answer (refused (refusal_number refusal)) };

    fn from(refusal: Refusal) -> StepAnswer {
        StepAnswer {
            number: refusal.into(),
            written: 0,
            accepting: 0,
            stable: 0,
        }
    }
}

// Questions 9 and 10, then the letter, by its look-up and the numbers of a rule. It is right for every rule and letter that these are of.
fn step_prepared(lookup: &Lookup, header: Header, bytes: &[u8], buffer: &mut [u8]) -> StepAnswer
    requires { (R : Rule) × (a : ℕ) × PreparedLetter R header a lookup.now }
    ensures { (R : Rule) (a : ℕ) → PreparedLetter R header a lookup.now
        → StepDone (step_under R a bytes.now buffer.old) buffer.old result buffer.new }
{
    // The form of document 01: `let .. else` takes the node count out of the check's answer, the tree standing beside it.
    let checked = Tree::checked(bytes, header.states, header.sets);
    let Some(count) = checked.count else {
        return Refusal::NoRecord.into();
    };
    if buffer.len() < Tree::RECORD {
        return Refusal::NoRoom.into();
    }
    let mut tree = checked.tree.laid();
    prove_eq!(tree.count, count);
    // at most four sets
    let stepped = step_nodes(lookup, header.sets as u8, &mut tree);
    let written = put_record(tree.nodes(), header.states, buffer);
    StepAnswer {
        number: 0,
        written,
        accepting: stepped.accepting,
        stable: stepped.stable,
    }
}

// ONE LETTER on a record: the next tree's record in a lent buffer, and the two maps. Questions 1 to 6, 8, 9, then 10.
pub fn step(table: &[u8], letter: u8, bytes: &[u8], buffer: &mut [u8]) -> StepAnswer
    ensures { StepCall table.now letter bytes.now buffer.old result buffer.new }
{
    let mut lookup = [0; ENTRIES];
    match letter_questions(table, letter, &mut lookup) {
        Err(refusal) => refusal.into(),
        Ok(header) => step_prepared(&lookup, header, bytes, buffer),
    }
}
