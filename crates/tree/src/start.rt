// The starting record of a table.
ghost use Rattle.std.specs.Prelude.{◌≡◌};
ghost use Rattle.base.specs.Outcome.{refused};
ghost use Rattle.base.specs.Refusals.{refusal_number};
ghost use Rattle.tree.specs.StartCall.{StartCall, start_answer};

use crate::nodes::Tree;
use crate::writing::put_record;
use base::refusal::Refusal;
use rule::limits::{LETTERS, NO_TRANSITION, STATES};
use table::reader::read_rule;

// 0 and the record's length, or the number of the question that failed and zero: the C interface.
#[repr(C)]
#[derive(Clone, Copy)]
pub struct StartAnswer {
    pub number: u8,
    pub written: usize,
}

// A refusal: its number and zero.
#[tactic(auto, unfolding(crate::specs::StartCall::start_answer))]
impl From<Refusal> for StartAnswer {
    ghost from_gives = { λ refusal answer. answer ≡ start_answer (refused (refusal_number refusal)) };

    fn from(refusal: Refusal) -> StartAnswer {
        StartAnswer {
            number: refusal.into(),
            written: 0,
        }
    }
}

// THE STARTING RECORD of a table, in a lent buffer. Questions 1 to 6, then 10.
pub fn start(table: &[u8], buffer: &mut [u8]) -> StartAnswer
    ensures { StartCall table.now buffer.old result buffer.new }
{
    // blank, on this stack: see `read_rule`
    let mut cells = [[[NO_TRANSITION; STATES]; STATES]; LETTERS];
    let mut words = [[0; STATES]; LETTERS];
    match read_rule(table, &mut cells, &mut words) {
        Err(refusal) => refusal.into(),
        Ok(header) => {
            if buffer.len() < Tree::RECORD {
                return Refusal::NoRoom.into();
            }
            let tree = Tree::start(header.start);
            let written = put_record(tree.nodes(), header.states, buffer);
            StartAnswer { number: 0, written }
        }
    }
}
