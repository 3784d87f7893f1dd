// One tail: the ways that it opens between any two states.
ghost use Rattle.std.specs.Prelude.{◌≡◌, ℕ, ◌<◌, ◌≤◌, get_or};
ghost use Rattle.base.specs.Lists.{Every};
ghost use Rattle.rule.specs.Inner.Lanes.{lane_width};
ghost use Rattle.rule.specs.Limits.{max_letters};
ghost use Rattle.plain.specs.Inner.Ways.{Changed};
ghost use Rattle.plain.specs.Inner.Letters.{extended, onward, own_row, row_after};

use crate::matrix::Matrix;
use rule::lanes::{LANE_WIDTH, in_lane, in_lanes, lanes_to, lanes_with, map_of};
use rule::limits::SETS;
use rule::lookup::{Lookup, look_up};
use word::lookups::Lookups;

// Where any transition of a letter leads to from some states; from none nowhere.
#[tactic(auto, unfolding(crate::specs::Inner::Letters::onward, rule::specs::Inner::Lookup::look_up))]
fn onward(lookup: &Lookup, states: u16) -> u16
    ensures { result ≡ onward lookup.now states }
{
    if states == 0 {
        return 0;
    }
    map_of(look_up(lookup, states), 0)
}

// A row with one letter more behind its ways. The transition of set i is taken at this letter: one look-up has all these ways. Or it is
// taken before, and any transition leads on; where each map has all of the row's states or none, the same look-up tells.
#[tactic(auto, using(rule::proofs::LaneLaws::lanes_with_le, crate::proofs::LetterLaws::onward_lt))]
fn extended(lookup: &Lookup, row: u64) -> u64
    ensures { result ≡ extended lookup.now row }
{
    let states = map_of(row, 0);
    let images = look_up(lookup, states);
    // the lanes that have the lowest of the states; no `From` leads from a u32 to a usize
    let full = lanes_with(row, states.trailing_zeros() as usize, lanes_to(SETS));
    if row == in_lanes(states, full) {
        return images | in_lanes(map_of(images, 0), full);
    }
    let mut all = images;
    for relation in 1..=SETS {
        let further = onward(lookup, map_of(row, relation));
        all |= in_lane(further, relation);
    }
    all
}

impl Matrix {
    // The rows of no letter: each state leads to itself, and no transition is taken.
    #[tactic(auto, unfolding(crate::specs::Inner::Letters::own_row))]
    fn identity(states: usize) -> Matrix
        requires { states ≤ lane_width }
        ensures { (result.states ≡ states) × ((s : ℕ) → s < lane_width → get_or result.rows s 0 ≡ own_row s) }
    {
        let mut rows = [0u64; LANE_WIDTH];
        for (state, row) in rows.iter_mut().enumerate() {
            *row = in_lane(1u16 << state, 0);
        }
        Matrix { rows, states }
    }

    // One letter more.
    fn append_letter(&mut self, lookup: &Lookup)
        ensures { (self.new.states ≡ self.old.states) × Changed (extended lookup.now) self.old.states self.old.rows self.new.rows }
    {
        for state in 0..self.states {
            self.rows[state] = extended(lookup, self.rows[state]);
        }
    }

    // The rows of the tail v, from its first letter to its last.
    #[tactic(auto, using(crate::proofs::LetterLaws::letter_small), unfolding(crate::specs::Inner::Letters::row_after, crate::specs::Inner::Letters::over))]
    pub fn of_tail(lookups: &Lookups, v: &[u8], states: usize) -> Matrix
        requires { (states ≤ lane_width) × Every (λ a. a < max_letters) v.now }
        ensures { (result.states ≡ states) × ((s : ℕ) → s < states → get_or result.rows s 0 ≡ row_after lookups.now v.now (own_row s)) }
    {
        let mut ways = Matrix::identity(states);
        for letter in v {
            ways.append_letter(&lookups[usize::from(*letter)]);
        }
        ways
    }
}
