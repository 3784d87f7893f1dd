// "j further tails", one or more: the ways that they open between any two states.
ghost use Rattle.std.specs.Prelude.{◌≡◌, ◌<◌};
ghost use Rattle.rule.specs.Inner.Lanes.{lane_width};
ghost use Rattle.plain.specs.Inner.Ways.{AreWays, ways};
ghost use Rattle.plain.specs.Inner.Rounds.{continued, through, closure};

use crate::matrix::Matrix;
use rule::lanes::{in_lanes, lanes_to, lanes_with, map_of};
use rule::limits::SETS;

// A row with more ways: each way to `middle`, and behind it a way of the row `behind`. The sets are those of both. No branch: a
// product with 1 or 0 keeps a row or drops it, and one product puts a map into the lanes of all relations with a way.
#[tactic(auto, using(rule::proofs::LaneLaws::lanes_with_le))]
fn continued(row: u64, middle: usize, behind: u64) -> u64
    requires { middle < lane_width }
    ensures { result ≡ continued row middle behind }
{
    let way = lanes_with(row, middle, lanes_to(SETS));
    row | ((behind * u64::from(map_of(way, 0))) | in_lanes(map_of(behind, 0), way))
}

impl Matrix {
    // One more state that a way may pass between two tails, once or over and over.
    fn close_through(&mut self, middle: usize)
        requires { middle < self.old.states }
        ensures { (self.new.states ≡ self.old.states)
            × AreWays self.old.states (through middle (ways self.old.rows)) self.new.rows }
    {
        let own = self.rows[middle];
        let behind = continued(own, middle, own);
        for state in 0..self.states {
            self.rows[state] = continued(self.rows[state], middle, behind);
        }
    }

    // From the rows of one tail to those of one or more tails: between two tails a way may pass any state.
    #[tactic(auto, unfolding(crate::specs::Inner::Rounds::closure))]
    pub fn close(&mut self)
        ensures { (self.new.states ≡ self.old.states)
            × AreWays self.old.states (closure self.old.states (ways self.old.rows)) self.new.rows }
    {
        for middle in 0..self.states {
            self.close_through(middle);
        }
    }
}
