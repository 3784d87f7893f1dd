// The search for a loop: a state that the lead-in and some tails lead to, and from which one or more tails lead back to it, by
// ways that take all sets.
ghost use Rattle.std.specs.Prelude.{◌≡◌, ◌≤◌, ◌↔◌, IsTrue};
ghost use Rattle.rule.specs.Limits.{max_sets};
ghost use Rattle.plain.specs.Inner.Ways.{ways};
ghost use Rattle.plain.specs.Inner.Search.{SomeLasso, reached};

use crate::matrix::Matrix;
use rule::lanes::{lanes_to, lanes_with, map_of};

impl Matrix {
    // "u and i tails lead from a starting state to s": the states `from`, and those that one or more tails lead to from them.
    #[tactic(auto, unfolding(crate::specs::Inner::Search::reached))]
    fn reached(&self, from: u16) -> u16
        ensures { result ≡ reached self.now.states self.now.rows from }
    {
        let mut all = from;
        for (state, row) in self.rows[..self.states].iter().enumerate() {
            let next = map_of(*row, 0);
            all |= next * ((from >> state) % 2);
        }
        all
    }

    // "j further tails lead from s back to s taking at least one transition of each set": is there such a state among those
    // reached?
    pub fn has_lasso(&self, from: u16, k: usize) -> bool
        requires { k ≤ max_sets }
        ensures { IsTrue result ↔ SomeLasso (ways self.now.rows) self.now.states k from }
    {
        let all = self.reached(from);
        // relation 0 and those of the k sets
        let full = lanes_to(k);
        (0..self.states).any(|state| {
            lanes_with(self.rows[state], state, full) == full && (all >> state) % 2 == 1
        })
    }
}
