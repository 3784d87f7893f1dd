// The ways between any two states, a row for each state that they come from.
ghost use Rattle.std.specs.Prelude.{◌≤◌};
ghost use Rattle.rule.specs.Inner.Lanes.{lane_width};

use rule::lanes::LANE_WIDTH;

// The rows of the first `states` states; specs/Inner/Ways.antt says what stands in a row. The rows behind them are not used: an array with
// its length, since a library has no heap.
// Behind a `&mut` a row is changed at its place: a slice of them cannot be lent as `&mut` in a proved function, as there is a ghost field.
#[derive(Clone, Copy)]
pub struct Matrix {
    pub rows: [u64; LANE_WIDTH],
    pub states: usize,
    pub ghost few_states: { states ≤ lane_width },
}
