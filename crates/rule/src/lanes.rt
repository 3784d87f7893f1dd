// A word of lanes: some maps of states in one number, each in a lane of its own. This module and specs/Inner/Lanes.antt, which has the same
// numbers, alone say where a lane lies.
ghost use Rattle.std.specs.Prelude.{◌≡◌, suc, ◌*◌, ◌^◌, ◌<◌, ◌≤◌};
ghost use Rattle.rule.specs.Inner.Lanes.{each_lane, in_lane, in_lanes, lane_width, lanes, lanes_with, map_of, set_lanes, spread, with_state};

// The bits of a lane, and how many maps they can have.
pub const LANE_WIDTH: usize = 8;

const LANE_MAPS: u64 = 256;

// The lanes of a word: 0 for all transitions, 1 to 6 for those of the sets 1 to 6, and 7, which stays empty.
const LANES: usize = 8;

// Bit 0 of each lane. Some lanes are chosen by a number that has bit 0 of each of them.
const EACH_LANE: u64 = 0x0101_0101_0101_0101;

// The map in a lane.
pub fn map_of(word: u64, lane: usize) -> u16
    requires { lane < lanes }
    ensures { result ≡ map_of word lane }
{
    // The remainder fits.
    ((word >> (LANE_WIDTH * lane)) % LANE_MAPS) as u16
}

// A map put into one lane.
pub fn in_lane(map: u16, lane: usize) -> u64
    requires { (map < 2 ^ lane_width) × (lane < lanes) }
    ensures { result ≡ in_lane map lane }
{
    u64::from(map) << (LANE_WIDTH * lane)
}

// A map put into each of the chosen lanes, by one product.
pub fn in_lanes(map: u16, chosen: u64) -> u64
    requires { (map < 2 ^ lane_width) × (chosen ≤ each_lane lanes) }
    ensures { result ≡ in_lanes map chosen }
{
    u64::from(map) * chosen
}

// A word with a state more in each of the chosen lanes.
pub fn with_state(word: u64, state: usize, chosen: u64) -> u64
    requires { (state < lane_width) × (chosen ≤ each_lane lanes) }
    ensures { result ≡ with_state word state chosen }
{
    word | (chosen << state)
}

// Those of the lanes `among` in which a state stands.
pub fn lanes_with(word: u64, state: usize, among: u64) -> u64
    requires { state < lane_width * lanes }
    ensures { result ≡ lanes_with word state among }
{
    (word >> state) & among
}

// The lanes from 0 to `last`.
pub fn lanes_to(last: usize) -> u64
    requires { last < lanes }
    ensures { result ≡ each_lane (suc last) }
{
    EACH_LANE >> (LANE_WIDTH * (LANES - 1 - last))
}

// The lanes of some relations, which are given as a map. The factor has the bits 0, 7, 14, .., 42. So bit i + 7·j of the product stands just
// if i is one of the relations, for i and j up to 6; those with i = j are kept.
pub fn spread(relations: u16) -> u64
    requires { relations < 2 ^ suc set_lanes }
    ensures { result ≡ spread relations }
{
    (u64::from(relations) * 0x408_1020_4081) & 0x0001_0101_0101_0101
}
