// The entry, once the period is known: two places that are a period apart go forward together, and the first that have equal trees
// are t(e) and t(e + p).
ghost use Rattle.std.specs.Prelude.{◌≤◌};
ghost use Rattle.treejudge.specs.Inner.Cycles.{SomeRound, Ahead, TwoRounds, ReadTo, Bracketed, EntryBetween, SearchDone, EntryFound};

use crate::cycle::Cycle;
use crate::same::same_nodes;
use letters::read::read_letters;
use tree::nodes::Tree;
use word::lookups::Lookups;

// The tree `count` rounds further.
fn read_rounds(lookups: &Lookups, k: u8, v: &[u8], count: u64, tree: Tree) -> Tree
    requires { SomeRound lookups.now k v.now tree }
    ensures { Ahead lookups.now k v.now count tree result }
{
    let mut root_first = true;
    let mut buffer = tree.laid();
    for _round in 0..count {
        read_letters(lookups, k, v, &mut buffer, &mut root_first);
    }
    Tree::taken(&buffer)
}

// The entry from `low` to `high`, where `first` is t(low) and `later` is the tree a period further. Number and tree side by side, as in `read_to`.
fn entry_between(
    lookups: &Lookups,
    k: u8,
    v: &[u8],
    low: u64,
    high: u64,
    first: Tree,
    later: Tree,
) -> u64
    requires { Bracketed lookups.now k v.now low high first later }
    ensures { EntryBetween lookups.now k v.now low high first later result }
{
    let mut root_first = true;
    let mut here = first.laid();
    let mut there = later.laid();
    for place in low..high {
        if same_nodes(here.nodes(), there.nodes()) {
            return place;
        }
        if place + 1 == high {
            return high;
        }
        read_letters(lookups, k, v, &mut here, &mut root_first);
        read_letters(lookups, k, v, &mut there, &mut root_first);
    }
    high
}

// The tree t(place): from the tree that is saved, t(high), where that is no later, else from an earlier one, t(from). The number of a round
// and its tree go side by side: it is counted with the one and read from the other.
fn read_to(
    lookups: &Lookups,
    k: u8,
    v: &[u8],
    place: u64,
    from: u64,
    earlier: Tree,
    high: u64,
    saved: Tree,
) -> Tree
    requires { (from ≤ place) × TwoRounds lookups.now k v.now from earlier high saved }
    ensures { ReadTo lookups.now k v.now from earlier high saved place result }
{
    if high <= place {
        return read_rounds(lookups, k, v, place - high, saved);
    }
    read_rounds(lookups, k, v, place - from, earlier)
}

// The entry of the cycle that was found from t(0) on; it is no later than the tree that is saved, t(power − 1). A period longer than
// `half` reaches past the tree that was saved before, t(half − 1), so t(period) can be read from there. A shorter one begins at
// t(half) or later, since t(half − 1) has not come back.
pub fn find_entry(lookups: &Lookups, k: u8, v: &[u8], first: Tree, cycle: Cycle) -> u64
    requires { SearchDone lookups.now k v.now first cycle }
    ensures { EntryFound lookups.now k v.now first cycle result }
{
    let half = cycle.half;
    let period = cycle.period;
    let high = cycle.power - 1;
    if high == 0 {
        return 0;
    }
    if half < period {
        let from = half - 1;
        let there = read_to(lookups, k, v, period, from, cycle.before, high, cycle.saved);
        return entry_between(lookups, k, v, 0, high, first, there);
    }
    if half == high {
        return high;
    }
    let here = read_rounds(lookups, k, v, 1, cycle.before);
    let there = read_to(lookups, k, v, half + period, half, here, high, cycle.saved);
    entry_between(lookups, k, v, half, high, here, there)
}
