// The period, by Brent's search: one tree is saved, t(power − 1), and rounds are read from it until it comes back. If it has not
// come back after `power` rounds, the tree reached is saved instead, and the power doubled. The nodes of the saved tree are followed
// on the way: where it comes back, its rounds were one cycle, and the verdict is known.
ghost use Rattle.treejudge.specs.Inner.Cycles.{FirstRound, CycleFound};

use crate::same::same_nodes;
use letters::follow::{begin, follow_letters};
use tree::nodes::Tree;
use word::lookups::Lookups;

// What the search has found: the tree t(power − 1), to which `period` rounds lead back; the map of its nodes that keep their names in
// these rounds and are accepting once; and the tree that was saved before it, t(half − 1), where it was not the first.
#[derive(Clone, Copy)]
pub struct Cycle {
    pub saved: Tree,
    pub before: Tree,
    pub half: u64,
    pub power: u64,
    pub period: u64,
    pub witnesses: u16,
}

// From t(0) on. How many rounds it takes is not known beforehand, so the loop has no range.
pub fn find_cycle(lookups: &Lookups, k: u8, v: &[u8], first: Tree) -> Cycle
    requires { FirstRound lookups.now k v.now first }
    ensures { CycleFound lookups.now k v.now first result }
{
    let mut saved = first;
    let mut before = first;
    let mut half = 0u64;
    let mut power = 1u64;
    let mut lam = 0u64;
    let mut root_first = true;
    let mut buffer = first.laid();
    let mut maps = begin(buffer.count);
    loop {
        maps = follow_letters(lookups, k, v, &mut buffer, maps, &mut root_first);
        lam += 1;
        if same_nodes(saved.nodes(), buffer.nodes()) {
            return Cycle {
                saved,
                before,
                half,
                power,
                period: lam,
                witnesses: maps.witnesses,
            };
        }
        if lam == power {
            before = saved;
            saved = Tree::taken(&buffer);
            half = power;
            power += power;
            lam = 0;
            maps = begin(buffer.count);
        }
    }
}
