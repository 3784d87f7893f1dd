// The first repeat of a walk's trees: by the search for the cycle, or, where the tail is long, mostly at once.
ghost use Rattle.std.specs.Prelude.{◌++◌};
ghost use Rattle.treejudge.specs.Inner.Cycles.{FirstRound};
ghost use Rattle.treejudge.specs.Inner.Repeats.{FoundEarly, RepeatFound};

use crate::cycle::find_cycle;
use crate::entry::find_entry;
use crate::same::same_nodes;
use letters::follow::{begin, follow_letters};
use letters::read::read_letters;
use tree::nodes::Tree;
use word::lookups::Lookups;
use word::walk::letters_left;

// Entry and period of the first repeat, a tree of the cycle, and the map of the witnesses among its nodes: those that keep their names
// around the cycle and are accepting once.
#[derive(Clone, Copy)]
pub struct Repeat {
    pub tree: Tree,
    pub witnesses: u16,
    pub entry: u64,
    pub period: u64,
}

// A tail of at least so many letters is long: it is cut behind its first eighth, a short one not at all.
const LONG: usize = 64;

// A long tail mostly leads to one tree, from whatever tree it is read. If t(0) and t(1) lead to the same tree at the cut, then t(1) is
// t(2), and the letters between are one cycle.
fn early_repeat(lookups: &Lookups, k: u8, head: &[u8], rest: &[u8], first: Tree) -> Option<Repeat>
    requires { FirstRound lookups.now k (head.now ++ rest.now) first }
    ensures { FoundEarly lookups.now k (head.now ++ rest.now) first result }
{
    let mut buffer = first.laid();
    read_letters(lookups, k, head, &mut buffer, &mut true);
    let cut = Tree::taken(&buffer);
    let begun = begin(buffer.count);
    let second = follow_letters(lookups, k, rest, &mut buffer, begun, &mut true);
    let entry = u64::from(!same_nodes(first.nodes(), buffer.nodes()));
    let again = follow_letters(lookups, k, head, &mut buffer, second, &mut true);
    if !same_nodes(cut.nodes(), buffer.nodes()) {
        return None;
    }
    Some(Repeat {
        tree: cut,
        witnesses: again.witnesses,
        entry,
        period: 1,
    })
}

// From t(0) on, which follows u: then the rounds, each the whole tail.
pub fn find_repeat<'a>(lookups: &Lookups, k: u8, u: &'a [u8], v: &'a [u8], first: Tree) -> Repeat
    requires { FirstRound lookups.now k v.now first }
    ensures { RepeatFound lookups.now k v.now first result }
{
    if LONG <= v.len() {
        let cut = v.len() / 8;
        let rest = letters_left(u, v, true, cut);
        if let Some(found) = early_repeat(lookups, k, &v[..cut], rest, first) {
            return found;
        }
    }
    let tail = letters_left(u, v, true, 0);
    let cycle = find_cycle(lookups, k, tail, first);
    Repeat {
        tree: cycle.saved,
        witnesses: cycle.witnesses,
        entry: find_entry(lookups, k, tail, first, cycle),
        period: cycle.period,
    }
}
