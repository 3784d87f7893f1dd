// "Every tree comes from the starting tree or from a checked record."
ghost use Rattle.std.specs.Prelude.{◌≡◌, ◌&&◌, leb};
ghost use Rattle.base.specs.Outcome.{refused};
ghost use Rattle.rule.specs.Limits.{max_sets, max_states};
ghost use Rattle.tree.specs.Inner.RecordCode.{checked_tree, Checks};
ghost use Rattle.tree.specs.Inner.RecordNodes.{start_nodes, HasNodes};

use crate::checks::record_fits;
use crate::nodes::{Node, Tree};
use crate::packed::pack;
use crate::reading::record_nodes;
use rule::limits::SETS;

// The check's answer: the number of the tree's nodes, or nothing where the bytes are no record; and the tree beside it, as document 01 asks.
#[derive(Clone, Copy)]
pub struct Checked {
    pub count: Option<usize>,
    pub tree: Tree,
}

// Has the code room for a tree over n states and k sets?
fn within_limits(n: usize, k: usize) -> bool
    ensures { result ≡ (leb n max_states && leb k max_sets) }
{
    n <= Tree::NODES && k <= SETS
}

// A refusal: the dead tree stands beside it.
fn no_record() -> Checked
    ensures { Checks (refused 9) result }
{
    Checked {
        count: None,
        tree: Tree {
            nodes: [0; Tree::PLACES],
            count: 0,
        },
    }
}

impl Tree {
    // "The starting tree is the root alone, the starting states, active set 1." Its one node stands in front of
    // blank ones: the word 0 is the blank node.
    pub fn start(map: u16) -> Tree
        ensures { HasNodes (start_nodes map) result }
    {
        let root = Node {
            depth: 0,
            label: map,
            kids: 0,
            active: 1,
            old: 0,
        };
        let mut nodes = [0; Tree::PLACES];
        nodes[0] = pack(root);
        Tree { nodes, count: 1 }
    }

    // Question 9: "A step goes on only where its bytes are the record of some tree over n and k: are they?"
    pub fn checked(bytes: &[u8], n: usize, k: usize) -> Checked
        ensures { Checks (checked_tree n k bytes.now) result }
    {
        if !within_limits(n, k) || !record_fits(n, k, bytes) {
            return no_record();
        }
        let map = u16::from(bytes[0]);
        // Only `as` takes a `u32` to `usize`.
        let tags = 1 + u16::count_ones(map) as usize;
        let count = bytes.len() - tags;
        let nodes = record_nodes(n, map, &bytes[1..tags], &bytes[tags..]);
        Checked {
            count: Some(count),
            tree: Tree { nodes, count },
        }
    }
}
