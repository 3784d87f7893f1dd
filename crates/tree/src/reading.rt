// The nodes of a record's tree: its tags give each node's depth and active set, its hosts give the labels.
ghost use Rattle.std.specs.Prelude.{◌≡◌, ◌&&◌, cond, ◌^◌, ◌<◌, ◌≤◌, leb, ltb, length};
ghost use Rattle.std.specs.Int.Count.{ones};
ghost use Rattle.history.specs.Record.{hosted_in};
ghost use Rattle.tree.specs.Inner.PackedNodes.{nodes_in};
ghost use Rattle.tree.specs.Inner.Places.{places};
ghost use Rattle.tree.specs.Inner.RecordNodes.{blank_behind, deeper, nodes_of_tags};

use crate::nodes::{Node, Preorder, Tree};
use crate::packed::pack;

// How many tags at the front are deeper than a node: the number of nodes below it, where they follow its own tag.
fn deeper(depth: u8, tags: &[u8]) -> usize
    ensures { result ≡ deeper depth tags.now }
{
    tags.iter().take_while(|&tag| depth < *tag / 16).count()
}

// The set of one state if its host is numbered from `low` up to `high`, else the empty set.
fn state_if(state: usize, host: usize, low: usize, high: usize) -> u16
    requires { state < 16 }
    ensures { result ≡ cond (leb low host && ltb host high) (2 ^ state) 0 }
{
    if low <= host && host < high {
        1u16 << state
    } else {
        0
    }
}

// The states of a map whose hosts are numbered from `low` up to `high`.
fn hosted(n: usize, map: u16, hosts: &[u8], low: usize, high: usize) -> u16
    requires { (n ≤ 16) × ((map < 2 ^ n) × (ones map ≤ length hosts.now)) }
    ensures { result ≡ hosted_in n map hosts.now low high }
{
    let mut states = 0;
    // `at` counts no states: only those of the map have a host.
    let mut at = 0;
    for state in 0..n {
        if (map >> state) % 2 != 1 {
            continue;
        }
        states |= state_if(state, usize::from(hosts[at]), low, high);
        at += 1;
    }
    states
}

// A node for each tag, in front of blank ones. A node's label are the states hosted at the node or below it, its children's are
// those below it.
pub fn record_nodes(n: usize, map: u16, hosts: &[u8], tags: &[u8]) -> Preorder
    requires { ((n ≤ 16) × ((map < 2 ^ n) × (ones map ≤ length hosts.now))) × (length tags.now ≤ places) }
    ensures { nodes_in result ≡ blank_behind (nodes_of_tags (hosted_in n map hosts.now) 0 tags.now) }
{
    let mut nodes = [0; Tree::PLACES];
    for (number, tag) in tags.iter().enumerate() {
        let next = number + 1;
        let end = next + deeper(*tag / 16, &tags[next..]);
        let node = Node {
            depth: u16::from(*tag / 16),
            label: hosted(n, map, hosts, number, end),
            kids: hosted(n, map, hosts, next, end),
            active: *tag % 16,
            old: 0,
        };
        nodes[number] = pack(node);
    }
    nodes
}
