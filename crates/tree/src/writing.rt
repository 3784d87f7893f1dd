// The record of a tree, from its nodes, stored into a lent buffer.
ghost use Rattle.std.specs.Prelude.{◌≡◌, not, ◌&&◌, ◌+◌, ◌<◌, ◌≤◌, length};
ghost use Rattle.base.specs.BitSet.{member};
ghost use Rattle.base.specs.LentBuffer.{stored};
ghost use Rattle.tree.specs.StartCall.{record_room};
ghost use Rattle.tree.specs.Inner.PackedNodes.{nodes_in};
ghost use Rattle.tree.specs.Inner.Places.{places};
ghost use Rattle.tree.specs.Inner.RecordNodes.{host_node, host_bytes, tag_bytes, nodes_record, Recordable};

use crate::nodes::Node;
use crate::packed::unpack;

// Does a node host a state: is the state in its label and in no child's?
#[tactic(auto, unfolding(base::specs::BitSet::member))]
fn hosts_state(node: Node, state: usize) -> bool
    requires { state < 16 }
    ensures { result ≡ (member node.label state && not (member node.kids state)) }
{
    (node.label >> state) % 2 == 1 && (node.kids >> state) % 2 != 1
}

// The number of a state's host, which fits a byte; where no node hosts it, how many there are, as the definition says.
fn host_node(nodes: &[u64], state: usize) -> u8
    requires { (length nodes.now ≤ places) × (state < 16) }
    ensures { result ≡ host_node 0 (nodes_in nodes.now) state }
{
    let place = nodes
        .iter()
        .position(|word| hosts_state(unpack(*word), state));
    place.unwrap_or(nodes.len()) as u8
}

// Buffer and place go side by side in these functions, as in the definition `stored`.

// "for each standing bit, lowest first, the number of its host", stored from a place on. Answers the place behind them.
fn put_hosts(nodes: &[u64], states: u16, n: usize, out: &mut [u8], from: usize) -> usize
    requires { ((length nodes.now ≤ places) × (n ≤ 16)) × (from + n ≤ length out.old) }
    ensures { (result ≡ from + length (host_bytes (nodes_in nodes.now) n states))
        × (out.new ≡ stored from (host_bytes (nodes_in nodes.now) n states) out.old) }
{
    // `at` counts no states: only the standing bits have a host.
    let mut at = from;
    for state in 0..n {
        if (states >> state) % 2 != 1 {
            continue;
        }
        out[at] = host_node(nodes, state);
        at += 1;
    }
    at
}

// "for each node in number order 16 times its depth plus its active set", stored from a place on. Answers the place
// behind them.
fn put_tags(nodes: &[u64], n: usize, out: &mut [u8], from: usize) -> usize
    requires { Recordable n (nodes_in nodes.now) × (from + length nodes.now ≤ length out.old) }
    ensures { (result ≡ from + length (tag_bytes (nodes_in nodes.now)))
        × (out.new ≡ stored from (tag_bytes (nodes_in nodes.now)) out.old) }
{
    for (number, word) in nodes.iter().enumerate() {
        let node = unpack(*word);
        out[from + number] = (16 * node.depth) as u8 + node.active;
    }
    from + nodes.len()
}

// The record of a tree, stored in front; answers its length. "The dead tree's record is the byte 0."
pub fn put_record(nodes: &[u64], n: usize, out: &mut [u8]) -> usize
    requires { Recordable n (nodes_in nodes.now) × (record_room ≤ length out.old) }
    ensures { (result ≡ length (nodes_record n (nodes_in nodes.now)))
        × (out.new ≡ stored 0 (nodes_record n (nodes_in nodes.now)) out.old) }
{
    if nodes.is_empty() {
        out[0] = 0;
        return 1;
    }
    let root = unpack(nodes[0]);
    out[0] = root.label as u8;
    let at = put_hosts(nodes, root.label, n, out, 1);
    put_tags(nodes, n, out, at)
}
