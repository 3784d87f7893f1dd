// The name of a node, in a lent buffer. Nodes are numbered in dictionary order, so the first of a map is the lowest member.
ghost use Rattle.std.specs.Prelude.{◌≡◌, ◌≤◌, length};
ghost use Rattle.base.specs.LentBuffer.{stored};
ghost use Rattle.treejudge.specs.Inner.NodeNames.{Lowest, SomeNode, IsName};

use tree::nodes::Tree;
use tree::packed::unpack;

// A node's name: its numbers are the first `length` ones. An array has them, since the library has no heap.
#[derive(Clone, Copy)]
pub struct Name {
    pub numbers: [u8; Tree::NODES],
    pub length: usize,
}

// The lowest member of a map.
#[tactic(auto, using(crate::proofs::NodeNames::lowest_node))]
pub fn first_node(map: u16) -> usize
    ensures { Lowest map result }
{
    // `usize` has no `From` of `u32`.
    map.trailing_zeros() as usize
}

// The name of the node of that number. Each node's name comes from that of the node in front of it: it keeps the numbers above
// its depth; the last is 0 for a first child, and one more than before for a younger sibling.
pub fn node_name(tree: Tree, number: usize) -> Name
    requires { SomeNode tree number }
    ensures { IsName tree number result }
{
    let mut numbers = [0u8; Tree::NODES];
    let mut length = 0usize;
    for word in &tree.nodes()[1..number + 1] {
        let depth = usize::from(unpack(*word).depth);
        let last = depth - 1;
        numbers[last] = if last < length { numbers[last] + 1 } else { 0 };
        length = depth;
    }
    Name { numbers, length }
}

// "numbers in a lent 7-byte buffer, the rest of it unchanged"
#[tactic(auto, unfolding(base::specs::LentBuffer::stored))]
pub fn store_name(name: &[u8], buffer: &mut [u8])
    requires { length name.now ≤ length buffer.old }
    ensures { buffer.new ≡ stored 0 name.now buffer.old }
{
    buffer[..name.len()].copy_from_slice(name);
}
