// A node as one machine word, so that the nodes of a tree can be lent and a node is one load or one store.
ghost use Rattle.std.specs.Prelude.{◌≡◌};
ghost use Rattle.tree.specs.Inner.PackedNodes.{unpacked};

use crate::nodes::Node;

// The word of a node: depth, label, union of the children's labels, active set and old number, from the lowest bits up.
pub fn pack(x: Node) -> u64
    ensures { unpacked result ≡ x }
{
    let lower = u64::from(x.depth) + (u64::from(x.label) << 16);
    let upper = u64::from(x.kids) + (u64::from(x.active) << 16) + (u64::from(x.old) << 24);
    lower + (upper << 32)
}

// The node of a word. Each part fits its type.
#[tactic(auto, unfolding(crate::specs::Inner::PackedNodes::unpacked))]
pub fn unpack(word: u64) -> Node
    ensures { result ≡ unpacked word }
{
    Node {
        depth: (word % 65536) as u16,
        label: ((word >> 16) % 65536) as u16,
        kids: ((word >> 32) % 65536) as u16,
        active: ((word >> 48) % 256) as u8,
        old: (word >> 56) as u8,
    }
}
