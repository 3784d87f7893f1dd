// Are two trees the same? Their nodes tell, but for the old numbers.
ghost use Rattle.std.specs.Prelude.{◌≡◌};
ghost use Rattle.tree.specs.Inner.PackedNodes.{unpacked, nodes_in};
ghost use Rattle.treejudge.specs.Inner.SameNodes.{same_node, same_nodes};

// One node and another: the old number stands in a word's highest eight bits.
#[tactic(auto, using(crate::proofs::SameTrees::same_words))]
fn same_node(a: u64, b: u64) -> bool
    ensures { result ≡ same_node (unpacked a) (unpacked b) }
{
    a % 72057594037927936 == b % 72057594037927936
}

// The nodes of one tree and those of another.
pub fn same_nodes(nodes: &[u64], others: &[u64]) -> bool
    ensures { result ≡ same_nodes (nodes_in nodes.now) (nodes_in others.now) }
{
    nodes.len() == others.len() && nodes.iter().zip(others).all(|(a, b)| same_node(*a, *b))
}
