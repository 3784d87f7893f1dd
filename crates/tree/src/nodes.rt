// A tree as the code holds it: its nodes in preorder, one word each.
ghost use Rattle.std.specs.Prelude.{◌≡◌, ◌≤◌};
ghost use Rattle.tree.specs.Inner.Places.{places};

use rule::limits::STATES;

// A node: its depth, its label, the union of its children's labels, its active set, and its number before the last
// letter (255 where that letter has sprouted it).
#[derive(Clone, Copy)]
pub struct Node {
    pub depth: u16,
    pub label: u16,
    pub kids: u16,
    pub active: u8,
    pub old: u8,
}

// The nodes of a tree in preorder, which is the order of their numbers, one word each.
pub type Preorder = [u64; Tree::PLACES];

// A tree: its nodes, and how many of them count. They stand in an array, since this library has no heap. No other crate can make a tree but
// by the functions of this type: "Every tree comes from the starting tree or from a checked record" (record.rt), or from one of these by
// letters (sides.rt).
#[derive(Clone, Copy)]
pub struct Tree {
    pub(crate) nodes: Preorder,
    pub(crate) count: usize,
    pub ghost within: { count ≤ places },
}

impl Tree {
    ghost use Rattle.tree.specs.Inner.PackedNodes.{counted_words};

    // At most one node for each state.
    pub const NODES: usize = STATES;

    // While a letter is read each old node may have one child more.
    pub const PLACES: usize = 2 * Tree::NODES;

    // "A record has 1, or 3 to 17, bytes."
    pub const RECORD: usize = 2 * Tree::NODES + 1;

    // A name has a number for each node on the way from the root, but for the root.
    pub const NAME: usize = Tree::NODES - 1;

    // The words of its nodes, in preorder.
    pub fn nodes(&self) -> &[u64]
        ensures { result.now ≡ counted_words self.now }
    {
        &self.nodes[..self.count]
    }
}
