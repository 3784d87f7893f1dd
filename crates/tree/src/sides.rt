// A tree in a double buffer, where letters are read from side to side: a tree is laid there, and the tree that they lead to is taken up.
ghost use Rattle.std.specs.Prelude.{◌≡◌, ◌<◌, ◌≤◌, ◌-◌, ◌∷◌, [], get_or, replicate, take};
ghost use Rattle.tree.specs.Inner.Places.{places, EachPlace};

use crate::nodes::{Node, Preorder, Tree};
use crate::packed::{pack, unpack};

// One side: the nodes of a tree.
#[derive(Clone, Copy)]
pub struct Side {
    pub nodes: Preorder,
}

// A tree in a double buffer: which side it stands on, and how many of its nodes count. A letter reads the nodes of its side and writes
// those of the other.
#[derive(Clone, Copy)]
pub struct DoubleBuffer {
    pub sides: [Side; 2],
    pub side: usize,
    pub count: usize,
    pub ghost on_a_side: { side < 2 },
    pub ghost within: { count ≤ places },
    pub ghost long: { EachPlace sides },
}

impl DoubleBuffer {
    ghost use Rattle.tree.specs.Inner.Nodes.{blank_node};
    ghost use Rattle.tree.specs.Inner.PackedNodes.{counted_nodes, counted_words, nodes_in};
    ghost use Rattle.tree.specs.Inner.Sides.{tree_in, words_on};

    // The words of the nodes that count.
    pub fn nodes(&self) -> &[u64]
        ensures { result.now ≡ counted_words (tree_in self.now) }
    {
        &self.sides[self.side].nodes[..self.count]
    }

    // The node of a number.
    pub fn node(&self, number: usize) -> Node
        requires { number < places }
        ensures { result ≡ get_or (nodes_in (tree_in self.now).nodes) number blank_node }
    {
        unpack(self.sides[self.side].nodes[number])
    }

    // One node, or none, in the place of the tree, on the side that it stood on. The count is the one that the buffer keeps; an `Option` would
    // only be counted again.
    pub fn lay_root(&mut self, root: Node, count: usize)
        requires { count ≤ 1 }
        ensures laid { (self.new.count ≡ count)
            × (counted_nodes (tree_in self.new) ≡ take count (root ∷ [])) }
        ensures side { self.new.side ≡ self.old.side }
        ensures other { words_on self.new (1 - self.new.side) ≡ words_on self.old (1 - self.new.side) }
    {
        self.sides[self.side].nodes[0] = pack(root);
        self.count = count;
    }
}

impl Tree {
    ghost use Rattle.tree.specs.Inner.Sides.{tree_in, words_on, SomeTreeIn};

    // The tree in a double buffer: on side 0, with side 1 blank.
    pub fn laid(self) -> DoubleBuffer
        ensures tree { tree_in result ≡ self }
        ensures first { result.side ≡ 0 }
        ensures blank { words_on result 1 ≡ replicate places 0 }
    {
        let nodes = self.nodes;
        let blank = [0; Tree::PLACES];
        DoubleBuffer {
            sides: [Side { nodes }, Side { nodes: blank }],
            side: 0,
            count: self.count,
        }
    }

    // The tree in a double buffer. Only where its nodes are proved to be those of some tree, so that no other tree can be made.
    pub fn taken(buffer: &DoubleBuffer) -> Tree
        requires { SomeTreeIn buffer.now }
        ensures { result ≡ tree_in buffer.now }
    {
        Tree {
            nodes: buffer.sides[buffer.side].nodes,
            count: buffer.count,
        }
    }
}
