// One letter: the nodes of the next tree in one forward pass over the nodes of a tree, oldest first.
// The document's five steps are fused: steps 1 to 3 at a node need only what older nodes hold, and the union of the
// new children's labels, which step 4 asks for, is known from the old one.
ghost use Rattle.std.specs.Prelude.{◌≡◌, ◌≤◌, ◌<◌};
ghost use Rattle.base.specs.BitSet.{minus};
ghost use Rattle.rule.specs.Limits.{max_states, max_sets};
ghost use Rattle.rule.specs.Inner.Lookup.{look_up};
ghost use Rattle.history.specs.Letter.{next_set};
ghost use Rattle.tree.specs.Inner.PackedNodes.{counted_nodes};
ghost use Rattle.tree.specs.Inner.Sides.{tree_in};
ghost use Rattle.step.specs.Inner.Pass.{new_labels, sprout_node, settled_node, joined_if, stepped_nodes};
ghost use Rattle.step.specs.Inner.LevelArrays.{EachDepth, Entered, Closable, Closing};
ghost use Rattle.step.specs.Inner.Stepping.{Steppable, Stepping};

use rule::lanes::map_of;
use rule::lookup::{Lookup, look_up};
use tree::nodes::{Node, Preorder, Tree};
use tree::packed::{pack, unpack};
use tree::sides::DoubleBuffer;

// The number of no node. A node is one word, so its old number is a byte and no `Option`.
pub const NONE: u8 = 255;

// What a letter answers: the maps by old node number.
#[derive(Clone, Copy)]
pub struct Stepped {
    pub accepting: u16,
    pub stable: u16,
}

// What becomes of a node in steps 1 to 3: its label, the union of its children's labels, and the label that its sprouted
// child is given in step 2.
#[derive(Clone, Copy)]
pub struct NewLabels {
    pub label: u16,
    pub kids: u16,
    pub sprout: u16,
}

// The states of one set that another does not hold, by the name of its definition: std has no method for it.
fn minus(a: u16, b: u16) -> u16
    ensures { result ≡ minus a b }
{
    a & !b
}

// Steps 1 to 3 at a node, where older siblings of it and of its ancestors hold the states `held`.
fn new_labels(lookup: &Lookup, x: Node, held: u16) -> NewLabels
    requires { x.active ≤ max_sets }
    ensures { result ≡ new_labels (look_up lookup.now) x held }
{
    let images = look_up(lookup, x.label);
    let label = map_of(images, 0);
    let sprout = map_of(images, usize::from(x.active));
    let kids = map_of(look_up(lookup, x.kids), 0);
    NewLabels {
        label: minus(label, held),
        kids: minus(kids | sprout, held),
        sprout,
    }
}

// A sprouted child (step 2), whose depth fits, once the states that older nodes hold have left it (step 3).
fn sprout_node(depth: usize, sprout: u16, held: u16) -> Node
    requires { depth ≤ max_states }
    ensures { result ≡ sprout_node depth sprout held }
{
    Node {
        depth: depth as u16,
        label: minus(sprout, held),
        kids: 0,
        active: 1,
        old: NONE,
    }
}

// The active set of an accepting node "goes up by one, from k to 1". That an active set is small is known of the nodes of a tree, not of every
// `Node`, so it is asked and is no ghost field.
pub fn next_set(k: u8, active: u8) -> u8
    requires { active ≤ max_sets }
    ensures { result ≡ next_set k active }
{
    if active < k { active + 1 } else { 1 }
}

// Step 4 at a node with a non-empty label: accepting and without descendants, or with its new labels. The old number fits a byte.
fn settled_node(k: u8, x: Node, made: NewLabels, old: usize) -> Node
    requires { (x.active ≤ max_sets) × (old < max_states) }
    ensures { result ≡ settled_node k x made old }
{
    if made.label == made.kids {
        Node {
            depth: x.depth,
            label: made.label,
            kids: 0,
            active: next_set(k, x.active),
            old: old as u8,
        }
    } else {
        Node {
            depth: x.depth,
            label: made.label,
            kids: made.kids,
            active: x.active,
            old: old as u8,
        }
    }
}

// A map with an old number joined, where `holds`.
fn joined_if(map: u16, old: usize, holds: bool) -> u16
    requires { old < max_states }
    ensures { result ≡ joined_if map old holds }
{
    if holds { map | (1u16 << old) } else { map }
}

// Sets of states by depth.
type ByDepth = [u16; Tree::NODES + 1];

// The levels of a pass; a level is the children of one node. By depth: what older siblings of their ancestors hold, the running set while
// the level waits, the states of the child that their parent sprouts, and whether names are kept. An array with a struct for each level
// is slower: a letter takes a seventh longer.
#[derive(Clone, Copy)]
pub struct Levels {
    pub above: ByDepth,
    pub waiting: ByDepth,
    pub sprout: ByDepth,
    pub named: [bool; Tree::NODES + 1],
}

// Siblings are passed from the oldest to the youngest, and each node's children before its younger siblings: the levels above the deepest
// one wait. Where a pass stands: the depth of the deepest level; the running set of its siblings; how many nodes are written. "When a
// sibling is reached, this set is the union of its older siblings' labels, both as they were before these siblings lost states to one
// another and as they are after": `running_set` in proofs/RunningSet.antt.
#[derive(Clone, Copy)]
pub struct Standing {
    pub top: usize,
    pub running: u16,
    pub written: usize,
}

// Where the pass stands once a node of the deepest level is read. A removed node costs its younger siblings their names (step 5);
// another joins the running set (step 3); a kept one is followed by its children, whose running set is empty at first.
fn enter(levels: &mut Levels, at: Standing, made: NewLabels) -> Standing
    requires { (at.top < max_states) × EachDepth levels.old }
    ensures { Entered made at levels.old result levels.new }
{
    let top = at.top;
    if made.label == 0 {
        levels.named[top] = false;
        return at;
    }
    let joined = at.running | made.label;
    if made.label == made.kids {
        return Standing {
            running: joined,
            ..at
        };
    }
    let below = top + 1;
    levels.waiting[top] = joined;
    levels.above[below] = levels.above[top] | at.running;
    levels.sprout[below] = made.sprout;
    levels.named[below] = levels.named[top];
    Standing {
        top: below,
        running: 0,
        written: at.written,
    }
}

// Levels deeper than `depth` are closed, the deepest first: all below a parent is read, the child that it sprouts is reached as the
// youngest sibling (step 2), and the level that has waited goes on. The loop takes the levels off as it goes.
fn close_levels(next: &mut Preorder, levels: &Levels, depth: usize, at: Standing) -> Standing
    requires { Closable levels.now at }
    ensures { Closing levels.now depth at next.old result next.new }
{
    let mut top = at.top;
    let mut running = at.running;
    let mut written = at.written;
    while depth < top {
        let s = sprout_node(top, levels.sprout[top], levels.above[top] | running);
        top -= 1;
        running = levels.waiting[top];
        if s.label != 0 {
            next[written] = pack(s);
            written += 1;
        }
    }
    Standing {
        top,
        running,
        written,
    }
}

// One letter over the nodes of the tree in a double buffer; there are k sets. The next tree stands on the other side, to which the buffer
// is turned.
pub fn step_nodes(lookup: &Lookup, k: u8, buffer: &mut DoubleBuffer) -> Stepped
    requires { Steppable buffer.old }
    ensures { Stepping (stepped_nodes lookup.now k (counted_nodes (tree_in buffer.old))) buffer.old result buffer.new }
{
    let from = buffer.side;
    let to = 1 - from;
    let mut levels = Levels {
        above: [0; Tree::NODES + 1],
        waiting: [0; Tree::NODES + 1],
        sprout: [0; Tree::NODES + 1],
        named: [true; Tree::NODES + 1],
    };
    let mut accepting = 0;
    let mut stable = 0;
    let mut at = Standing {
        top: 0,
        running: 0u16,
        written: 0,
    };
    // Only nodes with a label are written, so their place is counted beside i.
    for i in 0..buffer.count {
        let x = unpack(buffer.sides[from].nodes[i]);
        let depth = usize::from(x.depth);
        at = close_levels(&mut buffer.sides[to].nodes, &levels, depth, at);
        let top = at.top;
        // The next sibling is reached; a deeper node is below a node that was removed or that has lost its descendants (step 4).
        if depth == top {
            let made = new_labels(lookup, x, levels.above[top] | at.running);
            let named = levels.named[top];
            at = enter(&mut levels, at, made);
            if made.label != 0 {
                buffer.sides[to].nodes[at.written] = pack(settled_node(k, x, made, i));
                at.written += 1;
                accepting = joined_if(accepting, i, made.label == made.kids);
                stable = joined_if(stable, i, named);
            }
        }
    }
    let end = close_levels(&mut buffer.sides[to].nodes, &levels, 0, at);
    buffer.side = to;
    buffer.count = end.written;
    Stepped { accepting, stable }
}
