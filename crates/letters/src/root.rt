// The root by itself. Its label, the union of its children's labels and its active set after a letter depend on these three and the
// letter alone; and where it has no child it is the whole tree. So letters are read for the root alone first: up to the last place
// where it has no child, no other node need be read.
ghost use Rattle.std.specs.Prelude.{◌≡◌, cond, ◌≤◌, eqb, length};
ghost use Rattle.rule.specs.Limits.{max_sets};
ghost use Rattle.word.specs.Walk.{max_length};
ghost use Rattle.history.specs.Inner.Root.{settled_root};
ghost use Rattle.tree.specs.Inner.Sides.{tree_in};
ghost use Rattle.letters.specs.Inner.Reading.{Readable};
ghost use Rattle.letters.specs.Inner.RootPass.{root_as, root_by, Passable, FoundAlone, LastAlone, place_in, root_in, InWord, root_on, IsLone, place_of, SkipsTo};

use rule::lanes::map_of;
use rule::lookup::{Lookup, look_up};
use step::pass::next_set;
use tree::nodes::Node;
use tree::sides::DoubleBuffer;
use word::lookups::Lookups;
use word::walk::MAX_LENGTH;

// What is carried of the root: its label, the union of its children's labels, its active set, and whether it was accepting on the way.
#[derive(Clone, Copy)]
pub struct Root {
    pub label: u16,
    pub kids: u16,
    pub active: u8,
    pub accepted: bool,
}

// The root behind some letters, where it has no child.
#[derive(Clone, Copy)]
pub struct RootAt {
    pub place: usize,
    pub root: Root,
}

// Step 4 at the root, from its new label and the union of its children's new labels. A `Root` has no depth and no old number, and carries
// whether it was accepting: one function for it and for a `Node` (`settled_node` of `step`) would take all fields apart.
#[tactic(auto, unfolding(history::specs::Inner::Root::settled_root))]
fn settled_root(k: u8, label: u16, kids: u16, root: Root) -> Root
    requires { root.active ≤ max_sets }
    ensures { root_as result ≡ settled_root k label kids (root_as root) }
{
    if label == kids {
        Root {
            label,
            kids: 0,
            active: next_set(k, root.active),
            accepted: true,
        }
    } else {
        Root {
            label,
            kids,
            active: root.active,
            accepted: root.accepted,
        }
    }
}

// One letter at the root. Nothing is taken from it, so the union of its children's labels is known from the old one.
fn root_letter(lookup: &Lookup, k: u8, root: Root) -> Root
    requires { root.active ≤ max_sets }
    ensures { root_as result ≡ root_by lookup.now k (root_as root) }
{
    let images = look_up(lookup, root.label);
    let label = map_of(images, 0);
    let sprout = map_of(images, usize::from(root.active));
    let kids = map_of(look_up(lookup, root.kids), 0);
    settled_root(k, label, kids | sprout, root)
}

// A place where the root is alone and the root there, in one word: so the loop over the letters needs no branch to keep the last one.
fn alone_word(place: usize, root: Root) -> u64
    requires { place ≤ max_length }
    ensures { (place_in result ≡ place)
        × (root_in result ≡ record { label = root.label; kids = 0; active = root.active; accepted = root.accepted }) }
{
    // `u64` has no `From` of `usize`.
    let upper = (place as u64) * 4294967296 + u64::from(root.accepted) * 16777216;
    upper + u64::from(root.active) * 65536 + u64::from(root.label)
}

// The place and the root of such a word; 0 is the word of none.
#[tactic(auto, unfolding(crate::specs::Inner::RootPass::place_in, crate::specs::Inner::RootPass::root_in))]
fn root_of_word(word: u64) -> Option<RootAt>
    ensures { InWord word result }
{
    // Each part fits its type.
    let place = (word / 4294967296) as usize;
    if place == 0 {
        return None;
    }
    Some(RootAt {
        place,
        root: Root {
            label: (word % 65536) as u16,
            kids: 0,
            active: (word / 65536 % 256) as u8,
            accepted: word / 16777216 % 256 == 1,
        },
    })
}

// The last word where the root is alone: this one, or the one before. A choice of two words needs no branch.
fn last_word(kids: u16, here: u64, before: u64) -> u64
    ensures { result ≡ cond (eqb kids 0) here before }
{
    if kids == 0 { here } else { before }
}

// The last place in w where the root is alone, and the root there. The loop has no branch but its own.
fn last_alone(lookups: &Lookups, k: u8, w: &[u8], first: Root) -> Option<RootAt>
    requires { Passable k w.now (root_as first) }
    ensures { LastAlone lookups.now k w.now (root_as first) (length w.now) result }
{
    let mut root = first;
    let mut last = 0u64;
    for (before, letter) in w.iter().enumerate() {
        root = root_letter(&lookups[usize::from(*letter)], k, root);
        let here = alone_word(before + 1, root);
        last = last_word(root.kids, here, last);
    }
    root_of_word(last)
}

// How many letters of a stretch are tried first: a quarter of them, or all where it is short.
fn tried_part(length: usize) -> usize
    ensures { result ≤ length }
{
    if length < 32 { length } else { length / 4 }
}

// A place in w where the root is alone, and the root there. If the root is not alone in the part that is tried, the rest is left
// unread.
fn find_alone(lookups: &Lookups, k: u8, w: &[u8], first: Root) -> Option<RootAt>
    requires { Passable k w.now (root_as first) }
    ensures { FoundAlone lookups.now k w.now (root_as first) result }
{
    let part = tried_part(w.len());
    let tried = last_alone(lookups, k, &w[..part], first)?;
    if part == w.len() {
        return Some(tried);
    }
    let place = tried.place;
    let Some(rest) = last_alone(lookups, k, &w[place..], tried.root) else {
        return Some(tried);
    };
    Some(RootAt {
        place: place + rest.place,
        root: rest.root,
    })
}

// The root of a tree in place; of the dead tree, one without states.
#[tactic(auto, unfolding(crate::specs::Inner::RootPass::root_on))]
fn root_on(buffer: &DoubleBuffer) -> Root
    ensures { root_as result ≡ root_on (tree_in buffer.now) }
{
    if buffer.count == 0 {
        return Root {
            label: 0,
            kids: 0,
            active: 1,
            accepted: false,
        };
    }
    let node = buffer.node(0);
    Root {
        label: node.label,
        kids: node.kids,
        active: node.active,
        accepted: false,
    }
}

// The tree of a root that has no child, put in place: the root alone, or no node. The side stays.
fn lay_alone(buffer: &mut DoubleBuffer, root: Root)
    ensures lone { IsLone (root_as root) (tree_in buffer.new) }
    ensures side { buffer.new.side ≡ buffer.old.side }
{
    let node = Node {
        depth: 0,
        label: root.label,
        kids: 0,
        active: root.active,
        old: 0,
    };
    buffer.lay_root(node, usize::from(root.label != 0));
}

// A place that is skipped to: the root is alone there; and whether it was accepting at one of the letters.
#[derive(Clone, Copy)]
pub struct Skipped {
    pub place: usize,
    pub accepted: bool,
}

// To a place of w where the root is alone, no other node being read up to there; at none, the tree stands as it is. The side stays. A stretch
// longer than a walk's is not read.
pub fn skip_to_alone(
    lookups: &Lookups,
    k: u8,
    w: &[u8],
    buffer: &mut DoubleBuffer,
) -> Option<Skipped>
    requires { Readable lookups.now k w.now (tree_in buffer.old) }
    ensures skips { SkipsTo lookups.now k w.now (tree_in buffer.old) (tree_in buffer.new) result }
    ensures side { buffer.new.side ≡ buffer.old.side }
{
    if w.len() > MAX_LENGTH {
        return None;
    }
    let found = find_alone(lookups, k, w, root_on(buffer))?;
    lay_alone(buffer, found.root);
    Some(Skipped {
        place: found.place,
        accepted: found.root.accepted,
    })
}

// The same for one of many rounds of the letters: only while it spares more than a quarter of them, round after round. No answer depends
// on `root_first`.
pub fn skip_while_sparing(
    lookups: &Lookups,
    k: u8,
    w: &[u8],
    buffer: &mut DoubleBuffer,
    root_first: &mut bool,
) -> Option<Skipped>
    requires { Readable lookups.now k w.now (tree_in buffer.old) }
    ensures skips { SkipsTo lookups.now k w.now (tree_in buffer.old) (tree_in buffer.new) result }
    ensures side { buffer.new.side ≡ buffer.old.side }
{
    if !*root_first {
        return None;
    }
    let skipped = skip_to_alone(lookups, k, w, buffer);
    *root_first = w.len() / 4 < place_of(skipped);
    skipped
}

// How many letters are skipped.
pub fn place_of(skipped: Option<Skipped>) -> usize
    ensures { result ≡ place_of skipped }
{
    match skipped {
        Some(there) => there.place,
        None => 0,
    }
}
