// Reading letters: each is one step over the nodes of a tree, but up to the last place where the root is alone the root tells all.
ghost use Rattle.tree.specs.Inner.Sides.{tree_in};
ghost use Rattle.letters.specs.Inner.Reading.{Readable, ReadsTo};

use crate::root::{place_of, skip_while_sparing};
use step::pass::step_nodes;
use tree::sides::DoubleBuffer;
use word::lookups::Lookups;

// Each of the letters w is read over all nodes.
fn read_each_letter(lookups: &Lookups, k: u8, w: &[u8], buffer: &mut DoubleBuffer)
    requires { Readable lookups.now k w.now (tree_in buffer.old) }
    ensures { ReadsTo lookups.now k w.now (tree_in buffer.old) (tree_in buffer.new) }
{
    for letter in w {
        step_nodes(&lookups[usize::from(*letter)], k, buffer);
    }
}

// The letters w are read: the root first, as long as that spares letters. `root_first` lasts over many rounds of the same letters; it is
// true before the first. No answer depends on it.
pub fn read_letters(
    lookups: &Lookups,
    k: u8,
    w: &[u8],
    buffer: &mut DoubleBuffer,
    root_first: &mut bool,
)
    requires { Readable lookups.now k w.now (tree_in buffer.old) }
    ensures { ReadsTo lookups.now k w.now (tree_in buffer.old) (tree_in buffer.new) }
{
    let skipped = skip_while_sparing(lookups, k, w, buffer, root_first);
    read_each_letter(lookups, k, &w[place_of(skipped)..], buffer);
}
