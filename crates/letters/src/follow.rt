// Following nodes by their names, letter by letter. Numbers shift from tree to tree, so the followed nodes are kept as maps over
// the present numbers, and each letter carries them from the old numbers to the new ones.
ghost use Rattle.std.specs.Prelude.{◌≡◌, ◌≤◌};
ghost use Rattle.rule.specs.Limits.{max_states};
ghost use Rattle.tree.specs.Inner.Sides.{tree_in};
ghost use Rattle.letters.specs.Inner.Names.{all_kept, carried_maps, Followable, FollowsTo};
ghost use Rattle.letters.specs.Inner.RootPass.{root_maps};

use crate::root::{Skipped, place_of, skip_while_sparing};
use step::pass::step_nodes;
use tree::packed::unpack;
use tree::sides::DoubleBuffer;
use word::lookups::Lookups;

// The map of a tree's nodes that have kept their names, and that of the witnesses: those among them that were accepting once.
#[derive(Clone, Copy)]
pub struct Maps {
    pub kept: u16,
    pub witnesses: u16,
}

// Both maps of old numbers carried to the numbers of a tree's nodes. They lie in one word, 32 bits apart, and a node takes its bit of
// each at once. Bit 31, which no map has, serves for the old numbers past it, as that of a new node.
fn carry(buffer: &DoubleBuffer, maps: Maps) -> Maps
    ensures { result ≡ carried_maps (tree_in buffer.now) maps }
{
    let pair = u64::from(maps.witnesses) * 4294967296 + u64::from(maps.kept);
    let mut new_pair = 0u64;
    for (j, word) in buffer.nodes().iter().enumerate() {
        let old = unpack(*word).old;
        new_pair |= ((pair >> old.min(31)) & 4294967297) << j;
    }
    // Each half fits.
    Maps {
        kept: (new_pair % 65536) as u16,
        witnesses: (new_pair / 4294967296 % 65536) as u16,
    }
}

// Before the first letter every node of a tree that has `count` of them has kept its name, and none was accepting.
pub fn begin(count: usize) -> Maps
    requires { count ≤ max_states }
    ensures { result ≡ all_kept count }
{
    Maps {
        kept: (1u16 << count) - 1,
        witnesses: 0,
    }
}

// The followed nodes after the letters w, each read over all nodes.
fn follow_each_letter(
    lookups: &Lookups,
    k: u8,
    w: &[u8],
    buffer: &mut DoubleBuffer,
    from: Maps,
) -> Maps
    requires { Followable lookups.now k w.now (tree_in buffer.old) from }
    ensures { FollowsTo lookups.now k w.now (tree_in buffer.old) from (tree_in buffer.new) result }
{
    let mut maps = from;
    for letter in w {
        let next = step_nodes(&lookups[usize::from(*letter)], k, buffer);
        // Those that are stable at the letter keep their names; one that is accepting was so once.
        let stay = Maps {
            kept: maps.kept & next.stable,
            witnesses: (maps.witnesses | (maps.kept & next.accepting)) & next.stable,
        };
        maps = carry(buffer, stay);
    }
    maps
}

// The followed nodes where letters were skipped: only the root of the tree there is left to follow.
fn maps_there(buffer: &DoubleBuffer, skipped: Option<Skipped>, maps: Maps) -> Maps
    ensures { result ≡ root_maps skipped buffer.now.count maps }
{
    let Some(there) = skipped else {
        return maps;
    };
    // One node or none: as a number it is the map of the root.
    let root = buffer.count as u16;
    Maps {
        kept: root,
        witnesses: (maps.witnesses | u16::from(there.accepted)) & root,
    }
}

// The followed nodes after the letters w: the root first, as long as that spares letters. `root_first` lasts over many rounds of the
// same letters; it is true before the first. No answer depends on it.
pub fn follow_letters(
    lookups: &Lookups,
    k: u8,
    w: &[u8],
    buffer: &mut DoubleBuffer,
    from: Maps,
    root_first: &mut bool,
) -> Maps
    requires { Followable lookups.now k w.now (tree_in buffer.old) from }
    ensures { FollowsTo lookups.now k w.now (tree_in buffer.old) from (tree_in buffer.new) result }
{
    let skipped = skip_while_sparing(lookups, k, w, buffer, root_first);
    let maps = maps_there(buffer, skipped, from);
    follow_each_letter(lookups, k, &w[place_of(skipped)..], buffer, maps)
}
