// The look-up of successors: the images of a set of states under a letter by two entries of a look-up.
// A letter's look-up is made once; `look_up` is the inner step of every run of a rule.
ghost use Rattle.std.specs.Prelude.{◌≡◌, ◌^◌, ◌<◌, length};
ghost use Rattle.base.specs.Lists.{tabulate};
ghost use Rattle.rule.specs.Inner.Lookup.{images_by, joined_lookup, joined_word};
ghost use Rattle.rule.specs.Inner.LookupSteps.{StateAdded};

use crate::limits::SquareWords;

// The look-up of a letter: the images of the sets within the lowest four states, then of those within the next four. The images
// of a set are one word of lanes: lane i has the image under relation i (0: all transitions, i: those of set i).
pub type Lookup = [u64; ENTRIES];

// Sixteen sets in each half.
pub const ENTRIES: usize = 32;

// The images of a map of states, all in one word: the next states in lane 0, and in lane i those reached by a transition of set i.
pub fn look_up(lookup: &Lookup, states: u16) -> u64
    ensures { result ≡ images_by lookup.now states }
{
    let s = usize::from(states);
    lookup[s % 16] | lookup[16 + s / 16 % 16]
}

// The entries of the sets with highest state q in a half: q's images joined to the entry of the set without q.
fn add_state(half: &mut [u64], q: usize, images: u64)
    requires { (q < 4) × (length half.old ≡ 16) }
    ensures { StateAdded images q (2 ^ q) half.old half.new }
{
    let made = 1 << q;
    for j in 0..made {
        half[made + j] = half[j] | images;
    }
}

// One half of a look-up from the words of its four states, made in place: each state doubles the entries.
fn fill_half(words: &[u64], half: &mut [u64])
    requires { (length words.now ≡ 4) × (length half.old ≡ 16) }
    ensures { half.new ≡ tabulate 16 (joined_word words.now) }
{
    half[0] = 0;
    for (q, images) in words.iter().enumerate() {
        add_state(half, q, *images);
    }
}

// The look-up of a letter from its states' words, made in place.
pub fn fill_lookup(words: &SquareWords, lookup: &mut Lookup)
    ensures { lookup.new ≡ joined_lookup words.now }
{
    let (low_words, high_words) = words.split_at(4);
    let (low, high) = lookup.split_at_mut(16);
    fill_half(low_words, low);
    fill_half(high_words, high);
}
