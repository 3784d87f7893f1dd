// The look-ups of a walk: those of the letters that occur in it, each made once.
ghost use Rattle.std.specs.Prelude.{◌≡◌, ◌-◌, ◌^◌, ◌<◌, ◌≤◌};
ghost use Rattle.std.specs.Int.Bits.{bit_or};
ghost use Rattle.base.specs.BitSet.{Subset, collect, member};
ghost use Rattle.base.specs.Lists.{Every};
ghost use Rattle.rule.specs.Limits.{max_letters};
ghost use Rattle.word.specs.Inner.WalkLookups.{occurs, refilled, lookups_after};

use rule::limits::{LETTERS, Words};
use rule::lookup::{Lookup, fill_lookup};

// A look-up for each letter.
pub type Lookups = [Lookup; LETTERS];

// The map of all letters of a rule that has m of them. It is made in a wider word, since 2^16 is no u16; the map fits.
fn all_letters(m: usize) -> u16
    requires { m ≤ max_letters }
    ensures { result ≡ 2 ^ m - 1 }
{
    ((1u32 << m) - 1) as u16
}

// The map of the letters of w, joined to a map of letters. A byte from the limit up counts by its remainder. The map `all` has each letter
// that can come: the loop ends when all have come.
fn occurring(w: &[u8], others: u16, all: u16) -> u16
    requires { Subset (bit_or others (collect max_letters (occurs w.now))) all }
    ensures { result ≡ bit_or others (collect max_letters (occurs w.now)) }
{
    let mut letters = others;
    for letter in w {
        if letters == all {
            break;
        }
        letters |= 1u16 << (usize::from(*letter) % LETTERS);
    }
    letters
}

// The look-ups of a map of letters, made in place from the words of their states; those of other letters stay.
fn fill_lookups(words: &Words, letters: u16, lookups: &mut Lookups)
    ensures { lookups.new ≡ refilled (member letters) words.now lookups.old }
{
    for letter in 0..LETTERS {
        if (letters >> letter) % 2 == 1 {
            fill_lookup(&words[letter], &mut lookups[letter]);
        }
    }
}

// The look-ups of the letters that occur in a walk, made in place; those of other letters stay. The rule has m letters. Both judges read
// letters by them.
pub fn walk_lookups(words: &Words, m: usize, u: &[u8], v: &[u8], lookups: &mut Lookups)
    requires { (m ≤ max_letters) × Every (λ a. a < m) u.now × Every (λ a. a < m) v.now }
    ensures { lookups.new ≡ lookups_after words.now u.now v.now lookups.old }
{
    let all = all_letters(m);
    let lead_letters = occurring(u, 0, all);
    let letters = occurring(v, lead_letters, all);
    fill_lookups(words, letters, lookups);
}
