// A part that stands behind its length "in two bytes, low first".
ghost use Rattle.std.specs.Prelude.{◌≡◌, ℕ};
ghost use Rattle.base.specs.Inner.PartEnds.{end_as, part_end};

// Where the part ends whose length stands at a place: behind its last byte; nothing where it is not whole. The number that refuses such a part
// is the caller's.
pub fn part_end(bytes: &[u8], at: usize) -> Option<usize>
    ensures { (number : ℕ) → end_as number result ≡ part_end number at bytes.now }
{
    let [low, high, rest @ ..] = bytes.get(at..)? else {
        return None;
    };
    let size = usize::from(*low) + 256 * usize::from(*high);
    if rest.len() < size {
        return None;
    }
    Some(at + 2 + size)
}
