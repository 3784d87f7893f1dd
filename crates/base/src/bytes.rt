// Tests of the bytes of a slice.
ghost use Rattle.std.specs.Prelude.{◌≡◌, eqb};
ghost use Rattle.base.specs.Lists.{all_below, any_of};
ghost use Rattle.base.specs.Inner.Largest.{largest};

// The largest byte, or 0 where there is none. The loop has no branch but its own, so that the compiler makes it wide.
fn largest(bytes: &[u8]) -> u8
    ensures { result ≡ largest bytes.now }
{
    let mut most = 0u8;
    for byte in bytes {
        most = most.max(*byte);
    }
    most
}

// Is each byte below a limit? The largest one tells.
pub fn all_below(limit: usize, bytes: &[u8]) -> bool
    ensures { result ≡ all_below limit bytes.now }
{
    bytes.is_empty() || usize::from(largest(bytes)) < limit
}

// Is some byte this number?
pub fn contains(bytes: &[u8], number: usize) -> bool
    ensures { result ≡ any_of (λ x. eqb x number) bytes.now }
{
    bytes.iter().any(|byte| usize::from(*byte) == number)
}
