// "The cells are read once, from front to back": a reader over the lent table bytes and a place in them.
ghost use Rattle.std.specs.Prelude.{◌≡◌, drop};
ghost use Rattle.std.specs.Iterator.{item_count};
ghost use Rattle.table.specs.Inner.Reader.{ahead, next_as, next_byte};

// The lent bytes of a table, and the place of the byte to be read next.
#[derive(Clone, Copy)]
pub struct Reader<'a> {
    src: &'a [u8],
    at: usize,
}

impl<'a> Reader<'a> {
    // A reader at a place of some bytes.
    pub fn new(src: &'a [u8], at: usize) -> Reader<'a>
        ensures { ahead result ≡ drop at src.entry.now }
    {
        Reader { src, at }
    }
}

// "At each cell byte in turn: is it there?": the byte to be read next, or nothing at the end. The reader is then behind it.
impl Iterator for Reader<'_> {
    type Item = u8;

    ghost next_gives = { λ before byte after. next_as (ahead after) byte ≡ next_byte (ahead before) };

    ghost remaining = { item_count ahead };

    fn next(&mut self) -> Option<u8> {
        let byte = *self.src.get(self.at)?;
        self.at += 1;
        Some(byte)
    }
}
