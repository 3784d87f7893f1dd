// Byte strings, each in an array of its own.
ghost use Rattle.std.specs.Prelude.{◌≡◌, ◌<◌, ◌≤◌, [], ◌∷◌, ◌++◌, MatchOption, length, replicate};
ghost use Rattle.notation.specs.Hexadecimal.{longest};

use std::marker::Model;

// Room for the longest byte string of a stored case.
pub(crate) const LONGEST: usize = 33000;

// A byte string: those bytes that stand in front of its end in an array. It is no `Vec`, since memory that runs out would be one more outcome of
// each contract above.
#[derive(Clone, Copy)]
pub struct Bytes {
    room: [u8; LONGEST],
    end: usize,
}

impl Model for Bytes {
    ghost use Rattle.std.specs.Prelude.{◌≤◌, ◌++◌, take, drop};
    ghost use Rattle.std.proofs.Common.{take-append-drop};
    ghost use Rattle.notation.specs.Bytes.{Held};

    ghost Value = { Held };

    ghost view = { λ b. record { bytes = take b.end b.room; spare = drop b.end b.room; end = b.end } };

    ghost invariant = { λ b. b.end ≤ 33000 };

    ghost inverse = { λ held. record { room = held.bytes ++ held.spare; end = held.end } };

    ghost inverse_ok = { λ b h i. record { room = take-append-drop b.end b.room i; end = b.end } };
}

impl Bytes {
    // No byte.
    pub fn empty() -> Bytes
        ensures { result.bytes ≡ [] }
    {
        Bytes {
            room: [0; LONGEST],
            end: 0,
        }
    }

    // No byte any more.
    pub(crate) fn clear(&mut self)
        ensures { self.new.bytes ≡ [] }
    {
        self.end = 0;
    }

    // A byte so many times, and no other.
    #[tactic(auto, unfolding(crate::specs::Hexadecimal::longest))]
    pub(crate) fn fill(&mut self, byte: u8, count: usize)
        requires { count ≤ longest }
        ensures { self.new.bytes ≡ replicate count byte }
    {
        self.room[..count].fill(byte);
        self.end = count;
    }

    // One byte more at the end; nothing where there is no room for it.
    pub(crate) fn push(&mut self, byte: u8) -> Option<()>
        ensures { MatchOption result (longest ≤ length self.old.bytes)
            (λ _. (length self.new.bytes ≤ longest) × (self.new.bytes ≡ self.old.bytes ++ byte ∷ [])) }
    {
        if self.end == LONGEST {
            return None;
        }
        self.room[self.end] = byte;
        self.end += 1;
        Some(())
    }

    // All bytes.
    pub fn as_slice(&self) -> &[u8]
        ensures { result.now ≡ self.now.bytes }
    {
        &self.room[..self.end]
    }

    // All bytes, to be written.
    pub fn as_mut_slice(&mut self) -> &mut [u8]
        ensures { result.now ≡ self.old.bytes }
    {
        &mut self.room[..self.end]
    }
}
