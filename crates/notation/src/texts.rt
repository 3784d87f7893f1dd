// Texts on one line: each newline is written as `\n`.
ghost use Rattle.std.specs.Prelude.{◌≡◌, ◌++◌, List, MatchOption, ℕ};
ghost use Rattle.notation.specs.OneLine.{on_one_line, written};
ghost use Rattle.notation.specs.Testing.{Tests};

use crate::lines::NEWLINE;

// What follows the letters that stand for this one at the front of a line: two, `\n`, for a newline; nothing where others stand there.
fn behind(letter: u8, line: &[u8]) -> Option<&[u8]>
    ensures { MatchOption result ((rest : List ℕ) → line.now ≡ written letter ++ rest → ⊥) (λ rest. line.now ≡ written letter ++ rest.now) }
{
    if letter == NEWLINE {
        line.strip_prefix(b"\\n")
    } else {
        line.strip_prefix(&[letter])
    }
}

// Is this the text that a line has?
pub fn text_is(line: &[u8], text: &[u8]) -> bool
    ensures { Tests result (line.now ≡ on_one_line text.now) }
{
    let mut rest = line;
    for letter in text {
        let Some(more) = behind(*letter, rest) else {
            return false;
        };
        rest = more;
    }
    rest.is_empty()
}
