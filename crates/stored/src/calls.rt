// Stored calls. A line: the call, its arguments, the lent buffer, the answer's numbers, the buffer after the call. It is
// right if the library gives these numbers and leaves these bytes.
//
// To add a call:
// - here: its case of `Call`, its name in `named`, how many arguments it has in `arguments`, its arm in `numbers_right`;
// - answers.rt: its function, which makes the call with a line's arguments and compares its numbers;
// - specs/Calls.antt: its case of `name_of` and `arguments`, the record of what it gives, its case of `Gives`;
// - proofs: its case of the laws of CallNames.antt and Determined.antt, and in the proofs of the functions named here.
ghost use Rattle.std.specs.Prelude.{◌≡◌, ◌≤◌};
ghost use Rattle.notation.specs.Testing.{Tests};
ghost use Rattle.stored.specs.Calls.{Answered, CallRight, arguments};
ghost use Rattle.stored.specs.Inner.Comparing.{Compared, Names};

use crate::answers::{
    plain_right, read_right, same_right, start_right, step_right, successors_right, tree_right,
    write_right,
};
use crate::fields::field_bytes;
use check::same;
use notation::hexadecimal::bytes_are;
use notation::lines::{TAB, field, separators};

// The library's calls.
#[derive(Clone, Copy)]
pub enum Call {
    Read,
    Write,
    Start,
    Step,
    Tree,
    Plain,
    Same,
    Successors,
}

impl Call {
    // The call of this name. A match on byte strings would leave the proof a case for each letter at which two names part.
    fn named(name: &[u8]) -> Option<Call>
        ensures { Names name.now result }
    {
        if same(name, b"read") {
            return Some(Call::Read);
        }
        if same(name, b"write") {
            return Some(Call::Write);
        }
        if same(name, b"start") {
            return Some(Call::Start);
        }
        if same(name, b"step") {
            return Some(Call::Step);
        }
        if same(name, b"tree") {
            return Some(Call::Tree);
        }
        if same(name, b"plain") {
            return Some(Call::Plain);
        }
        if same(name, b"same") {
            return Some(Call::Same);
        }
        if same(name, b"successors") {
            return Some(Call::Successors);
        }
        None
    }

    // How many arguments a call has: a number for each case, of which a table would be no plainer.
    #[tactic(auto, unfolding(crate::specs::Calls::arguments))]
    fn arguments(self) -> usize
        ensures { (result ≡ arguments self) × (result ≤ 4) }
    {
        match self {
            Call::Read => 1,
            Call::Write => 2,
            Call::Start => 1,
            Call::Step => 3,
            Call::Tree => 3,
            Call::Plain => 3,
            Call::Same => 4,
            Call::Successors => 3,
        }
    }
}

// Does a call with the line's arguments give these numbers? A table of functions would say no more than the cases.
fn numbers_right(call: Call, line: &[u8], numbers: &[u8], buffer: &mut [u8]) -> Option<bool>
    ensures { Compared call line.now buffer.old numbers.now buffer.new result }
{
    match call {
        Call::Read => read_right(line, numbers, buffer),
        Call::Write => write_right(line, numbers, buffer),
        Call::Start => start_right(line, numbers, buffer),
        Call::Step => step_right(line, numbers, buffer),
        Call::Tree => tree_right(line, numbers, buffer),
        Call::Plain => plain_right(line, numbers, buffer),
        Call::Same => same_right(line, numbers, buffer),
        Call::Successors => successors_right(line, numbers, buffer),
    }
}

// Does a call on this buffer give the line's numbers, and leave the line's bytes?
fn lent_right(call: Call, line: &[u8], buffer: &mut [u8]) -> bool
    ensures { Tests result (Answered call line.now buffer.old) }
{
    let arguments = call.arguments();
    let right = numbers_right(call, line, field(line, arguments + 2), buffer).unwrap_or(false);
    right & bytes_are(field(line, arguments + 3), buffer)
}

// Is a line right?
pub fn call_right(line: &[u8]) -> bool
    ensures { Tests result (CallRight line.now) }
{
    let Some(call) = Call::named(field(line, 0)) else {
        return false;
    };
    let arguments = call.arguments();
    if separators(line, TAB) != arguments + 3 {
        return false;
    }
    let mut found = field_bytes(line, arguments + 1);
    let Some(lent) = &mut found else {
        return false;
    };
    lent_right(call, line, lent.as_mut_slice())
}
