// Files of stored cases, line by line.
ghost use Rattle.std.specs.Prelude.{◌≡◌, ◌+◌, ◌<◌, ◌≤◌, [], ◌∷◌, MatchOption, length};
ghost use Rattle.std.specs.Fn.{FnReturnsAt};
ghost use Rattle.stored.specs.Tallies.{Kind, Tallied, TestsLines, has_case, lines_of};
ghost use Rattle.stored.specs.Inner.Comparing.{LineTallied};

use notation::lines::{NEWLINE, end_of};
use program::console::read_full;
use std::fs;
use std::io::{Eprint, Print};
use std::rt::Files;

// How many cases a file has, and how many of them differ.
#[derive(Clone, Copy)]
struct Tally {
    cases: u64,
    differences: u64,
}

// Does a line have a case? One that starts with # has none.
fn has_case(line: &[u8]) -> bool
    ensures { result ≡ has_case line.now }
{
    !line.starts_with(b"#")
}

// The first line of a text, and what stands behind it; nothing where no line is left. The `lines` of std also take a carriage return off.
fn next_line(text: &[u8]) -> Option<(&[u8], &[u8])>
    ensures { MatchOption result (lines_of text.now ≡ []) (λ p. (lines_of text.now ≡ p.0.now ∷ lines_of p.1.now) × (length p.1.now < length text.now)) }
{
    if text.is_empty() {
        return None;
    }
    let end = end_of(text, NEWLINE, 0);
    Some((&text[..end], text.get(end + 1..).unwrap_or(&[])))
}

// Runs the case of a line, if it has one, and counts it. A difference is named by file and line. That the test can be called, and that it tests the
// lines of some kind, is asked in each function: the type of a function cannot carry it.
fn run_line<P: Print, F: Fn(&[u8]) -> bool>(
    rt: &P,
    name: &str,
    right: &F,
    number: u64,
    line: &[u8],
    tally: Tally,
) -> Tally
    requires few { (tally.differences ≤ tally.cases) × (tally.cases < number) }
    requires callable { F.IsAlwaysCallable right.now }
    requires tests { (kind : Kind) × TestsLines (FnReturnsAt F.Fn right.now) kind }
    ensures few { (result.differences ≤ result.cases) × (result.cases ≤ tally.cases + 1) }
    ensures counted { (kind : Kind) → TestsLines (FnReturnsAt F.Fn right.now) kind → LineTallied kind line.now tally result }
{
    if !has_case(line) {
        return tally;
    }
    let mut more = tally;
    more.cases += 1;
    if !right(line) {
        let _ = println!(rt; "difference: {name} line {number}");
        more.differences += 1;
    }
    more
}

// Runs the cases of all lines.
fn run_lines<P: Print, F: Fn(&[u8]) -> bool>(rt: &P, name: &str, right: &F, text: &[u8]) -> Tally
    requires callable { F.IsAlwaysCallable right.now }
    requires tests { (kind : Kind) × TestsLines (FnReturnsAt F.Fn right.now) kind }
    ensures { (kind : Kind) → TestsLines (FnReturnsAt F.Fn right.now) kind → Tallied kind (lines_of text.now) result.cases result.differences }
{
    let mut tally = Tally {
        cases: 0,
        differences: 0,
    };
    // The text is cut as it is read, so the line's number is counted beside it.
    let mut number = 0u64;
    let mut rest = text;
    while let Some((line, behind)) = next_line(rest) {
        number += 1;
        tally = run_line(rt, name, right, number, line, tally);
        rest = behind;
    }
    tally
}

// Room for a file and a byte more. One that fills it may be longer. It is an array, so that no heap is asked, which can run out.
const ROOM: usize = 1200000;

fn room() -> [u8; ROOM]
    ensures { 1200000 ≡ length result }
{
    [0; ROOM]
}

// Runs the cases of a file. None is run of a file that is missing, or for which there is no room.
pub fn run_file<R: Files + Print + Eprint, F: Fn(&[u8]) -> bool>(rt: &R, name: &str, right: F)
    requires callable { F.IsAlwaysCallable right }
    requires tests { (kind : Kind) × TestsLines (FnReturnsAt F.Fn right) kind }
{
    let mut file = match fs::open(rt, name) {
        Ok(file) => file,
        Err(error) => {
            let _ = eprintln!(rt; "{name}: {error}");
            let _ = println!(rt; "{name}: missing");
            return;
        }
    };
    let mut text = room();
    let Ok(length) = read_full(&mut file, &mut text) else {
        let _ = println!(rt; "{name}: not read");
        return;
    };
    if length == ROOM {
        let _ = println!(rt; "{name}: longer than the room");
        return;
    }
    let tally = run_lines(rt, name, &right, &text[..length]);
    let cases = tally.cases;
    let differences = tally.differences;
    let _ = println!(rt; "{name}: {cases} cases, {differences} differences");
}
