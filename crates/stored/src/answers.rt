// The library's calls, each with the arguments that a line has. Its answer is held to the numbers that a text has, the
// refusal number first. Each `.._right` says whether the text has the answer's numbers; nothing where the line lacks the call's arguments.
ghost use Rattle.std.specs.Prelude.{◌≡◌};
ghost use Rattle.stored.specs.Calls.{successors_numbers};
ghost use Rattle.stored.specs.Inner.Comparing.{Compared};
ghost use Rattle.stored.specs.declared.calls.Call.TheVariants.{Plain, Read, Same, Start, Step, Successors, Tree, Write};

use crate::fields::field_bytes;
use crate::rules::rule_of;
use notation::decimal::{number_of, numbers_are};
use notation::lines::field;
use plain::judge::plain_judge;
use spelling::same::same_walk;
use step::call::step;
use successors::call::{SuccessorsAnswer, successors};
use table::reader::read;
use table::writer::write;
use tree::start::start;
use treejudge::judge::tree_judge;

// Line, numbers and buffer go side by side: a struct of three lent slices would be taken apart in each function.
//
// A length goes to a `u64` and a number of the line to the call's type by `as`: std has no `From` there, and the check proves that it fits.
//
// A byte string has a long array, so each is borrowed where it was read, and not moved on.

// The reader: number n m k start.
pub fn read_right(line: &[u8], numbers: &[u8], buffer: &mut [u8]) -> Option<bool>
    ensures { Compared Read line.now buffer.old numbers.now buffer.new result }
{
    let table = field_bytes(line, 1);
    let table = table.as_ref()?;
    let given = read(table.as_slice(), buffer);
    let answer = [
        u64::from(given.number),
        given.states as u64,
        given.letters as u64,
        given.sets as u64,
        u64::from(given.start),
    ];
    Some(numbers_are(numbers, &answer))
}

// The writer: number length.
pub fn write_right(line: &[u8], numbers: &[u8], buffer: &mut [u8]) -> Option<bool>
    ensures { Compared Write line.now buffer.old numbers.now buffer.new result }
{
    let rule = rule_of(field(line, 1))?;
    let grid = field_bytes(line, 2);
    let grid = grid.as_ref()?;
    let given = write(rule.n, rule.m, rule.k, rule.start, grid.as_slice(), buffer);
    let answer = [u64::from(given.number), given.written as u64];
    Some(numbers_are(numbers, &answer))
}

// The starting record: number length.
pub fn start_right(line: &[u8], numbers: &[u8], buffer: &mut [u8]) -> Option<bool>
    ensures { Compared Start line.now buffer.old numbers.now buffer.new result }
{
    let table = field_bytes(line, 1);
    let table = table.as_ref()?;
    let given = start(table.as_slice(), buffer);
    let answer = [u64::from(given.number), given.written as u64];
    Some(numbers_are(numbers, &answer))
}

// The step: number length accepting stable.
pub fn step_right(line: &[u8], numbers: &[u8], buffer: &mut [u8]) -> Option<bool>
    ensures { Compared Step line.now buffer.old numbers.now buffer.new result }
{
    let table = field_bytes(line, 1);
    let table = table.as_ref()?;
    let letter = number_of(field(line, 2), 255)?;
    let bytes = field_bytes(line, 3);
    let bytes = bytes.as_ref()?;
    let given = step(table.as_slice(), letter as u8, bytes.as_slice(), buffer);
    let answer = [
        u64::from(given.number),
        given.written as u64,
        u64::from(given.accepting),
        u64::from(given.stable),
    ];
    Some(numbers_are(numbers, &answer))
}

// The tree judge: number verdict entry period length.
pub fn tree_right(line: &[u8], numbers: &[u8], buffer: &mut [u8]) -> Option<bool>
    ensures { Compared Tree line.now buffer.old numbers.now buffer.new result }
{
    let table = field_bytes(line, 1);
    let table = table.as_ref()?;
    let u = field_bytes(line, 2);
    let u = u.as_ref()?;
    let v = field_bytes(line, 3);
    let v = v.as_ref()?;
    let given = tree_judge(table.as_slice(), u.as_slice(), v.as_slice(), buffer);
    let answer = [
        u64::from(given.number),
        u64::from(given.verdict),
        given.entry,
        given.period,
        u64::from(given.length),
    ];
    Some(numbers_are(numbers, &answer))
}

// The plain judge: number verdict.
pub fn plain_right(line: &[u8], numbers: &[u8], buffer: &mut [u8]) -> Option<bool>
    ensures { Compared Plain line.now buffer.old numbers.now buffer.new result }
{
    let table = field_bytes(line, 1);
    let table = table.as_ref()?;
    let u = field_bytes(line, 2);
    let u = u.as_ref()?;
    let v = field_bytes(line, 3);
    let v = v.as_ref()?;
    let given = plain_judge(table.as_slice(), u.as_slice(), v.as_slice(), buffer);
    let answer = [u64::from(given.number), u64::from(given.verdict)];
    Some(numbers_are(numbers, &answer))
}

// Two walks compared: number same. Nothing is lent to it: the buffer is left as it is.
pub fn same_right(line: &[u8], numbers: &[u8], buffer: &mut [u8]) -> Option<bool>
    ensures { Compared Same line.now buffer.old numbers.now buffer.new result }
{
    let u = field_bytes(line, 1);
    let u = u.as_ref()?;
    let v = field_bytes(line, 2);
    let v = v.as_ref()?;
    let u2 = field_bytes(line, 3);
    let u2 = u2.as_ref()?;
    let v2 = field_bytes(line, 4);
    let v2 = v2.as_ref()?;
    let given = same_walk(u.as_slice(), v.as_slice(), u2.as_slice(), v2.as_slice());
    let answer = [u64::from(given.number), u64::from(given.same)];
    Some(numbers_are(numbers, &answer))
}

// The numbers of an answer on successors, in the order of a line: number, next, the maps of the four sets.
fn successors_numbers(given: SuccessorsAnswer) -> [u64; 6]
    ensures { result ≡ successors_numbers given }
{
    let [one, two, three, four] = given.reached;
    [
        u64::from(given.number),
        u64::from(given.next),
        u64::from(one),
        u64::from(two),
        u64::from(three),
        u64::from(four),
    ]
}

// The successors of some states: number next set1 set2 set3 set4. Nothing is lent to it: the buffer is left as it is.
pub fn successors_right(line: &[u8], numbers: &[u8], buffer: &mut [u8]) -> Option<bool>
    ensures { Compared Successors line.now buffer.old numbers.now buffer.new result }
{
    let table = field_bytes(line, 1);
    let table = table.as_ref()?;
    let letter = number_of(field(line, 2), 255)?;
    let states = number_of(field(line, 3), 65535)?;
    let given = successors(table.as_slice(), letter as u8, states as u16);
    Some(numbers_are(numbers, &successors_numbers(given)))
}
