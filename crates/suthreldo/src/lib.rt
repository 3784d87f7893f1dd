// The calls for C and Rust: each is one of the public calls under a plain name, with its contract word for word.
// include/suthreldo.h declares them. The crate `suthreldo_c` exports them.
#![tactic(auto)]

ghost use Rattle.table.specs.ReadCall.{ReadCall};
ghost use Rattle.table.specs.WriteCall.{WriteCall};
ghost use Rattle.successors.specs.SuccessorsCall.{SuccessorsCall};
ghost use Rattle.spelling.specs.SameCall.{SameCall};
ghost use Rattle.plain.specs.PlainCall.{PlainCall};
ghost use Rattle.tree.specs.StartCall.{StartCall};
ghost use Rattle.step.specs.StepCall.{StepCall};
ghost use Rattle.treejudge.specs.JudgeCall.{TreeCall};

use plain::judge::{PlainAnswer, plain_judge};
use spelling::same::{SameAnswer, same_walk};
use step::call::{StepAnswer, step};
use successors::call::{SuccessorsAnswer, successors};
use table::reader::{ReadAnswer, read};
use table::writer::{WriteAnswer, write};
use tree::start::{StartAnswer, start};
use treejudge::judge::{TreeAnswer, tree_judge};

pub fn suthreldo_read(table: &[u8], grid: &mut [u8]) -> ReadAnswer
    ensures { ReadCall table.now grid.old result grid.new }
{
    read(table, grid)
}

pub fn suthreldo_write(
    n: usize,
    m: usize,
    k: usize,
    start: u16,
    grid: &[u8],
    table: &mut [u8],
) -> WriteAnswer
    ensures { WriteCall n m k start grid.now table.old result table.new }
{
    write(n, m, k, start, grid, table)
}

pub fn suthreldo_start(table: &[u8], buffer: &mut [u8]) -> StartAnswer
    ensures { StartCall table.now buffer.old result buffer.new }
{
    start(table, buffer)
}

pub fn suthreldo_step(table: &[u8], letter: u8, bytes: &[u8], buffer: &mut [u8]) -> StepAnswer
    ensures { StepCall table.now letter bytes.now buffer.old result buffer.new }
{
    step(table, letter, bytes, buffer)
}

pub fn suthreldo_tree_judge<'a>(
    table: &[u8],
    u: &'a [u8],
    v: &'a [u8],
    names: &mut [u8],
) -> TreeAnswer
    ensures { TreeCall table.now u.now v.now names.old result names.new }
{
    tree_judge(table, u, v, names)
}

pub fn suthreldo_plain_judge<'a>(
    table: &[u8],
    u: &'a [u8],
    v: &'a [u8],
    scratch: &mut [u8],
) -> PlainAnswer
    ensures { PlainCall table.now u.now v.now scratch.old result scratch.new }
{
    plain_judge(table, u, v, scratch)
}

pub fn suthreldo_same_walk(u: &[u8], v: &[u8], u2: &[u8], v2: &[u8]) -> SameAnswer
    ensures { SameCall u.now v.now u2.now v2.now result }
{
    same_walk(u, v, u2, v2)
}

pub fn suthreldo_successors(table: &[u8], letter: u8, states: u16) -> SuccessorsAnswer
    ensures { SuccessorsCall table.now letter states result }
{
    successors(table, letter, states)
}
