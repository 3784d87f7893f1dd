// The calls of `suthreldo` as C links them: each export calls the function of its name, with the same contract.
// include/suthreldo.h declares them.
#![tactic(auto)]

ghost use Rattle.table.specs.ReadCall.{ReadCall};
ghost use Rattle.table.specs.WriteCall.{WriteCall};
ghost use Rattle.successors.specs.SuccessorsCall.{SuccessorsCall};
ghost use Rattle.spelling.specs.SameCall.{SameCall};
ghost use Rattle.plain.specs.PlainCall.{PlainCall};
ghost use Rattle.tree.specs.StartCall.{StartCall};
ghost use Rattle.step.specs.StepCall.{StepCall};
ghost use Rattle.treejudge.specs.JudgeCall.{TreeCall};

use plain::judge::PlainAnswer;
use spelling::same::SameAnswer;
use step::call::StepAnswer;
use successors::call::SuccessorsAnswer;
use table::reader::ReadAnswer;
use table::writer::WriteAnswer;
use tree::start::StartAnswer;
use treejudge::judge::TreeAnswer;

#[unsafe(no_mangle)]
pub extern "C" fn suthreldo_read(table: &[u8], grid: &mut [u8]) -> ReadAnswer
    ensures { ReadCall table.now grid.old result grid.new }
{
    suthreldo::suthreldo_read(table, grid)
}

#[unsafe(no_mangle)]
pub extern "C" fn suthreldo_write(
    n: usize,
    m: usize,
    k: usize,
    start: u16,
    grid: &[u8],
    table: &mut [u8],
) -> WriteAnswer
    ensures { WriteCall n m k start grid.now table.old result table.new }
{
    suthreldo::suthreldo_write(n, m, k, start, grid, table)
}

#[unsafe(no_mangle)]
pub extern "C" fn suthreldo_start(table: &[u8], buffer: &mut [u8]) -> StartAnswer
    ensures { StartCall table.now buffer.old result buffer.new }
{
    suthreldo::suthreldo_start(table, buffer)
}

#[unsafe(no_mangle)]
pub extern "C" fn suthreldo_step(
    table: &[u8],
    letter: u8,
    bytes: &[u8],
    buffer: &mut [u8],
) -> StepAnswer
    ensures { StepCall table.now letter bytes.now buffer.old result buffer.new }
{
    suthreldo::suthreldo_step(table, letter, bytes, buffer)
}

#[unsafe(no_mangle)]
pub extern "C" fn suthreldo_tree_judge<'a>(
    table: &[u8],
    u: &'a [u8],
    v: &'a [u8],
    names: &mut [u8],
) -> TreeAnswer
    ensures { TreeCall table.now u.now v.now names.old result names.new }
{
    suthreldo::suthreldo_tree_judge(table, u, v, names)
}

#[unsafe(no_mangle)]
pub extern "C" fn suthreldo_plain_judge<'a>(
    table: &[u8],
    u: &'a [u8],
    v: &'a [u8],
    scratch: &mut [u8],
) -> PlainAnswer
    ensures { PlainCall table.now u.now v.now scratch.old result scratch.new }
{
    suthreldo::suthreldo_plain_judge(table, u, v, scratch)
}

#[unsafe(no_mangle)]
pub extern "C" fn suthreldo_same_walk(u: &[u8], v: &[u8], u2: &[u8], v2: &[u8]) -> SameAnswer
    ensures { SameCall u.now v.now u2.now v2.now result }
{
    suthreldo::suthreldo_same_walk(u, v, u2, v2)
}

#[unsafe(no_mangle)]
pub extern "C" fn suthreldo_successors(table: &[u8], letter: u8, states: u16) -> SuccessorsAnswer
    ensures { SuccessorsCall table.now letter states result }
{
    suthreldo::suthreldo_successors(table, letter, states)
}
