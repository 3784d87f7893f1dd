// The tree judge: entry and period of the first repeated tree at a round end, and the verdict with its node.
ghost use Rattle.std.specs.Prelude.{◌≡◌, ◌≤◌, length};
ghost use Rattle.base.specs.Refusals.{refusal_number};
ghost use Rattle.rule.specs.Rule.{Rule};
ghost use Rattle.word.specs.Judging.{ask_room};
ghost use Rattle.word.specs.Inner.Prepared.{Prepared};
ghost use Rattle.treejudge.specs.JudgeCall.{Judged, TreeAnswers, TreeCall, name_room};

use crate::name::{first_node, node_name, store_name};
use crate::repeat::find_repeat;
use base::refusal::Refusal;
use letters::read::read_letters;
use rule::limits::LETTERS;
use rule::lookup::ENTRIES;
use table::header::Header;
use tree::nodes::Tree;
use word::lookups::Lookups;
use word::questions::walk_questions;
use word::walk::letters_left;

// The tree judge's answer, as C has it: 0, the verdict (1 yes, 0 no), entry and period, and the length of the node's name (255 on no); or the
// number of the question that failed and zeros.
#[repr(C)]
#[derive(Clone, Copy)]
pub struct TreeAnswer {
    pub number: u8,
    pub verdict: u8,
    pub entry: u64,
    pub period: u64,
    pub length: u8,
}

// A refusal: its number and zero for all else. It is promised for every number, so it stands beside the `From`.
pub fn tree_refusal(number: u8) -> TreeAnswer
    ensures { result ≡ record { number = number; verdict = 0; entry = 0; period = 0; length = 0 } }
{
    TreeAnswer {
        number,
        verdict: 0,
        entry: 0,
        period: 0,
        length: 0,
    }
}

impl From<Refusal> for TreeAnswer {
    ghost from_gives = { λ refusal answer. answer ≡ record { number = refusal_number refusal; verdict = 0; entry = 0; period = 0; length = 0 } };

    fn from(refusal: Refusal) -> TreeAnswer {
        tree_refusal(refusal.into())
    }
}

// A name length that is none: "On no, the length is 255".
const NO_NAME: u8 = 255;

// The answer to a walk whose look-ups are ready, with room for a name. It is right for every rule that the look-ups are of. `Prepared` is asked in
// each function: look-ups are arrays of arrays, which no struct can hold with it.
fn judge_walk<'a>(
    lookups: &Lookups,
    header: Header,
    u: &'a [u8],
    v: &'a [u8],
    names: &mut [u8],
) -> TreeAnswer
    requires { ((R : Rule) × Prepared R header lookups.now u.now v.now) × (name_room ≤ length names.old) }
    ensures { (R : Rule) → Prepared R header lookups.now u.now v.now
        → Judged R u.now v.now names.old result names.new }
{
    // at most four sets
    let k = header.sets as u8;
    // t(0) follows u
    let mut buffer = Tree::start(header.start).laid();
    read_letters(
        lookups,
        k,
        letters_left(u, v, false, 0),
        &mut buffer,
        &mut true,
    );
    let first = Tree::taken(&buffer);
    let found = find_repeat(lookups, k, u, v, first);
    if found.witnesses == 0 {
        return TreeAnswer {
            number: 0,
            verdict: 0,
            entry: found.entry,
            period: found.period,
            length: NO_NAME,
        };
    }
    let name = node_name(found.tree, first_node(found.witnesses));
    store_name(&name.numbers[..name.length], names);
    TreeAnswer {
        number: 0,
        verdict: 1,
        entry: found.entry,
        period: found.period,
        length: name.length as u8,
    }
}

// The judge on look-ups that are ready for a walk: question 10 to the name buffer, then the verdict. It is right for every rule that the
// look-ups are of.
pub fn judge_prepared<'a>(
    lookups: &Lookups,
    header: Header,
    u: &'a [u8],
    v: &'a [u8],
    names: &mut [u8],
) -> TreeAnswer
    requires { (R : Rule) × Prepared R header lookups.now u.now v.now }
    ensures { (R : Rule) → Prepared R header lookups.now u.now v.now
        → TreeAnswers (ask_room name_room names.old R) u.now v.now names.old
        result names.new }
{
    if names.len() < Tree::NAME {
        return Refusal::NoRoom.into();
    }
    judge_walk(lookups, header, u, v, names)
}

// THE TREE JUDGE: questions 1 to 6 to the table, 7 and 8 to the walk, 10 to the name buffer, then the verdict.
#[tactic(auto, unfolding(crate::specs::JudgeCall::tree_outcome, word::specs::Judging::judge_questions))]
pub fn tree_judge<'a>(table: &[u8], u: &'a [u8], v: &'a [u8], names: &mut [u8]) -> TreeAnswer
    ensures { TreeCall table.now u.now v.now names.old result names.new }
{
    let mut lookups = [[0u64; ENTRIES]; LETTERS];
    match walk_questions(table, u, v, &mut lookups) {
        Err(refusal) => refusal.into(),
        Ok(header) => judge_prepared(&lookups, header, u, v, names),
    }
}
