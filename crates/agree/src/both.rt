// Both judges on one table and one walk.
ghost use Rattle.agree.specs.BothCall.{BothAnswer};

use plain::judge::PlainAnswer;
use rule::limits::LETTERS;
use rule::lookup::ENTRIES;
use treejudge::judge::TreeAnswer;
use word::questions::walk_questions;

// The answers of the two judges.
#[derive(Clone, Copy)]
pub struct BothAnswers {
    pub tree: TreeAnswer,
    pub plain: PlainAnswer,
}

// BOTH JUDGES: the questions to the table and the walk are put once, and a refusal by one of them is both judges' refusal. Then each judge puts
// 10 to its own buffer and answers as it does alone. Neither sees the other's buffer.
pub fn judge_both<'a>(
    table: &[u8],
    u: &'a [u8],
    v: &'a [u8],
    names: &mut [u8],
    scratch: &mut [u8],
) -> BothAnswers
    ensures { BothAnswer table.now u.now v.now names.old scratch.old
        result names.new scratch.new }
{
    let mut lookups = [[0u64; ENTRIES]; LETTERS];
    match walk_questions(table, u, v, &mut lookups) {
        Err(refusal) => BothAnswers {
            tree: refusal.into(),
            plain: refusal.into(),
        },
        Ok(header) => BothAnswers {
            tree: treejudge::judge::judge_prepared(&lookups, header, u, v, names),
            plain: plain::judge::judge_prepared(&lookups, header, u, v, scratch),
        },
    }
}
