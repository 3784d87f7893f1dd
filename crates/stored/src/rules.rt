// The numbers that the writer takes.
ghost use Rattle.stored.specs.Inner.Comparing.{RuleIs};

use notation::decimal::number_of;
use notation::lines::{part, separators};

// n, m, k and the starting map.
#[derive(Clone, Copy)]
pub struct Rule {
    pub n: usize,
    pub m: usize,
    pub k: usize,
    pub start: u16,
}

// The four numbers of a text, with a space between two.
pub fn rule_of(text: &[u8]) -> Option<Rule>
    ensures { RuleIs text.now result }
{
    if separators(text, b' ') != 3 {
        return None;
    }
    let n = number_of(part(text, b' ', 0), u64::MAX)?;
    let m = number_of(part(text, b' ', 1), u64::MAX)?;
    let k = number_of(part(text, b' ', 2), u64::MAX)?;
    let start = number_of(part(text, b' ', 3), 65535)?;
    // The check proves that each fits.
    Some(Rule {
        n: n as usize,
        m: m as usize,
        k: k as usize,
        start: start as u16,
    })
}
