// The numbers of a rule, and questions 2 and 3, which the reader puts to a table's first bytes and the writer to its
// numbers.
ghost use Rattle.std.specs.Prelude.{◌≡◌, ◌&&◌, ◌^◌, ◌<◌, ◌≤◌, leb, ltb};
ghost use Rattle.rule.specs.Limits.{max_letters, max_sets, max_states};
ghost use Rattle.rule.specs.WellFormed.{start_fits};
ghost use Rattle.table.specs.Table.{in_range};

use base::refusal::Refusal;
use rule::limits::{LETTERS, SETS, STATES};

// n, m, k and the map of starting states: "n states (1 to 8), m letters (1 to 16), k accepting sets (1 to 4)".
#[derive(Clone, Copy)]
pub struct Header {
    pub states: usize,
    pub letters: usize,
    pub sets: usize,
    pub start: u16,
    pub ghost few_states: { states ≤ max_states },
    pub ghost few_letters: { letters ≤ max_letters },
    pub ghost few_sets: { sets ≤ max_sets },
}

// Is x from 1 to max?
fn within(x: usize, max: usize) -> bool
    ensures { result ≡ (leb 1 x && leb x max) }
{
    1 <= x && x <= max
}

// "Are n, m, k in range?"
#[tactic(auto, unfolding(crate::specs::Table::in_range))]
fn in_range(n: usize, m: usize, k: usize) -> bool
    ensures { result ≡ in_range n m k }
{
    within(n, STATES) && within(m, LETTERS) && within(k, SETS)
}

// Does a map have no bit from a width up?
pub(crate) fn fits(map: u16, width: usize) -> bool
    requires { width < 16 }
    ensures { result ≡ ltb map (2 ^ width) }
{
    map < 1 << width
}

// "Is the starting map non-empty, no bit from n up?"
#[tactic(auto, unfolding(rule::specs::WellFormed::start_fits))]
fn start_fits(n: usize, start: u16) -> bool
    requires { n < 16 }
    ensures { result ≡ start_fits n start }
{
    start != 0 && fits(start, n)
}

impl Header {
    ghost use Rattle.base.specs.Refusals.{Answers};
    ghost use Rattle.table.specs.Inner.Header.{HasNumbers, header_outcome};

    // Questions 2 and 3 to the numbers of a rule.
    #[tactic(auto, unfolding(crate::specs::Table::ask_header, crate::specs::Inner::Header::header_outcome), using(crate::proofs::Ranges::in_range_lem))]
    pub fn checked(n: usize, m: usize, k: usize, start: u16) -> Result<Header, Refusal>
        ensures { Answers (header_outcome n m k start) (λ _ header. HasNumbers n m k start header) result }
    {
        if !in_range(n, m, k) {
            return Err(Refusal::NumbersOutOfRange);
        }
        if !start_fits(n, start) {
            return Err(Refusal::StartMisfit);
        }
        Ok(Header {
            states: n,
            letters: m,
            sets: k,
            start,
        })
    }
}
