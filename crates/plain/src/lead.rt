// The lead-in: the map of the states that it leads to.
ghost use Rattle.std.specs.Prelude.{◌≡◌, ◌<◌};
ghost use Rattle.base.specs.Lists.{Every};
ghost use Rattle.rule.specs.Limits.{max_letters};
ghost use Rattle.plain.specs.Inner.Letters.{states_after};

use rule::lanes::map_of;
use rule::lookup::look_up;
use word::lookups::Lookups;

// "u and i tails lead from a starting state to s", before the first tail: the states that u leads to from the states `start`.
#[tactic(auto, using(crate::proofs::LetterLaws::letter_small), unfolding(crate::specs::Inner::Letters::states_after, crate::specs::Inner::Letters::over, rule::specs::Inner::Lookup::look_up))]
pub fn states_after(lookups: &Lookups, start: u16, u: &[u8]) -> u16
    requires { Every (λ a. a < max_letters) u.now }
    ensures { result ≡ states_after lookups.now u.now start }
{
    let mut states = start;
    for letter in u {
        states = map_of(look_up(&lookups[usize::from(*letter)], states), 0);
    }
    states
}
