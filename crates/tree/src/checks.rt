// Question 9, byte by byte: are some bytes the record of a tree over n states and k sets?
ghost use Rattle.std.specs.Prelude.{◌≡◌, ◌<◌, ◌≤◌, length};
ghost use Rattle.std.specs.Int.Count.{ones};
ghost use Rattle.history.specs.Inner.RecordChecks.{all_host, active_fits, tags_follow, tags_fit, body_fits, record_checks};

use base::bytes::{all_below, contains};

// "Each node hosts at least one state."
fn all_host(count: usize, hosts: &[u8]) -> bool
    ensures { result ≡ all_host count hosts.now }
{
    (0..count).all(|node| contains(hosts, node))
}

// "an active set (1 to k)"
#[tactic(auto, unfolding(history::specs::Inner::RecordChecks::active_fits))]
fn active_fits(k: usize, tag: u8) -> bool
    ensures { result ≡ active_fits k tag }
{
    let active = usize::from(tag % 16);
    1 <= active && active <= k
}

// "each later depth is from 1 to one more than the depth before it": the tags behind the root's.
fn tags_follow(k: usize, tags: &[u8]) -> bool
    ensures { result ≡ tags_follow k 0 tags.now }
{
    let mut before = 0;
    for tag in tags {
        let depth = *tag / 16;
        if depth < 1 || before + 1 < depth || !active_fits(k, *tag) {
            return false;
        }
        before = depth;
    }
    true
}

// "The root's depth is 0".
#[tactic(auto, using(crate::proofs::ChecksInTurn::fit_none, crate::proofs::ChecksInTurn::fit_parts, base::proofs::Flattening::to_end))]
fn tags_fit(k: usize, tags: &[u8]) -> bool
    ensures { result ≡ tags_fit k tags.now }
{
    let [root, later @ ..] = tags else {
        return false;
    };
    *root / 16 == 0 && active_fits(k, *root) && tags_follow(k, later)
}

// What follows the map of a root's states: a host for each state, and a tag for each node.
#[tactic(auto, unfolding(history::specs::Inner::RecordChecks::body_fits), using(base::proofs::Flattening::to_end))]
fn body_fits(k: usize, map: u16, left: &[u8]) -> bool
    requires { ones map ≤ length left.now }
    ensures { result ≡ body_fits k map left.now }
{
    // A count of ones is a `u32`: only `as` takes it to `usize`, here and below.
    let states = u16::count_ones(map) as usize;
    let count = left.len() - states;
    let hosts = &left[..states];
    all_below(count, hosts) && all_host(count, hosts) && tags_fit(k, &left[states..])
}

// Question 9. "The dead tree's record is the byte 0."
#[tactic(auto, unfolding(history::specs::Inner::RecordChecks::record_checks))]
pub fn record_fits(n: usize, k: usize, bytes: &[u8]) -> bool
    requires { n < 16 }
    ensures { result ≡ record_checks n k bytes.now }
{
    let [first, left @ ..] = bytes else {
        return false;
    };
    let map = u16::from(*first);
    if map == 0 {
        return left.is_empty();
    }
    // `table` has this test for its own maps, as `fits`
    map < 1u16 << n && (u16::count_ones(map) as usize) < left.len() && body_fits(k, map, left)
}
