// Placing constraints without going back: each at the first partner that its terms can be made equal to. Where that places all of
// them the states are equal; where it does not, nothing is said.
ghost use Rattle.std.specs.Prelude.{◌≡◌, ◌*◌, ◌≤◌, length};
ghost use Rattle.comparison.specs.Placements.{Placing};
ghost use Rattle.comparison.specs.Settlements.{Settled, Found, SettledAll};
ghost use Rattle.colours.specs.Classes.{Colourable};

use crate::ROOM;
use crate::placing::pair_at;
use pairing::pair_bound;

// Places the first of the constraints that are left at the first position that will do.
pub fn settle(a: &[u16], b: &[u16], used: &mut [bool], forth: &mut [u16], back: &mut [u16]) -> bool
    requires { Placing a.now b.now used.old forth.old back.old × (5 ≤ length a.now) }
    ensures { Settled result a.now b.now used.old forth.old back.old
        used.new forth.new back.new }
{
    for j in 0..used.len() {
        if pair_at(a, b, j, used, forth, back).is_some() {
            return true;
        }
    }
    false
}

// Places all constraints so, one after the other.
pub fn settle_all(
    a: &[u16],
    n: usize,
    b: &[u16],
    used: &mut [bool],
    forth: &mut [u16],
    back: &mut [u16],
) -> bool
    requires { Placing a.now b.now used.old forth.old back.old × (length a.now ≡ 5 * n) }
    ensures { SettledAll result a.now b.now used.old forth.old back.old }
{
    for i in 0..n {
        let p = 5 * i;
        if !settle(&a[p..], b, used, forth, back) {
            return false;
        }
    }
    true
}

// Whether two states are equal, as far as that can be seen without going back.
pub fn settles(a: &[u16], bound_a: &[u16], b: &[u16], bound_b: &[u16], n: usize) -> bool
    requires { Colourable a.now bound_a.now 2844 n × Colourable b.now bound_b.now 2844 n
        × (length bound_a.now ≡ length bound_b.now) × (n ≤ 512) }
    ensures { Found result bound_a.now a.now bound_b.now b.now }
{
    let mut used = [false; 512];
    let mut forth = [0u16; ROOM];
    let mut back = [0u16; ROOM];
    if !pair_bound(bound_a, bound_b, &mut forth, &mut back) {
        return false;
    }
    settle_all(a, n, b, &mut used[..n], &mut forth, &mut back)
}
