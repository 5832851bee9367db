// The comparison step by step: what is decided without a search comes first.
ghost use Rattle.std.specs.Prelude.{◌≡◌, ◌*◌, ◌≤◌, length};
ghost use Rattle.semantics.specs.Variants.{same_state};
ghost use Rattle.colours.specs.Bounds.{TermsBelow};
ghost use Rattle.colours.specs.Ends.{end_of};
ghost use Rattle.comparison.specs.Comparing.{Alike};
ghost use Rattle.colours.specs.Classes.{Colourable};
ghost use Rattle.colours.specs.Order.{Reordered};

use crate::ROOM;
use crate::parting::part_fixed;
use crate::placing::place;
use crate::settling::settles;
use colours::classes::{Depth, classify};
use colours::order::arrange_by;
use pairing::pair_bound;

// Whether two lists of cells are the same. It is not `==`, in which the kit divides; no division may stand here (W4).
pub fn same_cells(a: &[u16], b: &[u16]) -> bool
    ensures { Alike result a.now b.now }
{
    if a.len() != b.len() {
        return false;
    }
    for i in 0..a.len() {
        if a[i] != b[i] {
            return false;
        }
    }
    true
}

// The search for a renaming, from no partners and no position used.
pub fn search(a: &[u16], bound_a: &[u16], b: &[u16], bound_b: &[u16], n: usize) -> bool
    requires { Colourable a.now bound_a.now 2844 n × Colourable b.now bound_b.now 2844 n
        × (length bound_a.now ≡ length bound_b.now) × (n ≤ 512) }
    ensures { result ≡ same_state (end_of bound_a.now a.now)
        (end_of bound_b.now b.now) }
{
    let mut used = [false; 512];
    let mut forth = [0u16; ROOM];
    let mut back = [0u16; ROOM];
    if !pair_bound(bound_a, bound_b, &mut forth, &mut back) {
        return false;
    }
    place(a, b, &mut used[..n], &mut forth, &mut back)
}

// The constraints of one state in an order in which each has few partners, once those before it have theirs.
pub fn arrange(cells: &mut [u16], n: usize)
    requires { (length cells.old ≡ 5 * n) × TermsBelow 2844 cells.old }
    ensures { Reordered cells.old cells.new }
{
    let mut seen = [false; ROOM];
    let mut counts = [0u16; ROOM];
    arrange_by(cells, n, &mut seen, &mut counts);
}

// Whether two states are equal: classes by signatures, constraints placed without going back, and, where that is not enough,
// equal parts left out and finer classes.
pub fn decide(
    a: &mut [u16],
    bound_a: &[u16],
    b: &mut [u16],
    bound_b: &[u16],
    n: usize,
    size: usize,
) -> bool
    requires { Colourable a.old bound_a.now size n × Colourable b.old bound_b.now size n
        × (length bound_a.now ≡ length bound_b.now) × (n ≤ 512) }
    ensures { result ≡ same_state (end_of bound_a.now a.old)
        (end_of bound_b.now b.old) }
{
    let depth = Depth {
        rounds: 3,
        deep: false,
    };
    if !classify(a, bound_a, b, bound_b, n, size, depth) {
        return false;
    }
    arrange(a, n);
    if settles(a, bound_a, b, bound_b, n) {
        return true;
    }
    part_fixed(a, bound_a, b, bound_b, n, size)
}
