// Classes made finer step by step, until constraints can be placed without going back, the classes differ, or only a search is
// left.
ghost use Rattle.std.specs.Prelude.{◌≡◌, ◌+◌, ◌*◌, ◌≤◌, min, length};
ghost use Rattle.semantics.specs.Variants.{same_state};
ghost use Rattle.colours.specs.Ends.{end_of};
ghost use Rattle.colours.specs.Classes.{Colourable};
ghost use Rattle.comparison.specs.Narrowings.{Weighed};

use crate::search::search;
use crate::settling::settles;
use colours::classes::{Depth, classify};

// One step: classes of one depth, then constraints placed without going back. The answer, or None where the step does not tell.
pub fn weigh(
    a: &mut [u16],
    bound_a: &[u16],
    b: &mut [u16],
    bound_b: &[u16],
    n: usize,
    size: usize,
    depth: Depth,
) -> Option<bool>
    requires { Colourable a.old bound_a.now size n × Colourable b.old bound_b.now size n
        × (length bound_a.now ≡ length bound_b.now) × (n ≤ 512) }
    ensures { Weighed result bound_a.now a.old bound_b.now b.old a.new b.new }
{
    if !classify(a, bound_a, b, bound_b, n, size, depth) {
        return Some(false);
    }
    if settles(a, bound_a, b, bound_b, n) {
        return Some(true);
    }
    None
}

// Nine rounds and a quarter of n constraints, or some more: by comparing, since a quarter would be a division. A ring of
// constraints is told from a longer one by half as many rounds as it has, and there is room for two such rings.
fn enough(n: usize) -> usize
    ensures { min n 512 + 36 ≤ 4 * result }
{
    if n <= 60 {
        return 24;
    }
    if n <= 124 {
        return 40;
    }
    if n <= 252 { 72 } else { 137 }
}

// Whether two states are equal, by finer and finer classes, and by a search at last. The steps' depths: marked constraints, for one
// round, which tells most of what signatures do not, at a ninth of the cost of nine; signatures after as many rounds as there are
// constraints; then marked constraints, for nine rounds and for enough.
pub fn narrow(
    a: &mut [u16],
    bound_a: &[u16],
    b: &mut [u16],
    bound_b: &[u16],
    n: usize,
    size: usize,
) -> bool
    requires { Colourable a.old bound_a.now size n × Colourable b.old bound_b.now size n
        × (length bound_a.now ≡ length bound_b.now) × (n ≤ 512) }
    ensures { result ≡ same_state (end_of bound_a.now a.old)
        (end_of bound_b.now b.old) }
{
    let depths = [
        Depth {
            rounds: 1,
            deep: true,
        },
        Depth {
            rounds: n,
            deep: false,
        },
        Depth {
            rounds: 9,
            deep: true,
        },
        Depth {
            rounds: enough(n),
            deep: true,
        },
    ];
    for depth in depths {
        if let Some(equal) = weigh(a, bound_a, b, bound_b, n, size, depth) {
            return equal;
        }
    }
    search(a, bound_a, b, bound_b, n)
}
