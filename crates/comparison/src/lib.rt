// The comparison of two final states: whether one is the other under a renaming of its variables, one to one.
// Placing a constraint and trying its partners call one another (`placing`). Before it is decided what they would take very
// long for: states in the same order, and states that differ in what a renaming cannot change. Equal parts are left out
// (`parting`).
#![tactic(auto)]

pub mod narrowing;
pub mod parting;
pub mod placing;
pub mod search;
pub mod settling;

ghost use Rattle.std.specs.Prelude.{◌≡◌};
ghost use Rattle.semantics.specs.Variants.{same_state};
ghost use Rattle.colours.specs.Ends.{end_of};
ghost use Rattle.comparison.specs.Comparing.{Side, BothNumbered};

use crate::search::{decide, same_cells};
use colours::first::first_digest;
use colours::numbering::number_state;
use tables::wide;

// Room for all cells: constants, 28 goal variables, and as many more as 512 constraints have cells.
const ROOM: usize = 2844;

// Whether two states with their variables numbered are equal. What the goal variables became must be the same then, and the
// digest of the constraints in which it stands for itself; states in the same order are the same cells.
pub fn compare_numbered(
    a: &mut [u16],
    left: &[u16],
    b: &mut [u16],
    right: &[u16],
    n: usize,
    limit: u16,
    size: usize,
) -> bool
    requires { BothNumbered a.old left.now b.old right.now n limit size }
    ensures { result ≡ same_state (end_of left.now a.old) (end_of right.now b.old) }
{
    if !same_cells(left, right) {
        return false;
    }
    if same_cells(a, b) {
        return true;
    }
    if first_digest(a, n, limit) != first_digest(b, n, limit) {
        return false;
    }
    decide(a, left, b, right, n, size)
}

// Whether two final states are equal: a of n constraints, b of m, and what the goal variables became in each. They are compared
// with their variables numbered anew by first appearance.
pub fn same_state(
    a: &[u16],
    n: usize,
    bound_a: &[u16],
    b: &[u16],
    m: usize,
    bound_b: &[u16],
) -> bool
    requires { Side a.now n bound_a.now × Side b.now m bound_b.now }
    ensures { result ≡ same_state (end_of bound_a.now a.now)
        (end_of bound_b.now b.now) }
{
    if n != m || bound_a.len() != bound_b.len() {
        return false;
    }
    let e = 5 * n;
    let k = bound_a.len();
    let mut room_a = [0u16; 2560];
    let mut room_b = [0u16; 2560];
    let mut bounds_a = [0u16; 28];
    let mut bounds_b = [0u16; 28];
    let cells_a = &mut room_a[..e];
    let left = &mut bounds_a[..k];
    let cells_b = &mut room_b[..e];
    let right = &mut bounds_b[..k];
    let x = number_state(a, bound_a, cells_a, left);
    let y = number_state(b, bound_b, cells_b, right);
    let size = wide(x.all.max(y.all));
    compare_numbered(cells_a, left, cells_b, right, n, x.bound, size)
}
