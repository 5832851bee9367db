// Equal parts of two states left out: what is left decides whether the states are equal.
ghost use Rattle.std.specs.Prelude.{◌≡◌, ◌≤◌, length};
ghost use Rattle.semantics.specs.Variants.{same_state};
ghost use Rattle.colours.specs.Ends.{end_of};
ghost use Rattle.colours.specs.Classes.{Colourable};
ghost use Rattle.comparison.specs.Partings.{Cancelled};

use crate::narrowing::narrow;
use crate::settling::settles;
use fixing::hubs::fix_bound;
use parts::apart::is_parted;
use parts::lining::line_up;

// Whether the first k constraints of two states can be left out of both.
pub fn cancels(a: &[u16], bound_a: &[u16], b: &[u16], bound_b: &[u16], n: usize, k: usize) -> bool
    requires { Colourable a.now bound_a.now 2844 n × Colourable b.now bound_b.now 2844 n
        × (length bound_a.now ≡ length bound_b.now) × (n ≤ 512) × (k ≤ n) }
    ensures { Cancelled result bound_a.now a.now bound_b.now b.now k }
{
    if k == 0 || !is_parted(a, k, bound_a) || !is_parted(b, k, bound_b) {
        return false;
    }
    let e = 5 * k;
    settles(&a[..e], bound_a, &b[..e], bound_b, k)
}

// Whether two states are equal: parts that are lined up and equal are left out, and the rest is decided by finer classes.
pub fn part(
    a: &mut [u16],
    bound_a: &[u16],
    b: &mut [u16],
    bound_b: &[u16],
    n: usize,
    size: usize,
) -> bool
    requires { Colourable a.old bound_a.now size n × Colourable b.old bound_b.now size n
        × (length bound_a.now ≡ length bound_b.now) × (n ≤ 512) }
    ensures { result ≡ same_state (end_of bound_a.now a.old)
        (end_of bound_b.now b.old) }
{
    let k = line_up(a, bound_a, b, bound_b, n);
    if !cancels(a, bound_a, b, bound_b, n, k) {
        return narrow(a, bound_a, b, bound_b, n, size);
    }
    let p = 5 * k;
    narrow(&mut a[p..], bound_a, &mut b[p..], bound_b, n - k, size)
}

// Room for 28 goal variables and four variables more.
const FIXED: usize = 32;

// The same, with variables added to the goal variables' that every renaming must pair: parts may share these.
pub fn part_fixed(
    a: &mut [u16],
    bound_a: &[u16],
    b: &mut [u16],
    bound_b: &[u16],
    n: usize,
    size: usize,
) -> bool
    requires { Colourable a.old bound_a.now size n × Colourable b.old bound_b.now size n
        × (length bound_a.now ≡ length bound_b.now) × (n ≤ 512) }
    ensures { result ≡ same_state (end_of bound_a.now a.old)
        (end_of bound_b.now b.old) }
{
    if bound_a.len() > FIXED {
        return part(a, bound_a, b, bound_b, n, size);
    }
    let mut left = [0u16; FIXED];
    let mut right = [0u16; FIXED];
    let k = fix_bound(a, bound_a, b, bound_b, n, size, &mut left, &mut right);
    part(a, &left[..k], b, &right[..k], n, size)
}
