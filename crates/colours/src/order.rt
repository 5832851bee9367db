// The constraints of one state in an order in which each shares variables with those before it, where one does: the search then
// takes a constraint that shares variables with those placed already. The answer does not depend on the order.
ghost use Rattle.std.specs.Prelude.{◌≡◌, ◌+◌, ◌*◌, ◌<◌, ◌≤◌, length};
ghost use Rattle.colours.specs.Bounds.{TermsBelow};
ghost use Rattle.colours.specs.Order.{Ordering, Swapped, Reordered};

use tables::layout::FIRST_VARIABLE;
use tables::wide;

// Counts the terms of constraint i, by cells.
pub fn tally(cells: &[u16], i: usize, counts: &mut [u16])
    requires { TermsBelow (length counts.old) cells.now × (5 * i + 5 ≤ length cells.now) }
    ensures { length counts.new ≡ length counts.old }
{
    let row = &cells[5 * i..5 * i + 5];
    for x in &row[1..] {
        let p = wide(*x);
        counts[p] = counts[p].wrapping_add(1);
    }
}

// Counts the terms of all constraints.
pub fn tally_all(cells: &[u16], n: usize, counts: &mut [u16])
    requires { TermsBelow (length counts.old) cells.now × (length cells.now ≡ 5 * n) }
    ensures { length counts.new ≡ length counts.old }
{
    for i in 0..n {
        tally(cells, i, counts);
    }
}

// Whether all variables of constraint i were seen.
fn is_seen(cells: &[u16], i: usize, seen: &[bool]) -> bool
    requires { TermsBelow (length seen.now) cells.now × (5 * i + 5 ≤ length cells.now) }
{
    let row = &cells[5 * i..5 * i + 5];
    for x in &row[1..] {
        if *x >= FIRST_VARIABLE && !seen[wide(*x)] {
            return false;
        }
    }
    true
}

// The smaller of a number and the count of a variable that was seen.
fn smaller(least: u16, c: u16, seen: &[bool], counts: &[u16]) -> u16
    requires { (c < length seen.now) × (length counts.now ≡ length seen.now) }
{
    let x = wide(c);
    if seen[x] { least.min(counts[x]) } else { least }
}

// The least count of a variable of constraint i that was seen; 65535 where none was.
fn least_count(cells: &[u16], i: usize, seen: &[bool], counts: &[u16]) -> u16
    requires { TermsBelow (length seen.now) cells.now × (5 * i + 5 ≤ length cells.now)
        × (length counts.now ≡ length seen.now) }
{
    let row = &cells[5 * i..5 * i + 5];
    let mut least = 65535;
    for x in &row[1..] {
        least = smaller(least, *x, seen, counts);
    }
    least
}

// How many partners constraint i may have, once the seen variables have theirs: none are sought where all were seen.
fn rank(cells: &[u16], i: usize, seen: &[bool], counts: &[u16]) -> u16
    requires { TermsBelow (length seen.now) cells.now × (5 * i + 5 ≤ length cells.now)
        × (length counts.now ≡ length seen.now) }
{
    if is_seen(cells, i, seen) {
        return 0;
    }
    least_count(cells, i, seen, counts)
}

// The first constraint from k on with the least rank; none is looked for behind one that has at most one partner.
pub fn choose_next(cells: &[u16], k: usize, n: usize, seen: &[bool], counts: &[u16]) -> usize
    requires { Ordering cells.now k n (length seen.now) × (k < n) × (length counts.now ≡ length seen.now) }
    ensures { (k ≤ result) × (result < n) }
{
    let mut best = k;
    let mut least = 65535;
    for i in k..n {
        let r = rank(cells, i, seen, counts);
        if r < 2 {
            return i;
        }
        if r < least {
            least = r;
            best = i;
        }
    }
    best
}

// The variables of constraint i are seen, and it is counted no more.
pub fn see(cells: &[u16], i: usize, seen: &mut [bool], counts: &mut [u16])
    requires { TermsBelow (length seen.old) cells.now × (5 * i + 5 ≤ length cells.now)
        × (length counts.old ≡ length seen.old) }
    ensures { (length seen.new ≡ length seen.old)
        × (length counts.new ≡ length counts.old) }
{
    let row = &cells[5 * i..5 * i + 5];
    for x in &row[1..] {
        let p = wide(*x);
        seen[p] = *x >= FIRST_VARIABLE;
        counts[p] = counts[p].wrapping_sub(1);
    }
}

// Two constraints change positions.
pub fn swap_rows(cells: &mut [u16], i: usize, j: usize)
    requires { (5 * i + 5 ≤ length cells.old) × (5 * j + 5 ≤ length cells.old) }
    ensures { Swapped i j cells.old cells.new }
{
    for c in 0..5 {
        cells.swap(5 * i + c, 5 * j + c);
    }
}

// All constraints, in lent marks and counts.
pub fn arrange_by(cells: &mut [u16], n: usize, seen: &mut [bool], counts: &mut [u16])
    requires { Ordering cells.old 0 n (length seen.old) × (length counts.old ≡ length seen.old) }
    ensures { Reordered cells.old cells.new }
{
    tally_all(cells, n, counts);
    for k in 0..n {
        let i = choose_next(cells, k, n, seen, counts);
        swap_rows(cells, k, i);
        see(cells, k, seen, counts);
    }
}
