// The constraints of two states put in an order in which the first ones of each are equal, part by part. This is a guess that
// need not come off: what it finds is tested afterwards.
// One lent table has two entries for each cell: the partner of one of the first state, and under which number one of the second
// became a partner; 0 is none. It is no Option: the table is lent as zeros, and would be twice as large.
ghost use Rattle.std.specs.Prelude.{◌≡◌, ◌+◌, ◌*◌, ◌≤◌, ◌<◌, false, length, IfSome, MatchResult};
ghost use Rattle.tables.specs.Cells.{cell_constraints};
ghost use Rattle.colours.specs.Order.{Reordered};

use colours::order::swap_rows;
use tables::layout::FIRST_VARIABLE;
use tables::wide;

// Where the second entries begin, and the room for both: constants, 28 goal variables, and as many more as 512 constraints have
// cells.
const BIRTH: usize = 2844;

const ROOM: usize = 5688;

// The number of goal variables. Constraints have numbers from 2 on.
const GOAL: u16 = 1;

// A cell that is no variable: the partner of variables whose part is put off.
const OFF: u16 = 1;

// The entry of a cell; 0 for one without a place.
fn at(links: &[u16], from: usize, x: u16) -> u16
    requires { from < 65536 }
{
    let i = from + wide(x);
    if i < links.len() { links[i] } else { 0 }
}

// Sets the entry of a cell, if it has a place.
fn put(links: &mut [u16], from: usize, x: u16, value: u16)
    requires { from < 65536 }
{
    let i = from + wide(x);
    if i < links.len() {
        links[i] = value;
    }
}

// Two cells become partners, under a number.
fn join(x: u16, y: u16, own: u16, links: &mut [u16]) {
    put(links, 0, x, y);
    put(links, BIRTH, y, own);
}

// What the goal variables became are partners.
fn join_bound(bound_a: &[u16], bound_b: &[u16], links: &mut [u16]) {
    for (x, y) in bound_a.iter().zip(bound_b) {
        if *x >= FIRST_VARIABLE {
            join(*x, *y, GOAL, links);
        }
    }
}

// The number of a constraint.
fn number(i: usize) -> u16 {
    if i < 65534 { i as u16 + 2 } else { 0 }
}

// Whether two terms are partners or can become partners; they do then, under a number.
fn link_terms(x: u16, y: u16, own: u16, links: &mut [u16]) -> bool {
    if x < FIRST_VARIABLE {
        return x == y;
    }
    if y < FIRST_VARIABLE {
        return false;
    }
    let partner = at(links, 0, x);
    if partner != 0 {
        return partner == y;
    }
    if at(links, BIRTH, y) != 0 {
        return false;
    }
    join(x, y, own, links);
    true
}

// Whether the terms of constraint i of the first state and j of the second are partners or can become partners. Some may have
// become partners where not all can.
fn link_rows(a: &[u16], i: usize, b: &[u16], j: usize, links: &mut [u16]) -> bool
    requires { (5 * i + 5 ≤ length a.now) × (5 * j + 5 ≤ length b.now) }
{
    let p = 5 * i;
    let q = 5 * j;
    if a[p] != b[q] {
        return false;
    }
    let own = number(i);
    for (x, y) in a[p + 1..p + 5].iter().zip(&b[q + 1..q + 5]) {
        if !link_terms(*x, *y, own, links) {
            return false;
        }
    }
    true
}

// The partner of a variable is taken from it, if it became one under a number.
fn unlink_term(x: u16, own: u16, links: &mut [u16]) {
    let partner = at(links, 0, x);
    if at(links, BIRTH, partner) == own {
        put(links, 0, x, 0);
        put(links, BIRTH, partner, 0);
    }
}

// The partners that constraint i of the first state made are taken back.
fn unlink_row(a: &[u16], i: usize, links: &mut [u16])
    requires { 5 * i + 5 ≤ length a.now }
{
    let p = 5 * i;
    let own = number(i);
    for x in &a[p + 1..p + 5] {
        unlink_term(*x, own, links);
    }
}

// The partners that constraints from s to before e made are taken back.
fn unlink_rows(a: &[u16], s: usize, e: usize, links: &mut [u16])
    requires { 5 * e ≤ length a.now }
{
    for i in s..e {
        unlink_row(a, i, links);
    }
}

// The first constraint of the second state from number i on and before e that constraint i of the first can be linked to.
fn seek(a: &[u16], i: usize, b: &[u16], e: usize, links: &mut [u16]) -> Option<usize>
    requires { (5 * i + 5 ≤ length a.now) × (5 * e ≤ length b.now) }
    ensures { IfSome result (λ j. j < e) }
{
    for j in i..e {
        if link_rows(a, i, b, j, links) {
            return Some(j);
        }
        unlink_row(a, i, links);
    }
    None
}

// Whether constraint i belongs to the part that begins at s: it is the first, or it has a variable whose partner was made since.
fn belongs(a: &[u16], i: usize, s: usize, links: &[u16]) -> bool
    requires { 5 * i + 5 ≤ length a.now }
    ensures { result ≡ false → s < i }
{
    if i <= s {
        return true;
    }
    let p = 5 * i;
    let first = number(s);
    for x in &a[p + 1..p + 5] {
        let partner = at(links, 0, *x);
        if at(links, BIRTH, partner) >= first {
            return true;
        }
    }
    false
}

// Lines up the part that begins at s, among the first `top` constraints, its first constraint with one before `limit`, and returns
// where it ends; where it cannot be lined up, how many constraints were tried.
fn try_part(
    a: &[u16],
    s: usize,
    top: usize,
    b: &mut [u16],
    limit: usize,
    n: usize,
    links: &mut [u16],
) -> Result<usize, usize>
    requires { (5 * top ≤ length a.now) × (top ≤ n) × (length b.old ≡ 5 * n) × (s ≤ top) × (limit ≤ n) }
    ensures same { Reordered b.old b.new }
    ensures ends { MatchResult result (λ end. (end ≤ top) × (s < top → s < end)) (λ tried. tried ≤ n) }
{
    let mut e = limit;
    for i in s..top {
        if !belongs(a, i, s, links) {
            return Ok(i);
        }
        let Some(j) = seek(a, i, b, e, links) else {
            unlink_rows(a, s, i, links);
            return Err(i - s);
        };
        swap_rows(b, i, j);
        e = n;
    }
    Ok(top)
}

// Lines up the part that begins at s, among the first `top` constraints, and returns where it ends, if it can be lined up. A part
// whose first constraint was tried in vain is tried with another one, until a quarter as many constraints were tried as there are:
// each counts four.
fn line_part(
    a: &[u16],
    s: usize,
    top: usize,
    b: &mut [u16],
    n: usize,
    links: &mut [u16],
) -> Option<usize>
    requires { (5 * top ≤ length a.now) × (top ≤ n) × (length b.old ≡ 5 * n) × (s < top) }
    ensures same { Reordered b.old b.new }
    ensures ends { IfSome result (λ end. (s < end) × (end ≤ top)) }
{
    let mut left = n;
    for last in (s..n).rev() {
        match try_part(a, s, top, b, last + 1, n, links) {
            Ok(end) => return Some(end),
            Err(tried) => {
                let cost = 4 * tried + 4;
                if left < cost {
                    return None;
                }
                left -= cost;
            }
        }
        swap_rows(b, s, last);
    }
    None
}

// A variable that has no partner is put off, under a number.
fn claim_term(x: u16, own: u16, links: &mut [u16]) {
    if x < FIRST_VARIABLE {
        return;
    }
    if at(links, 0, x) == 0 {
        join(x, OFF, own, links);
    }
}

// So are those of constraint i.
fn claim(a: &[u16], i: usize, own: u16, links: &mut [u16])
    requires { 5 * i + 5 ≤ length a.now }
{
    let p = 5 * i;
    for x in &a[p + 1..p + 5] {
        claim_term(*x, own, links);
    }
}

// Where the part that begins at s ends, among the first n constraints.
fn end_of(a: &[u16], s: usize, n: usize, links: &mut [u16]) -> usize
    requires { (5 * n ≤ length a.now) × (s < n) }
    ensures { (s < result) × (result ≤ n) }
{
    let own = number(s);
    for i in s..n {
        if !belongs(a, i, s, links) {
            return i;
        }
        claim(a, i, own, links);
    }
    n
}

// Puts d constraints from number s on behind the others of the first n, whose order is kept.
fn put_behind(a: &mut [u16], s: usize, d: usize, n: usize)
    requires { (length a.old ≡ 5 * length (cell_constraints a.old)) × (5 * n ≤ length a.old) × (s + d ≤ n) }
    ensures { Reordered a.old a.new }
{
    for i in s..n - d {
        swap_rows(a, i, i + d);
    }
}

// Puts the part that begins at s behind the others of the first n, and returns how many constraints it has.
fn put_off(a: &mut [u16], s: usize, n: usize, links: &mut [u16]) -> usize
    requires { (length a.old ≡ 5 * length (cell_constraints a.old)) × (5 * n ≤ length a.old) × (s < n) }
    ensures { Reordered a.old a.new × (0 < result) × (s + result ≤ n) }
{
    let d = end_of(a, s, n, links) - s;
    put_behind(a, s, d, n);
    d
}

// Lines up part after part, and returns how many constraints are. A part that cannot be lined up is put behind the others, four
// times.
fn line_parts(a: &mut [u16], b: &mut [u16], n: usize, links: &mut [u16]) -> usize
    requires { (length a.old ≡ 5 * n) × (length b.old ≡ 5 * n) }
    ensures { Reordered a.old a.new × Reordered b.old b.new × (result ≤ n) }
{
    let mut s = 0;
    let mut top = n;
    let mut left = 4usize;
    while s < top {
        match line_part(a, s, top, b, n, links) {
            Some(end) => s = end,
            None => {
                if left == 0 {
                    return s;
                }
                left -= 1;
                top -= put_off(a, s, top, links);
            }
        }
    }
    s
}

// Puts the constraints of both states in an order in which the first ones stand opposite equal ones, as far as can be seen, and
// returns how many do.
pub fn line_up(a: &mut [u16], bound_a: &[u16], b: &mut [u16], bound_b: &[u16], n: usize) -> usize
    requires { (length a.old ≡ 5 * n) × (length b.old ≡ 5 * n) × (length bound_a.now ≡ length bound_b.now) }
    ensures { Reordered a.old a.new × Reordered b.old b.new × (result ≤ n) }
{
    let mut links = [0u16; ROOM];
    join_bound(bound_a, bound_b, &mut links);
    line_parts(a, b, n, &mut links)
}
