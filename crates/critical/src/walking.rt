// The walk over the pairings of two rules, partner by partner, which leaves out what cannot unify and judges each overlap.
ghost use Rattle.std.specs.Prelude.{◌≡◌, ◌+◌, ◌-◌, ◌≤◌, ◌<◌, eqb, length, take};
ghost use Rattle.text.specs.Lists.{every};
ghost use Rattle.critical.specs.Walks.{Checkable, Room, Walkable, Walked};
ghost use Rattle.critical.specs.Walks.{PairWalked, RowWalked, AllWalked};

use judging::{Peak, joins};
use overlaps::finishing::{finish, second_positions};
use overlaps::joining::join_partner;
use overlaps::laying::lay_heads;
use overlaps::sharing::share_symbol;
use tables::layout::{CONSTRAINT_SIZE, HEADS_CELL};
use tables::rows::row_of;
use tables::wide;

// Two rules of a table of `rules`, by their numbers, and how many heads they have.
#[derive(Clone, Copy)]
pub struct Pair {
    pub rules: usize,
    pub first: usize,
    pub second: usize,
    pub m: usize,
    pub n: usize,
}

// Whether none of a rule's m heads has a partner.
pub fn is_alone(partners: [usize; 4], m: usize) -> bool
    requires { (m ≤ 4) × (length partners ≡ 4) }
    ensures { result ≡ every (eqb 0) (take m partners) }
{
    partners[..m].iter().all(|partner| *partner == 0)
}

// An overlap that does not join: how many joined before it, the numbers of its rules, and the partner of each head of the first
// (from 1, or 0).
#[derive(Clone, Copy)]
pub struct Met {
    pub count: usize,
    pub first: usize,
    pub second: usize,
    pub partners: [usize; 4],
}

// Judges the overlap of a pairing, if these partners are one: all heads stand in the cells under their unifier. The answer, here and
// below, is how many overlaps have joined, or the one that does not join.
pub fn judge_pairing(
    rules: &[u16],
    pair: Pair,
    partners: [usize; 4],
    cells: [u16; 40],
    count: usize,
    one: &mut [u16],
    two: &mut [u16],
) -> Result<usize, Met>
    requires { Walkable rules.now pair.rules pair.first pair.second pair.m pair.n 0 partners cells count
        × Room one.old two.old }
    ensures { Walked rules.now pair.rules pair.first pair.second 0 (take pair.m partners) count result }
{
    let m = pair.m;
    let n = pair.n;
    if is_alone(partners, m) {
        return Ok(count);
    }
    let e = CONSTRAINT_SIZE * (m + n);
    let mut made = cells;
    let goal = finish(&mut made[..e], m, n, partners);
    let used = CONSTRAINT_SIZE * goal.count;
    let positions = second_positions(partners, m, n);
    let peak = Peak {
        rules: pair.rules,
        first: pair.first,
        second: pair.second,
        positions,
        count: goal.count,
        variables: goal.variables,
    };
    if joins(rules, peak, &made[..used], one, two) {
        return Ok(count + 1);
    }
    Err(Met {
        count,
        first: pair.first,
        second: pair.second,
        partners,
    })
}

// Judges the overlaps of two rules where the first m - left heads of the first rule have their partners, smaller partners of the
// next head first, and leaves out those partners with which the heads so far do not unify.
pub fn walk(
    rules: &[u16],
    pair: Pair,
    left: usize,
    partners: [usize; 4],
    cells: [u16; 40],
    count: usize,
    one: &mut [u16],
    two: &mut [u16],
) -> Result<usize, Met>
    requires { Walkable rules.now pair.rules pair.first pair.second pair.m pair.n left partners cells count
        × Room one.old two.old }
    ensures { Walked rules.now pair.rules pair.first pair.second left
        (take (pair.m - left) partners) count result }
{
    if left == 0 {
        return judge_pairing(rules, pair, partners, cells, count, one, two);
    }
    let m = pair.m;
    let n = pair.n;
    let h = m - left;
    let e = CONSTRAINT_SIZE * (m + n);
    let mut seen = count;
    // Not 0..=n: its last turn would be a goal of its own, with the proof of the others over again.
    for d in 0..n + 1 {
        let mut joined = cells;
        if join_partner(&mut joined[..e], m, partners, h, d) {
            let mut more = partners;
            more[h] = d;
            seen = walk(rules, pair, left - 1, more, joined, seen, one, two)?;
        }
    }
    Ok(seen)
}

// Judges all overlaps of rules i and j of a table of n, pairing by pairing.
pub fn walk_pairings(
    rules: &[u16],
    n: usize,
    i: usize,
    j: usize,
    count: usize,
    one: &mut [u16],
    two: &mut [u16],
) -> Result<usize, Met>
    requires { Checkable rules.now n × (i < n) × (j < n) × (count + 625 ≤ 1000000000)
        × Room one.old two.old }
    ensures { PairWalked rules.now n i j count result }
{
    let first = row_of(rules, i);
    let second = row_of(rules, j);
    let heads = wide(first[HEADS_CELL]);
    let partners = wide(second[HEADS_CELL]);
    let e = CONSTRAINT_SIZE * (heads + partners);
    let mut cells = [0; 40];
    lay_heads(first, second, &mut cells[..e]);
    let pair = Pair {
        rules: n,
        first: i,
        second: j,
        m: heads,
        n: partners,
    };
    walk(rules, pair, heads, [0; 4], cells, count, one, two)
}

// Judges all overlaps of rules i and j of a table of n. Rules without a common head symbol have none.
pub fn walk_pair(
    rules: &[u16],
    n: usize,
    i: usize,
    j: usize,
    count: usize,
    one: &mut [u16],
    two: &mut [u16],
) -> Result<usize, Met>
    requires { Checkable rules.now n × (i < n) × (j < n) × (count + 625 ≤ 1000000000)
        × Room one.old two.old }
    ensures { PairWalked rules.now n i j count result }
{
    if share_symbol(row_of(rules, i), row_of(rules, j)) {
        return walk_pairings(rules, n, i, j, count, one, two);
    }
    Ok(count)
}

// Judges the overlaps of rule i with itself and with the rules behind it.
pub fn walk_row(
    rules: &[u16],
    n: usize,
    i: usize,
    count: usize,
    one: &mut [u16],
    two: &mut [u16],
) -> Result<usize, Met>
    requires { Checkable rules.now n × (i < n) × (n ≤ 64) × (count + 40000 ≤ 1000000000)
        × Room one.old two.old }
    ensures { RowWalked rules.now n i count result }
{
    let mut seen = count;
    for j in i..n {
        seen = walk_pair(rules, n, i, j, seen, one, two)?;
    }
    Ok(seen)
}

// Judges all overlaps of a table of n rules, in the order of the definition, up to the first that does not join.
pub fn walk_all(rules: &[u16], n: usize, one: &mut [u16], two: &mut [u16]) -> Result<usize, Met>
    requires { Checkable rules.now n × (n ≤ 64) × Room one.old two.old }
    ensures { AllWalked rules.now n result }
{
    let mut seen = 0;
    for i in 0..n {
        seen = walk_row(rules, n, i, seen, one, two)?;
    }
    Ok(seen)
}
