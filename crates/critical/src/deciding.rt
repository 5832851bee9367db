// The verdict on a program: how many overlaps it has where all join, or the first that does not, with both ends.
ghost use Rattle.std.specs.Prelude.{◌*◌};
ghost use Rattle.critical.specs.Verdicts.{Deciding, Stopped, Remade, Runs, BothRun, UnjoinedIn, VerdictIn};

use crate::walking::{Met, walk_all};
use engine::derivation::Final;
use judging::{Ends, Peak};
use overlaps::finishing::second_positions;
use overlaps::overlapping::overlap_by;
use sides::side;
use tables::layout::{CONSTRAINT_SIZE, HEADS_CELL};
use tables::rows::row_of;
use tables::wide;

// An overlap that does not join: the numbers of its rules, how many heads the first has, the partner of each of these (from 1,
// or 0), how many constraints and variables its goal has, and both ends.
#[derive(Clone, Copy)]
pub struct Shown {
    pub first: usize,
    pub second: usize,
    pub heads: usize,
    pub partners: [usize; 4],
    pub count: usize,
    pub variables: usize,
    pub one: Final,
    pub two: Final,
}

// The goal of the overlap that was met, in front of the cells, and what its sides are run by.
pub fn remake(rules: &[u16], n: usize, met: Met, goal: &mut [u16]) -> Peak
    requires { Stopped rules.now n goal.old met }
    ensures { Remade rules.now n met goal.new result }
{
    let i = met.first;
    let j = met.second;
    let partners = met.partners;
    let first = row_of(rules, i);
    let second = row_of(rules, j);
    let heads = wide(first[HEADS_CELL]);
    let others = wide(second[HEADS_CELL]);
    let e = CONSTRAINT_SIZE * (heads + others);
    // It was met, so its heads unify.
    let made = overlap_by(first, second, partners, &mut goal[..e]).unwrap();
    let positions = second_positions(partners, heads, others);
    Peak {
        rules: n,
        first: i,
        second: j,
        positions,
        count: made.count,
        variables: made.variables,
    }
}

// Runs both sides of an overlap to their ends: `one` and `two` hold the constraints then. What the goal's variables became is in
// `bounds`: for the first end, then for the second.
pub fn run_sides(
    rules: &[u16],
    peak: Peak,
    goal: &[u16],
    bounds: &mut [u16],
    one: &mut [u16],
    two: &mut [u16],
) -> Ends
    requires { Runs rules.now peak goal.now bounds.old one.old two.old }
    ensures { BothRun rules.now peak goal.now bounds.new one.new
        two.new result }
{
    let n = peak.rules;
    let m = peak.count;
    let v = peak.variables;
    let w = v + v;
    let positions = peak.positions;
    let first = side(
        rules,
        n,
        peak.first,
        [0, 1, 2, 3],
        goal,
        m,
        &mut bounds[..v],
        one,
    );
    let second = side(
        rules,
        n,
        peak.second,
        positions,
        goal,
        m,
        &mut bounds[v..w],
        two,
    );
    Ends { first, second }
}

// The overlap that was met, with both ends.
pub fn show(
    rules: &[u16],
    n: usize,
    met: Met,
    goal: &mut [u16],
    bounds: &mut [u16],
    one: &mut [u16],
    two: &mut [u16],
) -> Shown
    requires { Deciding rules.now n goal.old bounds.old one.old two.old × Stopped rules.now n goal.old met }
    ensures { UnjoinedIn rules.now n goal.new bounds.new one.new
        two.new result }
{
    let peak = remake(rules, n, met, goal);
    let heads = wide(row_of(rules, peak.first)[HEADS_CELL]);
    let count = peak.count;
    let e = CONSTRAINT_SIZE * count;
    let ends = run_sides(rules, peak, &goal[..e], bounds, one, two);
    let partners = met.partners;
    let first = ends.first;
    let second = ends.second;
    Shown {
        first: peak.first,
        second: peak.second,
        heads,
        partners,
        count,
        variables: peak.variables,
        one: first,
        two: second,
    }
}

// The verdict on the program of a table of n rules: how many overlaps it has, which all join, or the first that does not. Of this
// the goal stands in front of `goal`, the ends' constraints in front of `one` and `two`, and what the goal's variables became in
// `bounds`.
pub fn decide(
    rules: &[u16],
    n: usize,
    goal: &mut [u16],
    bounds: &mut [u16],
    one: &mut [u16],
    two: &mut [u16],
) -> Result<usize, Shown>
    requires { Deciding rules.now n goal.old bounds.old one.old two.old }
    ensures { VerdictIn rules.now n goal.new bounds.new one.new
        two.new result }
{
    match walk_all(rules, n, one, two) {
        Ok(count) => Ok(count),
        Err(met) => Err(show(rules, n, met, goal, bounds, one, two)),
    }
}
