// Judging an overlap: its two sides are run to their ends, and these are compared.
#![tactic(auto)]

pub mod tidying;

ghost use Rattle.std.specs.Prelude.{◌≡◌, ◌≤◌, length};
ghost use Rattle.semantics.specs.Variants.{same_state};
ghost use Rattle.colours.specs.Ends.{end_of};
ghost use Rattle.judging.specs.Judging.{LiveEnd, Overlapping, Lent, BothBegun, BothEnded, Stepped, SameStep, PeakJoins};

use crate::tidying::tidy;
use comparison::same_state;
use comparison::search::same_cells;
use engine::derivation::Final;
use engine::stated::Step;
use sides::{begin, follow};
use tables::layout::CONSTRAINT_SIZE;

// An overlap of two rules of a table, by their numbers: how many rules the table has, where the second one's heads stand in the
// goal, and how many constraints and variables the goal has.
#[derive(Clone, Copy)]
pub struct Peak {
    pub rules: usize,
    pub first: usize,
    pub second: usize,
    pub positions: [usize; 4],
    pub count: usize,
    pub variables: usize,
}

// The two sides' own firings.
#[derive(Clone, Copy)]
pub struct Steps {
    pub first: Step,
    pub second: Step,
}

// The ends of the two sides.
#[derive(Drop)]
pub struct Ends {
    pub first: Final,
    pub second: Final,
}

// Both sides' own firings, each in its lent cells.
pub fn begin_both(
    rules: &[u16],
    peak: Peak,
    goal: &[u16],
    bound_one: &mut [u16],
    one: &mut [u16],
    bound_two: &mut [u16],
    two: &mut [u16],
) -> Steps
    requires { Lent rules.now peak goal.now bound_one.old one.old bound_two.old two.old }
    ensures { BothBegun rules.now peak goal.now result bound_one.new one.new
        bound_two.new two.new }
{
    let m = peak.count;
    let positions = peak.positions;
    let first = begin(rules, peak.first, [0, 1, 2, 3], goal, m, bound_one, one);
    let second = begin(rules, peak.second, positions, goal, m, bound_two, two);
    Steps { first, second }
}

// The ends of both sides, from their own firings on.
pub fn follow_both(
    rules: &[u16],
    peak: Peak,
    goal: &[u16],
    steps: Steps,
    bound_one: &mut [u16],
    one: &mut [u16],
    bound_two: &mut [u16],
    two: &mut [u16],
) -> Ends
    requires { Lent rules.now peak goal.now bound_one.old one.old bound_two.old two.old
        × BothBegun rules.now peak goal.now steps bound_one.old one.old bound_two.old two.old }
    ensures { BothEnded rules.now peak goal.now result bound_one.new one.new
        bound_two.new two.new }
{
    let n = peak.rules;
    let m = peak.count;
    let first = follow(rules, n, peak.first, goal, m, bound_one, one, steps.first);
    let second = follow(rules, n, peak.second, goal, m, bound_two, two, steps.second);
    Ends { first, second }
}

// Whether both sides are in the same state after their own firings: both have failed, or the cells are the same.
pub fn same_step(
    steps: Steps,
    bound_one: &[u16],
    one: &[u16],
    bound_two: &[u16],
    two: &[u16],
) -> bool
    requires { Stepped steps bound_one.now one.now bound_two.now two.now }
    ensures { SameStep result steps bound_one.now one.now bound_two.now
        two.now }
{
    match (steps.first, steps.second) {
        (Step::Failed, Step::Failed) => true,
        (Step::Lives(own), Step::Lives(other)) => {
            if other != own {
                return false;
            }
            let e = CONSTRAINT_SIZE * own;
            same_cells(bound_one, bound_two) && same_cells(&one[..e], &two[..e])
        }
        _ => false,
    }
}

// Whether two ends that live are equal, both of n constraints. Cells that hold no term become 0.
pub fn same_ends(
    n: usize,
    bound_one: &[u16],
    one: &mut [u16],
    bound_two: &[u16],
    two: &mut [u16],
) -> bool
    requires { LiveEnd one.old n bound_one.now × LiveEnd two.old n bound_two.now
        × (length bound_one.now ≡ length bound_two.now) }
    ensures { result ≡ same_state (end_of bound_one.now one.old)
        (end_of bound_two.now two.old) }
{
    if same_cells(bound_one, bound_two) && same_cells(one, two) {
        return true;
    }
    tidy(one, n);
    tidy(two, n);
    same_state(one, n, bound_one, two, n, bound_two)
}

// Whether an overlap joins, from its sides' own firings on.
pub fn judge_from(
    rules: &[u16],
    peak: Peak,
    goal: &[u16],
    steps: Steps,
    bound_one: &mut [u16],
    one: &mut [u16],
    bound_two: &mut [u16],
    two: &mut [u16],
) -> bool
    requires { Lent rules.now peak goal.now bound_one.old one.old bound_two.old two.old
        × BothBegun rules.now peak goal.now steps bound_one.old one.old bound_two.old two.old }
    ensures { PeakJoins rules.now peak goal.now result }
{
    let ends = follow_both(rules, peak, goal, steps, bound_one, one, bound_two, two);
    let first = ends.first;
    let second = ends.second;
    let Some(n) = first.count else {
        return second.count.is_none();
    };
    let Some(k) = second.count else {
        return false;
    };
    if k != n {
        return false;
    }
    let e = CONSTRAINT_SIZE * n;
    same_ends(n, bound_one, &mut one[..e], bound_two, &mut two[..e])
}

// Whether an overlap joins, in lent cells for both ends. Sides in the same state after their own firings have the same end.
pub fn judge(
    rules: &[u16],
    peak: Peak,
    goal: &[u16],
    bound_one: &mut [u16],
    one: &mut [u16],
    bound_two: &mut [u16],
    two: &mut [u16],
) -> bool
    requires { Lent rules.now peak goal.now bound_one.old one.old bound_two.old two.old }
    ensures { PeakJoins rules.now peak goal.now result }
{
    let steps = begin_both(rules, peak, goal, bound_one, one, bound_two, two);
    if same_step(steps, bound_one, one, bound_two, two) {
        return true;
    }
    judge_from(rules, peak, goal, steps, bound_one, one, bound_two, two)
}

// Whether an overlap joins: the final states of its two sides are equal. `one` and `two` have room for the ends.
pub fn joins(rules: &[u16], peak: Peak, goal: &[u16], one: &mut [u16], two: &mut [u16]) -> bool
    requires { Overlapping rules.now peak.rules peak.first peak.second peak.positions peak.count
        peak.variables goal.now × (2590 ≤ length one.old) × (2590 ≤ length two.old) }
    ensures { PeakJoins rules.now peak goal.now result }
{
    let v = peak.variables;
    let mut bound_one = [0u16; 28];
    let mut bound_two = [0u16; 28];
    judge(
        rules,
        peak,
        goal,
        &mut bound_one[..v],
        one,
        &mut bound_two[..v],
        two,
    )
}
