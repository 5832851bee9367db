// The sides of an overlap: from its goal and one of its rules, at that rule's positions, to the end.
#![tactic(auto)]

ghost use Rattle.std.specs.Prelude.{length, is_some, unwrap_or};
ghost use Rattle.engine.specs.Stated.{has_fired, lives, count_in};
ghost use Rattle.sides.specs.Sides.{Sidable, Beginnable, Begun, Followable, Followed, Sided};
ghost use Rattle.sides.specs.Sides.{SideTallying, SideTallied};

use engine::derivation::{Final, normalise_from};
use engine::entering::start_bound;
use engine::stated::{Step, fire_from};
use tables::layout::MAX_SYMBOLS;
use tables::rows::row_of;
use tallies::counting::{exchange, raise};

// A side's own firing: the rule of a number fires at its positions of the goal, which has m constraints and as many variables as
// `bound` has cells. If it does not fit there, the goal enters as it is.
pub fn begin(
    rules: &[u16],
    rule: usize,
    positions: [usize; 4],
    goal: &[u16],
    m: usize,
    bound: &mut [u16],
    cells: &mut [u16],
) -> Step
    requires { Beginnable rules.now rule positions goal.now m (length bound.old) cells.old }
    ensures { Begun rules.now rule positions goal.now m (length bound.old)
        bound.new cells.new (has_fired result) (lives result) (count_in result) }
{
    let next = bound.len() as u16;
    start_bound(bound);
    fire_from(row_of(rules, rule), positions, next, goal, m, bound, cells)
}

// The tally of a side after its own firing: the goal's m constraints enter an empty store, and the rule fires.
pub fn tally_side(row: &[u16], goal: &[u16], m: usize, tally: &mut [u16])
    requires { SideTallying row.now goal.now m tally.old }
    ensures { SideTallied row.now goal.now tally.new }
{
    raise(goal, m, tally);
    exchange(row, tally);
}

// The end of a side that began so, with the rule of a number: the strategy follows. Where the rule did not fit, the goal is the
// end.
pub fn follow(
    rules: &[u16],
    n: usize,
    rule: usize,
    goal: &[u16],
    m: usize,
    bound: &mut [u16],
    cells: &mut [u16],
    step: Step,
) -> Final
    requires { Followable rules.now n rule goal.now m (length bound.old) bound.old cells.old
        (has_fired step) (lives step) (count_in step) }
    ensures { Followed rules.now n m (length bound.old) bound.old cells.old
        (has_fired step) (lives step) (count_in step) bound.new cells.new
        (is_some result.count) (unwrap_or result.count 0) result.next result.firings }
{
    let next = bound.len() as u16;
    let number = next + 26;
    match step {
        Step::Rests => Final {
            count: Some(m),
            next,
            firings: 0,
        },
        Step::Failed => Final {
            count: None,
            next: number,
            firings: 1,
        },
        Step::Lives(count) => {
            let mut tally = [0u16; MAX_SYMBOLS];
            tally_side(row_of(rules, rule), goal, m, &mut tally);
            normalise_from(rules, n, bound, cells, count, number, 1, &mut tally)
        }
    }
}

// The end of a side: its own firing, then the strategy.
pub fn side(
    rules: &[u16],
    n: usize,
    rule: usize,
    positions: [usize; 4],
    goal: &[u16],
    m: usize,
    bound: &mut [u16],
    cells: &mut [u16],
) -> Final
    requires { Sidable rules.now n rule positions goal.now m (length bound.old) cells.old }
    ensures { Sided rules.now n rule positions goal.now (length bound.old)
        bound.new cells.new (is_some result.count) (unwrap_or result.count 0) result.next result.firings }
{
    let step = begin(rules, rule, positions, goal, m, bound, cells);
    follow(rules, n, rule, goal, m, bound, cells, step)
}
