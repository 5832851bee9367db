// Matching and firing a rule at stated positions.
ghost use Rattle.std.specs.Prelude.{◌≡◌, ◌*◌, length};
ghost use Rattle.tables.specs.Layout.{constraint_size};
ghost use Rattle.fitting.specs.Cells.{Matched};
ghost use Rattle.fitting.specs.Positions.{Row};
ghost use Rattle.engine.specs.Stated.{match_row, Stated, FiredFrom, has_fired, lives, count_in};

use crate::entering::{copy_free, copy_goal};
use crate::firing::complete;
use fitting::matching::fit_free;
use tables::layout::{CONSTRAINT_SIZE, HEADS_CELL, KEPT_CELL};
use tables::rows::heads;
use tables::wide;

// The heads of a rule against the constraints at its positions, in written order; no position may serve two heads.
pub fn match_at(
    row: &[u16],
    positions: [usize; 4],
    cells: &[u16],
    m: usize,
    bindings: &mut [u16],
) -> bool
    requires { Row row.now × (length positions ≡ 4) × (length cells.now ≡ constraint_size * m)
        × (length bindings.old ≡ 26) }
    ensures { Matched result bindings.new
        (match_row row.now positions cells.now bindings.old) }
{
    let n = wide(row[HEADS_CELL]);
    let heads = heads(row);
    for h in 0..n {
        let p = positions[h];
        if m <= p {
            return false;
        }
        let a = CONSTRAINT_SIZE * h;
        let b = a + CONSTRAINT_SIZE;
        let c = CONSTRAINT_SIZE * p;
        let d = c + CONSTRAINT_SIZE;
        if !fit_free(&heads[a..b], &cells[c..d], &positions[..h], p, bindings) {
            return false;
        }
    }
    true
}

// What firing a rule at stated positions comes to: it does not fit there, or the state fails, or lives with so many constraints.
#[derive(Clone, Copy, PartialEq, Eq)]
pub enum Step {
    Rests,
    Failed,
    Lives(usize),
}

// The state after firing a rule at stated positions of a goal of m constraints, if it fits there; otherwise the goal enters.
// Only what the rule leaves is copied.
pub fn fire_from(
    row: &[u16],
    positions: [usize; 4],
    next: u16,
    goal: &[u16],
    m: usize,
    bound: &mut [u16],
    cells: &mut [u16],
) -> Step
    requires { Stated row.now positions next goal.now m cells.old }
    ensures { FiredFrom row.now positions next bound.old goal.now m
        bound.new cells.new (has_fired result) (lives result) (count_in result) }
{
    let mut bindings = [0u16; 26];
    if !match_at(row, positions, goal, m, &mut bindings) {
        copy_goal(goal, cells);
        return Step::Rests;
    }
    let heads = wide(row[HEADS_CELL]);
    let kept = wide(row[KEPT_CELL]);
    let placed = &positions[..heads];
    let left = copy_free(goal, m, &placed[kept..], cells);
    match complete(row, &bindings, next, bound, cells, left) {
        None => Step::Failed,
        Some(count) => Step::Lives(count),
    }
}
