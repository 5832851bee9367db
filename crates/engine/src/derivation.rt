// The derivation by the strategy: the lowest-numbered rule that fits fires at the smallest positions, until none fits.
ghost use Rattle.std.specs.Prelude.{true, false, is_some, unwrap_or, MatchOption, ◌+◌, ◌*◌, ◌≤◌, drop};
ghost use Rattle.tables.specs.Layout.{constraint_size};
ghost use Rattle.tallies.specs.Symbols.{Tallied};
ghost use Rattle.engine.specs.States.{Skips};
ghost use Rattle.engine.specs.Runs.{Live, Stepped, Startable, Ended, Continued, store_of};
ghost use Rattle.fitting.specs.Known.{Knows};
ghost use Rattle.engine.specs.Runs.{Keeps};

use crate::firing::{fire_front, make_room, move_down};
use fitting::known::{Stage, remember};
use fitting::search::choose;
use tables::layout::{CONSTRAINT_SIZE, MAX_SYMBOLS, ROW_SIZE};

// The state after a firing: how many constraints it has (None where it has failed), how many rows before it are no longer its own,
// and how many constraints firings have removed.
#[derive(Drop)]
pub struct Forward {
    pub count: Option<usize>,
    pub skip: usize,
    pub gone: usize,
}

// The strategy's firing; None where no rule fits, and the state has not changed then (what is known of the rules has).
pub fn advance(
    rules: &[u16],
    known: &mut [u16],
    last: &mut [u16],
    bound: &mut [u16],
    cells: &mut [u16],
    stage: Stage,
    tally: &mut [u16],
) -> Option<Forward>
    requires { Live rules.now stage.rules cells.old stage.count stage.next
        × Knows rules.now stage.rules known.old last.old stage.gone (store_of cells.old stage.count)
        × (stage.gone + stage.count ≤ 6000)
        × Tallied tally.old (store_of cells.old stage.count) }
    ensures { MatchOption result
        (Stepped rules.now stage.rules bound.old cells.old stage.count
        stage.next bound.new cells.new false true stage.count)
        (λ step. Stepped rules.now stage.rules bound.old cells.old stage.count
        stage.next bound.new (drop (constraint_size * step.skip) cells.new)
        true (is_some step.count) (unwrap_or step.count 0)
        × Keeps rules.now stage.rules known.new last.new tally.new step.gone
        (drop (constraint_size * step.skip) cells.new) true (is_some step.count) (unwrap_or step.count 0)
        × Skips stage.count step.skip (unwrap_or step.count 0)
        × (step.gone + unwrap_or step.count 0 ≤ stage.gone + stage.count + 10)) }
{
    let m = stage.count;
    let gone = stage.gone;
    let e = CONSTRAINT_SIZE * m;
    let mut positions = [0; 4];
    let mut bindings = [0; 26];
    let number = choose(
        rules,
        known,
        last,
        &cells[..e],
        stage,
        &mut positions,
        &mut bindings,
        tally,
    )?;
    let a = ROW_SIZE * number;
    let b = a + ROW_SIZE;
    let row = &rules[a..b];
    let after = fire_front(row, &positions, &bindings, stage.next, bound, cells, m);
    let skip = after.skip;
    let removed = gone + after.removed;
    match after.count {
        None => Some(Forward {
            count: None,
            skip,
            gone: removed,
        }),
        Some(count) => {
            remember(row, known, last, removed + count, tally);
            Some(Forward {
                count: Some(count),
                skip,
                gone: removed,
            })
        }
    }
}

// The end of a derivation: how many constraints the state has (None where it has failed), the next variable, and how often a rule
// fired.
#[derive(Clone, Copy)]
pub struct Final {
    pub count: Option<usize>,
    pub next: u16,
    pub firings: usize,
}

// The derivation to its end, from a live state of m constraints and its tally.
pub fn normalise(
    rules: &[u16],
    n: usize,
    bound: &mut [u16],
    cells: &mut [u16],
    m: usize,
    next: u16,
    tally: &mut [u16],
) -> Final
    requires { Startable rules.now n cells.old m next × Tallied tally.old (store_of cells.old m) }
    ensures { Ended rules.now n bound.old cells.old m next
        bound.new cells.new (is_some result.count) (unwrap_or result.count 0) result.next result.firings }
{
    let mut count = m;
    let mut number = next;
    let mut firings = 0;
    let mut known = [8192u16; 32];
    let mut last = [0u16; MAX_SYMBOLS];
    let mut gone = 0;
    let mut at = 0;
    loop {
        at = make_room(cells, at, count);
        let a = CONSTRAINT_SIZE * at;
        let now = Stage {
            rules: n,
            count,
            next: number,
            gone,
        };
        let Some(step) = advance(
            rules,
            &mut known,
            &mut last,
            bound,
            &mut cells[a..],
            now,
            tally,
        ) else {
            move_down(cells, at, count);
            return Final {
                count: Some(count),
                next: number,
                firings,
            };
        };
        number += 26;
        firings += 1;
        let Some(left) = step.count else {
            return Final {
                count: None,
                next: number,
                firings,
            };
        };
        count = left;
        at += step.skip;
        gone = step.gone;
    }
}

// The same, from a state that took some firings already; the end counts them too.
pub fn normalise_from(
    rules: &[u16],
    n: usize,
    bound: &mut [u16],
    cells: &mut [u16],
    m: usize,
    next: u16,
    before: usize,
    tally: &mut [u16],
) -> Final
    requires { Startable rules.now n cells.old m next × (before ≤ 65000)
        × Tallied tally.old (store_of cells.old m) }
    ensures { Continued rules.now n bound.old cells.old m next before
        bound.new cells.new (is_some result.count) (unwrap_or result.count 0) result.next result.firings }
{
    let end = normalise(rules, n, bound, cells, m, next, tally);
    let firings = before + end.firings;
    Final {
        count: end.count,
        next: end.next,
        firings,
    }
}
