// Firing a rule at positions that fit: its constraints are removed, its body is appended, and its equations are solved.
ghost use Rattle.std.specs.Prelude.{true, is_some, unwrap_or, [], map, ◌≡◌, ◌+◌, ◌-◌, ◌*◌, ◌≤◌, ◌<◌, length, take, drop, get_or};
ghost use Rattle.text.specs.Lists.{up_to};
ghost use Rattle.tables.specs.Layout.{constraint_size, kept_cell, heads_cell};
ghost use Rattle.engine.specs.Cells.{instance_cell, moved_row, closed_gap};
ghost use Rattle.fitting.specs.Positions.{Row};
ghost use Rattle.engine.specs.States.{Highest, Removed, Appended, Equated, SolvedRule, Fires, Fired, Skips, Placed};

use crate::solving::solve;
use tables::layout::{
    BODY_CELL, CONSTRAINT_SIZE, EQUATIONS_CELL, FIRST_VARIABLE, HEADS_CELL, KEPT_CELL,
};
use tables::rows::{at_most_four, body, equations};
use tables::wide;

// A cell of a rule's body: what the rule's variable is bound to, or a new variable.
#[tactic(auto, unfolding(crate::specs::Cells::instance_cell))]
pub fn instance(cell: u16, bindings: &[u16], next: u16) -> u16
    requires { (length bindings.now ≡ 26) × (next ≤ 65000) }
    ensures { result ≡ instance_cell next bindings.now cell }
{
    if cell < FIRST_VARIABLE {
        return cell;
    }
    let x = wide(cell - FIRST_VARIABLE);
    if x < 26 {
        let settled = bindings[x];
        if settled == 0 {
            return next + cell;
        }
        return settled;
    }
    cell
}

// Writes a rule's cells with its variables replaced.
pub fn instantiate(source: &[u16], bindings: &[u16], next: u16, out: &mut [u16])
    requires { (length source.now ≡ length out.old) × (length bindings.now ≡ 26) × (next ≤ 65000) }
    ensures { out.new ≡ map (instance_cell next bindings.now) source.now }
{
    for (i, cell) in source.iter().enumerate() {
        out[i] = instance(*cell, bindings, next);
    }
}

// Copies the constraint at a position to an earlier one.
#[tactic(auto, unfolding(crate::specs::Cells::moved_row))]
pub fn move_row(cells: &mut [u16], from: usize, to: usize)
    requires { (to ≤ from) × (constraint_size * from + constraint_size ≤ length cells.old) }
    ensures { cells.new ≡ moved_row from to cells.old }
{
    let a = CONSTRAINT_SIZE * from;
    cells.copy_within(a..a + CONSTRAINT_SIZE, CONSTRAINT_SIZE * to);
}

// Moves the constraints of k behind a position one forward, over the one there.
pub fn close_gap(cells: &mut [u16], k: usize, p: usize)
    requires { (p < k) × (constraint_size * k ≤ length cells.old) }
    ensures { cells.new ≡ closed_gap k p cells.old }
{
    let at = CONSTRAINT_SIZE * p;
    cells.copy_within(at + CONSTRAINT_SIZE..CONSTRAINT_SIZE * k, at);
}

// The highest of the positions that lie below p, if one does.
pub fn highest(positions: &[usize], p: usize) -> Option<usize>
    ensures { Highest positions.now p result }
{
    let mut top = None;
    for q in positions {
        if *q < p && top < Some(*q) {
            top = Some(*q);
        }
    }
    top
}

// Removes the constraints at the positions, the highest first, and closes each gap; answers how many are left.
pub fn remove(cells: &mut [u16], m: usize, positions: &[usize]) -> usize
    requires { length cells.old ≡ constraint_size * m }
    ensures { Removed m positions.now cells.old cells.new result }
{
    let mut k = m;
    let mut below = m;
    while let Some(p) = highest(positions, below) {
        close_gap(cells, k, p);
        k -= 1;
        below = p;
    }
    k
}

// Appends a rule's body behind k constraints; answers how many there are then.
pub fn append_body(row: &[u16], bindings: &[u16], next: u16, cells: &mut [u16], k: usize) -> usize
    requires { Row row.now × (length bindings.now ≡ 26) × (next ≤ 65000)
        × (constraint_size * k + 30 ≤ length cells.old) }
    ensures { Appended row.now bindings.now next cells.old cells.new k result }
{
    let n = wide(row[BODY_CELL]);
    let s = CONSTRAINT_SIZE * k;
    let t = s + CONSTRAINT_SIZE * n;
    instantiate(body(row), bindings, next, &mut cells[s..t]);
    k + n
}

// Solves a rule's equations in the state; false where it fails.
pub fn solve_rule(
    row: &[u16],
    bindings: &[u16],
    next: u16,
    bound: &mut [u16],
    cells: &mut [u16],
) -> bool
    requires { Equated row.now bindings.now next cells.old }
    ensures { SolvedRule result row.now bindings.now next bound.old cells.old
        bound.new cells.new }
{
    let n = at_most_four(row[EQUATIONS_CELL]);
    let t = 2 * n;
    let mut sides = [0u16; 8];
    instantiate(equations(row), bindings, next, &mut sides[..t]);
    solve(&mut sides[..t], n, bound, cells)
}

// The rest of a firing, behind the constraints that are left: the body is appended and the equations are solved. Answers how many
// constraints the state has then; None where it fails.
pub fn complete(
    row: &[u16],
    bindings: &[u16],
    next: u16,
    bound: &mut [u16],
    cells: &mut [u16],
    left: usize,
) -> Option<usize>
    requires { Equated row.now bindings.now next (take (constraint_size * left) cells.old)
        × (constraint_size * left + 30 ≤ length cells.old) }
    ensures { Fired row.now [] bindings.now next bound.old cells.old left
        bound.new cells.new (is_some result) (unwrap_or result 0) }
{
    let count = append_body(row, bindings, next, cells, left);
    let end = CONSTRAINT_SIZE * count;
    if solve_rule(row, bindings, next, bound, &mut cells[..end]) {
        return Some(count);
    }
    None
}

// The state after firing a rule at positions that fit: the constraints of its kept heads stay where they are. Answers how many
// constraints there are then; None where the state fails.
pub fn fire(
    row: &[u16],
    positions: &[usize],
    bindings: &[u16],
    next: u16,
    bound: &mut [u16],
    cells: &mut [u16],
    m: usize,
) -> Option<usize>
    requires { Fires row.now positions.now bindings.now next cells.old m }
    ensures { Fired row.now positions.now bindings.now next bound.old
        cells.old m bound.new cells.new (is_some result) (unwrap_or result 0) }
{
    let heads = wide(row[HEADS_CELL]);
    let first = wide(row[KEPT_CELL]);
    let placed = &positions[..heads];
    let old = CONSTRAINT_SIZE * m;
    let left = remove(&mut cells[..old], m, &placed[first..]);
    complete(row, bindings, next, bound, cells, left)
}

// Whether positions are 0, 1 and on.
pub fn is_front(positions: &[usize]) -> bool
    ensures { result ≡ true → positions.now ≡ up_to (length positions.now) }
{
    for (i, p) in positions.iter().enumerate() {
        if *p != i {
            return false;
        }
    }
    true
}

// How many constraints a state has then (None where it fails), how many rows before it are no longer its own, and how many
// constraints were removed.
#[derive(Drop)]
pub struct Front {
    pub count: Option<usize>,
    pub skip: usize,
    pub removed: usize,
}

// The same firing; where it removes the first constraints, the state begins behind them, and nothing is moved.
pub fn fire_front(
    row: &[u16],
    positions: &[usize],
    bindings: &[u16],
    next: u16,
    bound: &mut [u16],
    cells: &mut [u16],
    m: usize,
) -> Front
    requires { Fires row.now positions.now bindings.now next cells.old m × (get_or row.now heads_cell 0 ≤ m) }
    ensures { Fired row.now positions.now bindings.now next bound.old
        cells.old m bound.new (drop (constraint_size * result.skip) cells.new)
        (is_some result.count) (unwrap_or result.count 0)
        × Skips m result.skip (unwrap_or result.count 0)
        × (result.removed ≡ get_or row.now heads_cell 0 - get_or row.now kept_cell 0) }
{
    let heads = wide(row[HEADS_CELL]);
    let kept = wide(row[KEPT_CELL]);
    let removed = heads - kept;
    let placed = &positions[..heads];
    if is_front(&placed[kept..]) {
        let s = CONSTRAINT_SIZE * removed;
        let count = complete(row, bindings, next, bound, &mut cells[s..], m - removed);
        return Front {
            count,
            skip: removed,
            removed,
        };
    }
    let count = fire(row, positions, bindings, next, bound, cells, m);
    Front {
        count,
        skip: 0,
        removed,
    }
}

// Copies the constraints from a position on to the front.
pub fn move_down(cells: &mut [u16], from: usize, count: usize)
    requires { constraint_size * (from + count) ≤ length cells.old }
    ensures { take (constraint_size * count) cells.new
        ≡ take (constraint_size * count) (drop (constraint_size * from) cells.old) }
{
    cells.copy_within(CONSTRAINT_SIZE * from..CONSTRAINT_SIZE * (from + count), 0);
}

// Where the constraints stand that stood from a position on: at the front, if there was no room behind them for six more.
pub fn make_room(cells: &mut [u16], at: usize, count: usize) -> usize
    requires { (constraint_size * (at + count) ≤ length cells.old) × (constraint_size * count + 30 ≤ length cells.old) }
    ensures { Placed cells.old at count cells.new result }
{
    if cells.len() < CONSTRAINT_SIZE * (at + count) + 30 {
        move_down(cells, at, count);
        return 0;
    }
    at
}
