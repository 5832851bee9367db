// A goal enters: its constraints, or those at none of some positions, stand in front, and each of its variables is itself.
ghost use Rattle.std.specs.Prelude.{map, ◌≡◌, ◌+◌, ◌*◌, ◌≤◌, length, take, drop};
ghost use Rattle.std.proofs.Math.Seq.{paste};
ghost use Rattle.text.specs.Lists.{tabled};
ghost use Rattle.semantics.specs.Terms.{var};
ghost use Rattle.tables.specs.Layout.{constraint_size};
ghost use Rattle.tables.specs.Cells.{cell_term};
ghost use Rattle.engine.specs.States.{Removed};

use fitting::matching::is_among;
use tables::layout::{CONSTRAINT_SIZE, FIRST_VARIABLE};

// Each goal variable is itself.
pub fn start_bound(bound: &mut [u16])
    requires { length bound.old ≤ 65000 }
    ensures { map cell_term bound.new ≡ tabled var (length bound.old) }
{
    for i in 0..bound.len() {
        bound[i] = FIRST_VARIABLE + i as u16;
    }
}

// The goal's cells in front.
pub fn copy_goal(goal: &[u16], cells: &mut [u16])
    requires { length goal.now ≤ length cells.old }
    ensures { take (length goal.now) cells.new ≡ goal.now }
{
    // No `copy_from_slice`: with it the library for C needs `memmove`.
    for (i, cell) in goal.iter().enumerate() {
        cells[i] = *cell;
    }
}

// Copies the goal's constraint at a position over the one at another in the cells.
pub fn copy_row(goal: &[u16], from: usize, cells: &mut [u16], to: usize)
    requires { (constraint_size * from + constraint_size ≤ length goal.now)
        × (constraint_size * to + constraint_size ≤ length cells.old) }
    ensures { cells.new
        ≡ paste cells.old (constraint_size * to) (drop (constraint_size * from) goal.now) constraint_size }
{
    let a = CONSTRAINT_SIZE * from;
    let b = CONSTRAINT_SIZE * to;
    cells[b..b + CONSTRAINT_SIZE].copy_from_slice(&goal[a..a + CONSTRAINT_SIZE]);
}

// The goal's constraints at none of the positions in front, in their order; answers how many of its m these are.
pub fn copy_free(goal: &[u16], m: usize, positions: &[usize], cells: &mut [u16]) -> usize
    requires { (length goal.now ≡ constraint_size * m) × (constraint_size * m ≤ length cells.old) }
    ensures { Removed m positions.now goal.now cells.new result }
{
    let mut k = 0;
    for p in 0..m {
        if !is_among(positions, p) {
            copy_row(goal, p, cells, k);
            k += 1;
        }
    }
    k
}
