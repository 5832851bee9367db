// Equations between cells, solved one after the other, each put in throughout the state.
ghost use Rattle.std.specs.Prelude.{map, ◌≡◌, ◌<◌, ◌*◌};
ghost use Rattle.engine.specs.Cells.{swap};
ghost use Rattle.engine.specs.States.{Merged, Solvable, Solved};

use tables::layout::FIRST_VARIABLE;

// A cell, with v replaced by t.
#[tactic(auto, unfolding(crate::specs::Cells::swap))]
pub fn swapped(v: u16, t: u16, cell: u16) -> u16
    ensures { result ≡ swap v t cell }
{
    if cell == v { t } else { cell }
}

// Replaces v by t throughout.
pub fn replace_all(cells: &mut [u16], v: u16, t: u16)
    ensures { cells.new ≡ map (swap v t) cells.old }
{
    for cell in cells.iter_mut() {
        *cell = swapped(v, t, *cell);
    }
}

// Replaces the variable v by the smaller cell t in the equations and in the state; a constant is never equal to another.
pub fn put_in(v: u16, t: u16, equations: &mut [u16], bound: &mut [u16], cells: &mut [u16]) -> bool
    requires { t < v }
    ensures { Merged result v t equations.old bound.old cells.old
        equations.new bound.new cells.new }
{
    if v < FIRST_VARIABLE {
        return false;
    }
    replace_all(equations, v, t);
    replace_all(bound, v, t);
    replace_all(cells, v, t);
    true
}

// One equation: of two cells the larger, if it is a variable, becomes the smaller.
pub fn unify(a: u16, b: u16, equations: &mut [u16], bound: &mut [u16], cells: &mut [u16]) -> bool
    ensures { Merged result a b equations.old bound.old cells.old
        equations.new bound.new cells.new }
{
    if a == b {
        return true;
    }
    if a < b {
        return put_in(b, a, equations, bound, cells);
    }
    put_in(a, b, equations, bound, cells)
}

// All equations, from the first; false where two different constants are equated.
pub fn solve(equations: &mut [u16], n: usize, bound: &mut [u16], cells: &mut [u16]) -> bool
    requires { Solvable equations.old n cells.old }
    ensures { Solved result equations.old bound.old cells.old
        bound.new cells.new }
{
    for i in 0..n {
        let at = 2 * i;
        let a = equations[at];
        let b = equations[at + 1];
        if !unify(a, b, equations, bound, cells) {
            return false;
        }
    }
    true
}
