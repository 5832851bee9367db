// Cells behind the last terms of constraints, which hold no term: here they become 0.
ghost use Rattle.std.specs.Prelude.{cond, ◌≡◌, ◌+◌, ◌*◌, ◌≤◌, eqb, length};
ghost use Rattle.judging.specs.Tidying.{RowEnded, Tidied};

use tables::layout::CONSTRAINT_SIZE;

// A cell that stands behind another: 0 where that one is 0. It is no `max` or `min`, and a test is as plain.
pub fn behind(before: u16, x: u16) -> u16
    ensures { result ≡ cond (eqb before 0) 0 x }
{
    if before == 0 { 0 } else { x }
}

// Writes 0 behind the last term of constraint i.
pub fn end_row(cells: &mut [u16], i: usize)
    requires { 5 * i + 5 ≤ length cells.old }
    ensures { RowEnded i cells.old cells.new }
{
    let p = CONSTRAINT_SIZE * i + 1;
    for j in 0..3 {
        let q = p + j;
        cells[q + 1] = behind(cells[q], cells[q + 1]);
    }
}

// Writes 0 behind the last term of each of n constraints.
pub fn tidy(cells: &mut [u16], n: usize)
    requires { length cells.old ≡ 5 * n }
    ensures { Tidied n cells.old cells.new }
{
    for i in 0..n {
        end_row(cells, i);
    }
}
