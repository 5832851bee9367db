// A state's variables numbered anew by first appearance, so that tables by cell stay small.
ghost use Rattle.std.specs.Prelude.{◌≡◌, ◌+◌, ◌<◌, ◌≤◌, length};
ghost use Rattle.colours.specs.Bounds.{Below};
ghost use Rattle.colours.specs.Numbering.{Numbering, Numbered, CellsNumbered, Renumbered, WithinSize};

use tables::layout::FIRST_VARIABLE;
use tables::wide;

// Cells lie below this: constants, 28 goal variables, and 26 more for each of 512 firings.
const ROOM: usize = 13596;

// Room enough for most states.
const FEW: usize = 1024;

// A cell in its new number, and the next number.
#[derive(Drop)]
pub struct Number {
    pub cell: u16,
    pub next: u16,
}

// A constant keeps its number; a variable that has none yet gets the next one.
pub fn number_cell(x: u16, numbers: &mut [u16], next: u16) -> Number
    requires { Numbering numbers.old next × (x < length numbers.old) × (next < 65535) }
    ensures { Numbered x result.cell numbers.old next numbers.new result.next }
{
    if x < FIRST_VARIABLE {
        return Number { cell: x, next };
    }
    let p = wide(x);
    let known = numbers[p];
    if known != 0 {
        return Number { cell: known, next };
    }
    numbers[p] = next;
    Number {
        cell: next,
        next: next + 1,
    }
}

// All cells; answers the next number.
pub fn number_cells(cells: &[u16], out: &mut [u16], numbers: &mut [u16], first: u16) -> u16
    requires { Numbering numbers.old first × Below (length numbers.old) cells.now
        × (length out.old ≡ length cells.now) × (first + length cells.now < 65535) }
    ensures { CellsNumbered cells.now out.new numbers.old first numbers.new result }
{
    let mut next = first;
    for (i, x) in cells.iter().enumerate() {
        let number = number_cell(*x, numbers, next);
        out[i] = number.cell;
        next = number.next;
    }
    next
}

// The next number after those of the goal variables, and after all.
#[derive(Drop)]
pub struct Extent {
    pub bound: u16,
    pub all: u16,
}

// What the goal variables became, then the constraints, by a lent table in which no variable has a number.
pub fn number_in(
    cells: &[u16],
    bound: &[u16],
    out: &mut [u16],
    out_bound: &mut [u16],
    numbers: &mut [u16],
) -> Extent
    requires { Numbering numbers.old 256 × Below (length numbers.old) cells.now × Below (length numbers.old) bound.now
        × (length out.old ≡ length cells.now) × (length out_bound.old ≡ length bound.now)
        × (length cells.now ≤ 2560) × (length bound.now ≤ 28) }
    ensures { Renumbered cells.now bound.now out.new out_bound.new result.bound
        result.all }
{
    let limit = number_cells(bound, out_bound, numbers, FIRST_VARIABLE);
    let next = number_cells(cells, out, numbers, limit);
    Extent {
        bound: limit,
        all: next,
    }
}

// Whether all cells lie below a size.
pub fn all_below(cells: &[u16], size: u16) -> bool
    requires { 0 < size }
    ensures { WithinSize result size cells.now }
{
    cells.iter().all(|x| *x < size)
}

// The same by a table of its own, a small one where that is enough.
pub fn number_state(cells: &[u16], bound: &[u16], out: &mut [u16], out_bound: &mut [u16]) -> Extent
    requires { Below 13596 cells.now × Below 13596 bound.now × (length out.old ≡ length cells.now)
        × (length out_bound.old ≡ length bound.now) × (length cells.now ≤ 2560) × (length bound.now ≤ 28) }
    ensures { Renumbered cells.now bound.now out.new out_bound.new result.bound
        result.all }
{
    if all_below(cells, 1024) {
        if all_below(bound, 1024) {
            let mut few = [0u16; FEW];
            return number_in(cells, bound, out, out_bound, &mut few);
        }
    }
    let mut numbers = [0u16; ROOM];
    number_in(cells, bound, out, out_bound, &mut numbers)
}
