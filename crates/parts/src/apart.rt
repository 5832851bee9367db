// Whether the first constraints of a state share variables with the others, beside those that goal variables became.
ghost use Rattle.std.specs.Prelude.{◌*◌, ◌≤◌, length};
ghost use Rattle.parts.specs.Parts.{Marked, Unset, Unmarked, Parted};

use tables::layout::FIRST_VARIABLE;
use tables::wide;

// Room for all cells: constants, 28 goal variables, and as many more as 512 constraints have cells.
const ROOM: usize = 2844;

// Marks cells from one on, or takes their marks away. A cell without a place is left out.
pub fn mark(cells: &[u16], from: usize, value: bool, marks: &mut [bool])
    ensures { Marked cells.now from value marks.old marks.new }
{
    for i in from..cells.len() {
        let x = wide(cells[i]);
        if x < marks.len() {
            marks[x] = value;
        }
    }
}

// Whether a cell is marked; one without a place is.
pub fn is_marked(marks: &[bool], x: u16) -> bool
    ensures { Unset result marks.now x }
{
    let i = wide(x);
    i >= marks.len() || marks[i]
}

// Whether no variable among the first cells is marked.
pub fn is_unmarked(cells: &[u16], end: usize, marks: &[bool]) -> bool
    requires { end ≤ length cells.now }
    ensures { Unmarked result cells.now end marks.now }
{
    cells[..end]
        .iter()
        .all(|x| *x < FIRST_VARIABLE || !is_marked(marks, *x))
}

// Whether the first k constraints share with the others only variables that goal variables became.
pub fn is_parted(cells: &[u16], k: usize, bound: &[u16]) -> bool
    requires { 5 * k ≤ length cells.now }
    ensures { Parted result cells.now k bound.now }
{
    let end = 5 * k;
    let mut marks = [false; ROOM];
    mark(cells, end, true, &mut marks);
    mark(bound, 0, false, &mut marks);
    is_unmarked(cells, end, &marks)
}
