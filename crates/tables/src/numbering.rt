// The variables of a state, numbered anew: those of the goal keep their numbers, the others follow by first appearance. A lent
// table has the new cell of each.
ghost use Rattle.std.specs.Prelude.{[], true, ◌≡◌, ◌+◌, ◌-◌, ◌≤◌, ◌<◌, length};
ghost use Rattle.text.specs.Lists.{every, up_to};
ghost use Rattle.semantics.specs.Terms.{is_below};
ghost use Rattle.tables.specs.Layout.{first_variable};
ghost use Rattle.tables.specs.Cells.{cell_term, cell_terms, cell_constraints};
ghost use Rattle.tables.specs.Numbers.{used_cells, Numbering, Numbered, RowNumbered, RowsNumbered, renumbered_cell};
ghost use Rattle.tables.specs.Numbers.{is_within, Numberable, Renumbered};

use crate::layout::{CONSTRAINT_SIZE, FIRST_VARIABLE};
use crate::wide;

// How many cells stand before the first 0.
pub fn used(cells: &[u16]) -> usize
    ensures { (result ≡ used_cells cells.now) × (result ≤ length cells.now) }
{
    for (i, x) in cells.iter().enumerate() {
        if *x == 0 {
            return i;
        }
    }
    cells.len()
}

// One more term: a variable that has not appeared gets the next number. Answers how many have appeared.
fn number_term(table: &mut [u16], seen: usize, x: u16) -> usize
    requires { (first_variable ≤ x → x - first_variable < length table.old) × (seen < 65000) }
    ensures { Numbered (cell_term x) table.old table.new seen result }
{
    if x < FIRST_VARIABLE {
        return seen;
    }
    let y = wide(x - FIRST_VARIABLE);
    if table[y] == 0 {
        table[y] = FIRST_VARIABLE + seen as u16;
        return seen + 1;
    }
    seen
}

// A cell under the table.
fn renumbered(table: &[u16], x: u16) -> u16
    ensures { result ≡ renumbered_cell table.now x }
{
    if x < FIRST_VARIABLE {
        return x;
    }
    let y = wide(x - FIRST_VARIABLE);
    if table.len() <= y {
        return x;
    }
    let new = table[y];
    if new == 0 { x } else { new }
}

// The terms of a constraint, up to the first 0: each becomes its new cell.
fn number_row(table: &mut [u16], before: usize, row: &mut [u16]) -> usize
    requires { (every (is_below (length table.old)) (cell_terms row.old) ≡ true) × (before + length row.old ≤ 65000) }
    ensures { RowNumbered row.old row.new table.old table.new before result }
{
    let mut seen = before;
    for i in 0..row.len() {
        let x = row[i];
        if x == 0 {
            return seen;
        }
        seen = number_term(table, seen, x);
        row[i] = renumbered(table, x);
    }
    seen
}

// The terms of constraints, five cells each.
fn number_rows(table: &mut [u16], before: usize, cells: &mut [u16]) -> usize
    requires { (every (is_within (length table.old)) (cell_constraints cells.old) ≡ true)
        × (before + length cells.old ≤ 65000) }
    ensures { RowsNumbered cells.old cells.new table.old table.new before result }
{
    let mut seen = before;
    let mut i = 0;
    // No `for`: how many rows there are would be a quotient, and none stands here.
    while CONSTRAINT_SIZE * i + CONSTRAINT_SIZE <= cells.len() {
        let a = CONSTRAINT_SIZE * i + 1;
        let e = a + 4;
        seen = number_row(table, seen, &mut cells[a..e]);
        i += 1;
    }
    seen
}

// The first n variables keep their numbers.
fn keep(table: &mut [u16], n: usize)
    requires { Numbering [] table.old 0 × (n ≤ length table.old) × (n ≤ 65000) }
    ensures { Numbering (up_to n) table.new n }
{
    for i in 0..n {
        table[i] = FIRST_VARIABLE + i as u16;
    }
}

// The variables of constraints, numbered anew behind the first n, which stay. Answers how many there are, those n included.
pub fn number(table: &mut [u16], n: usize, cells: &mut [u16]) -> usize
    requires { Numbering [] table.old 0 × Numberable (length table.old) n cells.old }
    ensures { Renumbered n cells.old cells.new result }
{
    keep(table, n);
    number_rows(table, n, cells)
}

// The same with a table of its own, for variables below v: most runs make few, and a small table is soon cleared.
pub fn renumber(n: usize, cells: &mut [u16], v: usize) -> usize
    requires { Numberable v n cells.old × (v ≤ 13340) }
    ensures { Renumbered n cells.old cells.new result }
{
    if v <= 256 {
        let mut few = [0; 256];
        return number(&mut few[..v], n, cells);
    }
    let mut table = [0; 13340];
    number(&mut table[..v], n, cells)
}
