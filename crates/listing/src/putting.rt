// The lines of a listing: fields, the first line, A lines, and a line for each constraint.
// A function that writes a line is lent the part of the output behind the lines already placed, and writes at its front.
ghost use Rattle.std.specs.Prelude.{[], ◌∷◌, ◌++◌, map, ◌≡◌, ◌<◌, length};
ghost use Rattle.text.specs.Fields.{decimal};
ghost use Rattle.tables.specs.Layout.{constraint_size};
ghost use Rattle.tables.specs.Cells.{cell_term, cell_constraints, row_constraint};
ghost use Rattle.listing.specs.Listing.{fields_behind, line_of, constraint_shown, constraint_lines};
ghost use Rattle.listing.specs.Listing.{variable_name, bound_lines};
ghost use Rattle.listing.specs.Writing.{Countable, Writes};
ghost use Rattle.listing.specs.Ends.{named, placed, cell_shown, bound_line};

use crate::Names;
use crate::writing::{behind, copy, put_byte, put_decimal};
use tables::layout::{CONSTRAINT_SIZE, FIRST_VARIABLE};
use tables::numbering::used;
use tables::wide;

// The letter that a constraint's line begins with, and how many variables are the goal's.
#[derive(Clone, Copy)]
pub struct Mark {
    pub line: u8,
    pub variables: usize,
}

// The first line: a word with its comma, and a number.
pub fn put_head(out: &mut [u8], word: &[u8], n: usize) -> usize
    requires { Countable 0 (word.now ++ (decimal n ++ (10 ∷ []))) }
    ensures { Writes (word.now ++ (decimal n ++ (10 ∷ []))) 0 out.old out.new result }
{
    let digits = copy(out, 0, word);
    let feed = put_decimal(out, digits, n);
    put_byte(out, feed, b'\n')
}

// A goal variable: its letter, or V and its number.
pub fn put_variable(out: &mut [u8], at: usize, letters: &[u8], x: usize) -> usize
    requires { Countable at (variable_name letters.now x) × (x < 65536) }
    ensures { Writes (variable_name letters.now x) at out.old out.new result }
{
    if x < letters.len() {
        return put_byte(out, at, letters[x]);
    }
    let digits = put_byte(out, at, b'V');
    put_decimal(out, digits, x + 1)
}

// A variable by its place in an end's order: one of the first n, which are the goal's, by its own name, any other by U and its
// number among the others.
pub fn put_placed(out: &mut [u8], at: usize, letters: &[u8], n: usize, x: usize) -> usize
    requires { Countable at (placed letters.now n x) × (x < 65536) }
    ensures { Writes (placed letters.now n x) at out.old out.new result }
{
    if x < n {
        return put_variable(out, at, letters, x);
    }
    let digits = put_byte(out, at, b'U');
    put_decimal(out, digits, x - n + 1)
}

// A cell: a constant by its name, a variable by the name of its place.
pub fn put_cell<'a>(out: &mut [u8], at: usize, names: Names<'a>, n: usize, x: u16) -> usize
    requires { Countable at (cell_shown (named names) names.letters.now n x) }
    ensures { Writes (cell_shown (named names.entry) names.entry.letters.now n x) at out.old out.new result }
{
    if x < FIRST_VARIABLE {
        let s = names.name(wide(x));
        return copy(out, at, s);
    }
    put_placed(out, at, names.letters, n, wide(x - FIRST_VARIABLE))
}

// The fields of cells, each behind its comma, and the line feed.
pub fn put_fields<'a>(out: &mut [u8], at: usize, names: Names<'a>, n: usize, cells: &[u16]) -> usize
    requires { Countable at (fields_behind (map (cell_shown (named names) names.letters.now n) cells.now)) }
    ensures { Writes
        (fields_behind (map (cell_shown (named names.entry)
        names.entry.letters.now n) cells.now)) at out.old out.new result }
{
    let mut end = at;
    for cell in cells {
        let field = put_byte(out, end, b',');
        end = put_cell(out, field, names, n, *cell);
    }
    put_byte(out, end, b'\n')
}

// The line of a constraint's five cells: its symbol's name and its terms.
pub fn put_row<'a>(out: &mut [u8], names: Names<'a>, mark: Mark, row: &[u16]) -> usize
    requires { (length row.now ≡ constraint_size)
        × Countable 0 (line_of (mark.line ∷ []) (constraint_shown (named names)
        (placed names.letters.now mark.variables) (row_constraint row.now))) }
    ensures { Writes
        (line_of (mark.line ∷ []) (constraint_shown (named names.entry)
        (placed names.entry.letters.now mark.variables) (row_constraint row.now))) 0
        out.old out.new result }
{
    let comma = put_byte(out, 0, mark.line);
    let start = put_byte(out, comma, b',');
    let s = names.name(wide(row[0]));
    let end = copy(out, start, s);
    let n = used(&row[1..]);
    let e = 1 + n;
    put_fields(out, end, names, mark.variables, &row[1..e])
}

// A line for each constraint.
pub fn put_rows<'a>(out: &mut [u8], at: usize, names: Names<'a>, mark: Mark, cells: &[u16]) -> usize
    requires { Countable at (constraint_lines (mark.line ∷ []) (named names)
        (placed names.letters.now mark.variables) (cell_constraints cells.now)) }
    ensures { Writes
        (constraint_lines (mark.line ∷ []) (named names.entry)
        (placed names.entry.letters.now mark.variables) (cell_constraints cells.now)) at
        out.old out.new result }
{
    let mut end = at;
    for row in cells.chunks_exact(CONSTRAINT_SIZE) {
        let from = behind(end, out.len());
        let size = put_row(&mut out[from..], names, mark, row);
        end += size;
    }
    end
}

// A goal variable's line: its name and what it became.
pub fn put_bound<'a>(out: &mut [u8], names: Names<'a>, n: usize, i: usize, x: u16) -> usize
    requires { Countable 0 (bound_line (named names) names.letters.now n i x) × (i < 65536) }
    ensures { Writes (bound_line (named names.entry) names.entry.letters.now n i x) 0 out.old out.new result }
{
    let start = copy(out, 0, b"A,");
    let comma = put_variable(out, start, names.letters, i);
    let field = put_byte(out, comma, b',');
    let feed = put_cell(out, field, names, n, x);
    put_byte(out, feed, b'\n')
}

// A line for each goal variable.
pub fn put_bounds<'a>(out: &mut [u8], at: usize, names: Names<'a>, bound: &[u16]) -> usize
    requires { Countable at
        (bound_lines (named names) (placed names.letters.now (length bound.now))
        (variable_name names.letters.now) 0 (map cell_term bound.now)) × (length bound.now < 65536) }
    ensures { Writes
        (bound_lines (named names.entry)
        (placed names.entry.letters.now (length bound.now)) (variable_name names.entry.letters.now) 0
        (map cell_term bound.now)) at out.old out.new result }
{
    let mut end = at;
    for (i, x) in bound.iter().enumerate() {
        let start = behind(end, out.len());
        let size = put_bound(&mut out[start..], names, bound.len(), i, *x);
        end += size;
    }
    end
}
