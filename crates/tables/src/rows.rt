// The rows of a table of rules, and the parts of a row.
ghost use Rattle.std.specs.Prelude.{[], ◌≡◌, ◌+◌, ◌-◌, ◌*◌, ◌≤◌, min, length, get_or};
ghost use Rattle.semantics.specs.Terms.{removed_heads};
ghost use Rattle.tables.specs.Layout.{constraint_size, row_size, kept_cell, heads_cell, body_cell, equations_cell};
ghost use Rattle.tables.specs.Cells.{cell_constraints, cell_equations};
ghost use Rattle.tables.specs.Rows.{rule_of_row, row_of};

use crate::layout::{
    BODY_CELL, CONSTRAINT_SIZE, EQUATIONS_CELL, FIRST_BODY, FIRST_EQUATION, FIRST_HEAD, HEADS_CELL,
    KEPT_CELL, ROW_SIZE,
};
use crate::wide;

// The row of a rule in the table.
pub fn row_of(rules: &[u16], i: usize) -> &[u16]
    requires { row_size * i + row_size ≤ length rules.now }
    ensures { result.now ≡ row_of rules.now i }
{
    let a = ROW_SIZE * i;
    &rules[a..a + ROW_SIZE]
}

// The cells of a rule's heads.
pub fn heads(row: &[u16]) -> &[u16]
    requires size { length row.now ≡ row_size }
    requires few { get_or row.now heads_cell 0 ≤ 4 }
    ensures size { length result.now ≡ constraint_size * get_or row.now heads_cell 0 }
    ensures same { cell_constraints result.now ≡ (rule_of_row [] row.now).heads }
{
    let e = FIRST_HEAD + CONSTRAINT_SIZE * wide(row[HEADS_CELL]);
    &row[FIRST_HEAD..e]
}

// The cells of the heads that a rule removes: those behind the kept ones.
pub fn removed_heads(row: &[u16]) -> &[u16]
    requires size { length row.now ≡ row_size }
    requires few { get_or row.now heads_cell 0 ≤ 4 }
    requires kept { get_or row.now kept_cell 0 ≤ get_or row.now heads_cell 0 }
    ensures size { length result.now
        ≡ constraint_size * (get_or row.now heads_cell 0 - get_or row.now kept_cell 0) }
    ensures same { cell_constraints result.now ≡ removed_heads (rule_of_row [] row.now) }
{
    let kept = CONSTRAINT_SIZE * wide(row[KEPT_CELL]);
    &heads(row)[kept..]
}

// The cells of a rule's body.
pub fn body(row: &[u16]) -> &[u16]
    requires size { length row.now ≡ row_size }
    requires few { get_or row.now body_cell 0 ≤ 6 }
    ensures size { length result.now ≡ constraint_size * get_or row.now body_cell 0 }
    ensures same { cell_constraints result.now ≡ (rule_of_row [] row.now).body }
{
    let e = FIRST_BODY + CONSTRAINT_SIZE * wide(row[BODY_CELL]);
    &row[FIRST_BODY..e]
}

// How many equations a row holds, by the number in its cell: it has room for four.
pub fn at_most_four(cell: u16) -> usize
    ensures { result ≡ min cell 4 }
{
    if cell < 4 { wide(cell) } else { 4 }
}

// The cells of a rule's equations.
pub fn equations(row: &[u16]) -> &[u16]
    requires { length row.now ≡ row_size }
    ensures size { length result.now ≡ 2 * min (get_or row.now equations_cell 0) 4 }
    ensures same { cell_equations result.now ≡ (rule_of_row [] row.now).equations }
{
    let e = FIRST_EQUATION + 2 * at_most_four(row[EQUATIONS_CELL]);
    &row[FIRST_EQUATION..e]
}
