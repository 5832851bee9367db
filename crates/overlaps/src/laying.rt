// The heads of two rules in cells, the second rule renamed apart from the first.
ghost use Rattle.std.specs.Prelude.{[], map, ◌≡◌, ◌*◌, ◌≤◌, length, get_or};
ghost use Rattle.semantics.specs.Terms.{map_terms};
ghost use Rattle.semantics.specs.Matching.{unassigned};
ghost use Rattle.semantics.specs.Firing.{instance};
ghost use Rattle.tables.specs.Layout.{constraint_size, heads_cell};
ghost use Rattle.tables.specs.Cells.{cell_constraints};
ghost use Rattle.tables.specs.Rows.{rule_of_row};
ghost use Rattle.overlaps.specs.Cells.{RuleRow, RulePair, heads_of};

use engine::firing::instantiate;
use tables::layout::{CONSTRAINT_SIZE, HEADS_CELL};
use tables::rows::heads;
use tables::wide;

// Writes a rule's heads, `next` added to the numbers of its variables.
pub fn lay(row: &[u16], next: u16, out: &mut [u16])
    requires { RuleRow row.now × (length out.old ≡ constraint_size * get_or row.now heads_cell 0) × (next ≤ 26) }
    ensures { cell_constraints out.new
        ≡ map (map_terms (instance next unassigned)) (rule_of_row [] row.now).heads }
{
    let bindings = [0u16; 26];
    instantiate(heads(row), &bindings, next, out);
}

// All heads of two rules, the variables of the second behind the first's 26 letters.
pub fn lay_heads(first: &[u16], second: &[u16], cells: &mut [u16])
    requires { RulePair first.now second.now cells.old }
    ensures { cell_constraints cells.new ≡ heads_of first.now second.now }
{
    let a = CONSTRAINT_SIZE * wide(first[HEADS_CELL]);
    lay(first, 0, &mut cells[..a]);
    lay(second, 26, &mut cells[a..]);
}
