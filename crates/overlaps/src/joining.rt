// Heads joined in place: all heads of two rules stand in cells under the unifier so far, and joining two of them unifies their
// terms throughout.
ghost use Rattle.std.specs.Prelude.{◌≡◌, ◌+◌, ◌*◌, ◌≤◌, ◌<◌, length, take, drop};
ghost use Rattle.tables.specs.Layout.{constraint_size};
ghost use Rattle.tables.specs.Cells.{row_constraint, cell_constraints};
ghost use Rattle.overlaps.specs.Joins.{joined_terms, joined, join_next};
ghost use Rattle.overlaps.specs.Cells.{joined_of, terms_from, Heads, Partner};

use engine::solving::unify;
use fitting::search::is_chosen;
use tables::layout::CONSTRAINT_SIZE;

// Makes the terms of the rows at two indices equal throughout, column by column; false where they do not unify.
pub fn join_terms(cells: &mut [u16], a: usize, b: usize) -> bool
    requires { Heads cells.old a b }
    ensures { joined_of result cells.new
        ≡ joined_terms (terms_from cells.old (a + 1) 4) (terms_from cells.old (b + 1) 4)
        (cell_constraints cells.old) }
{
    let mut equations = [0u16; 0];
    let mut bound = [0u16; 0];
    for c in 1..CONSTRAINT_SIZE {
        let x = cells[a + c];
        let y = cells[b + c];
        if x == 0 {
            return y == 0;
        }
        if y == 0 {
            return false;
        }
        if !unify(x, y, &mut equations, &mut bound, cells) {
            return false;
        }
    }
    true
}

// Joins the heads at two positions: they unify throughout, or the answer is false.
pub fn join_heads(cells: &mut [u16], h: usize, g: usize) -> bool
    requires { Heads cells.old (constraint_size * h) (constraint_size * g) }
    ensures { joined_of result cells.new
        ≡ joined (row_constraint (take constraint_size (drop (constraint_size * h) cells.old)))
        (row_constraint (take constraint_size (drop (constraint_size * g) cells.old)))
        (cell_constraints cells.old) }
{
    let a = CONSTRAINT_SIZE * h;
    let b = CONSTRAINT_SIZE * g;
    if cells[a] != cells[b] {
        return false;
    }
    join_terms(cells, a, b)
}

// Joins head h of the first rule, which has m, to its partner d, or to none where d is 0; false where an earlier head has this
// partner, and where the two do not unify.
pub fn join_partner(cells: &mut [u16], m: usize, partners: [usize; 4], h: usize, d: usize) -> bool
    requires { Partner cells.old m partners h d }
    ensures { joined_of result cells.new ≡ join_next m (take h partners) d (cell_constraints cells.old) }
{
    if d == 0 {
        return true;
    }
    if is_chosen(partners, h, d) {
        return false;
    }
    join_heads(cells, h, m + d - 1)
}
