// The goal of an overlap: the heads of the first rule and the unjoined heads of the second, their variables counted by first
// appearance; and where the second rule fires in it.
ghost use Rattle.std.specs.Prelude.{MatchOption, ◌≡◌, ◌+◌, ◌*◌, ◌≤◌, ◌<◌, eqb, length, take};
ghost use Rattle.text.specs.Lists.{index_from};
ghost use Rattle.semantics.specs.Overlaps.{second_positions};
ghost use Rattle.tables.specs.Layout.{constraint_size};
ghost use Rattle.overlaps.specs.Cells.{Unjoined};
ghost use Rattle.overlaps.specs.Overlapped.{Whole, Finished};

use engine::firing::move_row;
use fitting::search::is_chosen;
use tables::layout::CONSTRAINT_SIZE;
use tables::numbering::number;

// Removes the joined heads of the second rule, whose n heads stand behind m of the first; answers how many are left in all.
pub fn drop_joined(cells: &mut [u16], m: usize, n: usize, partners: [usize; 4]) -> usize
    requires { (length cells.old ≡ constraint_size * (m + n)) × (m ≤ 4) × (n ≤ 4) × (length partners ≡ 4) }
    ensures { Unjoined m n (take m partners) cells.old cells.new result }
{
    let mut k = m;
    for g in 0..n {
        if !is_chosen(partners, m, g + 1) {
            move_row(cells, m + g, k);
            k += 1;
        }
    }
    k
}

// The head of the first rule, of its m, that is joined to head d of the second; None where none is.
pub fn partner_of(partners: [usize; 4], m: usize, d: usize) -> Option<usize>
    requires { (m ≤ 4) × (length partners ≡ 4) }
    ensures { MatchOption result (index_from (eqb d) 0 (take m partners) ≡ m)
        (λ h. (h ≡ index_from (eqb d) 0 (take m partners)) × (h < m)) }
{
    partners[..m].iter().position(|partner| *partner == d)
}

// Where the n heads of the second rule stand in the goal: a joined one at its partner's position, the others behind the first
// rule's m heads, in their order.
pub fn second_positions(partners: [usize; 4], m: usize, n: usize) -> [usize; 4]
    requires { (m ≤ 4) × (n ≤ 4) × (length partners ≡ 4) }
    ensures { (take n result ≡ second_positions 1 m n (take m partners)) × (length result ≡ 4) }
{
    let mut positions = [0; 4];
    let mut free = m;
    for g in 0..n {
        match partner_of(partners, m, g + 1) {
            Some(h) => positions[g] = h,
            None => {
                positions[g] = free;
                free += 1;
            }
        }
    }
    positions
}

// How many constraints and variables a goal has.
#[derive(Clone, Copy)]
pub struct Goal {
    pub count: usize,
    pub variables: usize,
}

// The goal of an overlap in front of the cells, from all heads of two rules under the unifier: the first has m, the second n.
pub fn finish(cells: &mut [u16], m: usize, n: usize, partners: [usize; 4]) -> Goal
    requires { Whole cells.old m n partners }
    ensures { Finished cells.old m n partners cells.new result.count result.variables }
{
    let count = drop_joined(cells, m, n, partners);
    let e = CONSTRAINT_SIZE * count;
    let mut table = [0; 52];
    let variables = number(&mut table, 0, &mut cells[..e]);
    Goal { count, variables }
}
