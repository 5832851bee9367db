// The overlap of two rules by the partners of the first one's heads.
ghost use Rattle.tables.specs.Layout.{heads_cell};
ghost use Rattle.std.specs.Prelude.{length, get_or, ◌≡◌};
ghost use Rattle.overlaps.specs.Cells.{RulePair};
ghost use Rattle.overlaps.specs.Overlapped.{Whole, Partners, AllJoined, OverlapOf};

use crate::finishing::{Goal, finish};
use crate::joining::join_partner;
use crate::laying::lay_heads;
use tables::layout::HEADS_CELL;
use tables::wide;

// Joins all heads of the first rule, which has m, to their partners among the second's n; false where they do not unify.
pub fn join_all(cells: &mut [u16], m: usize, n: usize, partners: [usize; 4]) -> bool
    requires { Whole cells.old m n partners × Partners partners m n }
    ensures { AllJoined cells.old m n partners result cells.new }
{
    for h in 0..m {
        if !join_partner(cells, m, partners, h, partners[h]) {
            return false;
        }
    }
    true
}

// The overlap of two rules by partners that join heads one to one, whose goal stands in front of the cells; None where the joined
// heads do not unify.
pub fn overlap_by(
    first: &[u16],
    second: &[u16],
    partners: [usize; 4],
    cells: &mut [u16],
) -> Option<Goal>
    requires { RulePair first.now second.now cells.old × (length partners ≡ 4)
        × Partners partners (get_or first.now heads_cell 0) (get_or second.now heads_cell 0) }
    ensures { OverlapOf first.now second.now partners cells.new result }
{
    let m = wide(first[HEADS_CELL]);
    let n = wide(second[HEADS_CELL]);
    lay_heads(first, second, cells);
    if !join_all(cells, m, n, partners) {
        return None;
    }
    Some(finish(cells, m, n, partners))
}
