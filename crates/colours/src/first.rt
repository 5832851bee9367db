// A first digest of constraints, by cells alone: those below a limit stand for themselves, and all others are alike. It needs no
// table, so that it comes before all else.
ghost use Rattle.std.specs.Prelude.{◌≡◌, ◌*◌, length};
ghost use Rattle.tables.specs.Cells.{cell_term, cell_constraints};
ghost use Rattle.colours.specs.Colours.{clipped, digest};

use crate::colours::digest_by;

// A cell below the limit, or the limit.
pub fn clip(x: u16, limit: u16) -> u32
    ensures { result ≡ clipped limit (cell_term x) }
{
    x.min(limit) as u32
}

// One number for all constraints, in any order.
pub fn first_digest(cells: &[u16], n: usize, limit: u16) -> u32
    requires { length cells.now ≡ 5 * n }
    ensures { result ≡ digest (clipped limit) (cell_constraints cells.now) }
{
    digest_by(cells, n, |x| clip(x, limit))
}
