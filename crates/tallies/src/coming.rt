// When a constraint of each symbol last came, as a number that grows with the derivation.
ghost use Rattle.std.specs.Prelude.{◌≡◌, ◌≤◌, get_or};
ghost use Rattle.tables.specs.Cells.{cell_constraints};
ghost use Rattle.tallies.specs.Symbols.{is_concerned, Marked, Raisable, Raised};

use tables::layout::CONSTRAINT_SIZE;
use tables::wide;

// When a firing last brought a constraint of the symbol; behind the table's end, just now.
pub fn last_at(last: &[u16], symbol: u16, whole: usize) -> usize
    ensures { result ≡ get_or last.now symbol whole }
{
    let s = wide(symbol);
    if s < last.len() { wide(last[s]) } else { whole }
}

// Whether a firing since v brought a constraint with the symbol of a head.
pub fn is_concerned(heads: &[u16], last: &[u16], v: usize, whole: usize) -> bool
    ensures { result ≡ is_concerned last.now whole v (cell_constraints heads.now) }
{
    // A cursor that goes by five: no count is at hand, and of `5 * i + 5 <= len` a compiler makes a division.
    let mut at = 0;
    while at + CONSTRAINT_SIZE <= heads.len() {
        if v < last_at(last, heads[at], whole) {
            return true;
        }
        at += CONSTRAINT_SIZE;
    }
    false
}

// Marks the symbols of a body of n constraints as brought by the last firing, as far as the table goes, and raises the tally by them.
pub fn mark(body: &[u16], n: usize, last: &mut [u16], whole: usize, tally: &mut [u16])
    requires { Raisable body.now n tally.old × (whole ≤ 65000) }
    ensures { Marked last.old (cell_constraints body.now) whole last.new
        × Raised (cell_constraints body.now) tally.old tally.new }
{
    for i in 0..n {
        let symbol = wide(body[CONSTRAINT_SIZE * i]);
        tally[symbol] += 1;
        if symbol < last.len() {
            last[symbol] = whole as u16;
        }
    }
}
