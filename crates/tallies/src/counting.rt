// The tally by symbol: how many constraints there are of each. Those that enter or are appended raise it, those that are removed
// lower it, and a rule is passed over exactly when its heads of some symbol outnumber it.
ghost use Rattle.std.specs.Prelude.{[], ◌≡◌, ◌-◌, ◌*◌, length};
ghost use Rattle.semantics.specs.Terms.{removed_heads};
ghost use Rattle.semantics.specs.Tally.{tally_of, is_short};
ghost use Rattle.tables.specs.Layout.{constraint_size};
ghost use Rattle.tables.specs.Cells.{cell_constraints};
ghost use Rattle.tables.specs.Rows.{rule_of_row};
ghost use Rattle.tallies.specs.Symbols.{tallied, Raisable, Raised, Lowered, Exchangeable, Exchanged};

use tables::layout::{BODY_CELL, CONSTRAINT_SIZE, HEADS_CELL, KEPT_CELL};
use tables::rows::{body, removed_heads};
use tables::wide;

// How many constraints of a symbol there are, by the tally; none behind the table's end.
pub fn tally_at(tally: &[u16], symbol: u16) -> usize
    ensures { result ≡ tallied tally.now symbol }
{
    let s = wide(symbol);
    if s < tally.len() { wide(tally[s]) } else { 0 }
}

// How many of n constraints have the symbol.
pub fn count_symbol(symbol: u16, cells: &[u16], n: usize) -> usize
    requires { length cells.now ≡ constraint_size * n }
    ensures { result ≡ tally_of (cell_constraints cells.now) symbol }
{
    let mut k = 0;
    for i in 0..n {
        if cells[CONSTRAINT_SIZE * i] == symbol {
            k += 1;
        }
    }
    k
}

// Whether a rule with these n heads is passed over: for one of them there are, with the earlier heads of its symbol, more than the
// tally has. Where the tally has none, or more than there are earlier heads, these need not be counted.
pub fn is_short(heads: &[u16], n: usize, tally: &[u16]) -> bool
    requires { length heads.now ≡ constraint_size * n }
    ensures { result ≡ is_short (tallied tally.now) (cell_constraints heads.now) }
{
    for i in 0..n {
        let e = CONSTRAINT_SIZE * i;
        let symbol = heads[e];
        let there = tally_at(tally, symbol);
        if there == 0 {
            return true;
        }
        if there <= i {
            let wanted = 1 + count_symbol(symbol, &heads[..e], i);
            if there < wanted {
                return true;
            }
        }
    }
    false
}

// One less, or 0.
pub fn one_less(x: u16) -> u16
    ensures { result ≡ x - 1 }
{
    x.saturating_sub(1)
}

// Raises the tally by n constraints, which enter or are appended.
pub fn raise(cells: &[u16], n: usize, tally: &mut [u16])
    requires { Raisable cells.now n tally.old }
    ensures { Raised (cell_constraints cells.now) tally.old tally.new }
{
    for i in 0..n {
        let s = wide(cells[CONSTRAINT_SIZE * i]);
        tally[s] += 1;
    }
}

// Lowers the tally by n constraints, which are removed; of a symbol that it does not have there are none.
pub fn lower(cells: &[u16], n: usize, tally: &mut [u16])
    requires { length cells.now ≡ constraint_size * n }
    ensures { Lowered (cell_constraints cells.now) tally.old tally.new }
{
    for i in 0..n {
        let s = wide(cells[CONSTRAINT_SIZE * i]);
        if s < tally.len() {
            tally[s] = one_less(tally[s]);
        }
    }
}

// Lowers the tally by the heads that a rule removes; those that it keeps stay.
pub fn lower_heads(row: &[u16], tally: &mut [u16])
    requires { Exchangeable row.now tally.old }
    ensures { Lowered (removed_heads (rule_of_row [] row.now)) tally.old tally.new }
{
    let kept = wide(row[KEPT_CELL]);
    let heads = wide(row[HEADS_CELL]);
    lower(removed_heads(row), heads - kept, tally);
}

// The tally after a rule has fired: less the heads that it removes, and more by its body. Equations change no symbol.
pub fn exchange(row: &[u16], tally: &mut [u16])
    requires { Exchangeable row.now tally.old }
    ensures { Exchanged row.now tally.old tally.new }
{
    lower_heads(row, tally);
    raise(body(row), wide(row[BODY_CELL]), tally);
}
