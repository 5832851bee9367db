// The weight of constraints by a table of symbols.
ghost use Rattle.std.specs.Prelude.{◌≡◌, List, ℕ, ◌*◌, ◌≤◌, ◌<◌, length};
ghost use Rattle.semantics.specs.Terms.{symbol_at, weight};
ghost use Rattle.tables.specs.Cells.{cell_constraints};
ghost use Rattle.tables.specs.Rows.{symbols_of};

use tables::wide;

// The weight of symbol s of a table; 0 where it has none.
fn weight_at(symbols: &[u16], s: usize) -> usize
    requires { s < 65536 }
    ensures { ((names : List ℕ) (k : ℕ) → length symbols.now ≡ 2 * k
        → result ≡ (symbol_at (symbols_of names symbols.now k) s).weight) × (result < 65536) }
{
    let at = 2 * s + 1;
    if at < symbols.len() {
        return wide(symbols[at]);
    }
    0
}

// The weight of the constraints that cells hold, five to each.
pub fn weight_of(symbols: &[u16], cells: &[u16]) -> usize
    requires { length cells.now ≤ 4096 }
    ensures { (names : List ℕ) (k : ℕ) → length symbols.now ≡ 2 * k
        → result ≡ weight (symbols_of names symbols.now k) (cell_constraints cells.now) }
{
    let mut sum = 0;
    let mut at = 0;
    // A place that goes by five: pieces of five are counted by a division, and this is compiled into the engine.
    while at + 5 <= cells.len() {
        let s = wide(cells[at]);
        sum += weight_at(symbols, s);
        at += 5;
    }
    sum
}
