// Whether two rules have a head symbol in common: others have no overlap.
ghost use Rattle.std.specs.Prelude.{◌≡◌};
ghost use Rattle.text.specs.Lists.{has};
ghost use Rattle.overlaps.specs.Cells.{RuleRow};
ghost use Rattle.overlaps.specs.Shares.{head_symbols, is_shared};

use tables::layout::{CONSTRAINT_SIZE, HEADS_CELL};
use tables::rows::heads;
use tables::wide;

// Whether a rule has a head with this symbol.
pub fn has_symbol(row: &[u16], symbol: u16) -> bool
    requires { RuleRow row.now }
    ensures { result ≡ has symbol (head_symbols row.now) }
{
    let n = wide(row[HEADS_CELL]);
    let heads = heads(row);
    // Not `contains`: the symbols stand five cells apart, and a step over cells divides.
    for h in 0..n {
        if heads[CONSTRAINT_SIZE * h] == symbol {
            return true;
        }
    }
    false
}

// Whether a head of the first rule has the symbol of a head of the second.
pub fn share_symbol(first: &[u16], second: &[u16]) -> bool
    requires { RuleRow first.now × RuleRow second.now }
    ensures { result ≡ is_shared (head_symbols first.now) (head_symbols second.now) }
{
    let m = wide(first[HEADS_CELL]);
    let heads = heads(first);
    for h in 0..m {
        if has_symbol(second, heads[CONSTRAINT_SIZE * h]) {
            return true;
        }
    }
    false
}
