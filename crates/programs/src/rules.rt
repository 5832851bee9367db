// The rules of a program, once its lines are read: numbers 8 and 9.
ghost use Rattle.std.specs.Prelude.{◌≡◌, ◌≤◌, length};
ghost use Rattle.programs.specs.Read.{RowFits, RowsFit, FaultIn, RulesIn};

use faults::{Fault, FaultAt};
use lines::weights::weight_of;
use tables::layout::{
    BODY_CELL, FIRST_BODY, FIRST_HEAD, HEADS_CELL, KEPT_CELL, LINE_CELL, ROW_SIZE,
};
use tables::wide;

// Numbers 8 and 9 of a rule's row: it removes a head, and the heads that it removes weigh more than its body.
fn check_rule(symbols: &[u16], row: &[u16]) -> Result<(), Fault>
    requires { (length row.now ≡ 64) × RowFits row.now }
    ensures { FaultIn symbols.now row.now result }
{
    let k = wide(row[KEPT_CELL]);
    let h = wide(row[HEADS_CELL]);
    let b = wide(row[BODY_CELL]);
    if h <= k {
        return Err(Fault::NothingRemoved);
    }
    let first = FIRST_HEAD + 5 * k;
    let stop = FIRST_HEAD + 5 * h;
    let end = FIRST_BODY + 5 * b;
    let heads = weight_of(symbols, &row[first..stop]);
    let body = weight_of(symbols, &row[FIRST_BODY..end]);
    if heads <= body {
        return Err(Fault::WeightKept);
    }
    Ok(())
}

// The rules in order: numbers 8 and 9. Both tables are lent as far as they are used.
pub fn check_rules(symbols: &[u16], rules: &[u16]) -> Result<(), FaultAt>
    requires { (length rules.now ≤ 2048) × RowsFit rules.now }
    ensures { RulesIn symbols.now rules.now result }
{
    for row in rules.chunks_exact(ROW_SIZE) {
        check_rule(symbols, row).map_err(|fault| fault.at(row[LINE_CELL]))?;
    }
    Ok(())
}
