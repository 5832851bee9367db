// K and R lines: numbers 4, 5 and 7, and a symbol or a rule behind the others.
ghost use Rattle.std.specs.Prelude.{◌≡◌, List, ℕ, ◌≤◌, length};
ghost use Rattle.text.specs.Splits.{Holds};
ghost use Rattle.syntax.specs.Forms.{is_symbol_faulty, is_rule_faulty};
ghost use Rattle.lines.specs.Read.{Lent};
ghost use Rattle.programs.specs.Read.{Sound, SymbolIn, RuleIn};

use crate::Stage;
use faults::Fault;
use lines::rows::write_cells;
use tables::layout::{FIRST_RULE, ROW_SIZE, SYMBOL_SIZE};
use tables::names::find_key;
use text::fields::{Fields, number_of};

// Number 4 of a K line: not four fields, a name, 0 to 4 terms and a weight from 1 to 31.
fn is_symbol_faulty(f: Fields) -> bool
    ensures { (fs : List (List ℕ)) → Holds fs f → result ≡ is_symbol_faulty fs }
{
    let keys = f.keys;
    if f.count != 4 || keys[1] < 28 || 4 < number_of(keys[2]) {
        return true;
    }
    let weight = number_of(keys[3]);
    weight < 1 || 31 < weight
}

// A K line: the symbol behind the others.
pub fn symbol_line(
    f: Fields,
    stage: Stage,
    names: &mut [u64],
    places: &mut [u16],
    symbols: &mut [u16],
) -> Result<Stage, Fault>
    requires { Lent f 0 names.old places.old × (length symbols.old ≡ 128) × (stage.symbols ≤ 32) }
    ensures { SymbolIn f stage names.old places.old symbols.old names.new
        places.new symbols.new result }
{
    if is_symbol_faulty(f) {
        return Err(Fault::FieldsFaulty);
    }
    let keys = f.keys;
    let starts = f.starts;
    let n = stage.symbols;
    if find_key(&names[..n], keys[1]) < n {
        return Err(Fault::NameRepeated);
    }
    if 32 <= n {
        return Err(Fault::LimitPassed);
    }
    let values = [number_of(keys[2]), number_of(keys[3])];
    write_cells(symbols, SYMBOL_SIZE * n, &values);
    names[n] = keys[1];
    places[n] = starts[1] as u16;
    Ok(Stage {
        symbols: n + 1,
        ..stage
    })
}

// Number 4 of an R line: not two fields, a name.
fn is_rule_faulty(f: Fields) -> bool
    ensures { (fs : List (List ℕ)) → Holds fs f → result ≡ is_rule_faulty fs }
{
    let keys = f.keys;
    f.count != 2 || keys[1] < 28
}

// An R line: the rule behind the others, with nothing in it yet.
pub fn rule_line(
    f: Fields,
    number: u16,
    stage: Stage,
    names: &mut [u64],
    places: &mut [u16],
    rules: &mut [u16],
) -> Result<Stage, Fault>
    requires { Lent f 0 names.old places.old × (length rules.old ≡ 2048) × Sound rules.old stage }
    ensures { RuleIn f number stage names.old places.old rules.old names.new
        places.new rules.new result }
{
    if is_rule_faulty(f) {
        return Err(Fault::FieldsFaulty);
    }
    let keys = f.keys;
    let starts = f.starts;
    let n = stage.rules;
    let at = FIRST_RULE + n;
    if find_key(&names[FIRST_RULE..at], keys[1]) < n {
        return Err(Fault::NameRepeated);
    }
    if 32 <= n {
        return Err(Fault::LimitPassed);
    }
    let values = [0, 0, number, 0, 0, 0];
    write_cells(rules, ROW_SIZE * n, &values);
    names[at] = keys[1];
    places[at] = starts[1] as u16;
    Ok(Stage {
        rules: n + 1,
        ..stage
    })
}
