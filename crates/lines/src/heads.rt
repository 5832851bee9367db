// The form and the symbol of a J, H, B or G line: numbers 4 and 6.
ghost use Rattle.std.specs.Prelude.{◌≡◌, false, List, ℕ, ◌*◌, ◌≤◌, length, drop};
ghost use Rattle.text.specs.Lists.{every};
ghost use Rattle.text.specs.Fields.{is_term};
ghost use Rattle.text.specs.Splits.{Holds};
ghost use Rattle.syntax.specs.Forms.{is_constraint_faulty};
ghost use Rattle.tables.specs.Rows.{symbols_of};
ghost use Rattle.lines.specs.Read.{constraint_head, head_answer, head_fits};

use faults::Fault;
use tables::layout::SYMBOL_SIZE;
use tables::names::find_key;
use tables::wide;
use text::fields::Fields;

// Whether all fields from one on are terms.
pub fn are_terms(f: Fields, from: usize) -> bool
    requires { f.count ≤ 8 }
    ensures { (fs : List (List ℕ)) → Holds fs f → result ≡ every is_term (drop from fs) }
{
    let keys = f.keys;
    let count = f.count;
    for i in from..count {
        if keys[i] < 2 {
            return false;
        }
    }
    true
}

// Number 4 of a J, H, B or G line: not two to six fields, a name, terms.
fn is_faulty(f: Fields) -> bool
    ensures { ((fs : List (List ℕ)) → Holds fs f → result ≡ is_constraint_faulty fs)
        × (result ≡ false → (2 ≤ f.count) × (f.count ≤ 6)) }
{
    let keys = f.keys;
    let count = f.count;
    if count < 2 || 6 < count || keys[1] < 28 {
        return true;
    }
    !are_terms(f, 2)
}

// Numbers 4 and 6 of a J, H, B or G line: its symbol among those of which the names' keys and the table are lent.
pub fn constraint_head(f: Fields, names: &[u64], symbols: &[u16]) -> Result<usize, Fault>
    requires { length symbols.now ≤ 2 * length names.now }
    ensures { ((fs : List (List ℕ)) (n k : ℕ) → Holds fs f → length symbols.now ≡ 2 * k
        → head_answer n result ≡ constraint_head (symbols_of names.now symbols.now k) n fs)
        × head_fits f (length symbols.now) result }
{
    if is_faulty(f) {
        return Err(Fault::FieldsFaulty);
    }
    let keys = f.keys;
    let s = find_key(names, keys[1]);
    let at = SYMBOL_SIZE * s;
    if symbols.len() <= at {
        return Err(Fault::SymbolUndeclared);
    }
    let arity = wide(symbols[at]);
    if arity + 2 != f.count {
        return Err(Fault::SymbolUndeclared);
    }
    Ok(s)
}
