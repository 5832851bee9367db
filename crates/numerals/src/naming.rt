// The name of a constant by its key: a numeral's leading zeros are dropped, and any other constant is its own name.
ghost use Rattle.std.specs.Prelude.{◌≡◌, true, List, ℕ, ◌≤◌};
ghost use Rattle.text.specs.Fields.{is_name};
ghost use Rattle.text.specs.Constants.{is_numeral};
ghost use Rattle.text.specs.Keys.{key_of};
ghost use Rattle.numerals.specs.Numerals.{ConstantIn};

use crate::Constant;

// In each byte the bit that small letters have and digits have not.
const LETTERS: u64 = 0x4040_4040_4040_4040;

// Whether the name with a key is made only of digits.
fn is_numeral(key: u64) -> bool
    ensures { (f : List ℕ) → is_name f ≡ true → key ≡ key_of f → result ≡ is_numeral f }
{
    key & LETTERS == 0
}

// The name of the numeral with a key. Its digits are looked at from the last one on: `rest` has the value of those that are left,
// `unit` is what a 1 in the place of the last one seen is worth, and of those seen `kept` has the value without the zeros that
// lead them.
fn without_zeros(key: u64) -> Constant
    ensures { ((f : List ℕ) → is_name f ≡ true → is_numeral f ≡ true → key ≡ key_of f → ConstantIn f result) × (result.zeros ≤ 7) }
{
    let mut rest = key / 256;
    let mut unit = 1;
    let mut kept = key % 256;
    let mut zeros = 0;
    while 0 < rest {
        let b = rest % 256;
        rest /= 256;
        unit *= 256;
        if b == 48 {
            zeros += 1;
        } else {
            zeros = 0;
            kept = key - rest * 256 * unit;
        }
    }
    Constant { key: kept, zeros }
}

// The name of the constant with a key.
pub fn constant(key: u64) -> Constant
    ensures { ((f : List ℕ) → is_name f ≡ true → key ≡ key_of f → ConstantIn f result) × (result.zeros ≤ 7) }
{
    if is_numeral(key) {
        return without_zeros(key);
    }
    Constant { key, zeros: 0 }
}
