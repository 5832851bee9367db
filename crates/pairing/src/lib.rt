// Two terms, two constraints, or what the goal variables of two states became, made equal by a renaming.
// The renaming is kept in two lent tables: `forth` has the partner of a cell of the first state, `back` that of the second;
// 0 is none.
#![tactic(auto)]

ghost use Rattle.std.specs.Prelude.{map, ◌≡◌, ◌<◌, length, drop};
ghost use Rattle.semantics.specs.Variants.{pair_term, pair_terms};
ghost use Rattle.tables.specs.Cells.{cell_term, cell_terms};
ghost use Rattle.pairing.specs.Renamings.{Linked, RowsLinked, Rows, Joined, cleared};
ghost use Rattle.colours.specs.Bounds.{Below};

use tables::layout::FIRST_VARIABLE;
use tables::wide;

// Two terms: constants must be the same, and variables each other's partners, which they become where neither has one. None where
// they cannot be made equal; else whether they became partners.
pub fn pair(x: u16, y: u16, forth: &mut [u16], back: &mut [u16]) -> Option<bool>
    requires { (x < length forth.old) × (y < length back.old) }
    ensures { Linked x y result forth.old back.old forth.new back.new }
{
    if x < FIRST_VARIABLE {
        return if x == y { Some(false) } else { None };
    }
    if y < FIRST_VARIABLE {
        return None;
    }
    let i = wide(x);
    let j = wide(y);
    if forth[i] == y {
        return Some(false);
    }
    if forth[i] != 0 || back[j] != 0 {
        return None;
    }
    forth[i] = y;
    back[j] = x;
    Some(true)
}

// The terms of two constraints, column by column; a 0 stands behind the last. The columns in which partners were made, as an error
// where the terms cannot be made equal.
pub fn pair_rows(
    a: &[u16],
    b: &[u16],
    forth: &mut [u16],
    back: &mut [u16],
) -> Result<[bool; 4], [bool; 4]>
    requires { Rows a.now b.now forth.old back.old }
    ensures { RowsLinked a.now b.now result forth.old back.old forth.new back.new }
{
    let mut fresh = [false; 4];
    for i in 0..4 {
        let x = a[i + 1];
        let y = b[i + 1];
        if x == 0 {
            return if y == 0 { Ok(fresh) } else { Err(fresh) };
        }
        if y == 0 {
            return Err(fresh);
        }
        let Some(made) = pair(x, y, forth, back) else {
            return Err(fresh);
        };
        fresh[i] = made;
    }
    Ok(fresh)
}

// Removes the partners that were made in the columns of two constraints.
pub fn unpair(a: &[u16], b: &[u16], fresh: [bool; 4], forth: &mut [u16], back: &mut [u16])
    requires { Rows a.now b.now forth.old back.old × (length fresh ≡ 4) }
    ensures { (forth.new ≡ cleared fresh (drop 1 a.now) forth.old)
        × (back.new ≡ cleared fresh (drop 1 b.now) back.old) }
{
    for i in (0..4).rev() {
        if fresh[i] {
            forth[wide(a[i + 1])] = 0;
            back[wide(b[i + 1])] = 0;
        }
    }
}

// What the goal variables of two states became.
pub fn pair_bound(a: &[u16], b: &[u16], forth: &mut [u16], back: &mut [u16]) -> bool
    requires { Below (length forth.old) a.now × Below (length back.old) b.now × (length a.now ≡ length b.now) }
    ensures { Joined result (pair_terms (map cell_term a.now) (map cell_term b.now))
        forth.old back.old forth.new back.new }
{
    for i in 0..a.len() {
        if pair(a[i], b[i], forth, back).is_none() {
            return false;
        }
    }
    true
}
