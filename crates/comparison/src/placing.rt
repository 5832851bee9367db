// Placing a constraint of the first state and trying its partners in the second call one another, until all are placed or no
// partner is left.
ghost use Rattle.std.specs.Prelude.{◌<◌, ◌≤◌, length};
ghost use Rattle.comparison.specs.Placements.{Placing, PairedAt, Tried, attempted, placed};

use pairing::{pair_rows, unpair};

// Places the first of the constraints that are left at position j, if that is free and the terms can be made equal: in which columns
// partners were made. Where it cannot be placed, nothing is changed.
pub fn pair_at(
    a: &[u16],
    b: &[u16],
    j: usize,
    used: &mut [bool],
    forth: &mut [u16],
    back: &mut [u16],
) -> Option<[bool; 4]>
    requires { Placing a.now b.now used.old forth.old back.old × (j < length used.old) × (5 ≤ length a.now) }
    ensures { PairedAt result a.now b.now j used.old forth.old
        back.old used.new forth.new back.new }
{
    if used[j] {
        return None;
    }
    let p = 5 * j;
    let e = p + 5;
    if a[0] != b[p] {
        return None;
    }
    let row = &a[..5];
    let other = &b[p..e];
    match pair_rows(row, other, forth, back) {
        Ok(fresh) => {
            used[j] = true;
            Some(fresh)
        }
        Err(fresh) => {
            unpair(row, other, fresh, forth, back);
            None
        }
    }
}

// Whether the first of the constraints that are left can be the one at position j, the others being placed behind it.
#[cycle(attempt_place)]
pub fn attempt(
    a: &[u16],
    b: &[u16],
    j: usize,
    used: &mut [bool],
    forth: &mut [u16],
    back: &mut [u16],
) -> bool
    requires { Placing a.now b.now used.old forth.old back.old × (j < length used.old) × (5 ≤ length a.now) }
    ensures { Tried result (attempted a.now b.now j) used.old forth.old
        back.old used.new forth.new back.new }
{
    let Some(fresh) = pair_at(a, b, j, used, forth, back) else {
        return false;
    };
    if place(&a[5..], b, used, forth, back) {
        return true;
    }
    used[j] = false;
    let p = 5 * j;
    let e = p + 5;
    unpair(&a[..5], &b[p..e], fresh, forth, back);
    false
}

// Whether the constraints that are left can all be placed: the first with a partner that is not used yet, then the others.
#[cycle(attempt_place)]
pub fn place(a: &[u16], b: &[u16], used: &mut [bool], forth: &mut [u16], back: &mut [u16]) -> bool
    requires { Placing a.now b.now used.old forth.old back.old }
    ensures { Tried result (placed a.now b.now) used.old forth.old
        back.old used.new forth.new back.new }
{
    if a.len() < 5 {
        return true;
    }
    for j in 0..used.len() {
        if attempt(a, b, j, used, forth, back) {
            return true;
        }
    }
    false
}
