// Keys of constraints, which a renaming cannot change, and classes of constraints with the same key.
ghost use Rattle.std.specs.Prelude.{◌≡◌, ◌+◌, ◌*◌, ◌<◌, ◌≤◌, true, false, map, length};
ghost use Rattle.tables.specs.Cells.{cell_terms, cell_constraints};
ghost use Rattle.colours.specs.Rows.{row_of};
ghost use Rattle.colours.specs.Bounds.{Below, TermsBelow};
ghost use Rattle.colours.specs.Colours.{Colours, Empty, Ready, Summed};
ghost use Rattle.colours.specs.Keys.{plain_of, deep_of, key_of, summed, class_of, Keyed, Relabelled};

use crate::colours::{digest_of, light, refine_times, sign, start};
use tables::names::find_key;

// The colours of a state's terms: what the goal variables became is marked before t rounds.
pub fn colour(
    t: usize,
    cells: &[u16],
    n: usize,
    bound: &[u16],
    colours: &mut [u32],
    received: &mut [u32],
)
    requires { Ready cells.now n colours.old received.old × Below (length colours.old) bound.now
        × (length colours.old ≤ 65536) }
    ensures { Colours colours.new
        (plain_of t (cell_terms bound.now) (cell_constraints cells.now)) × Empty received.new }
{
    start(colours);
    light(0, bound, colours, received);
    refine_times(t, cells, n, colours, received);
}

// One number for all constraints, t rounds after constraint i was marked.
pub fn deep(
    t: usize,
    cells: &[u16],
    n: usize,
    i: usize,
    colours: &[u32],
    scratch: &mut [u32],
    received: &mut [u32],
) -> u32
    requires { Ready cells.now n colours.now received.old × (i < n) × (length scratch.old ≡ length colours.now) }
    ensures { Summed result (λ κ. deep_of t κ (cell_constraints cells.now) (row_of cells.now i))
        colours.now × Empty received.new }
{
    scratch.copy_from_slice(colours);
    let row = &cells[5 * i..5 * i + 5];
    light(row[0], &row[1..], scratch, received);
    refine_times(t, cells, n, scratch, received);
    digest_of(cells, n, scratch)
}

// A number with a symbol in it.
pub fn code(s: u32, symbol: u16) -> u64
    ensures { result ≡ s * 65536 + symbol }
{
    s as u64 * 65536 + symbol as u64
}

// The keys of all constraints, by their signatures.
pub fn plain_keys(cells: &[u16], n: usize, colours: &[u32], keys: &mut [u64])
    requires { (length cells.now ≡ 5 * n) × TermsBelow (length colours.now) cells.now × (length keys.old ≡ n) }
    ensures { Keyed 0 false (cell_constraints cells.now) colours.now keys.new }
{
    for i in 0..n {
        let row = &cells[5 * i..5 * i + 5];
        let s = sign(row[0] as u32, &row[1..], colours);
        keys[i] = code(s, row[0]);
    }
}

// The keys of all constraints, each where it is marked.
pub fn deep_keys(
    t: usize,
    cells: &[u16],
    n: usize,
    colours: &[u32],
    scratch: &mut [u32],
    received: &mut [u32],
    keys: &mut [u64],
)
    requires { Ready cells.now n colours.now received.old × (length scratch.old ≡ length colours.now)
        × (length keys.old ≡ n) }
    ensures { Keyed t true (cell_constraints cells.now) colours.now keys.new }
{
    for i in 0..n {
        let s = deep(t, cells, n, i, colours, scratch, received);
        keys[i] = code(s, cells[5 * i]);
    }
}

// The sum of keys, in any order.
pub fn sum(keys: &[u64]) -> u64
    ensures { result ≡ summed keys.now 0 }
{
    let mut total: u64 = 0;
    for key in keys {
        total = total.wrapping_add(*key);
    }
    total
}

// Puts the classes of constraints instead of their symbols: each by its own key, among the keys of one side.
pub fn relabel(cells: &mut [u16], own: &[u64], keys: &[u64])
    requires { (length cells.old ≡ 5 * length own.now) × (length keys.now ≤ 512) }
    ensures { Relabelled own.now keys.now cells.old cells.new }
{
    for (i, key) in own.iter().enumerate() {
        let k = find_key(keys, *key);
        cells[5 * i] = k as u16;
    }
}
