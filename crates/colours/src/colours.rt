// Colours of terms, which a renaming cannot change: numbers in a lent table, made finer by what each term receives from the
// constraints that it stands in.
ghost use Rattle.std.specs.Prelude.{◌≡◌, ℕ, ◌+◌, ◌*◌, ◌<◌, ◌≤◌, [], ◌∷◌, length, slice_index};
ghost use Rattle.tables.specs.Cells.{cell_term, cell_terms, cell_constraints};
ghost use Rattle.colours.specs.Bounds.{Below, TermsBelow};
ghost use Rattle.colours.specs.Colours.{carry, mixed, SignedBy, Signed, DigestBy, Spread, Given, Absorbed, Recoloured, Summed};
ghost use Rattle.colours.specs.Colours.{with_terms, refined, rounds, digest, base, Colours, Empty, Ready};

use tables::layout::FIRST_VARIABLE;
use tables::wide;

// What is added to a number by its highest bit: sums and products alone would never tell lower bits of upper ones.
pub fn carried(t: u32) -> u32
    ensures { result ≡ carry t }
{
    if t < 2147483648 { 0 } else { 2246822507 }
}

// One number of two, in 32 bits. It is not linear, so that sums of such numbers tell lists apart.
pub fn mix(s: u32, c: u32) -> u32
    ensures { result ≡ mixed s c }
{
    let t = ((s as u64 + c as u64 * 4097) % 4294967296) as u32;
    let q = (t as u64 * t as u64 % 4294967296) as u32;
    ((t as u64 + 2 * q as u64 + carried(t) as u64) % 4294967296) as u32
}

// The colours of terms in their order, from a number on, mixed into one; `colour` gives a cell its colour.
pub fn sign_by<F: Fn(u16) -> u32>(start: u32, terms: &[u16], colour: F) -> u32
    requires { (i : ℕ) → F.pre colour (slice_index terms.now i) }
    ensures { SignedBy (F.post colour) result start terms.now }
{
    let mut s = start;
    for x in terms {
        if *x == 0 {
            return s;
        }
        s = mix(s, colour(*x));
    }
    s
}

// The same by a table of colours.
pub fn sign(start: u32, terms: &[u16], colours: &[u32]) -> u32
    requires { Below (length colours.now) terms.now }
    ensures { Signed result start (cell_terms terms.now) colours.now }
{
    sign_by(start, terms, |x| colours[wide(x)])
}

// Gives each term a number that goes by its column, from a number on.
pub fn spread(start: u32, terms: &[u16], received: &mut [u32])
    requires { Below (length received.old) terms.now }
    ensures { Spread start (cell_terms terms.now) received.old received.new }
{
    let mut s = start;
    for x in terms {
        if *x == 0 {
            return;
        }
        let p = wide(*x);
        s = mix(s, 1);
        received[p] = received[p].wrapping_add(s);
    }
}

// Gives the terms of a constraint what goes by its signature and their columns.
pub fn give(symbol: u16, terms: &[u16], colours: &[u32], received: &mut [u32])
    requires { Below (length colours.now) terms.now × (length received.old ≡ length colours.now) }
    ensures { Given (with_terms symbol terms.now ∷ []) colours.now received.old
        received.new }
{
    let s = sign(symbol as u32, terms, colours);
    spread(s, terms, received);
}

// The same for all constraints.
pub fn give_all(cells: &[u16], n: usize, colours: &[u32], received: &mut [u32])
    requires { (length cells.now ≡ 5 * n) × TermsBelow (length colours.now) cells.now
        × (length received.old ≡ length colours.now) }
    ensures { Given (cell_constraints cells.now) colours.now received.old
        received.new }
{
    for i in 0..n {
        let row = &cells[5 * i..5 * i + 5];
        give(row[0], &row[1..], colours, received);
    }
}

// Each colour mixed with what its term received, which is then set to zero.
pub fn absorb(colours: &mut [u32], received: &mut [u32])
    requires { length received.old ≡ length colours.old }
    ensures { Absorbed colours.old received.old colours.new received.new }
{
    for x in 0..colours.len() {
        colours[x] = mix(colours[x], received[x]);
        received[x] = 0;
    }
}

// One round: all terms receive from all constraints, and their colours are made finer by it.
pub fn refine(cells: &[u16], n: usize, colours: &mut [u32], received: &mut [u32])
    requires { Ready cells.now n colours.old received.old }
    ensures { Recoloured (λ κ. refined κ (cell_constraints cells.now)) colours.old colours.new
        × Empty received.new }
{
    give_all(cells, n, colours, received);
    absorb(colours, received);
}

// Marks the terms of one constraint, each by its column.
pub fn light(symbol: u16, terms: &[u16], colours: &mut [u32], received: &mut [u32])
    requires { Below (length colours.old) terms.now × (length received.old ≡ length colours.old) × Empty
        received.old }
    ensures { Recoloured (λ κ. refined κ (with_terms symbol terms.now ∷ [])) colours.old
        colours.new × Empty received.new }
{
    give(symbol, terms, colours, received);
    absorb(colours, received);
}

// Several rounds.
pub fn refine_times(k: usize, cells: &[u16], n: usize, colours: &mut [u32], received: &mut [u32])
    requires { Ready cells.now n colours.old received.old }
    ensures { Recoloured (rounds k (cell_constraints cells.now)) colours.old colours.new
        × Empty received.new }
{
    for _ in 0..k {
        refine(cells, n, colours, received);
    }
}

// The colour of a cell at the start.
pub fn start_colour(x: usize) -> u32
    requires { x < 65536 }
    ensures { result ≡ base (cell_term x) }
{
    x.min(wide(FIRST_VARIABLE)) as u32
}

// The colours at the start.
pub fn start(colours: &mut [u32])
    requires { length colours.old ≤ 65536 }
    ensures { Colours colours.new base }
{
    for x in 0..colours.len() {
        colours[x] = start_colour(x);
    }
}

// One number for all constraints, in any order; `colour` gives a cell its colour.
pub fn digest_by<F: Fn(u16) -> u32>(cells: &[u16], n: usize, colour: F) -> u32
    requires { (length cells.now ≡ 5 * n)
        × ((i j : ℕ) → j < 4 → F.pre colour (slice_index cells.now (5 * i + (1 + j)))) }
    ensures { DigestBy (F.post colour) result cells.now }
{
    let mut sum: u32 = 0;
    for i in 0..n {
        let row = &cells[5 * i..5 * i + 5];
        let s = sign_by(row[0] as u32, &row[1..], &colour);
        sum = sum.wrapping_add(mix(s, 2));
    }
    sum
}

// The same by a table of colours.
pub fn digest_of(cells: &[u16], n: usize, colours: &[u32]) -> u32
    requires { (length cells.now ≡ 5 * n) × TermsBelow (length colours.now) cells.now }
    ensures { Summed result (λ κ. digest κ (cell_constraints cells.now)) colours.now }
{
    digest_by(cells, n, |x| colours[wide(x)])
}
