// Weights of terms in lent tables, by cells: a renaming cannot change them.
ghost use Rattle.std.specs.Prelude.{◌≡◌, ◌*◌, length};
ghost use Rattle.colours.specs.Bounds.{Below, TermsBelow};
ghost use Rattle.colours.specs.Colours.{Empty};
ghost use Rattle.fixing.specs.Weights.{tripled, RowWeighed, Weighed, Lightened, Free};

use tables::wide;

// Three times a number, in 16 bits.
pub fn triple(f: u16) -> u16
    ensures { result ≡ tripled f }
{
    f.wrapping_add(f).wrapping_add(f)
}

// Adds to the weight of each term, by its column.
pub fn weigh(terms: &[u16], weights: &mut [u16])
    requires { Below (length weights.old) terms.now }
    ensures { RowWeighed terms.now weights.old weights.new }
{
    let mut f = 1;
    for x in terms {
        if *x == 0 {
            return;
        }
        let p = wide(*x);
        weights[p] = weights[p].wrapping_add(f);
        f = triple(f);
    }
}

// The same for all constraints.
pub fn weigh_all(cells: &[u16], n: usize, weights: &mut [u16])
    requires { (length cells.now ≡ 5 * n) × TermsBelow (length weights.old) cells.now }
    ensures { Weighed cells.now weights.old weights.new }
{
    for i in 0..n {
        let p = 5 * i;
        let row = &cells[p..p + 5];
        weigh(&row[1..], weights);
    }
}

// Chosen cells weigh nothing from now on.
pub fn lighten(chosen: &[u16], weights: &mut [u16])
    requires { Below (length weights.old) chosen.now }
    ensures { Lightened chosen.now weights.old weights.new }
{
    for x in chosen {
        weights[wide(*x)] = 0;
    }
}

// The weights of all cells but those already paired, in a table of zeros.
pub fn free_weights(cells: &[u16], n: usize, paired: &[u16], weights: &mut [u16])
    requires { (length cells.now ≡ 5 * n) × TermsBelow (length weights.old) cells.now
        × Below (length weights.old) paired.now × Empty weights.old }
    ensures { Free paired.now cells.now weights.new }
{
    weigh_all(cells, n, weights);
    lighten(paired, weights);
}
