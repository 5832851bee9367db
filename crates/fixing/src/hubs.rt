// Variables that every renaming must pair: each has a weight that no other variable of its state has.
ghost use Rattle.std.specs.Prelude.{◌≡◌, ◌≤◌, length, take, IfSome};
ghost use Rattle.colours.specs.Classes.{Colourable};
ghost use Rattle.colours.specs.Colours.{Empty};
ghost use Rattle.fixing.specs.Hubs.{Topped, Paired, Fixable, Fixed, Forced, Lengthened};

use crate::weights::free_weights;
use tables::layout::FIRST_VARIABLE;
use tables::wide;

// Room for the weights of all cells: constants, 28 goal variables, and as many more as 512 constraints have cells.
const ROOM: usize = 2844;

// A variable's cell and its weight.
#[derive(Clone, Copy)]
pub struct Top {
    pub cell: u16,
    pub weight: u16,
}

// The heaviest variable in a table of weights, if no other weighs as much.
pub fn find_top(weights: &[u16]) -> Option<Top>
    requires { length weights.now ≤ 65536 }
    ensures { IfSome result (λ top. Topped top.cell top.weight weights.now) }
{
    let mut top = None;
    let mut best = 0;
    for i in wide(FIRST_VARIABLE)..weights.len() {
        let w = weights[i];
        if w > best {
            best = w;
            top = Some(Top {
                cell: i as u16,
                weight: w,
            });
        } else if w == best {
            top = None;
        }
    }
    top
}

// The heaviest variables of two states, if every renaming must pair them: both are single and weigh the same.
pub fn find_tops(left: &[u16], right: &[u16]) -> Option<(u16, u16)>
    requires { (length left.now ≤ 65536) × (length right.now ≤ 65536) }
    ensures { IfSome result (λ tops. Paired tops.0 tops.1 left.now right.now) }
{
    let x = find_top(left)?;
    let y = find_top(right)?;
    if x.weight == y.weight {
        Some((x.cell, y.cell))
    } else {
        None
    }
}

// Adds the heaviest variables to two lists of cells, k of which are used, as long as every renaming must pair them; answers how
// many are used then. The weights are those of cells not in the lists.
pub fn fix(f: &mut [u16], g: &mut [u16], k: usize, left: &mut [u16], right: &mut [u16]) -> usize
    requires { Fixable k f.old g.old left.old right.old }
    ensures { Fixed k result f.old g.old f.new g.new left.old
        right.old }
{
    for used in k..f.len() {
        let Some((x, y)) = find_tops(left, right) else {
            return used;
        };
        f[used] = x;
        g[used] = y;
        left[wide(x)] = 0;
        right[wide(y)] = 0;
    }
    f.len()
}

// The same for two states of n constraints each, a with the first k cells of f and b with those of g, in two lent tables of zeros
// for their weights.
pub fn fix_by(
    a: &[u16],
    b: &[u16],
    n: usize,
    f: &mut [u16],
    g: &mut [u16],
    k: usize,
    left: &mut [u16],
    right: &mut [u16],
) -> usize
    requires { Colourable a.now (take k f.old) (length left.old) n
        × Colourable b.now (take k g.old) (length right.old) n
        × Empty left.old × Empty right.old × (k ≤ length f.old) × (length g.old ≡ length f.old) }
    ensures { Forced k result (length left.old) (length right.old) a.now b.now
        f.old g.old f.new g.new }
{
    free_weights(a, n, &f[..k], left);
    free_weights(b, n, &g[..k], right);
    fix(f, g, k, left, right)
}

// The same for two states whose terms lie below `size`.
pub fn fix_hubs(
    a: &[u16],
    b: &[u16],
    n: usize,
    size: usize,
    f: &mut [u16],
    g: &mut [u16],
    k: usize,
) -> usize
    requires { Colourable a.now (take k f.old) size n × Colourable b.now (take k g.old) size n
        × (k ≤ length f.old) × (length g.old ≡ length f.old) }
    ensures { Forced k result size size a.now b.now f.old g.old f.new
        g.new }
{
    let mut left = [0u16; ROOM];
    let mut right = [0u16; ROOM];
    fix_by(a, b, n, f, g, k, &mut left[..size], &mut right[..size])
}

// What the goal variables became in two states, and the variables that every renaming must pair beside them, in two lists as far
// as these have room; answers how many are used.
pub fn fix_bound(
    a: &[u16],
    bound_a: &[u16],
    b: &[u16],
    bound_b: &[u16],
    n: usize,
    size: usize,
    f: &mut [u16],
    g: &mut [u16],
) -> usize
    requires { Colourable a.now bound_a.now size n × Colourable b.now bound_b.now size n
        × (length bound_b.now ≡ length bound_a.now) × (length bound_a.now ≤ length f.old)
        × (length g.old ≡ length f.old) }
    ensures { Lengthened result size n a.now bound_a.now b.now bound_b.now
        f.new g.new }
{
    let k = bound_a.len();
    f[..k].copy_from_slice(bound_a);
    g[..k].copy_from_slice(bound_b);
    fix_hubs(a, b, n, size, f, g, k)
}
