// Constraints in classes: two states whose classes differ are not equal, and a partner is sought in the same class only.
ghost use Rattle.std.specs.Prelude.{◌≡◌, ◌≤◌, map, length};
ghost use Rattle.tables.specs.Cells.{cell_terms, cell_constraints};
ghost use Rattle.colours.specs.Bounds.{Below};
ghost use Rattle.colours.specs.Colours.{Ready};
ghost use Rattle.colours.specs.Keys.{plain_of, key_of};
ghost use Rattle.colours.specs.Classes.{Colourable, Classified};

use crate::keys::{colour, deep_keys, plain_keys, relabel, sum};

// Room for the colours of all cells: constants, 28 goal variables, and as many more as 512 constraints have cells.
pub const ROOM: usize = 2844;

// How keys are made: by how many rounds, and whether each constraint is marked.
#[derive(Clone, Copy)]
pub struct Depth {
    pub rounds: usize,
    pub deep: bool,
}

// The keys of all constraints, in lent tables.
pub fn fill_keys(
    cells: &[u16],
    bound: &[u16],
    depth: Depth,
    colours: &mut [u32],
    scratch: &mut [u32],
    received: &mut [u32],
    keys: &mut [u64],
)
    requires { Ready cells.now (length keys.old) colours.old received.old × Below (length colours.old) bound.now
        × (length colours.old ≤ 65536) × (length scratch.old ≡ length colours.old) }
    ensures { keys.new
        ≡ map (key_of depth.rounds depth.deep (plain_of depth.rounds (cell_terms bound.now) (cell_constraints cells.now))
        (cell_constraints cells.now)) (cell_constraints cells.now) }
{
    let n = keys.len();
    let t = depth.rounds;
    colour(t, cells, n, bound, colours, received);
    if depth.deep {
        deep_keys(t, cells, n, colours, scratch, received, keys);
        return;
    }
    plain_keys(cells, n, colours, keys);
}

// The keys of all constraints of a state whose cells lie below `size`.
pub fn make_keys(cells: &[u16], bound: &[u16], size: usize, depth: Depth, keys: &mut [u64])
    requires { Colourable cells.now bound.now size (length keys.old) }
    ensures { keys.new
        ≡ map (key_of depth.rounds depth.deep (plain_of depth.rounds (cell_terms bound.now) (cell_constraints cells.now))
        (cell_constraints cells.now)) (cell_constraints cells.now) }
{
    let mut colours = [0u32; ROOM];
    let mut scratch = [0u32; ROOM];
    let mut received = [0u32; ROOM];
    fill_keys(
        cells,
        bound,
        depth,
        &mut colours[..size],
        &mut scratch[..size],
        &mut received[..size],
        keys,
    );
}

// Whether the classes of two states are the same; then each constraint has its class for its symbol.
pub fn classify_by(
    a: &mut [u16],
    bound_a: &[u16],
    b: &mut [u16],
    bound_b: &[u16],
    size: usize,
    depth: Depth,
    own: &mut [u64],
    other: &mut [u64],
) -> bool
    requires { Colourable a.old bound_a.now size (length own.old)
        × Colourable b.old bound_b.now size (length other.old) × (length own.old ≤ 512) }
    ensures { Classified result bound_a.now a.old bound_b.now b.old
        a.new b.new }
{
    make_keys(a, bound_a, size, depth, own);
    make_keys(b, bound_b, size, depth, other);
    if sum(own) != sum(other) {
        return false;
    }
    relabel(a, own, own);
    relabel(b, other, own);
    true
}

// The same, of two states of n constraints each.
pub fn classify(
    a: &mut [u16],
    bound_a: &[u16],
    b: &mut [u16],
    bound_b: &[u16],
    n: usize,
    size: usize,
    depth: Depth,
) -> bool
    requires { Colourable a.old bound_a.now size n × Colourable b.old bound_b.now size n × (n ≤ 512) }
    ensures { Classified result bound_a.now a.old bound_b.now b.old
        a.new b.new }
{
    let mut own = [0u64; 512];
    let mut other = [0u64; 512];
    classify_by(
        a,
        bound_a,
        b,
        bound_b,
        size,
        depth,
        &mut own[..n],
        &mut other[..n],
    )
}
