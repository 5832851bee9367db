// The search for positions head by head, and the choice of a rule.
ghost use Rattle.std.specs.Prelude.{cond, [], ◌≡◌, ◌≤◌, ◌+◌, ◌*◌, ◌-◌, eqb, ltb, length, take, drop, get_or};
ghost use Rattle.text.specs.Lists.{has};
ghost use Rattle.semantics.specs.Matching.{unassigned};
ghost use Rattle.semantics.specs.Strategy.{find};
ghost use Rattle.tables.specs.Layout.{constraint_size, heads_cell};
ghost use Rattle.tables.specs.Cells.{cell_constraints};
ghost use Rattle.tables.specs.Rows.{rule_of_row};
ghost use Rattle.fitting.specs.Cells.{assigned, FirstWanted};
ghost use Rattle.fitting.specs.Positions.{Seeking, Located, Row, Table, Chosen};
ghost use Rattle.tallies.specs.Symbols.{Tallied};
ghost use Rattle.fitting.specs.Known.{Barren, Knows, may_fit};

use crate::known::{LOOSE, Stage, known_at, note, prefix};
use crate::matching::{fit_free, is_among, is_wanted, wanted};
use tables::layout::{CONSTRAINT_SIZE, HEADS_CELL};
use tables::rows::{heads, row_of};
use tables::wide;
use tallies::coming::is_concerned;
use tallies::counting::is_short;

// Whether a position is among the first h that are chosen.
pub fn is_chosen(chosen: [usize; 4], h: usize, p: usize) -> bool
    requires { (h ≤ 4) × (length chosen ≡ 4) }
    ensures { result ≡ has p (take h chosen) }
{
    is_among(&chosen[..h], p)
}

// Where the search for a head starts: for the last one, behind the constraints among which nothing fits.
pub fn start(left: usize, from: usize) -> usize
    ensures { result ≡ cond (eqb left 1) from 0 }
{
    if left == 1 { from } else { 0 }
}

// What is known of the later heads where one is placed at p: still as much, if p lies within, or nothing.
pub fn still(from: usize, p: usize) -> usize
    ensures { result ≡ cond (ltb p from) from 0 }
{
    if p < from { from } else { 0 }
}

// The first position from p on whose constraint is wanted, or m. No Option: `find` takes the answer for its own cursor, which
// spared a quarter of a search's time against a position beside the cursor.
pub fn seek(cells: &[u16], p: usize, m: usize, symbol: u16, one: u16, two: u16) -> usize
    requires { (p ≤ m) × (length cells.now ≡ constraint_size * m) }
    ensures { FirstWanted symbol one two cells.now p m result }
{
    for q in p..m {
        if is_wanted(cells, q, symbol, one, two) {
            return q;
        }
    }
    m
}

// Positions for the heads that are left, each over the positions still free: the first that lets the later heads fit too. They
// stand behind those chosen before, and the bindings under which all fit are put in; where there are none, false.
pub fn find(
    heads: &[u16],
    n: usize,
    left: usize,
    cells: &[u16],
    m: usize,
    chosen: &mut [usize],
    bindings: &mut [u16; 26],
    from: usize,
) -> bool
    requires { Seeking heads.now n left cells.now m chosen.old bindings.old
        × Barren (cell_constraints (drop (constraint_size * (n - left)) heads.now)) (cell_constraints cells.now)
        (take (n - left) chosen.old) (assigned bindings.old) from × (from ≤ m) }
    ensures { Located result n chosen.new bindings.new
        (find (cell_constraints (drop (constraint_size * (n - left)) heads.now)) (cell_constraints cells.now)
        (take (n - left) chosen.old) (assigned bindings.old))
        × (take (n - left) chosen.new ≡ take (n - left) chosen.old) }
{
    if left == 0 {
        return true;
    }
    let h = n - left;
    let a = CONSTRAINT_SIZE * h;
    let e = a + CONSTRAINT_SIZE;
    let head = &heads[a..e];
    let symbol = head[0];
    let one = wanted(head, 1, bindings);
    let two = wanted(head, 2, bindings);
    let mut p = start(left, from);
    while p < m {
        p = seek(cells, p, m, symbol, one, two);
        if p < m {
            let q = p;
            p += 1;
            let b = CONSTRAINT_SIZE * q;
            let d = b + CONSTRAINT_SIZE;
            let mut settled = *bindings;
            if fit_free(head, &cells[b..d], &chosen[..h], q, &mut settled) {
                chosen[h] = q;
                if left == 1 {
                    *bindings = settled;
                    return true;
                }
                let since = still(from, q);
                if find(heads, n, left - 1, cells, m, chosen, &mut settled, since) {
                    *bindings = settled;
                    return true;
                }
            }
        }
    }
    false
}

// Positions for all heads of a rule, which fit nowhere among the first `from` constraints.
pub fn find_rule(
    row: &[u16],
    cells: &[u16],
    m: usize,
    from: usize,
    positions: &mut [usize],
    bindings: &mut [u16; 26],
) -> bool
    requires { Row row.now × (length cells.now ≡ constraint_size * m)
        × Barren (rule_of_row [] row.now).heads (cell_constraints cells.now) [] unassigned from × (from ≤ m)
        × (length positions.old ≡ 4) }
    ensures { Located result (get_or row.now heads_cell 0) positions.new bindings.new
        (find (rule_of_row [] row.now).heads (cell_constraints cells.now) [] unassigned) }
{
    let n = wide(row[HEADS_CELL]);
    *bindings = [0; 26];
    find(heads(row), n, n, cells, m, positions, bindings, from)
}

// In how many of the first constraints a rule fits nowhere, where it fits at these smallest positions.
pub fn leading(row: &[u16], positions: &[usize]) -> usize
    requires { Row row.now × (length positions.now ≡ 4) }
    ensures { result ≡ cond (eqb (get_or row.now heads_cell 0) 0) 0 (get_or positions.now 0 0) }
{
    if row[HEADS_CELL] == 0 {
        0
    } else {
        positions[0]
    }
}

// A first look at a rule: it is passed over where its heads of some symbol outnumber the tally, and where it fitted nowhere and no
// firing since brought a symbol of its heads.
pub fn may_fit(row: &[u16], last: &[u16], tally: &[u16], v: usize, whole: usize) -> bool
    requires { Row row.now }
    ensures { result ≡ may_fit last.now tally.now v whole (rule_of_row [] row.now).heads }
{
    let n = wide(row[HEADS_CELL]);
    let heads = heads(row);
    !is_short(heads, n, tally) && (LOOSE <= v || is_concerned(heads, last, v, whole))
}

// The number of the first rule that fits, with its positions and bindings; what is known of it and of the rules before it is
// noted. The tally equals a fresh count of the constraints.
pub fn choose(
    rules: &[u16],
    known: &mut [u16],
    last: &[u16],
    cells: &[u16],
    stage: Stage,
    positions: &mut [usize],
    bindings: &mut [u16; 26],
    tally: &[u16],
) -> Option<usize>
    requires { Table rules.now stage.rules × (length cells.now ≡ constraint_size * stage.count)
        × (stage.gone + stage.count ≤ 6000)
        × Knows rules.now stage.rules known.old last.now stage.gone (cell_constraints cells.now)
        × (length positions.old ≡ 4) × (length bindings.old ≡ 26)
        × Tallied tally.now (cell_constraints cells.now) }
    ensures { Chosen rules.now stage.rules cells.now result positions.new bindings.new
        × Knows rules.now stage.rules known.new last.now stage.gone
        (cell_constraints cells.now) }
{
    let n = stage.rules;
    let m = stage.count;
    let gone = stage.gone;
    let whole = gone + m;
    for i in 0..n {
        let v = known_at(known, i);
        if v != whole {
            let row = row_of(rules, i);
            if may_fit(row, last, tally, v, whole)
                && find_rule(row, cells, m, prefix(v, gone), positions, bindings)
            {
                note(known, i, LOOSE + gone + leading(row, positions));
                return Some(i);
            }
            note(known, i, whole);
        }
    }
    None
}
