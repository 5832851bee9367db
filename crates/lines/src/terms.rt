// The terms of a line as cells, and its new constants.
ghost use Rattle.std.specs.Prelude.{◌≡◌, ◌+◌, ◌≤◌, ◌<◌, length};
ghost use Rattle.lines.specs.Read.{Lent, TermIn, TermsIn};

use crate::{TermRead, TermsRead};
use faults::Fault;
use numerals::naming::constant;
use tables::layout::FIRST_CONSTANT;
use tables::names::find_key;
use text::fields::Fields;

// The cell of the term with a key that starts at a place. A constant that is new is put behind the others, if there is room: the
// key of its name, and where that stands.
fn read_term(
    key: u64,
    place: u16,
    count: usize,
    names: &mut [u64],
    places: &mut [u16],
) -> Result<TermRead, Fault>
    requires { (count ≤ 64) × (length names.old ≡ 256) × (length places.old ≡ 256) × (place ≤ 32768) }
    ensures { TermIn key place count names.old places.old names.new
        places.new result }
{
    if key < 28 {
        return Ok(TermRead {
            cell: 254 + key as u16,
            count,
        });
    }
    let end = FIRST_CONSTANT + count;
    let c = constant(key);
    let k = find_key(&names[FIRST_CONSTANT..end], c.key);
    if k < count {
        return Ok(TermRead {
            cell: 64 + k as u16,
            count,
        });
    }
    let full = 64 <= count;
    if full {
        return Err(Fault::LimitPassed);
    }
    let at = place + c.zeros;
    names[end] = c.key;
    places[end] = at;
    Ok(TermRead {
        cell: end as u16,
        count: count + 1,
    })
}

// The terms of the fields from one on, at most four; a field's place is its start, and `base` more.
pub fn read_terms(
    f: Fields,
    from: usize,
    base: usize,
    count: usize,
    names: &mut [u64],
    places: &mut [u16],
) -> Result<TermsRead, Fault>
    requires { Lent f base names.old places.old × (count ≤ 64) × (f.count ≤ 8) × (f.count ≤ from + 4) }
    ensures { TermsIn f from base count names.old places.old names.new places.new
        result }
{
    let keys = f.keys;
    let starts = f.starts;
    let stop = f.count;
    let mut cells = [0u16; 4];
    let mut n = count;
    for i in from..stop {
        let place = (base + starts[i]) as u16;
        let t = read_term(keys[i], place, n, names, places)?;
        cells[i - from] = t.cell;
        n = t.count;
    }
    Ok(TermsRead { count: n, cells })
}
