// The constraint of a J, H, B or G line: numbers 4, 6 and 7.
ghost use Rattle.std.specs.Prelude.{◌≡◌, ◌≤◌, length};
ghost use Rattle.lines.specs.Read.{Lent, ConstraintIn};

use crate::ConstraintRead;
use crate::heads::constraint_head;
use crate::terms::read_terms;
use faults::Fault;
use tables::layout::FIRST_CONSTANT;
use text::fields::Fields;

// A J, H, B or G line, where `full` says that there are as many constraints as there may be. Its symbol is one of the table lent,
// and its places are `base` more than where its fields start.
pub fn read_constraint(
    f: Fields,
    full: bool,
    base: usize,
    count: usize,
    symbols: &[u16],
    names: &mut [u64],
    places: &mut [u16],
) -> Result<ConstraintRead, Fault>
    requires { Lent f base names.old places.old × (count ≤ 64) × (length symbols.now ≤ 64) }
    ensures { ConstraintIn f full base count symbols.now names.old places.old
        names.new places.new result }
{
    let s = constraint_head(f, &names[..FIRST_CONSTANT], symbols)?;
    if full {
        return Err(Fault::LimitPassed);
    }
    let t = read_terms(f, 2, base, count, names, places)?;
    let terms = t.cells;
    Ok(ConstraintRead {
        count: t.count,
        cells: [s as u16, terms[0], terms[1], terms[2], terms[3]],
    })
}
