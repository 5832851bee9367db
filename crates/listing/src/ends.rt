// The end of a run: its variables numbered, and its lines at the front of the part of the output that is lent.
ghost use Rattle.std.specs.Prelude.{is_some, unwrap_or, ◌<◌, length};
ghost use Rattle.listing.specs.Writing.{Countable, Writes};
ghost use Rattle.listing.specs.Ends.{named, live_bytes, numbered_end, Listable, EndNumbered, Writable};

use crate::putting::{Mark, put_bounds, put_head, put_rows};
use crate::{End, Names};
use tables::numbering::renumber;

// The variables of an end that lives are numbered in place, behind those of the goal, which stay. Answers how many there are.
pub fn number_end(bound: &[u16], cells: &mut [u16], end: End) -> usize
    requires { Listable (is_some end.next) (unwrap_or end.next 0) bound.now cells.old }
    ensures { EndNumbered (is_some end.next) (length bound.now) cells.old cells.new result }
{
    match end.next {
        Some(next) => renumber(bound.len(), cells, next),
        None => 0,
    }
}

// The lines of a state whose variables are numbered.
fn put_live<'a>(
    out: &mut [u8],
    names: Names<'a>,
    bound: &[u16],
    cells: &[u16],
    firings: usize,
) -> usize
    requires { Countable 0
        (live_bytes (named names) names.letters.now bound.now cells.now firings)
        × (length bound.now < 65536) }
    ensures { Writes
        (live_bytes (named names.entry) names.entry.letters.now
        bound.now cells.now firings) 0 out.old out.new result }
{
    let head = put_head(out, b"END,", firings);
    let at = put_bounds(out, head, names, bound);
    let mark = Mark {
        line: b'S',
        variables: bound.len(),
    };
    put_rows(out, at, names, mark, cells)
}

// The lines of an end whose variables, if it lives, are numbered.
pub fn put_end<'a>(
    out: &mut [u8],
    names: Names<'a>,
    bound: &[u16],
    cells: &[u16],
    end: End,
) -> usize
    requires { Writable (named names) names.letters.now bound.now cells.now end }
    ensures { Writes
        (numbered_end (named names.entry) names.entry.letters.now
        bound.now cells.now end) 0 out.old out.new result }
{
    match end.next {
        Some(_) => put_live(out, names, bound, cells, end.firings),
        None => put_head(out, b"FAILED,", end.firings),
    }
}
