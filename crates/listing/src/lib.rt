// The bytes of the listings, written into the lent output; where they might not fit, counted first by the same functions.
// Each function equals the definition that its contract names, through the decodings of `tables`.
#![tactic(auto)]

pub mod ends;
pub mod putting;
pub mod writing;

ghost use Rattle.std.specs.Prelude.{is_some, unwrap_or, ℕ, true, List, ◌≡◌, ◌≤◌, length};
ghost use Rattle.listing.specs.Writing.{Puts, ListedAs};
ghost use Rattle.listing.specs.Ends.{named, numbered_end, end_bytes, Listable, Writable, Ample};

use ends::{number_end, put_end};
use tables::names::name;

// The end of a run: a number above every variable in use, or None where its state has failed, and how often a rule fired.
#[derive(Clone, Copy)]
pub struct End {
    pub next: Option<usize>,
    pub firings: usize,
}

// What things are shown by: the two texts, where each name stands in them, and the letters of the goal's variables.
#[derive(Clone, Copy)]
pub struct Names<'a> {
    pub program: &'a [u8],
    pub goal: &'a [u8],
    pub places: &'a [u16],
    pub letters: &'a [u8],
}

impl<'a> Names<'a> {
    // The name of a number, as a part of the text where it stands.
    pub fn name(self, n: usize) -> &'a [u8]
        ensures { result.now ≡ named self.entry n }
    {
        name(self.program, self.goal, self.places, n)
    }
}

// Room for every listing of a run and of a check, and the goal variables and cells up to which every listing of an end fits it.
pub const AMPLE: usize = 32768;

pub const MAX_BOUND: usize = 28;

pub const MAX_CELLS: usize = 2590;

// Whether every listing of so many goal variables and cells fits an output of this length.
fn is_ample(room: usize, variables: usize, cells: usize) -> bool
    ensures { result ≡ true → Ample room variables cells }
{
    if room < AMPLE {
        return false;
    }
    if MAX_BOUND < variables {
        return false;
    }
    cells <= MAX_CELLS
}

// A listing by what writes it: written at once where it is known to fit, and elsewhere counted first, in no output.
pub fn list_by<F: Fn(&mut [u8]) -> usize>(out: &mut [u8], fits: bool, put: F) -> Option<usize>
    requires { F.IsAlwaysCallable put }
    ensures { (bytes : List ℕ) → Puts F.Fn put bytes → («fits» ≡ true → length bytes ≤ length out.old)
        → ListedAs bytes out.old out.new result }
{
    if fits {
        let all = put(out);
        return Some(all);
    }
    let size = put(&mut []);
    if out.len() < size {
        return None;
    }
    put(out);
    Some(size)
}

// The listing of an end whose variables are numbered.
fn list_numbered<'a>(
    out: &mut [u8],
    names: Names<'a>,
    bound: &[u16],
    cells: &[u16],
    end: End,
) -> Option<usize>
    requires { Writable (named names) names.letters.now bound.now cells.now end }
    ensures { ListedAs (numbered_end (named names.entry) names.entry.letters.now bound.now cells.now end)
        out.old out.new result }
{
    let fits = is_ample(out.len(), bound.len(), cells.len());
    list_by(out, fits, |rest| put_end(rest, names, bound, cells, end))
}

// The listing of a final state; its variables are numbered in place.
pub fn list_end<'a>(
    out: &mut [u8],
    names: Names<'a>,
    bound: &[u16],
    cells: &mut [u16],
    end: End,
) -> Option<usize>
    requires { Listable (is_some end.next) (unwrap_or end.next 0) bound.now cells.old }
    ensures { ListedAs (end_bytes names.entry.program.now names.entry.goal.now names.entry.places.now names.entry.letters.now
        bound.now cells.old end) out.old out.new result }
{
    number_end(bound, cells, end);
    list_numbered(out, names, bound, cells, end)
}
