// The listing of a check: the pass, or an unjoined overlap with its pairs of heads, its goal and both ends.
// All names are in the program's text: the goal's is empty, and no letter stands for a variable of an overlap's goal.
#![tactic(auto)]

ghost use Rattle.std.specs.Prelude.{[], ◌∷◌, ◌<◌};
ghost use Rattle.text.specs.Bytes.{ascii};
ghost use Rattle.text.specs.Fields.{decimal};
ghost use Rattle.listing.specs.Listing.{line_of};
ghost use Rattle.listing.specs.Writing.{Countable, Writes, ListedAs};
ghost use Rattle.listing.specs.Ends.{named};
ghost use Rattle.verdicts.specs.Verdicts.{pair_lines};
ghost use Rattle.verdicts.specs.Checks.{rules_line, front_bytes, numbered_ends, shown_bytes};
ghost use Rattle.verdicts.specs.Checks.{Shaped, EndsWritable, OverlapWritable, OverlapListable, OverlapListed};

use listing::ends::{number_end, put_end};
use listing::putting::{Mark, put_head, put_rows};
use listing::writing::{behind, copy, put_byte, put_decimal};
use listing::{End, Names, list_by};
use tables::layout::FIRST_RULE;

// The overlap that is shown: the numbers of its rules, how many heads the first has, the partner of each of these (from 1, or 0),
// how many variables its goal has, and both ends.
#[derive(Clone, Copy)]
pub struct Shown {
    pub first: usize,
    pub second: usize,
    pub heads: usize,
    pub partners: [usize; 4],
    pub variables: usize,
    pub one: End,
    pub two: End,
}

// The listing of a pass: its one line.
pub fn list_pass(out: &mut [u8], n: usize) -> Option<usize>
    ensures { ListedAs (line_of (ascii "CONFLUENT") (decimal n ∷ [])) out.old out.new result }
{
    list_by(out, false, |rest| put_head(rest, b"CONFLUENT,", n))
}

// The first line of an overlap: the names of its rules.
pub fn put_rules<'a>(out: &mut [u8], names: Names<'a>, first: usize, second: usize) -> usize
    requires { Countable 0 (rules_line (named names) first second) × (first < 65536) × (second < 65536) }
    ensures { Writes (rules_line (named names.entry) first second) 0 out.old out.new result }
{
    let one = names.name(FIRST_RULE + first);
    let two = names.name(FIRST_RULE + second);
    let start = copy(out, 0, b"UNJOINED,");
    let comma = copy(out, start, one);
    let next = put_byte(out, comma, b',');
    let feed = copy(out, next, two);
    put_byte(out, feed, b'\n')
}

// The line of the first rule's head of a number, and of its partner; none where the partner is 0.
pub fn put_pair(out: &mut [u8], n: usize, partner: usize) -> usize
    requires { Countable 0 (pair_lines n (partner ∷ [])) }
    ensures { Writes (pair_lines n (partner ∷ [])) 0 out.old out.new result }
{
    if partner == 0 {
        return 0;
    }
    let start = copy(out, 0, b"P,");
    let comma = put_decimal(out, start, n);
    let next = put_byte(out, comma, b',');
    let feed = put_decimal(out, next, partner);
    put_byte(out, feed, b'\n')
}

// A line for each joined pair of heads, which are numbered from 1.
pub fn put_pairs(out: &mut [u8], at: usize, partners: &[usize]) -> usize
    requires { Countable at (pair_lines 1 partners.now) }
    ensures { Writes (pair_lines 1 partners.now) at out.old out.new result }
{
    let mut end = at;
    for (i, partner) in partners.iter().enumerate() {
        let from = behind(end, out.len());
        let size = put_pair(&mut out[from..], i + 1, *partner);
        end += size;
    }
    end
}

// All lines in front of the ends: the rules, the joined pairs of heads, and the goal.
pub fn put_front<'a>(out: &mut [u8], names: Names<'a>, goal: &[u16], shown: Shown) -> usize
    requires { Countable 0 (front_bytes (named names) names.letters.now goal.now shown) × Shaped shown }
    ensures { Writes (front_bytes (named names.entry) names.entry.letters.now goal.now shown) 0 out.old out.new result }
{
    let first = put_rules(out, names, shown.first, shown.second);
    let partners = shown.partners;
    let heads = shown.heads;
    let pairs = put_pairs(out, first, &partners[..heads]);
    let mark = Mark {
        line: b'G',
        variables: shown.variables,
    };
    put_rows(out, pairs, names, mark, goal)
}

// The lines of both ends, whose variables are numbered, one behind the other. `bounds` holds what the goal's variables became in
// the first, and then what they became in the second.
pub fn put_ends<'a>(
    out: &mut [u8],
    at: usize,
    names: Names<'a>,
    bounds: &[u16],
    one: &[u16],
    two: &[u16],
    shown: Shown,
) -> usize
    requires { EndsWritable (named names) names.letters.now at bounds.now one.now two.now shown }
    ensures { Writes
        (numbered_ends (named names.entry) names.entry.letters.now bounds.now one.now
        two.now shown) at out.old out.new result }
{
    let v = shown.variables;
    let from = behind(at, out.len());
    let size = put_end(&mut out[from..], names, &bounds[..v], one, shown.one);
    let next = at + size;
    let start = behind(next, out.len());
    let last = put_end(&mut out[start..], names, &bounds[v..], two, shown.two);
    next + last
}

// All lines of an overlap, the variables of whose ends are numbered.
pub fn put_overlap<'a>(
    out: &mut [u8],
    names: Names<'a>,
    goal: &[u16],
    bounds: &[u16],
    one: &[u16],
    two: &[u16],
    shown: Shown,
) -> usize
    requires { OverlapWritable (named names) names.letters.now goal.now bounds.now one.now two.now shown }
    ensures { Writes
        (shown_bytes (named names.entry) names.entry.letters.now goal.now bounds.now
        one.now two.now shown) 0 out.old out.new result }
{
    let at = put_front(out, names, goal, shown);
    put_ends(out, at, names, bounds, one, two, shown)
}

// The listing of an overlap, the variables of whose ends are numbered.
fn list_shown<'a>(
    out: &mut [u8],
    names: Names<'a>,
    goal: &[u16],
    bounds: &[u16],
    one: &[u16],
    two: &[u16],
    shown: Shown,
) -> Option<usize>
    requires { OverlapWritable (named names) names.letters.now goal.now bounds.now one.now two.now shown }
    ensures { ListedAs
        (shown_bytes (named names.entry) names.entry.letters.now goal.now bounds.now
        one.now two.now shown) out.old out.new result }
{
    list_by(out, false, |rest| {
        put_overlap(rest, names, goal, bounds, one, two, shown)
    })
}

// The listing of an unjoined overlap; the variables of its ends are numbered in place.
pub fn list_overlap<'a>(
    out: &mut [u8],
    program: &'a [u8],
    places: &'a [u16],
    goal: &[u16],
    bounds: &[u16],
    one: &mut [u16],
    two: &mut [u16],
    shown: Shown,
) -> Option<usize>
    requires { OverlapListable goal.now bounds.now one.old two.old shown }
    ensures { OverlapListed program.now places.now goal.now bounds.now one.old two.old shown out.old out.new result }
{
    let names = Names {
        program,
        goal: &[],
        places,
        letters: &[],
    };
    let v = shown.variables;
    number_end(&bounds[..v], one, shown.one);
    number_end(&bounds[v..], two, shown.two);
    list_shown(out, names, goal, bounds, one, two, shown)
}
