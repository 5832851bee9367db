// The lines of a page: its first line, a blank one, and 58 with rows of a listing.
ghost use Rattle.std.specs.Prelude.{◌++◌, ◌≡◌, ◌-◌, ◌≤◌, length, drop};
ghost use Rattle.text.specs.Fields.{decimal};
ghost use Rattle.listing.specs.Writing.{Countable, Writes};
ghost use Rattle.pages.specs.Pages.{spaces, page_line, row_lines, aligned, head_line, page_of};
ghost use Rattle.pages.specs.Places.{indent, rows_from, RowsPut};

use crate::Place;
use crate::rows::next_row;
use listing::writing::{behind, copy, put_byte, put_decimal};

// Spaces from one place up to another.
fn fill(out: &mut [u8], from: usize, to: usize) -> usize
    ensures { Writes (spaces (to - from)) from out.old out.new result }
{
    if to <= from {
        return from;
    }
    if to <= out.len() {
        out[from..to].fill(b' ');
    }
    to
}

// The two spaces in front of bytes that continue a line, at the front of an output.
fn put_indent(out: &mut [u8], inside: bool) -> usize
    ensures { Writes (indent «inside») 0 out.old out.new result }
{
    if inside {
        return copy(out, 0, b"  ");
    }
    0
}

// A line of a page with a row's bytes, into the front of an output.
fn put_row(out: &mut [u8], inside: bool, bytes: &[u8]) -> usize
    requires { Countable 0 (page_line (indent «inside» ++ bytes.now)) }
    ensures { Writes (page_line (indent «inside» ++ bytes.now)) 0 out.old out.new result }
{
    let start = put_indent(out, inside);
    let end = copy(out, start, bytes);
    let feed = fill(out, end, 40);
    put_byte(out, feed, b'\n')
}

// How many spaces stand in front of a number at the right of 4 columns.
fn margin(n: usize) -> usize
    ensures { result ≡ 4 - length (decimal n) }
{
    if n < 10 {
        return 3;
    }
    if n < 100 {
        return 2;
    }
    if n < 1000 {
        return 1;
    }
    0
}

// A number at the right of 4 columns.
fn put_aligned(out: &mut [u8], at: usize, n: usize) -> usize
    requires { Countable at (aligned n) }
    ensures { Writes (aligned n) at out.old out.new result }
{
    let digits = fill(out, at, at + margin(n));
    put_decimal(out, digits, n)
}

// Line 1 of a page, into the front of an output: a field at the left and the page's number in the last 4 columns.
fn put_first(out: &mut [u8], first: &[u8], number: usize) -> usize
    requires { Countable 0 (head_line first.now number) }
    ensures { Writes (head_line first.now number) 0 out.old out.new result }
{
    let field = copy(out, 0, first);
    let start = fill(out, field, 36);
    let digits = put_aligned(out, start, number);
    let feed = fill(out, digits, 40);
    put_byte(out, feed, b'\n')
}

// 58 lines with the rows of a listing from a place on; blank lines where there are no more.
fn put_rows(out: &mut [u8], from: usize, listing: &[u8], start: usize, continued: bool) -> Place
    requires { Countable from (row_lines 58 (rows_from «continued» (drop start listing.now)))
        × (start ≤ length listing.now) }
    ensures { RowsPut (row_lines 58 (rows_from «continued» (drop start listing.now))) listing.now start
        «continued» from out.old out.new result }
{
    let mut end = from;
    let mut at = start;
    let mut inside = continued;
    for _ in 0..58usize {
        let row = next_row(listing, at, inside);
        let e = row.end;
        let begin = behind(end, out.len());
        let size = put_row(&mut out[begin..], inside, &listing[at..e]);
        end += size;
        at = row.next;
        inside = row.inside;
    }
    Place { end, at, inside }
}

// A page with the rows of a listing from a place on, into the front of an output.
pub fn put_page(
    out: &mut [u8],
    first: &[u8],
    number: usize,
    listing: &[u8],
    at: usize,
    inside: bool,
) -> Place
    requires { Countable 0 (page_of first.now number (rows_from «inside» (drop at listing.now)))
        × (at ≤ length listing.now) }
    ensures { RowsPut (page_of first.now number (rows_from «inside» (drop at listing.now)))
        listing.now at «inside» 0 out.old out.new result }
{
    let blank = put_first(out, first, number);
    let from = behind(blank, out.len());
    let size = put_row(&mut out[from..], false, &listing[..0]);
    put_rows(out, blank + size, listing, at, inside)
}
