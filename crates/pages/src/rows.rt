// The rows of a listing, one after the other.
ghost use Rattle.std.specs.Prelude.{◌≡◌, ◌≤◌, length};
ghost use Rattle.text.specs.Splits.{line_end};
ghost use Rattle.pages.specs.Places.{width, NextRow};

use crate::Row;

// Where the line ends that goes on at a place: at its line feed, or with the listing.
fn line_end(listing: &[u8], at: usize) -> usize
    requires { at ≤ length listing.now }
    ensures { result ≡ line_end listing.now at }
{
    let rest = &listing[at..];
    at + rest.iter().position(|b| *b == b'\n').unwrap_or(rest.len())
}

// How many bytes of a line a row holds: fewer where they continue it.
fn columns(inside: bool) -> usize
    ensures { result ≡ width «inside» }
{
    if inside { 38 } else { 40 }
}

// The row that starts at a place.
pub fn next_row(listing: &[u8], at: usize, inside: bool) -> Row
    requires { at ≤ length listing.now }
    ensures { NextRow listing.now at «inside» result }
{
    let feed = line_end(listing, at);
    let most = columns(inside);
    if most < feed - at {
        return Row {
            end: at + most,
            next: at + most,
            inside: true,
        };
    }
    if feed < listing.len() {
        return Row {
            end: feed,
            next: feed + 1,
            inside: false,
        };
    }
    Row {
        end: feed,
        next: feed,
        inside: false,
    }
}
