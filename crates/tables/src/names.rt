// Names: the number of a key in a table, and the name of a number as a part of the text where it stands.
ghost use Rattle.std.specs.Prelude.{◌≡◌, ◌≤◌, min, eqb, length, get_or};
ghost use Rattle.text.specs.Lists.{index_from};
ghost use Rattle.text.specs.Keys.{word_length};
ghost use Rattle.tables.specs.Layout.{max_name};
ghost use Rattle.tables.specs.Names.{name_at, name_in};

use crate::layout::{GOAL_PLACE, MAX_NAME};
use crate::wide;

// The index of a key among keys; behind the last where none is it.
pub fn find_key(keys: &[u64], key: u64) -> usize
    ensures { (result ≡ index_from (eqb key) 0 keys.now) × (result ≤ length keys.now) }
{
    for (i, known) in keys.iter().enumerate() {
        if key == *known {
            return i;
        }
    }
    keys.len()
}

// How many bytes the name has that a text begins with: those before the first comma or line feed, at most eight.
fn name_length(s: &[u8]) -> usize
    ensures { (result ≡ min (word_length s.now) max_name) × (result ≤ length s.now) }
{
    for (i, b) in s.iter().enumerate() {
        if i == MAX_NAME {
            return i;
        }
        if *b == b',' || *b == b'\n' {
            return i;
        }
    }
    s.len()
}

// The name that starts at a place of a text, as a part of it.
pub fn name_at(text: &[u8], at: usize) -> &[u8]
    ensures { result.now ≡ name_at text.now at }
{
    if text.len() <= at {
        return &text[..0];
    }
    let s = &text[at..];
    let e = name_length(s);
    &s[..e]
}

// The place of a name by its number; 0 where the table does not have it.
fn place(places: &[u16], n: usize) -> usize
    ensures { result ≡ get_or places.now n 0 }
{
    if n < places.len() { wide(places[n]) } else { 0 }
}

// The name of a number, as a part of the text where it stands: symbols, constants and rules alike.
pub fn name<'a>(program: &'a [u8], goal: &'a [u8], places: &[u16], n: usize) -> &'a [u8]
    ensures { result.now ≡ name_in program.now goal.now places.now n }
{
    let at = place(places, n);
    if at < GOAL_PLACE {
        return name_at(program, at);
    }
    name_at(goal, at - GOAL_PLACE)
}
