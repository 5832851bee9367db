// A line split into its fields in one pass, the only one that asks the class table.
ghost use Rattle.std.specs.Prelude.{◌≡◌, ◌||◌, List, ℕ, ◌+◌, ◌*◌, ◌%◌, ◌≤◌, ◌<◌, min, eqb, length, drop, set};
ghost use Rattle.text.specs.Bytes.{between, class_number};
ghost use Rattle.text.specs.Keys.{key_of, number_of, word_length, word};
ghost use Rattle.text.specs.Cursors.{class_table};
ghost use Rattle.text.specs.Splits.{seven_bytes, Passed, Stopped, SplitAt};

use crate::table::{Class, class_of};

// A line's fields: how many there are, and of the first 8 the keys and where they start. Where the line is faulty, only that.
#[derive(Clone, Copy)]
pub struct Fields {
    pub faulty: bool,
    pub end: usize,
    pub count: usize,
    pub keys: [u64; 8],
    pub starts: [usize; 8],
}

// One field: its key, where it ends, and the class of the byte there; other where the bytes to look at are at their end.
#[derive(Drop)]
struct Field {
    end: usize,
    key: u64,
    stop: Class,
}

// Where values of more than seven bytes begin: 256 to the seventh.
const SEVEN_BYTES: u64 = 72057594037927936;

// A byte behind the last seven of a value to base 256.
fn with_byte(value: u64, b: u8) -> u64
    ensures { result ≡ (value % seven_bytes) * 256 + b }
{
    (value % SEVEN_BYTES) * 256 + b as u64
}

// Whether there was a capital, or there is one now.
fn with_class(capital: bool, class: Class) -> bool
    ensures { result ≡ (capital || eqb (class_number class) 1) }
{
    capital || matches!(class, Class::Capital)
}

// The key of a field by what was seen of its bytes. The letters from A on are 65 and on, and their keys are 2 and on.
fn key(value: u64, size: usize, capital: bool) -> u64
    ensures { (f : List ℕ) → Passed f value size capital → result ≡ key_of f }
{
    if capital {
        if size == 1 {
            return value % 64 + 1;
        }
        return 1;
    }
    if 8 < size {
        return 1;
    }
    value
}

// The field that starts at `at`: up to the first byte that is no letter and no digit, within the bytes before `limit`.
fn next_field(classes: &[Class], s: &[u8], at: usize, limit: usize) -> Field
    requires { (classes.now ≡ class_table) × (at ≤ limit) × (limit ≤ length s.now) }
    ensures { Stopped s.now at limit result }
{
    let mut value = 0;
    let mut capital = false;
    for i in at..limit {
        let b = s[i];
        let class = class_of(classes, b);
        if !class.is_plain() {
            return Field {
                end: i,
                key: key(value, i - at, capital),
                stop: class,
            };
        }
        capital = with_class(capital, class);
        value = with_byte(value, b);
    }
    Field {
        end: limit,
        key: 0,
        stop: Class::Other,
    }
}

// A field's key and start noted at its number, if that is below 8.
fn note(keys: &mut [u64; 8], starts: &mut [usize; 8], i: usize, key: u64, start: usize)
    requires { (length keys.old ≡ 8) × (length starts.old ≡ 8) }
    ensures { (keys.new ≡ set keys.old i key)
        × (starts.new ≡ set starts.old i start) }
{
    if i < 8 {
        keys[i] = key;
        starts[i] = start;
    }
}

// Up to where a line that starts at `at` has to have its line feed, if it is to be 80 bytes at most.
fn reach(size: usize, at: usize) -> usize
    requires { at ≤ size }
    ensures { result ≡ min size (at + 81) }
{
    if size - at < 81 {
        return size;
    }
    at + 81
}

// The line that starts at `at`, split into its fields.
pub fn split(classes: &[Class], s: &[u8], at: usize) -> Fields
    requires { (classes.now ≡ class_table) × (at < length s.now) × (length s.now ≤ 16384) }
    ensures { SplitAt s.now at result }
{
    let mut keys = [0u64; 8];
    let mut starts = [0usize; 8];
    let limit = reach(s.len(), at);
    let mut count = 0;
    let mut start = at;
    loop {
        let found = next_field(classes, s, start, limit);
        let end = found.end;
        if found.stop.is_other() {
            return Fields {
                faulty: true,
                end,
                count,
                keys,
                starts,
            };
        }
        note(&mut keys, &mut starts, count, found.key, start);
        count += 1;
        if found.stop.is_feed() {
            return Fields {
                faulty: end == at,
                end,
                count,
                keys,
                starts,
            };
        }
        start = end + 1;
    }
}

// Whether a byte is a digit from `least` on.
fn is_digit(b: u64, least: u64) -> bool
    ensures { result ≡ between least 57 b }
{
    least <= b && b <= 57
}

// The value of a key that is a number of one or two digits without a leading zero; 100 for any other.
pub fn number_of(key: u64) -> u16
    ensures { result ≡ number_of key }
{
    if is_digit(key, 48) {
        return (key - 48) as u16;
    }
    let tens = key / 256;
    let ones = key % 256;
    if is_digit(tens, 49) {
        if is_digit(ones, 48) {
            return ((tens - 48) * 10 + (ones - 48)) as u16;
        }
        return 100;
    }
    100
}

// Where the word ends that starts at `at`: the place of the first comma or line feed, or the length.
fn word_end(s: &[u8], at: usize) -> usize
    requires { at ≤ length s.now }
    ensures { (result ≡ at + word_length (drop at s.now)) × (at ≤ result) × (result ≤ length s.now) }
{
    for i in at..s.len() {
        if s[i] == b',' || s[i] == b'\n' {
            return i;
        }
    }
    s.len()
}

// The word that starts at `at`: the bytes up to the next comma or line feed; none behind the text's end.
pub fn word_at(s: &[u8], at: usize) -> &[u8]
    ensures { result.now ≡ word s.now at }
{
    let size = s.len();
    if size < at {
        return &s[size..];
    }
    let end = word_end(s, at);
    &s[at..end]
}
