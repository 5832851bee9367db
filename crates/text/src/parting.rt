// The input of `sheetrun`, parted at its first line `GOAL`.
ghost use Rattle.std.specs.Prelude.{◌≡◌, ◌≤◌, length, take, drop};
ghost use Rattle.text.specs.Lists.{same_bytes};
ghost use Rattle.text.specs.Lines.{goal_line, parted};
ghost use Rattle.text.specs.Cursors.{parts_at};

// Whether two parts hold the same bytes.
pub fn same_bytes(a: &[u8], b: &[u8]) -> bool
    ensures { result ≡ same_bytes a.now b.now }
{
    a == b
}

// Whether the line `GOAL` with its line feed stands at a place.
fn is_goal_line(s: &[u8], at: usize) -> bool
    requires { at ≤ length s.now }
    ensures { result ≡ same_bytes (take 5 (drop at s.now)) goal_line }
{
    let word = b"GOAL\n";
    if s.len() - at < 5 {
        return false;
    }
    let end = at + 5;
    same_bytes(&s[at..end], word)
}

// Where the program's text ends and where the goal's starts.
#[derive(Drop)]
pub struct Split {
    pub end: usize,
    pub start: usize,
}

// The split of one input at its first line `GOAL`.
pub fn split_goal(s: &[u8]) -> Split
    ensures { (parted s.now ≡ parts_at s.now result.end result.start)
        × (result.end ≤ length s.now) × (result.start ≤ length s.now) }
{
    let mut fresh = true;
    for i in 0..s.len() {
        if fresh && is_goal_line(s, i) {
            return Split {
                end: i,
                start: i + 5,
            };
        }
        fresh = s[i] == b'\n';
    }
    Split {
        end: s.len(),
        start: s.len(),
    }
}
