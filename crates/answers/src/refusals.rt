// The line of a refusal, as bytes in a lent output.
ghost use Rattle.std.specs.Prelude.{◌≡◌, ◌≤◌, ◌<◌, length};
ghost use Rattle.replies.specs.Replies.{refusal, printed};
ghost use Rattle.answers.specs.Answers.{text_meant, refusal_bytes, Printed};

use crate::TextName;
use listing::putting::put_head;
use listing::writing::{copy, put_decimal};

// The line of a refusal, from the bytes `,S,` or `,G,` that name its text: the number behind the word, the line behind both.
fn put_line(out: &mut [u8], number: usize, named: &[u8], line: usize) -> usize
    requires { (length out.old ≡ 32768) × (length named.now ≤ 3) × (number < 65536) × (line < 65536) }
    ensures { Printed (refusal_bytes number named.now line) out.old out.new result }
{
    let word = copy(out, 0, b"REFUSED,");
    let end = put_decimal(out, word, number);
    end + put_head(&mut out[end..], named, line)
}

// `REFUSED,number,text,line` with its line feed, into the front of an output; answers how many bytes.
pub fn put_refusal(out: &mut [u8; 32768], number: u8, text: TextName, line: u16) -> usize
    ensures { Printed (printed (refusal number (text_meant text) line)) out.old out.new result }
{
    match text {
        TextName::S => put_line(out, number as usize, b",S,", line as usize),
        TextName::G => put_line(out, number as usize, b",G,", line as usize),
    }
}
