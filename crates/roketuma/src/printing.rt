// What the programs print, as bytes in a lent output: the reply to an input.
// The programs do no more than write them.
ghost use Rattle.replies.specs.Replies.{printed, run_reply, ample, sheetrun, sheetcheck};
ghost use Rattle.answers.specs.Answers.{Printed};

use answers::put_refusal;
use checking::check;
use running::run;
use text::split_goal;

// What is printed of the reply to a goal over a program, into the front of an output; answers how many bytes.
pub fn put_reply<'a>(program: &'a [u8], goal: &'a [u8], out: &mut [u8; 32768]) -> usize
    ensures { Printed (printed (run_reply program.now goal.now ample))
        out.old out.new result }
{
    match run(program, goal, out) {
        Ok(n) => n,
        Err(refusal) => put_refusal(out, refusal.number, refusal.text, refusal.line),
    }
}

// All that `sheetrun` prints on an input, into the front of an output; answers how many bytes.
pub fn put_run(input: &[u8], out: &mut [u8; 32768]) -> usize
    ensures { Printed (sheetrun input.now) out.old out.new result }
{
    let split = split_goal(input);
    let end = split.end;
    let start = split.start;
    put_reply(&input[..end], &input[start..], out)
}

// All that `sheetcheck` prints on an input, into the front of an output; answers how many bytes.
pub fn put_check(input: &[u8], out: &mut [u8; 32768]) -> usize
    ensures { Printed (sheetcheck input.now) out.old out.new result }
{
    match check(input, out) {
        Ok(verdict) => verdict.length(),
        Err(turned) => put_refusal(out, turned.number, turned.text, turned.line),
    }
}
