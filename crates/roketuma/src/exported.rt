// The same for programs in other languages: an answer as one number. The crate roketuma_c hands these functions out.
ghost use Rattle.std.specs.Prelude.{length};
ghost use Rattle.replies.specs.Replies.{run_reply, plain, paged};
ghost use Rattle.answers.specs.Answers.{Returned};
ghost use Rattle.answers.specs.Promises.{CheckReturned};

use answers::{check_number, refusal_number};
use checking::check;
use paging::pages;
use running::run;

// The run for C: the length of its listing, or 2^32 times a refusal's number, 2^16 times the byte S or G of its text, and its
// line.
pub fn roketuma_run<'a>(program: &'a [u8], goal: &'a [u8], output: &mut [u8]) -> u64
    ensures { Returned (run_reply program.now goal.now (length output.old))
        output.old output.new result }
{
    match run(program, goal, output) {
        Err(refusal) => refusal_number(refusal),
        Ok(n) => n as u64,
    }
}

// The check for C: the length of a pass's listing, or 2^31 more than that of an unjoined overlap's; or 2^32 times a refusal's
// number, 2^16 times the byte S of its text, and its line.
pub fn roketuma_check<'a>(program: &'a [u8], output: &mut [u8]) -> u64
    ensures { CheckReturned plain program.now output.old output.new result }
{
    check_number(check(program, output))
}

// The pages of a check for C: as `roketuma_check` has it, the length being that of the pages.
pub fn roketuma_pages<'a>(program: &'a [u8], output: &mut [u8]) -> u64
    ensures { CheckReturned paged program.now output.old output.new result }
{
    check_number(pages(program, output))
}
