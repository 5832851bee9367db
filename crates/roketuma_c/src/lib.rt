// The library for programs in other languages: its functions under C's names, each with the promise that it has in `roketuma`.
// include/roketuma.h is the header.
#![tactic(auto)]

ghost use Rattle.std.specs.Prelude.{◌≡◌, length};
ghost use Rattle.replies.specs.Replies.{run_reply, plain, paged};
ghost use Rattle.answers.specs.Answers.{Returned};
ghost use Rattle.answers.specs.Promises.{CheckReturned};
ghost use Rattle.roketuma.specs.Readings.{read_reply, judgement_number};

// The run: the length of its listing, or 2^32 times a refusal's number, 2^16 times the byte S or G of its text, and its line.
#[unsafe(no_mangle)]
pub extern "C" fn roketuma_run<'a>(program: &'a [u8], goal: &'a [u8], output: &mut [u8]) -> u64
    ensures { Returned (run_reply program.now goal.now (length output.old))
        output.old output.new result }
{
    roketuma::roketuma_run(program, goal, output)
}

// The check: the length of a pass's listing, or 2^31 more than that of an unjoined overlap's; or 2^32 times a refusal's number,
// 2^16 times the byte S of its text, and its line.
#[unsafe(no_mangle)]
pub extern "C" fn roketuma_check<'a>(program: &'a [u8], output: &mut [u8]) -> u64
    ensures { CheckReturned plain program.now output.old output.new result }
{
    roketuma::roketuma_check(program, output)
}

// The pages of a check: as `roketuma_check` has it, the length being that of the pages.
#[unsafe(no_mangle)]
pub extern "C" fn roketuma_pages<'a>(program: &'a [u8], output: &mut [u8]) -> u64
    ensures { CheckReturned paged program.now output.old output.new result }
{
    roketuma::roketuma_pages(program, output)
}

// Reading: 0 where both texts can be read, or a refusal as `roketuma_run` has it.
#[unsafe(no_mangle)]
pub extern "C" fn roketuma_read(program: &[u8], goal: &[u8]) -> u64
    ensures { result ≡ judgement_number (read_reply program.now goal.now) }
{
    roketuma::roketuma_read(program, goal)
}
