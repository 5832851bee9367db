// A short program and a short goal with any byte at any place, and the number that each of these texts meets: 0 where it is read.
ghost use Rattle.std.specs.Prelude.{[], ◌≡◌, ◌<◌, set};
ghost use Rattle.replies.specs.Replies.{run_reply, ample};
ghost use Rattle.rehearsal.specs.Sweep.{number_digit, digit_of, swept_program, swept_goal, goal_program, swept_digit};

use roketuma::run;

// The digit of a number below 10.
fn digit(number: u8) -> u8
    ensures { result ≡ number_digit number }
{
    if number < 10 {
        return 48 + number;
    }
    b'?'
}

// What a program and a goal over it meet.
fn met<'a>(program: &'a [u8], goal: &'a [u8]) -> u8
    ensures { result ≡ digit_of (run_reply program.now goal.now ample) }
{
    let mut output = [0u8; 32768];
    match run(program, goal, &mut output) {
        Err(refusal) => digit(refusal.number),
        Ok(_) => b'0',
    }
}

// What the program meets that has byte b at place i.
fn swept_program(i: usize, b: u8) -> u8
    requires { i < 26 }
    ensures { result ≡ digit_of (run_reply (set swept_program i b) [] ample) }
{
    let mut text = *b"K,p,2,1\nR,r\nH,p,X,a\nE,X,b\n";
    text[i] = b;
    met(&text, b"")
}

// What the goal meets that has byte b at place i.
fn swept_goal(i: usize, b: u8) -> u8
    requires { i < 16 }
    ensures { result ≡ digit_of (run_reply goal_program (set swept_goal i b) ample) }
{
    let mut text = *b"G,p,A,a\nG,p,b,A\n";
    text[i] = b;
    met(b"K,p,2,1\n", &text)
}

// The digit of place i and byte b: the first 26 places are the program's, the next 16 the goal's, and there are no others.
pub fn swept(i: usize, b: u8) -> u8
    ensures { result ≡ swept_digit i b }
{
    if i < 26 {
        return swept_program(i, b);
    }
    if i < 42 {
        return swept_goal(i - 26, b);
    }
    b'?'
}
