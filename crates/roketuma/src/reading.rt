// Whether texts can be read: a program's and a goal's, with nothing lent to write into. So an editor can judge a text while it
// is typed. Its promises are the definitions of specs/Readings.antt.
ghost use Rattle.std.specs.Prelude.{◌≡◌};
ghost use Rattle.tables.specs.Rows.{symbols_of, constants_of};
ghost use Rattle.answers.specs.Answers.{text_meant};
ghost use Rattle.roketuma.specs.Readings.{unreadable, read_meant, goal_reply, read_reply, judgement_number};
ghost use Rattle.inputs.specs.Inputs.{Tabled};

use answers::{Refusal, TextName, refusal_number};
use goals::read_goal;
use programs::{Counts, read_program};
use tables::layout::SYMBOL_SIZE;

// The answer of reading: that both texts can be read, or a refusal.
pub type ReadReply = Result<(), Refusal>;

// A refusal as the answer.
fn refused(number: u8, text: TextName, line: u16) -> ReadReply
    ensures { read_meant result ≡ unreadable number (text_meant text) line }
{
    Err(Refusal { number, text, line })
}

// The answer to a goal's text, over the tables of a program as read.
fn judge_goal(
    goal: &[u8],
    symbols: &[u16],
    names: &mut [u64],
    places: &mut [u16],
    counts: Counts,
) -> ReadReply
    requires { Tabled symbols.now names.old places.old counts }
    ensures { read_meant result ≡ goal_reply (symbols_of names.old symbols.now counts.symbols)
        (constants_of names.old counts.constants) goal.now }
{
    let mut cells = [0; 320];
    let mut letters = [0; 26];
    let e = SYMBOL_SIZE * counts.symbols;
    match read_goal(
        goal,
        &symbols[..e],
        names,
        places,
        counts.constants,
        &mut cells,
        &mut letters,
    ) {
        Err(at) => refused(at.fault.number(), TextName::G, at.line),
        Ok(_) => Ok(()),
    }
}

// Whether a program's text and a goal's, which may be empty, can be read; if not, the refusal that a run of them answers.
pub fn read(program: &[u8], goal: &[u8]) -> ReadReply
    ensures { read_meant result ≡ read_reply program.now goal.now }
{
    let mut names = [0; 256];
    let mut places = [0; 256];
    let mut symbols = [0; 128];
    let mut rules = [0; 2048];
    match read_program(program, &mut names, &mut places, &mut symbols, &mut rules) {
        Err(at) => refused(at.fault.number(), TextName::S, at.line),
        Ok(counts) => judge_goal(goal, &symbols, &mut names, &mut places, counts),
    }
}

// Reading for C: 0 where both texts can be read, or a refusal as `roketuma_run` has it.
pub fn roketuma_read(program: &[u8], goal: &[u8]) -> u64
    ensures { result ≡ judgement_number (read_reply program.now goal.now) }
{
    match read(program, goal) {
        Ok(()) => 0,
        Err(refusal) => refusal_number(refusal),
    }
}
