// The run of a goal over a program, from their texts to the listing: reading both, the derivation, and its listing.
// Its promise is the definition of crates/replies/specs/Replies.antt, through crates/answers/specs/Answers.antt.
#![tactic(auto)]

ghost use Rattle.std.specs.Prelude.{is_some, unwrap_or, ◌≤◌, length};
ghost use Rattle.engine.specs.Runs.{Startable};
ghost use Rattle.listing.specs.Ends.{end_bytes, Listable};
ghost use Rattle.replies.specs.Replies.{goal_text, fitted, run_reply};
ghost use Rattle.answers.specs.Answers.{Replied};
ghost use Rattle.running.specs.Stages.{Entered, final_bytes, FinalListable, Ready};
ghost use Rattle.inputs.specs.Inputs.{GoalReady};

use answers::{Refusal, RunReply, TextName};
use engine::derivation::{Final, normalise};
use engine::entering::start_bound;
use goals::read_goal;
use listing::{End, Names, list_end};
use programs::{Counts, read_program};
use tables::layout::{CONSTRAINT_SIZE, MAX_SYMBOLS, SYMBOL_SIZE};
use tables::wide;
use tallies::counting::raise;

// How many rules the tables of a program hold, and how many constraints those of a goal.
#[derive(Drop)]
pub struct Sizes {
    pub rules: usize,
    pub constraints: usize,
}

// The derivation of a goal as read: its variables are themselves, its constraints are tallied, and the strategy fires to the end.
fn derive(rules: &[u16], bound: &mut [u16], cells: &mut [u16], sizes: Sizes) -> Final
    requires { Startable rules.now sizes.rules cells.old sizes.constraints (length bound.old)
        × (length bound.old ≤ 26) }
    ensures { Entered rules.now sizes (length bound.old) cells.old
        bound.new cells.new (is_some result.count) (unwrap_or result.count 0) result.next result.firings }
{
    start_bound(bound);
    let v = bound.len() as u16;
    let m = sizes.constraints;
    let e = CONSTRAINT_SIZE * m;
    let mut tally = [0u16; MAX_SYMBOLS];
    raise(&cells[..e], m, &mut tally);
    normalise(rules, sizes.rules, bound, cells, m, v, &mut tally)
}

// The listing of a final state, or number 11.
fn list<'a>(
    names: Names<'a>,
    bound: &[u16],
    cells: &mut [u16],
    end: End,
    output: &mut [u8],
) -> RunReply
    requires { Listable (is_some end.next) (unwrap_or end.next 0) bound.now cells.old }
    ensures { Replied (fitted goal_text (length output.old)
        (end_bytes names.entry.program.now names.entry.goal.now names.entry.places.now names.entry.letters.now
        bound.now cells.old end))
        output.old output.new result }
{
    match list_end(output, names, bound, cells, end) {
        None => Err(Refusal {
            number: 11,
            text: TextName::G,
            line: 0,
        }),
        Some(n) => Ok(n),
    }
}

// The same for the end of a derivation: the used part of its cells is listed, and of a failed one nothing.
fn list_final<'a>(
    names: Names<'a>,
    bound: &[u16],
    cells: &mut [u16],
    end: Final,
    output: &mut [u8],
) -> RunReply
    requires { FinalListable bound.now cells.old end }
    ensures { Replied (fitted goal_text (length output.old)
        (final_bytes names.entry.program.now names.entry.goal.now names.entry.places.now names.entry.letters.now
        bound.now cells.old end))
        output.old output.new result }
{
    let firings = end.firings;
    match end.count {
        Some(count) => {
            let e = CONSTRAINT_SIZE * count;
            let lives = End {
                next: Some(wide(end.next)),
                firings,
            };
            list(names, bound, &mut cells[..e], lives, output)
        }
        None => {
            let failed = End {
                next: None,
                firings,
            };
            list(names, bound, cells, failed, output)
        }
    }
}

// The run of a goal as read, from its tables.
fn run_read<'a>(
    program: &'a [u8],
    goal: &'a [u8],
    places: &[u16],
    rules: &[u16],
    letters: &[u8],
    cells: &mut [u16],
    sizes: Sizes,
    output: &mut [u8],
) -> RunReply
    requires { Ready program.now goal.now places.now rules.now letters.now cells.old sizes }
    ensures { Replied (run_reply program.now goal.now (length output.old))
        output.old output.new result }
{
    let v = letters.len();
    let mut bound = [0; 26];
    let end = derive(rules, &mut bound[..v], cells, sizes);
    let names = Names {
        program,
        goal,
        places,
        letters,
    };
    list_final(names, &bound[..v], cells, end, output)
}

// The run of a goal's text over a program as read.
fn run_goal<'a>(
    program: &'a [u8],
    goal: &'a [u8],
    names: &mut [u64],
    places: &mut [u16],
    symbols: &[u16],
    rules: &[u16],
    counts: Counts,
    output: &mut [u8],
) -> RunReply
    requires { GoalReady program.now names.old places.old symbols.now rules.now counts }
    ensures { Replied (run_reply program.now goal.now (length output.old))
        output.old output.new result }
{
    let mut letters = [0; 26];
    let mut cells = [0; 2590];
    let e = SYMBOL_SIZE * counts.symbols;
    match read_goal(
        goal,
        &symbols[..e],
        names,
        places,
        counts.constants,
        &mut cells,
        &mut letters,
    ) {
        Err(at) => Err(Refusal {
            number: at.fault.number(),
            text: TextName::G,
            line: at.line,
        }),
        Ok(found) => {
            let v = found.letters;
            let sizes = Sizes {
                rules: counts.rules,
                constraints: found.constraints,
            };
            run_read(
                program,
                goal,
                places,
                rules,
                &letters[..v],
                &mut cells,
                sizes,
                output,
            )
        }
    }
}

// The run of a goal over a program, from their texts into the lent output: every input has its reply.
pub fn run<'a>(program: &'a [u8], goal: &'a [u8], output: &mut [u8]) -> RunReply
    ensures { Replied (run_reply program.now goal.now (length output.old))
        output.old output.new result }
{
    let mut names = [0; 256];
    let mut places = [0; 256];
    let mut symbols = [0; 128];
    let mut rules = [0; 2048];
    match read_program(program, &mut names, &mut places, &mut symbols, &mut rules) {
        Err(at) => Err(Refusal {
            number: at.fault.number(),
            text: TextName::S,
            line: at.line,
        }),
        Ok(counts) => run_goal(
            program,
            goal,
            &mut names,
            &mut places,
            &symbols,
            &rules,
            counts,
            output,
        ),
    }
}
