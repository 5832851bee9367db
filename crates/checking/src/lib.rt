// The check of a program, from its text to the listing: reading it, deciding on it, and the listing of the verdict.
// Its promises are CheckReplied and Demand3Of of crates/answers/specs/Promises.antt.
#![tactic(auto)]

ghost use Rattle.std.specs.Prelude.{unwrap_or, ◌≡◌, ◌*◌, ◌≤◌, length};
ghost use Rattle.tables.specs.Layout.{constraint_size};
ghost use Rattle.verdicts.specs.Checks.{OverlapListable};
ghost use Rattle.replies.specs.Replies.{check_reply, plain};
ghost use Rattle.answers.specs.Promises.{CheckReplied, Demand3Of};
ghost use Rattle.checking.specs.Checking.{listed_cells, end_shown, CheckReady, ShowReady};
ghost use Rattle.checking.specs.Checking.{PassReplied, OverlapReplied, Checked};

use answers::{CheckReply, Refusal, TextName, Verdict};
use critical::deciding::{Shown, decide};
use engine::derivation::Final;
use listing::End;
use programs::read_program;
use tables::layout::CONSTRAINT_SIZE;
use tables::wide;
use verdicts::{list_overlap, list_pass};

// The listing of a pass over a number of overlaps, or number 11.
fn pass(overlaps: usize, output: &mut [u8]) -> CheckReply
    ensures { PassReplied overlaps output.old output.new result }
{
    match list_pass(output, overlaps) {
        None => Err(Refusal {
            number: 11,
            text: TextName::S,
            line: 0,
        }),
        Some(n) => Ok(Verdict::Confluent(n)),
    }
}

// The listing of an unjoined overlap, or number 11.
fn fail<'a>(
    program: &'a [u8],
    places: &[u16],
    goal: &[u16],
    bounds: &[u16],
    one: &mut [u16],
    two: &mut [u16],
    shown: verdicts::Shown,
    output: &mut [u8],
) -> CheckReply
    requires { OverlapListable goal.now bounds.now one.old two.old shown }
    ensures { OverlapReplied program.now places.now goal.now bounds.now
        one.old two.old shown output.old output.new result }
{
    match list_overlap(output, program, places, goal, bounds, one, two, shown) {
        None => Err(Refusal {
            number: 11,
            text: TextName::S,
            line: 0,
        }),
        Some(n) => Ok(Verdict::Unjoined(n)),
    }
}

// How many cells of an end are listed: none of a failed one.
fn listed_cells(end: Final) -> usize
    requires { constraint_size * unwrap_or end.count 0 ≤ 2590 }
    ensures { result ≡ listed_cells end }
{
    CONSTRAINT_SIZE * end.count.unwrap_or(0)
}

// An end as the listing has it: a failed one has no variables.
fn end_shown(end: Final) -> End
    ensures { result ≡ end_shown end }
{
    let firings = end.firings;
    match end.count {
        Some(_) => End {
            next: Some(wide(end.next)),
            firings,
        },
        None => End {
            next: None,
            firings,
        },
    }
}

// The listing of an unjoined overlap with its ends, as deciding leaves them.
fn show<'a>(
    program: &'a [u8],
    places: &[u16],
    goal: &[u16],
    bounds: &[u16],
    one: &mut [u16],
    two: &mut [u16],
    shown: Shown,
    output: &mut [u8],
) -> CheckReply
    requires { ShowReady program.now places.now goal.now bounds.now one.old two.old shown }
    ensures { Checked program.now output.old output.new result }
{
    let v = shown.variables;
    let e = CONSTRAINT_SIZE * shown.count;
    let w = v + v;
    let a = listed_cells(shown.one);
    let b = listed_cells(shown.two);
    let partners = shown.partners;
    let listed = verdicts::Shown {
        first: shown.first,
        second: shown.second,
        heads: shown.heads,
        partners,
        variables: v,
        one: end_shown(shown.one),
        two: end_shown(shown.two),
    };
    fail(
        program,
        places,
        &goal[..e],
        &bounds[..w],
        &mut one[..a],
        &mut two[..b],
        listed,
        output,
    )
}

// The check of a program as read, from its tables.
fn check_read<'a>(
    program: &'a [u8],
    places: &[u16],
    rules: &[u16],
    n: usize,
    output: &mut [u8],
) -> CheckReply
    requires { CheckReady program.now places.now rules.now n }
    ensures { Checked program.now output.old output.new result }
{
    let mut goal = [0; 40];
    let mut bounds = [0; 56];
    let mut one = [0; 2590];
    let mut two = [0; 2590];
    match decide(rules, n, &mut goal, &mut bounds, &mut one, &mut two) {
        Ok(overlaps) => pass(overlaps, output),
        Err(shown) => show(
            program, places, &goal, &bounds, &mut one, &mut two, shown, output,
        ),
    }
}

// The check of a program, from its text into the lent output: every input has its reply.
pub fn check<'a>(program: &'a [u8], output: &mut [u8]) -> CheckReply
    ensures { CheckReplied (check_reply program.now (length output.old))
        output.old output.new result
        × Demand3Of plain program.now output.old output.new result }
{
    let mut names = [0; 256];
    let mut places = [0; 256];
    let mut symbols = [0; 128];
    let mut rules = [0; 2048];
    match read_program(program, &mut names, &mut places, &mut symbols, &mut rules) {
        Err(at) => Err(Refusal {
            number: at.fault.number(),
            text: TextName::S,
            line: at.line,
        }),
        Ok(counts) => check_read(program, &places, &rules, counts.rules, output),
    }
}
