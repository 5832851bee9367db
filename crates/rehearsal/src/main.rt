// `rehearsal`: prints the reply to each input that an argument names, behind a line with its name.
// An input whose name begins with r is a program and a goal, as `sheetrun` gets them; any other is a program, as `sheetcheck` gets
// it, and where the name begins with p the pages of its check are printed. Then it puts each of the 256 bytes at each place of a
// program and of a goal, and prints the number that each meets.
#![tactic(auto)]

mod sweep;

ghost use Rattle.answers.specs.Answers.{Printed};
ghost use Rattle.rehearsal.specs.Answered.{answer_bytes};

use roketuma::{Refusal, pages, put_check, put_refusal, put_run};
use std::io::Write;
use std::rt::{Env, Files};
use std::{env, fs, io};
use sweep::swept;

// What an input is: a program and a goal; a program; a program whose pages are printed.
#[derive(Clone, Copy, PartialEq, Eq)]
enum Kind {
    Run,
    Check,
    Pages,
}

// What an input is whose name begins with a letter.
fn kind_of(letter: u8) -> Kind {
    match letter {
        b'r' => Kind::Run,
        b'p' => Kind::Pages,
        _ => Kind::Check,
    }
}

// What `sheetrun` prints on an input, or `sheetcheck`, into the front of an output; answers how many bytes.
fn put_answer(input: &[u8], with_goal: bool, out: &mut [u8; 32768]) -> usize
    ensures { Printed (answer_bytes with_goal input.now) out.old out.new result }
{
    if with_goal {
        put_run(input, out)
    } else {
        put_check(input, out)
    }
}

// Writes bytes as they stand.
fn print_bytes(rt: &impl Print, bytes: &[u8]) -> io::Result<()> {
    io::writer(rt).write_all(bytes)
}

// Writes the line of a refusal.
fn print_refusal(rt: &impl Print, refusal: Refusal) -> io::Result<()> {
    let mut line = [0u8; 32768];
    let text = refusal.text;
    let n = put_refusal(&mut line, refusal.number, text, refusal.line);
    print_bytes(rt, &line[..n])
}

// Writes the pages of the check of a program.
fn print_pages(rt: &impl Print, program: &[u8]) -> io::Result<()> {
    let mut out = [0u8; 41820];
    match pages(program, &mut out) {
        Ok(verdict) => print_bytes(rt, &out[..verdict.length()]),
        Err(refusal) => print_refusal(rt, refusal),
    }
}

// Writes what is printed on an input of a kind.
fn answer(rt: &impl Print, input: &[u8], kind: Kind) -> io::Result<()> {
    if kind == Kind::Pages {
        return print_pages(rt, input);
    }
    let mut out = [0u8; 32768];
    let n = put_answer(input, kind == Kind::Run, &mut out);
    print_bytes(rt, &out[..n])
}

// The reply to the input of a file; where it cannot be opened, a line on standard error.
fn rehearse(rt: &(impl Print + Eprint + Files), path: &str, kind: Kind) -> io::Result<()> {
    match fs::open(rt, path) {
        Ok(mut file) => {
            let mut input = [0u8; 40000];
            let n = streams::read_full(&mut file, &mut input)?;
            answer(rt, &input[..n], kind)
        }
        Err(error) => eprintln!(rt; "{path}: {error}"),
    }
}

// The reply to the input that an argument names.
fn rehearse_argument(rt: &(impl Print + Eprint + Files), path: &str) -> io::Result<()> {
    let name = path.as_bytes();
    let Some(letter) = name.first() else {
        return Ok(());
    };
    print_bytes(rt, name)?;
    print_bytes(rt, b"\n")?;
    rehearse(rt, path, kind_of(*letter))
}

// The digit of a text swept, printed.
fn print_digit(rt: &impl Print, i: usize, b: u8) -> io::Result<()> {
    let digits = [swept(i, b)];
    print_bytes(rt, &digits)
}

// All bytes at place i.
fn sweep_place(rt: &impl Print, i: usize) -> io::Result<()> {
    for b in 0..=255 {
        print_digit(rt, i, b)?;
    }
    print_bytes(rt, b"\n")
}

// All places of both texts.
fn sweep_all(rt: &impl Print) -> io::Result<()> {
    for i in 0..42 {
        sweep_place(rt, i)?;
    }
    Ok(())
}

// The replies to the inputs that the arguments name.
fn rehearse_all(rt: &(impl Print + Eprint + Files + Env + Alloc)) -> io::Result<()> {
    for path in env::args(rt)?.skip(1) {
        rehearse_argument(rt, path.as_str())?;
    }
    Ok(())
}

fn main(rt: HostRuntime) -> io::Result<()> {
    rehearse_all(&rt)?;
    sweep_all(&rt)
}
