// A program's text: its lines in order, then its rules in order.
ghost use Rattle.std.specs.Prelude.{◌≡◌, ◌≤◌, length};
ghost use Rattle.lines.specs.Read.{Lent};
ghost use Rattle.programs.specs.Read.{Room, Sound, Begun, LineIn, LinesIn, ProgramIn};

use crate::adds::{constraint_line, equation_line, kept_line};
use crate::declarations::{rule_line, symbol_line};
use crate::rules::check_rules;
use crate::{Counts, Stage};
use faults::{Fault, FaultAt};
use lines::forms::form_of;
use lines::{LineForm, Section};
use reader::line_at;
use tables::layout::{ROW_SIZE, SYMBOL_SIZE};
use text::fields::Fields;

// A line by its fields: number 3, then what its form asks.
fn read_line(
    f: Fields,
    number: u16,
    stage: Stage,
    names: &mut [u64],
    places: &mut [u16],
    symbols: &mut [u16],
    rules: &mut [u16],
) -> Result<Stage, Fault>
    requires { Lent f 0 names.old places.old × (length symbols.old ≡ 128) × (length rules.old ≡ 2048)
        × Sound rules.old stage × Begun stage }
    ensures { LineIn f number stage names.old places.old symbols.old rules.old
        names.new places.new symbols.new rules.new result }
{
    let keys = f.keys;
    let form = form_of(keys[0]);
    let section = stage.section.after(form).ok_or(Fault::FormMisplaced)?;
    let at = Stage { section, ..stage };
    let used = SYMBOL_SIZE * stage.symbols;
    match form {
        LineForm::Symbol => symbol_line(f, at, names, places, symbols),
        LineForm::Rule => rule_line(f, number, at, names, places, rules),
        LineForm::Kept => kept_line(f, at, &symbols[..used], names, places, rules),
        LineForm::Head => constraint_line(f, 0, at, &symbols[..used], names, places, rules),
        LineForm::Body => constraint_line(f, 1, at, &symbols[..used], names, places, rules),
        LineForm::Equation => equation_line(f, at, names, places, rules),
        LineForm::Goal | LineForm::Nothing => Err(Fault::FormMisplaced),
    }
}

// The lines of a text in order: numbers 2 to 7.
fn read_lines(
    text: &[u8],
    names: &mut [u64],
    places: &mut [u16],
    symbols: &mut [u16],
    rules: &mut [u16],
) -> Result<Stage, FaultAt>
    requires { Room names.old places.old symbols.old rules.old × (length text.now ≤ 16384) }
    ensures { LinesIn text.now names.old places.old names.new
        places.new symbols.new rules.new result }
{
    let classes = text::classes();
    let mut at = 0;
    let mut number: u16 = 1;
    let mut stage = Stage {
        section: Section::Symbols,
        symbols: 0,
        rules: 0,
        constants: 0,
    };
    while at < text.len() {
        let f = line_at(&classes, text, at);
        if f.faulty {
            return Err(Fault::LineFaulty.at(number));
        }
        let read = read_line(f, number, stage, names, places, symbols, rules);
        stage = read.map_err(|fault| fault.at(number))?;
        at = f.end + 1;
        number += 1;
    }
    Ok(stage)
}

// A program's text into the lent tables: number 1, its lines in order, then its rules in order.
pub fn read_program(
    text: &[u8],
    names: &mut [u64],
    places: &mut [u16],
    symbols: &mut [u16],
    rules: &mut [u16],
) -> Result<Counts, FaultAt>
    requires { Room names.old places.old symbols.old rules.old }
    ensures { ProgramIn text.now names.old places.old names.new
        places.new symbols.new rules.new result }
{
    let long = 16384 < text.len();
    if long {
        return Err(Fault::TextTooLong.at(0));
    }
    let stage = read_lines(text, names, places, symbols, rules)?;
    let k = SYMBOL_SIZE * stage.symbols;
    let n = ROW_SIZE * stage.rules;
    check_rules(&symbols[..k], &rules[..n])?;
    Ok(Counts {
        symbols: stage.symbols,
        rules: stage.rules,
        constants: stage.constants,
    })
}
