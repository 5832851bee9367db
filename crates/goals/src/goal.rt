// A goal's text over a program's tables, line by line.
ghost use Rattle.std.specs.Prelude.{◌≡◌, List, ℕ, ◌≤◌, length};
ghost use Rattle.text.specs.Keys.{key_of};
ghost use Rattle.syntax.specs.Forms.{form_of};
ghost use Rattle.syntax.specs.Goals.{is_goal_form};
ghost use Rattle.tables.specs.Layout.{goal_place};
ghost use Rattle.lines.specs.Read.{Lent};
ghost use Rattle.goals.specs.ReadGoal.{Room, GoalFits, GoalLineIn, GoalLinesIn, GoalIn};

use crate::GoalCounts;
use crate::letters::number_letters;
use faults::{Fault, FaultAt};
use lines::LineForm;
use lines::constraints::read_constraint;
use lines::forms::form_of;
use lines::rows::write_cells;
use lines::weights::weight_of;
use reader::line_at;
use tables::layout::{CONSTRAINT_SIZE, GOAL_PLACE};
use text::fields::Fields;

// Whether a line is a G line, by the key of its first field.
fn is_goal(key: u64) -> bool
    ensures { (f : List ℕ) → key ≡ key_of f → result ≡ is_goal_form (form_of f) }
{
    matches!(form_of(key), LineForm::Goal)
}

// A line of a goal by its fields: number 3, then 4 to 7, and its constraint behind the others.
fn goal_line(
    f: Fields,
    counts: GoalCounts,
    symbols: &[u16],
    names: &mut [u64],
    places: &mut [u16],
    cells: &mut [u16],
    letters: &mut [u8],
) -> Result<GoalCounts, Fault>
    requires { Lent f goal_place names.old places.old × Room symbols.now names.old places.old cells.old letters.old
        × GoalFits letters.old counts }
    ensures { GoalLineIn f counts symbols.now names.old places.old cells.old
        letters.old names.new places.new cells.new letters.new result }
{
    let keys = f.keys;
    if !is_goal(keys[0]) {
        return Err(Fault::FormMisplaced);
    }
    let m = counts.constraints;
    let r = read_constraint(
        f,
        64 <= m,
        GOAL_PLACE,
        counts.constants,
        symbols,
        names,
        places,
    )?;
    let row = number_letters(r.cells, letters, counts.letters);
    write_cells(cells, CONSTRAINT_SIZE * m, &row.cells);
    Ok(GoalCounts {
        constraints: m + 1,
        letters: row.count,
        constants: r.count,
    })
}

// The lines of a goal in order: numbers 2 to 7.
fn goal_lines(
    goal: &[u8],
    symbols: &[u16],
    names: &mut [u64],
    places: &mut [u16],
    constants: usize,
    cells: &mut [u16],
    letters: &mut [u8],
) -> Result<GoalCounts, FaultAt>
    requires { Room symbols.now names.old places.old cells.old letters.old × (constants ≤ 64)
        × (length goal.now ≤ 16384) }
    ensures { GoalLinesIn goal.now symbols.now names.old places.old constants
        names.new places.new cells.new letters.new result }
{
    let classes = text::classes();
    let mut at = 0;
    let mut number: u16 = 1;
    let mut counts = GoalCounts {
        constraints: 0,
        letters: 0,
        constants,
    };
    while at < goal.len() {
        let f = line_at(&classes, goal, at);
        if f.faulty {
            return Err(Fault::LineFaulty.at(number));
        }
        let read = goal_line(f, counts, symbols, names, places, cells, letters);
        counts = read.map_err(|fault| fault.at(number))?;
        at = f.end + 1;
        number += 1;
    }
    Ok(counts)
}

// A goal's text over the symbols and constants of a program: numbers 1 to 7, and 10. The table of symbols is lent as far as it is
// used.
pub fn read_goal(
    goal: &[u8],
    symbols: &[u16],
    names: &mut [u64],
    places: &mut [u16],
    constants: usize,
    cells: &mut [u16],
    letters: &mut [u8],
) -> Result<GoalCounts, FaultAt>
    requires { Room symbols.now names.old places.old cells.old letters.old × (constants ≤ 64) }
    ensures { GoalIn goal.now symbols.now names.old places.old constants
        names.new places.new cells.new letters.new result }
{
    if 16384 < goal.len() {
        return Err(Fault::TextTooLong.at(0));
    }
    let counts = goal_lines(goal, symbols, names, places, constants, cells, letters)?;
    let end = CONSTRAINT_SIZE * counts.constraints;
    let heavy = 512 < weight_of(symbols, &cells[..end]);
    if heavy {
        return Err(Fault::GoalTooHeavy.at(0));
    }
    Ok(counts)
}
