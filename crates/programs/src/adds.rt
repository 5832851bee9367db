// What J, H, B and E lines add to the last rule: numbers 4, 6 and 7.
ghost use Rattle.std.specs.Prelude.{◌≡◌, false, List, ℕ, ◌*◌, ◌≤◌, ◌<◌, length};
ghost use Rattle.text.specs.Splits.{Holds};
ghost use Rattle.syntax.specs.Forms.{kept_form, equation_form, is_equation_faulty};
ghost use Rattle.lines.specs.Read.{Lent};
ghost use Rattle.programs.specs.Read.{part_form, Sound, AddsIn, head_gained};

use crate::Stage;
use faults::Fault;
use lines::constraints::read_constraint;
use lines::heads::are_terms;
use lines::rows::add_cells;
use lines::terms::read_terms;
use tables::layout::{EQUATIONS_CELL, FIRST_EQUATION, FIRST_HEAD, HEADS_CELL, KEPT_CELL, ROW_SIZE};
use tables::wide;
use text::fields::Fields;

// An H or B line: one constraint more of the last rule, in its heads (part 0) or in its body (part 1). Its row counts them in
// cells 3 and 4, and holds them from cells 6 and 26 on, at most 4 and 6.
pub fn constraint_line(
    f: Fields,
    part: usize,
    stage: Stage,
    symbols: &[u16],
    names: &mut [u64],
    places: &mut [u16],
    rules: &mut [u16],
) -> Result<Stage, Fault>
    requires { Lent f 0 names.old places.old × (length symbols.now ≡ 2 * stage.symbols) × (length rules.old ≡ 2048)
        × Sound rules.old stage × (0 < stage.rules) × (part ≤ 1) }
    ensures { AddsIn (part_form part) f stage symbols.now names.old places.old
        rules.old names.new places.new rules.new result
        × head_gained part stage rules.new result }
{
    let row = ROW_SIZE * (stage.rules - 1);
    let slot = HEADS_CELL + part;
    let h = wide(rules[row + slot]);
    let most = 4 + 2 * part;
    let r = read_constraint(f, most <= h, 0, stage.constants, symbols, names, places)?;
    let cells = r.cells;
    let start = FIRST_HEAD + 20 * part + 5 * h;
    add_cells(rules, row + slot, row + start, &cells);
    Ok(Stage {
        constants: r.count,
        ..stage
    })
}

// A J line: as an H line, and its row counts one more of the heads as kept.
pub fn kept_line(
    f: Fields,
    stage: Stage,
    symbols: &[u16],
    names: &mut [u64],
    places: &mut [u16],
    rules: &mut [u16],
) -> Result<Stage, Fault>
    requires { Lent f 0 names.old places.old × (length symbols.now ≡ 2 * stage.symbols) × (length rules.old ≡ 2048)
        × Sound rules.old stage × (0 < stage.rules) }
    ensures { AddsIn kept_form f stage symbols.now names.old places.old
        rules.old names.new places.new rules.new result }
{
    let cell = ROW_SIZE * (stage.rules - 1) + KEPT_CELL;
    let next = constraint_line(f, 0, stage, symbols, names, places, rules)?;
    rules[cell] += 1;
    Ok(next)
}

// Number 4 of an E line: not three fields, two terms.
fn is_equation_faulty(f: Fields) -> bool
    ensures { ((fs : List (List ℕ)) → Holds fs f → result ≡ is_equation_faulty fs) × (result ≡ false → f.count ≡ 3) }
{
    f.count != 3 || !are_terms(f, 1)
}

// An E line: one equation more of the last rule.
pub fn equation_line(
    f: Fields,
    stage: Stage,
    names: &mut [u64],
    places: &mut [u16],
    rules: &mut [u16],
) -> Result<Stage, Fault>
    requires { Lent f 0 names.old places.old × (length rules.old ≡ 2048) × Sound rules.old stage
        × (0 < stage.rules) }
    ensures { (used : List ℕ) → AddsIn equation_form f stage used names.old places.old
        rules.old names.new places.new rules.new result }
{
    if is_equation_faulty(f) {
        return Err(Fault::FieldsFaulty);
    }
    let row = ROW_SIZE * (stage.rules - 1);
    let slot = row + EQUATIONS_CELL;
    let h = wide(rules[slot]);
    let full = 4 <= h;
    if full {
        return Err(Fault::LimitPassed);
    }
    let t = read_terms(f, 1, 0, stage.constants, names, places)?;
    let cells = t.cells;
    let sides = [cells[0], cells[1]];
    let start = FIRST_EQUATION + 2 * h;
    add_cells(rules, slot, row + start, &sides);
    Ok(Stage {
        constants: t.count,
        ..stage
    })
}
