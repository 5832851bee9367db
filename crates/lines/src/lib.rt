// A line of a program or a goal, held as the keys of its fields: its form, its constraint and its terms as cells; and the weight
// of constraints.
#![tactic(auto)]

pub mod constraints;
pub mod forms;
pub mod heads;
pub mod rows;
pub mod terms;
pub mod weights;

// The forms of a line, by its first letter.
#[derive(Clone, Copy)]
pub enum LineForm {
    Symbol,
    Rule,
    Kept,
    Head,
    Body,
    Equation,
    Goal,
    Nothing,
}

// Where a line stands in a program: among the K lines, or in a rule behind its R or J lines, its H lines, its B lines or its E
// lines.
#[derive(Clone, Copy)]
pub enum Section {
    Symbols,
    Kept,
    Heads,
    Body,
    Equations,
}

// A term's cell, and how many constants there are after it.
#[derive(Clone, Copy)]
pub struct TermRead {
    pub cell: u16,
    pub count: usize,
}

// The cells of a line's terms, with 0 behind the last, and how many constants there are after it.
#[derive(Clone, Copy)]
pub struct TermsRead {
    pub count: usize,
    pub cells: [u16; 4],
}

// The cells of a J, H, B or G line's constraint, and how many constants there are after it.
#[derive(Clone, Copy)]
pub struct ConstraintRead {
    pub count: usize,
    pub cells: [u16; 5],
}
