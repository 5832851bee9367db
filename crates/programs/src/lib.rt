// The reader of a program: it fills flat tables that the caller lends; a name is kept by its key and its place.
#![tactic(auto)]

mod adds;
mod declarations;
mod program;
mod rules;

use lines::Section;
pub use program::read_program;

// Where reading stands behind a line: the section, and how many symbols, rules and constants there are.
#[derive(Clone, Copy)]
pub struct Stage {
    pub section: Section,
    pub symbols: usize,
    pub rules: usize,
    pub constants: usize,
}

// How many symbols, rules and constants a program has.
#[derive(Clone, Copy)]
pub struct Counts {
    pub symbols: usize,
    pub rules: usize,
    pub constants: usize,
}
