// The reader of a goal over a program as read: it fills flat tables that the caller lends.
#![tactic(auto)]

mod goal;
mod letters;

pub use goal::read_goal;

// How many constraints and variables a goal has, as far as it is read, and how many constants it and its program have.
#[derive(Clone, Copy)]
pub struct GoalCounts {
    pub constraints: usize,
    pub letters: usize,
    pub constants: usize,
}

// A term's cell with a variable numbered by its letter, and how many letters there are after it.
#[derive(Clone, Copy)]
pub struct LetterRead {
    pub cell: u16,
    pub count: usize,
}

// The cells of a constraint with its variables numbered by their letters, and how many letters there are after it.
#[derive(Clone, Copy)]
pub struct RowRead {
    pub count: usize,
    pub cells: [u16; 5],
}
