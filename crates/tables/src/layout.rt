// The layout of the tables by name; specs/Layout.antt has the same numbers for the contracts.

// How many names a table has room for.
pub const MAX_NAMES: usize = 256;

// How many symbols there can be.
pub const MAX_SYMBOLS: usize = 64;

// The numbers of the first constant and of the first rule; symbols count from 0.
pub const FIRST_CONSTANT: usize = 64;

pub const FIRST_RULE: usize = 192;

// The cell of variable 0.
pub const FIRST_VARIABLE: u16 = 256;

// The bytes that a name has at most.
pub const MAX_NAME: usize = 8;

// The place of the goal's first byte.
pub const GOAL_PLACE: usize = 16384;

// The cells of a constraint, of a symbol and of a rule's row.
pub const CONSTRAINT_SIZE: usize = 5;

pub const SYMBOL_SIZE: usize = 2;

pub const ROW_SIZE: usize = 64;

// Where a row holds how many heads are kept, its R line, its three counts, and its heads, body and equations.
pub const KEPT_CELL: usize = 1;

pub const LINE_CELL: usize = 2;

pub const HEADS_CELL: usize = 3;

pub const BODY_CELL: usize = 4;

pub const EQUATIONS_CELL: usize = 5;

pub const FIRST_HEAD: usize = 6;

pub const FIRST_BODY: usize = 26;

pub const FIRST_EQUATION: usize = 56;
