// What is known of two states before constraints are placed: variables numbered anew, classes of constraints by what a renaming
// cannot change, and the order in which constraints are placed.
#![tactic(auto)]

pub mod classes;
pub mod colours;
pub mod first;
pub mod keys;
pub mod numbering;
pub mod order;
