// Bytes, lines, fields, names and numbers: the code over the definitions in specs/.
//   table       the constant table of the 256 classes
//   fields      a line split into its fields; numbers and words by a field's key and place
//   parting     the input of `sheetrun`, parted at its first line `GOAL`
#![tactic(auto)]

pub mod fields;
pub mod parting;
pub mod table;

pub use parting::split_goal;
pub use table::{Class, classes};
