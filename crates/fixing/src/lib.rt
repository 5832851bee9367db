// Variables that every renaming of two states must pair, found by their weights.
#![tactic(auto)]

pub mod hubs;
pub mod weights;
