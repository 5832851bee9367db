// An overlap from two rules and a pairing of their heads; and whether two rules have a head symbol in common.
#![tactic(auto)]

pub mod finishing;
pub mod joining;
pub mod laying;
pub mod overlapping;
pub mod sharing;
