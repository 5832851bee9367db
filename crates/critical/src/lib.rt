// Critical pairs: the walk over all overlaps of a program, and the verdict.
#![tactic(auto)]

pub mod deciding;
pub mod walking;
