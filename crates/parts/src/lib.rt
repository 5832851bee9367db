// Parts of two states that share no free variable with what is left of them: a part of the first state is lined up with one of
// the second, and both can be left out where they are equal.
#![tactic(auto)]

pub mod apart;
pub mod lining;
