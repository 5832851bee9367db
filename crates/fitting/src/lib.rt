// Where a rule fits: matching, the search for positions, and what is known already of rules that fit nowhere, on flat cells.
// Each function equals the definition of `semantics` that its contract names, through the decodings of `tables` and of specs/.
#![tactic(auto)]

pub mod known;
pub mod matching;
pub mod search;
