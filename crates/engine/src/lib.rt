// The engine: firing, also at stated positions, and the derivation, on flat cells lent as slices.
// Each function equals the definition of `semantics` that its contract names, through the decodings of `tables` and of specs/.
#![tactic(auto)]

pub mod derivation;
pub mod entering;
pub mod firing;
pub mod solving;
pub mod stated;
