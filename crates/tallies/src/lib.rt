// Two tables by symbol that a derivation keeps beside its constraints: how many there are of each symbol (document 02, W7), and when
// one last came. Each function equals the definition that its contract names, through specs/Symbols.antt.
#![tactic(auto)]

pub mod coming;
pub mod counting;
