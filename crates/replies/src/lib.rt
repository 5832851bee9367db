// The two replies, from bytes to bytes: definitions and what is proved of them. The code that keeps to them is in the crates running, checking
// and roketuma.

#![tactic(auto)]
