// A program and a goal as read, in their tables: what the stages of a run and of a check ask. Definitions and what is proved of them;
// the code that cites them is in the crates running, checking and roketuma.

#![tactic(auto)]
