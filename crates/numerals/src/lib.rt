// The names of constants, by the keys of their spellings.
//   naming      the name of a constant: a numeral without its leading zeros
#![tactic(auto)]

pub mod naming;

// The key of a constant's name, and how many bytes of its spelling stand before the name.
#[derive(Drop)]
pub struct Constant {
    pub key: u64,
    pub zeros: u16,
}
