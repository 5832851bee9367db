// What the public functions answer. What an answer means and promises is in specs/; the functions are in the crates running, checking,
// paging and roketuma.
#![tactic(auto)]

ghost use Rattle.std.specs.Prelude.{Ok, ◌≡◌};
ghost use Rattle.answers.specs.Promises.{listed_bytes};

mod numbers;
mod refusals;

pub use numbers::{check_number, refusal_number};
pub use refusals::put_refusal;

// The letter of a text: S for a program's, G for a goal's.
#[derive(Clone, Copy, PartialEq, Eq)]
pub enum TextName {
    S,
    G,
}

// A refusal: its number, the text, and the line counted from 1, or 0 where no line is meant. The number is no enum: C and print take
// it for every number, and so do the promises of `refusal_number` and `put_refusal`.
#[derive(Clone, Copy)]
pub struct Refusal {
    pub number: u8,
    pub text: TextName,
    pub line: u16,
}

// A verdict as it was listed, with the length of the listing: a pass, or an unjoined overlap.
#[derive(Clone, Copy)]
pub enum Verdict {
    Confluent(usize),
    Unjoined(usize),
}

impl Verdict {
    // The length of the listing.
    #[tactic(auto, unfolding(crate::specs::Promises::listed_bytes))]
    pub fn length(self) -> usize
        ensures { result ≡ listed_bytes (Ok self) }
    {
        match self {
            Verdict::Confluent(n) => n,
            Verdict::Unjoined(n) => n,
        }
    }
}

// The answer of a run: the length of the listing that was written, or a refusal.
pub type RunReply = Result<usize, Refusal>;

// The answer of a check: the verdict that was listed, or a refusal.
pub type CheckReply = Result<Verdict, Refusal>;
