// The library's public functions: the replies from bytes to bytes, reading alone, what the programs print, and the same for
// programs in other languages. `run`, `check` and `pages` are in crates of their own, and so are the answers, whose specs/ say what
// they mean.
#![tactic(auto)]

mod exported;
mod printing;
mod reading;

pub use answers::{CheckReply, Refusal, RunReply, TextName, Verdict, put_refusal};
pub use checking::check;
pub use exported::{roketuma_check, roketuma_pages, roketuma_run};
pub use paging::pages;
pub use printing::{put_check, put_reply, put_run};
pub use reading::{ReadReply, read, roketuma_read};
pub use running::run;
