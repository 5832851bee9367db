// The pages of a check, from a program's text into the lent output: the check into a listing of its own, and its pages.
// Its promises are CheckReplied and Demand3Of of crates/answers/specs/Promises.antt, in the layout `paged`.
#![tactic(auto)]

ghost use Rattle.std.specs.Prelude.{◌*◌, ◌≤◌, length};
ghost use Rattle.pages.specs.Pages.{pages_of, page_size, max_pages};
ghost use Rattle.replies.specs.Replies.{paged, laid_reply};
ghost use Rattle.answers.specs.Promises.{CheckReplied, Demand3Of};
ghost use Rattle.paging.specs.Paging.{PagesReplied};

use answers::{CheckReply, Refusal, TextName, Verdict};
use checking::check;
use pages::list_pages;

// The pages of a listing, or number 11; `passes` says that it is a pass's.
fn lay(listing: &[u8], passes: bool, output: &mut [u8]) -> CheckReply
    requires { length (pages_of listing.now) ≤ max_pages * page_size }
    ensures { PagesReplied «passes» listing.now output.old output.new result }
{
    match list_pages(output, listing) {
        None => Err(Refusal {
            number: 11,
            text: TextName::S,
            line: 0,
        }),
        Some(n) => {
            if passes {
                return Ok(Verdict::Confluent(n));
            }
            Ok(Verdict::Unjoined(n))
        }
    }
}

// The pages of the check of a program, from its text into the lent output: every input has its reply.
pub fn pages<'a>(program: &'a [u8], output: &mut [u8]) -> CheckReply
    ensures { CheckReplied (laid_reply paged program.now (length output.old))
        output.old output.new result
        × Demand3Of paged program.now output.old output.new result }
{
    let mut plain = [0; 32768];
    match check(program, &mut plain) {
        Ok(verdict) => match verdict {
            Verdict::Confluent(n) => lay(&plain[..n], true, output),
            Verdict::Unjoined(n) => lay(&plain[..n], false, output),
        },
        // No `?`: behind its conversion the promise is not found to be that of the refusal.
        Err(refusal) => Err(refusal),
    }
}
