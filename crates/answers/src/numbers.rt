// An answer as one number, for programs in other languages.
ghost use Rattle.std.specs.Prelude.{Ok, ◌≡◌, ◌+◌, ◌*◌, ◌<◌};
ghost use Rattle.answers.specs.Answers.{name_byte};
ghost use Rattle.answers.specs.Promises.{listed_bytes, check_number};

use crate::{CheckReply, Refusal, TextName, Verdict};

// The byte of a text's letter.
fn name_byte(text: TextName) -> u64
    ensures { result ≡ name_byte text }
{
    match text {
        TextName::S => 83,
        TextName::G => 71,
    }
}

// A refusal as one number.
pub fn refusal_number(refusal: Refusal) -> u64
    ensures { result ≡ 4294967296 * refusal.number + 65536 * name_byte refusal.text + refusal.line }
{
    let text = refusal.text;
    let number = refusal.number as u64;
    let line = refusal.line as u64;
    4294967296 * number + 65536 * name_byte(text) + line
}

// A verdict as one number: the length of a pass's listing, or 2^31 more than that of an unjoined overlap's.
fn verdict_number(verdict: Verdict) -> u64
    requires { listed_bytes (Ok verdict) < 2147483648 }
    ensures { result ≡ check_number (Ok verdict) }
{
    match verdict {
        Verdict::Confluent(n) => n as u64,
        Verdict::Unjoined(n) => 2147483648 + n as u64,
    }
}

// The answer of a check as one number: that of the verdict, or of a refusal.
pub fn check_number(reply: CheckReply) -> u64
    requires { listed_bytes reply < 2147483648 }
    ensures { result ≡ check_number reply }
{
    match reply {
        Ok(verdict) => verdict_number(verdict),
        Err(refusal) => refusal_number(refusal),
    }
}
