// Writing a reply's octets.
ghost use Rattle.std.specs.Prelude.{◌≡◌, ◌≤◌, length};
ghost use Rattle.octets.specs.Octets.{splice};
ghost use Rattle.ends.specs.Answers.{answer_of};
ghost use Rattle.messages.specs.Answers.{number_of, checked_of};
ghost use Rattle.script.specs.Replies.{reply_octets, longest_reply, reply_head, query_reply, refusal_number, number};
ghost use Rattle.script.specs.Private.{Fits, Answered, Replied};

use crate::told::Told;
use crate::{NumberOctets, REPLY_OCTETS};
use ends::Answer;
use messages::Refusal;

// A number's four octets, low octet first.
#[tactic(auto, unfolding(octets::specs::Octets::low_bytes))]
fn number_octets(n: u32) -> NumberOctets
    ensures { result ≡ number n }
{
    let mut number = [0; 4];
    octets::put_low_number(&mut number, 0, 4, u64::from(n));
    number
}

// The octets of an answer's refusal, or of 0.
pub(crate) fn answer_octets(answer: Answer) -> NumberOctets
    ensures { result ≡ number (refusal_number (answer_of answer)) }
{
    match answer {
        Err(refusal) => number_octets(u32::from(refusal)),
        Ok(_) => number_octets(0),
    }
}

// Writes a reply's first octets: refusal, indication and length.
#[tactic(auto, using(crate::proofs::OutputLaws::head_put))]
fn put_head(out: &mut [u8], refusal: u32, indication: u32, size: usize)
    requires { reply_octets ≤ length out.old }
    ensures { out.new ≡ splice 0 (reply_head refusal indication size) out.old }
{
    octets::put_low_number(out, 0, 4, u64::from(refusal));
    octets::put_low_number(out, 4, 4, u64::from(indication));
    octets::put_low_number(out, 8, 4, size as u64);
}

// Writes the reply to what is refused, and gives its length.
#[tactic(auto, using(crate::proofs::OutputLaws::length_head))]
fn put_refusal(out: &mut [u8], refusal: Refusal) -> usize
    requires { longest_reply ≤ length out.old }
    ensures { Replied (reply_head (number_of refusal) 0 0) out.old out.new result }
{
    put_head(out, u32::from(refusal), 0, 0);
    REPLY_OCTETS
}

// Writes the first octets of an answer's reply, and gives the reply's length.
pub(crate) fn put_answer(out: &mut [u8], answer: Answer) -> usize
    requires { Fits (answer_of answer) out.old }
    ensures { Answered (answer_of answer) out.old out.new result }
{
    match answer {
        Err(refusal) => put_refusal(out, refusal),
        Ok(done) => {
            put_head(out, 0, u32::from(done.indication), done.octets);
            REPLY_OCTETS + done.octets
        }
    }
}

// Writes the reply to a query, and gives its length.
pub(crate) fn put_told<A: Told>(out: &mut [u8], answer: Result<A, Refusal>) -> usize
    requires { longest_reply ≤ length out.old }
    ensures { Replied (query_reply A.octets (checked_of answer)) out.old out.new result }
{
    match answer {
        Err(refusal) => put_refusal(out, refusal),
        Ok(told) => {
            put_head(out, 0, 0, A::SIZE);
            told.put(out);
            REPLY_OCTETS + A::SIZE
        }
    }
}
