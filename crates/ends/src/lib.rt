// What both ends of the wire share: what a call gives, the clock, a message sent, and fields and runs of words.
#![tactic(auto)]

pub mod fields;
pub mod runs;

ghost use Rattle.std.specs.Prelude.{◌≡◌, ◌-◌};
ghost use Rattle.messages.specs.Answers.{message_of, besides, checked_of};
ghost use Rattle.ends.specs.Answers.{answer_of, silently, indication_number};
ghost use Rattle.ends.specs.Clock as clock;
ghost use Rattle.ends.specs.Clock.{tick_time};
ghost use Rattle.ends.specs.Sending.{told_of, Sends};

use messages::{Edition, GroupValues, Ids, Message, Refusal};

// How often a request or a report is sent again: C_EV_match_retry.
pub const RETRIES: u8 = 2;

// How many M-SOUNDs a car sends: C_EV_match_MNBC.
pub const SOUNDS: u8 = 10;

// The wait for a response, in milliseconds as the others: TT_match_response.
pub const RESPONSE_TIME: u32 = 200;

// The wait for the link: TT_match_join.
pub const JOINING_TIME: u32 = 12000;

// The longest gap between two readings that a tick takes.
pub const LONGEST_GAP: u32 = 60000;

// What a call tells besides its frames; the first three at either end, the others at the car's.
#[derive(Clone, Copy, PartialEq, Eq)]
pub enum Indication {
    Nothing = 0,
    NoLink = 1,
    LinkEstablished = 2,
    Found = 3,
    PotentiallyFound = 4,
    NotFound = 5,
    KeyGiven = 6,
}

// An indication's number, 0 for none.
impl From<Indication> for u32 {
    ghost from_gives = { λ indication number. number ≡ indication_number indication };

    fn from(indication: Indication) -> u32 {
        indication as u32
    }
}

// What an accepted call gives: how many frames of how many octets in all stand in the output, and the indication.
#[derive(Clone, Copy)]
pub struct Done {
    pub frames: u8,
    pub octets: usize,
    pub indication: Indication,
}

// What a call gives, or a refusal.
pub type Answer = Result<Done, Refusal>;

// An accepted call with no frame.
pub fn silent(indication: Indication) -> Answer
    ensures { result ≡ silently indication }
{
    Ok(Done {
        frames: 0,
        octets: 0,
        indication,
    })
}

// The time between two readings of a clock that wraps.
pub fn elapsed(reading: u32, last: u32) -> u32
    ensures { result ≡ clock.elapsed reading last }
{
    reading.wrapping_sub(last)
}

// A tick's elapsed time: 16 where the configuration is bad, 15 where the room is less than the least, 14 where the gap is too long.
pub fn tick_time(
    good: bool,
    least: usize,
    room: usize,
    reading: u32,
    last: u32,
) -> Result<u32, Refusal>
    ensures { checked_of result ≡ tick_time good least room reading last }
{
    if !good {
        return Err(Refusal::BadConfiguration);
    }
    if room < least {
        return Err(Refusal::OutputTooShort);
    }
    let time = elapsed(reading, last);
    if LONGEST_GAP < time {
        return Err(Refusal::TickGap);
    }
    Ok(time)
}

// What is left of a time after so many milliseconds: the excess is dropped.
pub fn left_after(time: u32, elapsed: u32) -> u32
    ensures { result ≡ time - elapsed }
{
    time.saturating_sub(elapsed)
}

// What is told of one frame that was written, with an indication; or what writing refuses.
pub fn told(written: Result<usize, Refusal>, indication: Indication) -> Answer
    ensures { answer_of result ≡ told_of indication (checked_of written) }
{
    let octets = written?;
    Ok(Done {
        frames: 1,
        octets,
        indication,
    })
}

// Writes a message in an edition from the output's first octet and tells of its one frame, with an indication; or what writing refuses.
pub fn send(
    edition: Edition,
    message: Message,
    values: GroupValues,
    ids: Ids,
    indication: Indication,
    out: &mut [u8],
) -> Answer
    ensures { Sends (message_of edition message (besides values ids)) indication out.old out.new result }
{
    let written = messages::write(edition, message, values, ids, out);
    told(written, indication)
}
