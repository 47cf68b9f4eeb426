// The log of a session: a configuration, events and replies, in octets.
#![tactic(auto)]

mod judging;
mod reader;
mod writer;

ghost use Rattle.std.specs.Prelude.{◌≡◌, length};
ghost use Rattle.octets.specs.Octets.{splice};
ghost use Rattle.messages.specs.Writing.{length_of, octets_of};
ghost use Rattle.session_log.specs.Layout.{configuration_in, head_at};
ghost use Rattle.session_log.specs.Reading.{read_rules};
ghost use Rattle.session_log.specs.Writing.{given_in, write_rules};
ghost use Rattle.session_log.specs.Answers.{number_of, places_of, answer_of};

use messages::{ModemAddress, Nid, Nmk, StationAddress};

// The most octets of a log.
pub const MOST_OCTETS: usize = 65536;

// How many octets the head takes: five numbers.
pub const HEAD_OCTETS: usize = 20;

// How many octets the configuration takes: two addresses, NID, NMK, the exemption, the edition and our carriers.
pub const CONFIGURATION_OCTETS: usize = 47;

// How many octets stand in front of an event's or a reply's own: three numbers.
pub const ITEM_OCTETS: usize = 12;

// Where the events start: where the configuration ends.
pub const EVENTS_START: usize = HEAD_OCTETS + CONFIGURATION_OCTETS;

// An event's kind, reading and length; or a reply's refusal or 0, indication and length.
// Three numbers and no struct: heads are lent to `write` as such, and `head_at`, `numbers` and `given_in` speak of lists of numbers.
pub type Head = [u32; 3];

// A configuration as it was given; the exemption is 1 where validation is not required, else 0, the edition 0 for ISO, 1 for SAE,
// and our carriers are any number.
// The exemption and the edition are any numbers: reading judges them.
#[derive(Clone, Copy)]
pub struct Configuration {
    pub address: StationAddress,
    pub modem: ModemAddress,
    pub nid: Nid,
    pub nmk: Nmk,
    pub exemption: u32,
    pub edition: u32,
    pub carriers: u32,
}

// Why a log is refused, each cause with its number.
#[derive(Clone, Copy, PartialEq, Eq)]
pub enum Cause {
    TooLong = 1,
    TooShort,
    CountsDiffer,
    EventsElsewhere,
    RepliesElsewhere,
    EndElsewhere,
    TooWide,
    BadSetting,
    BadKind,
    BadReading,
    BadEventLength,
    BadPilot,
    BadIndication,
    BadReplyLength,
    OutputTooShort,
}

// A session to be logged: its configuration, the heads of its events and the octets of all events back to back, and so its replies.
#[derive(Clone, Copy)]
pub struct Session<'a> {
    pub configuration: Configuration,
    pub events: &'a [Head],
    pub octets: &'a [u8],
    pub replies: &'a [Head],
    pub frames: &'a [u8],
}

// A cause's number, from 1 on.
impl From<Cause> for u32 {
    ghost from_gives = { λ cause n. n ≡ number_of cause };

    fn from(cause: Cause) -> u32 {
        cause as u32
    }
}

// How many events a log has, and as many replies; where the events start, and where the replies start.
#[derive(Clone, Copy)]
pub struct Places {
    pub count: usize,
    pub events: usize,
    pub replies: usize,
}

// The configuration in a log.
pub fn configuration_in(log: &[u8]) -> Configuration
    ensures { result ≡ configuration_in log.now }
{
    let nmk = Nmk(
        octets::number_at(log, HEAD_OCTETS + 19, 8),
        octets::number_at(log, HEAD_OCTETS + 27, 8),
    );
    Configuration {
        address: StationAddress(octets::number_at(log, HEAD_OCTETS, 6)),
        modem: ModemAddress(octets::number_at(log, HEAD_OCTETS + 6, 6)),
        nid: Nid(octets::low_number_at(log, HEAD_OCTETS + 12, 7)),
        nmk,
        exemption: reader::number_in(log, HEAD_OCTETS + 35),
        edition: reader::number_in(log, HEAD_OCTETS + 39),
        carriers: reader::number_in(log, HEAD_OCTETS + 43),
    }
}

// The head of the event or the reply at a place of a log; it ends its length behind its three numbers.
#[tactic(auto, using(crate::proofs::WalkLaws::head_past), unfolding(crate::specs::Layout::numbers_at))]
pub fn head_at(log: &[u8], at: usize) -> Head
    ensures { result ≡ head_at log.now at }
{
    if log.len() < at {
        return [0; 3];
    }
    [
        reader::number_in(log, at),
        reader::number_in(log, at + 4),
        reader::number_in(log, at + 4 + 4),
    ]
}

// Reads a log: any octets, of any length.
pub fn read(log: &[u8]) -> Result<Places, Cause>
    ensures { answer_of result ≡ places_of log.now (read_rules log.now) }
{
    reader::parts(log)?;
    reader::fields(log)?;
    Ok(Places {
        count: reader::size_in(log, 0),
        events: EVENTS_START,
        replies: reader::size_in(log, 12),
    })
}

// Writes the log of a session from the first octet of an output, and gives how many octets it takes. A refusal changes nothing.
pub fn write(session: Session, out: &mut [u8]) -> Result<usize, Cause>
    ensures result_value { answer_of result ≡ length_of (write_rules (given_in session.entry) (length out.old)) }
    ensures out_after { out.new ≡ splice 0 (octets_of (write_rules (given_in session.entry) (length out.old))) out.old }
{
    writer::judge(session)?;
    let total = writer::total_of(session.events, session.replies);
    if total > out.len() {
        return Err(Cause::OutputTooShort);
    }
    writer::put_log(session, out);
    Ok(total)
}
