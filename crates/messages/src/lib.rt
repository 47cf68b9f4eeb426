// The eleven messages of SLAC matching, the nine and the two of validation (ISO 15118-3 Annex A and SAE J2931/4 over HomePlug Green PHY): reading and writing their frames.
#![tactic(auto)]

mod editions;
mod group_values;
pub mod heads;
mod id_octets;
mod kinds;
mod reader;
mod writer;

ghost use Rattle.std.specs.Prelude.{◌≡◌, length};
ghost use Rattle.octets.specs.Octets.{splice};
ghost use Rattle.messages.specs.Table.{is_unicast, is_receiver, timer_limit};
ghost use Rattle.messages.specs.Reading.{read_rules, beside_of, no_groups, no_id};
ghost use Rattle.messages.specs.Writing.{write_rules, length_of, octets_of};
ghost use Rattle.messages.specs.Answers.{number_of, message_of, besides, answer_of, checked_of};

use writer::Outgoing;

// A charging station's address: its six octets as a number, first octet most significant.
#[derive(Clone, Copy, PartialEq, Eq)]
pub struct StationAddress(pub u64);

// A car's address.
#[derive(Clone, Copy, PartialEq, Eq)]
pub struct CarAddress(pub u64);

// The address of the modem that a station is driven through.
#[derive(Clone, Copy, PartialEq, Eq)]
pub struct ModemAddress(pub u64);

// Whom a validate request goes to: one station, or all.
#[derive(Clone, Copy, PartialEq, Eq)]
pub struct Receiver(pub u64);

// The RunID of one matching: its eight octets as a number, first octet most significant.
#[derive(Clone, Copy, PartialEq, Eq)]
pub struct RunId(pub u64);

// The network ID: its seven octets as a number, low octet first; below 2^54 where it is a valid one.
#[derive(Clone, Copy, PartialEq, Eq)]
pub struct Nid(pub u64);

// The network membership key: its first and its last eight octets.
#[derive(Clone, Copy, PartialEq, Eq)]
pub struct Nmk(pub u64, pub u64);

// The random value of M-SOUND: its first and its last eight octets.
#[derive(Clone, Copy, PartialEq, Eq)]
pub struct Random(pub u64, pub u64);

// Whose tables hold: ISO 15118-3 or SAE J2931/4.
#[derive(Clone, Copy, PartialEq, Eq)]
pub enum Edition {
    Iso,
    Sae,
}

// NUM_SOUNDS and Time_Out of a try, as their two octets stand. A number and no enum: any may be given to `write`, which refuses another with 6.
#[derive(Clone, Copy, PartialEq, Eq)]
pub struct Attempt(pub u64);

// How many group values ATTEN_PROFILE has at most.
pub const GROUPS: usize = 58;

// The group values of ATTEN_PROFILE; zeros past a message's group count.
pub type GroupValues = [u8; GROUPS];

// How many octets an identifier has.
pub const ID_OCTETS: usize = 17;

// The octets of an identifier.
pub type IdOctets = [u8; ID_OCTETS];

// The identifiers of a message, in the order of their octets: SENDER_ID; SOURCE_ID and RESP_ID; the vehicle's and the station's.
// Zeros where a message has none, and in the ISO edition.
#[derive(Clone, Copy)]
pub struct Ids {
    pub first: IdOctets,
    pub second: IdOctets,
}

// Why a call gives no answer, in the order of the numbers from 1 on.
#[derive(Clone, Copy, PartialEq, Eq)]
pub enum Refusal {
    TooShort = 1,
    BadHead,
    UnknownType,
    TooLong,
    BadAddress,
    BadOctet,
    NotForUs,
    WrongState,
    AdmissionClosed,
    RecordsFull,
    NoRecord,
    WrongPhase,
    BadSoundCount,
    TickGap,
    OutputTooShort,
    BadConfiguration,
    OnlyForCars,
    ReportsFull,
    OnlyForStations,
    NoSounds,
    EmptyRun,
    OtherTry,
    OtherGroupCount,
    OtherCarrierCount,
}

// A refusal's number, from 1 on.
impl From<Refusal> for u32 {
    ghost from_gives = { λ refusal number. number ≡ number_of refusal };

    fn from(refusal: Refusal) -> u32 {
        refusal as u32
    }
}

// A message without its group values and its identifiers.
#[derive(Clone, Copy)]
pub enum Message {
    SlacParmReq {
        car: CarAddress,
        run: RunId,
    },
    SlacParmCnf {
        station: StationAddress,
        car: CarAddress,
        attempt: Attempt,
        run: RunId,
    },
    StartAttenCharInd {
        car: CarAddress,
        attempt: Attempt,
        run: RunId,
    },
    AttenCharInd {
        station: StationAddress,
        car: CarAddress,
        run: RunId,
        sounds: u8,
        count: usize,
    },
    AttenCharRsp {
        car: CarAddress,
        station: StationAddress,
        run: RunId,
    },
    MnbcSoundInd {
        car: CarAddress,
        count: u8,
        run: RunId,
        random: Random,
    },
    ValidateReq {
        car: CarAddress,
        timer: u8,
        receiver: Receiver,
    },
    ValidateCnf {
        station: StationAddress,
        toggles: u8,
        car: CarAddress,
        result: u8,
    },
    SlacMatchReq {
        car: CarAddress,
        station: StationAddress,
        run: RunId,
    },
    SlacMatchCnf {
        station: StationAddress,
        car: CarAddress,
        run: RunId,
        nid: Nid,
        nmk: Nmk,
    },
    AttenProfileInd {
        modem: ModemAddress,
        station: StationAddress,
        car: CarAddress,
        count: usize,
    },
}

// The broadcast address: six FF.
pub const BROADCAST: u64 = 0xFFFFFFFFFFFF;

// The first number that is no NID: 2^54.
pub const NID_LIMIT: u64 = 0x40000000000000;

// The first number that is no result of validation.
pub const RESULT_LIMIT: u8 = 5;

// The one try of the ISO edition: ten sounds, 600 ms.
pub const ISO_ATTEMPT: u64 = 0x0A06;

// The SAE edition's first try: eight sounds, 200 ms.
pub const FIRST_ATTEMPT: u64 = 0x0802;

// The SAE edition's later tries: sixteen sounds, 1,000 ms.
pub const LATER_ATTEMPT: u64 = 0x100A;

// Whether an address is a unicast one: 48 bits, not all zero, an even first octet. With no early exit: a test mostly passes.
pub fn is_unicast(address: u64) -> bool
    ensures { result ≡ is_unicast address }
{
    (address != 0) & (address < 0x1000000000000) & (address / 0x10000000000 % 2 == 0)
}

// Whether a validate request may go to an address: a unicast one, or broadcast.
pub(crate) fn is_receiver(address: u64) -> bool
    ensures { result ≡ is_receiver address }
{
    address == BROADCAST || is_unicast(address)
}

// The first number that is no timer of a validate request to an address.
pub(crate) fn timer_limit(address: u64) -> u64
    ensures { result ≡ timer_limit address }
{
    if address == BROADCAST { 256 } else { 1 }
}

// Zeros in the place of group values.
#[tactic(auto, unfolding(crate::specs::Reading::no_groups))]
pub fn no_groups() -> GroupValues
    ensures { result ≡ no_groups }
{
    [0; GROUPS]
}

// Zeros in the place of an identifier.
#[tactic(auto, unfolding(crate::specs::Reading::no_id))]
pub fn no_id() -> IdOctets
    ensures { result ≡ no_id }
{
    [0; ID_OCTETS]
}

// Reads a frame in an edition: any octets, of any length.
#[tactic(auto, using(crate::proofs::FrameLaws::refusal_reads))]
pub fn read(edition: Edition, frame: &[u8]) -> Result<Message, Refusal>
    ensures { answer_of edition result (beside_of (read_rules edition frame.now)) ≡ read_rules edition frame.now }
{
    let form = kinds::form_in(edition, frame)?;
    reader::body(edition, frame, form)
}

// The group values of the message that a frame reads as; zeros past its count, and where it has none or cannot be read.
pub fn groups(edition: Edition, frame: &[u8]) -> GroupValues
    ensures { result ≡ (beside_of (read_rules edition frame.now)).groups }
{
    let Ok(message) = read(edition, frame) else {
        return no_groups();
    };
    match message {
        Message::AttenCharInd { count, .. } => group_values::groups_at(
            frame,
            heads::HEAD + 52,
            count,
        ),
        Message::AttenProfileInd { count, .. } => group_values::groups_at(
            frame,
            heads::HEAD + 8,
            count,
        ),
        _ => no_groups(),
    }
}

// Zeros in the place of identifiers.
pub fn no_ids() -> Ids
    ensures { (result.first ≡ no_id) × (result.second ≡ no_id) }
{
    Ids {
        first: no_id(),
        second: no_id(),
    }
}

// The identifiers of the message that a frame reads as; zeros where it has none or cannot be read.
pub fn identifiers(edition: Edition, frame: &[u8]) -> Ids
    ensures { (result.first ≡ (beside_of (read_rules edition frame.now)).first) × (result.second ≡ (beside_of (read_rules edition frame.now)).second) }
{
    let Ok(message) = read(edition, frame) else {
        return no_ids();
    };
    match message {
        Message::AttenCharInd { .. } | Message::AttenCharRsp { .. } => id_octets::ids_at(
            frame,
            heads::HEAD + 16,
            heads::HEAD + 33,
        ),
        Message::MnbcSoundInd { .. } => id_octets::one_id_at(frame, heads::HEAD + 2),
        Message::SlacMatchReq { .. } | Message::SlacMatchCnf { .. } => id_octets::ids_at(
            frame,
            heads::HEAD + 4,
            heads::HEAD + 27,
        ),
        _ => no_ids(),
    }
}

// Writes a message's frame from the first octet of an output; a refusal changes nothing.
pub fn write(
    edition: Edition,
    message: Message,
    groups: GroupValues,
    ids: Ids,
    out: &mut [u8],
) -> Result<usize, Refusal>
    ensures result_value { checked_of result ≡ length_of (write_rules (message_of edition message (besides groups ids)) (length out.old)) }
    ensures out_after { out.new ≡ splice 0 (octets_of (write_rules (message_of edition message (besides groups ids)) (length out.old))) out.old }
{
    let outgoing = Outgoing {
        edition,
        message,
        groups,
        ids,
    };
    let head = outgoing.head()?;
    let written = head.form.written_size();
    if out.len() < written {
        return Err(Refusal::OutputTooShort);
    }
    outgoing.put_frame(head, out);
    Ok(written)
}
