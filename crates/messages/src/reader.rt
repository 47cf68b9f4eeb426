// Reading a payload, a function for each message. Places are those of document 01's payload octets.
// Tests are joined by `&`, with no early exit: what is received mostly passes them all.
ghost use Rattle.std.specs.Prelude.{◌≡◌, ◌+◌, ◌<◌, ◌≤◌, true, [], length};
ghost use Rattle.messages.specs.Table.{slac_parm_req, slac_parm_cnf, start_atten_char_ind, atten_char_ind, atten_char_rsp, mnbc_sound_ind, validate_req, validate_cnf, slac_match_req, slac_match_cnf, atten_profile_ind, count_at, head, filled_size, match_fields, is_counted};
ghost use Rattle.messages.specs.Layout.{size, holds};
ghost use Rattle.messages.specs.Reading.{check, yes, Beside, payload_rules, frame_rules};
ghost use Rattle.messages.specs.Answers.{message_of, answer_of};
ghost use Rattle.messages.specs.Private.{kind_of, Reads, PayloadOf};

use crate::editions::{any_id, forwarding_to, is_attempt, resp_type};
use crate::group_values::count_at;
use crate::heads::HEAD;
use crate::id_octets::is_free;
use crate::kinds::{Form, Kind};
use crate::{
    Attempt, BROADCAST, CarAddress, Edition, Message, ModemAddress, NID_LIMIT, Nid, Nmk,
    RESULT_LIMIT, Random, Receiver, Refusal, RunId, StationAddress, is_receiver, is_unicast,
    timer_limit,
};
use octets::{is_zero, low_number_at, number_at, octet_at};

// The message, unless an address (5) or a fixed octet (6) is wrong.
fn decide(addresses: bool, fixed: bool, message: Message) -> Result<Message, Refusal>
    ensures { (e : Edition) (b : Beside) → answer_of e result b ≡ check addresses 5 (check fixed 6 (yes (message_of e message b))) }
{
    if !addresses {
        return Err(Refusal::BadAddress);
    }
    if !fixed {
        return Err(Refusal::BadOctet);
    }
    Ok(message)
}

// A frame's payload, with the frame's destination and source.
#[derive(Clone, Copy)]
struct Payload<'a> {
    edition: Edition,
    octets: &'a [u8],
    dst: u64,
    src: u64,
}

impl<'a> Payload<'a> {
    // The n octets behind a frame's head. Inlined: in `body` n is a number that the compiler knows, so that no octet's place is tested.
    #[inline(always)]
    fn of(edition: Edition, frame: &'a [u8], n: usize) -> Payload<'a>
        requires { (n < 256) × (size head + n ≤ length frame.now) }
        ensures { PayloadOf edition frame.now n result.edition result.octets.now result.dst result.src }
    {
        Payload {
            edition,
            octets: &frame[HEAD..HEAD + n],
            dst: number_at(frame, 0, 6),
            src: number_at(frame, 6, 6),
        }
    }

    fn slac_parm_req(self) -> Result<Message, Refusal>
        ensures { Reads self.entry.edition result (payload_rules self.entry.edition slac_parm_req 0 self.entry.dst self.entry.src self.entry.octets.now) }
    {
        let run = number_at(self.octets, 2, 8);
        let addresses = is_unicast(self.src) & (self.dst == BROADCAST);
        let fixed = is_zero(self.octets, 0, 2);
        decide(
            addresses,
            fixed,
            Message::SlacParmReq {
                car: CarAddress(self.src),
                run: RunId(run),
            },
        )
    }

    fn slac_parm_cnf(self) -> Result<Message, Refusal>
        ensures { Reads self.entry.edition result (payload_rules self.entry.edition slac_parm_cnf 0 self.entry.dst self.entry.src self.entry.octets.now) }
    {
        let attempt = number_at(self.octets, 6, 2);
        let run = number_at(self.octets, 17, 8);
        let addresses = is_unicast(self.src) & is_unicast(self.dst);
        let fixed = (number_at(self.octets, 0, 6) == BROADCAST)
            & is_attempt(self.edition, attempt)
            & (number_at(self.octets, 8, 1) == resp_type(self.edition))
            & (number_at(self.octets, 9, 6) == forwarding_to(self.edition, self.dst))
            & is_zero(self.octets, 15, 2);
        decide(
            addresses,
            fixed,
            Message::SlacParmCnf {
                station: StationAddress(self.src),
                car: CarAddress(self.dst),
                attempt: Attempt(attempt),
                run: RunId(run),
            },
        )
    }

    fn start_atten_char_ind(self) -> Result<Message, Refusal>
        ensures { Reads self.entry.edition result (payload_rules self.entry.edition start_atten_char_ind 0 self.entry.dst self.entry.src self.entry.octets.now) }
    {
        let attempt = number_at(self.octets, 2, 2);
        let run = number_at(self.octets, 11, 8);
        let addresses = is_unicast(self.src) & (self.dst == BROADCAST);
        let fixed = is_zero(self.octets, 0, 2)
            & is_attempt(self.edition, attempt)
            & (number_at(self.octets, 4, 1) == resp_type(self.edition))
            & (number_at(self.octets, 5, 6) == forwarding_to(self.edition, self.src));
        decide(
            addresses,
            fixed,
            Message::StartAttenCharInd {
                car: CarAddress(self.src),
                attempt: Attempt(attempt),
                run: RunId(run),
            },
        )
    }

    fn mnbc_sound_ind(self) -> Result<Message, Refusal>
        ensures { Reads self.entry.edition result (payload_rules self.entry.edition mnbc_sound_ind 0 self.entry.dst self.entry.src self.entry.octets.now) }
    {
        let count = octet_at(self.octets, 19);
        let run = number_at(self.octets, 20, 8);
        let random = Random(number_at(self.octets, 36, 8), number_at(self.octets, 44, 8));
        let addresses = is_unicast(self.src) & (self.dst == BROADCAST);
        let fixed = is_zero(self.octets, 0, 2) & is_free(self.octets, 2, any_id(self.edition));
        decide(
            addresses,
            fixed,
            Message::MnbcSoundInd {
                car: CarAddress(self.src),
                count,
                run: RunId(run),
                random,
            },
        )
    }

    fn atten_char_ind(self, count: usize) -> Result<Message, Refusal>
        ensures { Reads self.entry.edition result (payload_rules self.entry.edition atten_char_ind count self.entry.dst self.entry.src self.entry.octets.now) }
    {
        let run = number_at(self.octets, 8, 8);
        let sounds = octet_at(self.octets, 50);
        let any = any_id(self.edition);
        let addresses = is_unicast(self.src) & is_unicast(self.dst);
        let fixed = is_zero(self.octets, 0, 2)
            & (number_at(self.octets, 2, 6) == self.dst)
            & is_free(self.octets, 16, any)
            & is_free(self.octets, 33, any)
            & (count_at(self.octets, 51) == count);
        decide(
            addresses,
            fixed,
            Message::AttenCharInd {
                station: StationAddress(self.src),
                car: CarAddress(self.dst),
                run: RunId(run),
                sounds,
                count,
            },
        )
    }

    fn atten_char_rsp(self) -> Result<Message, Refusal>
        ensures { Reads self.entry.edition result (payload_rules self.entry.edition atten_char_rsp 0 self.entry.dst self.entry.src self.entry.octets.now) }
    {
        let run = number_at(self.octets, 8, 8);
        let any = any_id(self.edition);
        let addresses = is_unicast(self.src) & is_unicast(self.dst);
        let fixed = is_zero(self.octets, 0, 2)
            & (number_at(self.octets, 2, 6) == self.src)
            & is_free(self.octets, 16, any)
            & is_free(self.octets, 33, any)
            & is_zero(self.octets, 50, 1);
        decide(
            addresses,
            fixed,
            Message::AttenCharRsp {
                car: CarAddress(self.src),
                station: StationAddress(self.dst),
                run: RunId(run),
            },
        )
    }

    fn atten_profile_ind(self, count: usize) -> Result<Message, Refusal>
        ensures { Reads self.entry.edition result (payload_rules self.entry.edition atten_profile_ind count self.entry.dst self.entry.src self.entry.octets.now) }
    {
        let car = number_at(self.octets, 0, 6);
        let addresses = is_unicast(self.src) & is_unicast(self.dst) & is_unicast(car);
        let fixed = count_at(self.octets, 6) == count;
        decide(
            addresses,
            fixed,
            Message::AttenProfileInd {
                modem: ModemAddress(self.src),
                station: StationAddress(self.dst),
                car: CarAddress(car),
                count,
            },
        )
    }

    #[tactic(auto, using(octets::proofs::LoopLaws::value_one, octets::proofs::LoopLaws::low_value_one))]
    fn validate_req(self) -> Result<Message, Refusal>
        ensures { Reads self.entry.edition result (payload_rules self.entry.edition validate_req 0 self.entry.dst self.entry.src self.entry.octets.now) }
    {
        let timer = octet_at(self.octets, 1);
        let addresses = is_unicast(self.src) & is_receiver(self.dst);
        let fixed = is_zero(self.octets, 0, 1)
            & (u64::from(timer) < timer_limit(self.dst))
            & (number_at(self.octets, 2, 1) == 0x01);
        decide(
            addresses,
            fixed,
            Message::ValidateReq {
                car: CarAddress(self.src),
                receiver: Receiver(self.dst),
                timer,
            },
        )
    }

    #[tactic(auto, using(octets::proofs::LoopLaws::value_one, octets::proofs::LoopLaws::low_value_one))]
    fn validate_cnf(self) -> Result<Message, Refusal>
        ensures { Reads self.entry.edition result (payload_rules self.entry.edition validate_cnf 0 self.entry.dst self.entry.src self.entry.octets.now) }
    {
        let toggles = octet_at(self.octets, 1);
        let result = octet_at(self.octets, 2);
        let addresses = is_unicast(self.src) & is_unicast(self.dst);
        let fixed = is_zero(self.octets, 0, 1) & (result < RESULT_LIMIT);
        decide(
            addresses,
            fixed,
            Message::ValidateCnf {
                station: StationAddress(self.src),
                car: CarAddress(self.dst),
                toggles,
                result,
            },
        )
    }

    // Whether octets 0-65 of a match message are right but for the RunID: MVFLength, the car and the station, the identifiers.
    // Inlined for the same reason.
    #[inline(always)]
    fn is_match(self, mvflength: u64, car: u64, station: u64) -> bool
        ensures { result ≡ holds 0 (match_fields self.entry.edition mvflength car station []) self.entry.octets.now }
    {
        let any = any_id(self.edition);
        is_zero(self.octets, 0, 2)
            & (number_at(self.octets, 2, 2) == mvflength)
            & is_free(self.octets, 4, any)
            & (number_at(self.octets, 21, 6) == car)
            & is_free(self.octets, 27, any)
            & (number_at(self.octets, 44, 6) == station)
    }

    fn slac_match_req(self) -> Result<Message, Refusal>
        ensures { Reads self.entry.edition result (payload_rules self.entry.edition slac_match_req 0 self.entry.dst self.entry.src self.entry.octets.now) }
    {
        let run = number_at(self.octets, 50, 8);
        let addresses = is_unicast(self.src) & is_unicast(self.dst);
        let fixed = self.is_match(0x3E00, self.src, self.dst);
        decide(
            addresses,
            fixed,
            Message::SlacMatchReq {
                car: CarAddress(self.src),
                station: StationAddress(self.dst),
                run: RunId(run),
            },
        )
    }

    fn slac_match_cnf(self) -> Result<Message, Refusal>
        ensures { Reads self.entry.edition result (payload_rules self.entry.edition slac_match_cnf 0 self.entry.dst self.entry.src self.entry.octets.now) }
    {
        let run = number_at(self.octets, 50, 8);
        let nid = low_number_at(self.octets, 66, 7);
        let nmk = Nmk(number_at(self.octets, 74, 8), number_at(self.octets, 82, 8));
        let addresses = is_unicast(self.src) & is_unicast(self.dst);
        let fixed = self.is_match(0x5600, self.dst, self.src) & (nid < NID_LIMIT);
        decide(
            addresses,
            fixed,
            Message::SlacMatchCnf {
                station: StationAddress(self.src),
                car: CarAddress(self.dst),
                run: RunId(run),
                nid: Nid(nid),
                nmk,
            },
        )
    }
}

// Reads the payload of a frame of this form: the part that the kind's row of the table says.
pub(crate) fn body(edition: Edition, frame: &[u8], form: Form) -> Result<Message, Refusal>
    requires { (is_counted edition (count_at (kind_of form.kind)) form.count ≡ true) × (filled_size (kind_of form.kind) form.count ≤ length frame.now) }
    ensures { Reads edition result (frame_rules edition (yes (record { kind = kind_of form.kind; count = form.count })) frame.now) }
{
    let Form { kind, count } = form;
    match kind {
        Kind::SlacParmReq => Payload::of(edition, frame, 10).slac_parm_req(),
        Kind::SlacParmCnf => Payload::of(edition, frame, 25).slac_parm_cnf(),
        Kind::StartAttenCharInd => Payload::of(edition, frame, 19).start_atten_char_ind(),
        Kind::AttenCharInd => Payload::of(edition, frame, 52 + count).atten_char_ind(count),
        Kind::AttenCharRsp => Payload::of(edition, frame, 51).atten_char_rsp(),
        Kind::MnbcSoundInd => Payload::of(edition, frame, 52).mnbc_sound_ind(),
        Kind::ValidateReq => Payload::of(edition, frame, 3).validate_req(),
        Kind::ValidateCnf => Payload::of(edition, frame, 3).validate_cnf(),
        Kind::SlacMatchReq => Payload::of(edition, frame, 66).slac_match_req(),
        Kind::SlacMatchCnf => Payload::of(edition, frame, 90).slac_match_cnf(),
        Kind::AttenProfileInd => Payload::of(edition, frame, 8 + count).atten_profile_ind(count),
    }
}
