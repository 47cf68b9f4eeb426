// What a car sends, each with the car after it.
ghost use Rattle.std.specs.Prelude.{◌<◌, ◌≡◌, true, [], ◌∷◌, length};
ghost use Rattle.messages.specs.Answers.{message_of};
ghost use Rattle.messages.specs.Table.{is_unicast};
ghost use Rattle.ends.specs.Sending.{Writable};
ghost use Rattle.car_rules.specs.Constants.{frame_count};
ghost use Rattle.car_rules.specs.Sending as rule;
ghost use Rattle.car_rules.specs.Sending.{parm_req, rsp, match_req, message_from, done};
ghost use Rattle.messages.specs.Reading.{no_beside};
ghost use Rattle.car.specs.Steps.{Gives, Ready, sent_by};

use car_rules::{Car, SOUNDING_FRAMES, STARTS, Stepped};
use ends::Indication;
use messages::{Attempt, Edition, ISO_ATTEMPT, Message, StationAddress};

// The car, and one frame of it that can be written, in the ISO edition.
fn sent(car: Car, message: Message, indication: Indication, out: &mut [u8]) -> Stepped
    requires { Writable (message_of Edition.Iso message no_beside) (length out.old) }
    ensures { Gives (sent_by car (message_of Edition.Iso message no_beside) indication) out.old out.new result }
{
    let answer = ends::send(
        Edition::Iso,
        message,
        messages::no_groups(),
        messages::no_ids(),
        indication,
        out,
    );
    Stepped { car, answer }
}

// PARM.REQ.
// `Ready` stands in each contract: it is a fact of a car and an output together, and a type of both would be made and taken apart in each function.
#[tactic(auto, unfolding(car_rules::specs::Sending::frame_from))]
pub(crate) fn parm_req(car: Car, out: &mut [u8]) -> Stepped
    requires { Ready car out.old }
    ensures { Gives (done car (parm_req ∷ []) Indication.Nothing) out.old out.new result }
{
    let message = Message::SlacParmReq {
        car: car.config.address,
        run: car.run,
    };
    sent(car, message, Indication::Nothing, out)
}

// Number k of Sounding's frames: START, or M-SOUND with its count.
fn sounding_message(car: Car, k: u8) -> Message
    requires { k < frame_count }
    ensures { message_of Edition.Iso result no_beside ≡ message_from car (rule.sounding_frame k) }
{
    if k < STARTS {
        Message::StartAttenCharInd {
            car: car.config.address,
            attempt: Attempt(ISO_ATTEMPT),
            run: car.run,
        }
    } else {
        Message::MnbcSoundInd {
            car: car.config.address,
            count: SOUNDING_FRAMES - 1 - k,
            run: car.run,
            random: car.random,
        }
    }
}

// Number k of Sounding's frames, sent.
pub(crate) fn sounding_frame(car: Car, k: u8, out: &mut [u8]) -> Stepped
    requires { Ready car out.old × (k < frame_count) }
    ensures { Gives (done car (rule.sounding_frame k ∷ []) Indication.Nothing) out.old out.new result }
{
    sent(car, sounding_message(car, k), Indication::Nothing, out)
}

// ATTEN_CHAR.RSP to a station.
// A station's address is any number (`messages::StationAddress` is what reading and C give), so each contract says that this one is unicast; a type that says so would be undone in each message.
#[tactic(auto, using(crate::proofs::SendLaws::rsp_writable), unfolding(car_rules::specs::Sending::frame_from))]
pub(crate) fn response(car: Car, station: StationAddress, out: &mut [u8]) -> Stepped
    requires { Ready car out.old × (is_unicast station.0 ≡ true) }
    ensures { Gives (done car (rsp station ∷ []) Indication.Nothing) out.old out.new result }
{
    let message = Message::AttenCharRsp {
        car: car.config.address,
        station,
        run: car.run,
    };
    sent(car, message, Indication::Nothing, out)
}

// MATCH.REQ to a station, with an indication.
#[tactic(auto, using(crate::proofs::SendLaws::match_req_writable), unfolding(car_rules::specs::Sending::frame_from))]
pub(crate) fn match_req(
    car: Car,
    station: StationAddress,
    indication: Indication,
    out: &mut [u8],
) -> Stepped
    requires { Ready car out.old × (is_unicast station.0 ≡ true) }
    ensures { Gives (done car (match_req station ∷ []) indication) out.old out.new result }
{
    let message = Message::SlacMatchReq {
        car: car.config.address,
        station,
        run: car.run,
    };
    sent(car, message, indication, out)
}
