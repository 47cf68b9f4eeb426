// What is decided of a frame before the state and the records are looked at: 16, 15, reading, 17, 7; of the eleven messages, and apart from them of AMP_MAP.REQ.
ghost use Rattle.std.specs.Prelude.{◌≡◌, ◌&&◌, eqb};
ghost use Rattle.messages.specs.Answers.{number_of, message_of};
ghost use Rattle.messages.specs.Reading.{Beside, beside_of, read_rules};
ghost use Rattle.amplitude.specs.Reading.{requested};
ghost use Rattle.rules.specs.Received.{not_us, map_as};
ghost use Rattle.receiving.specs.Judge.{judged_of, map_judged_of, for_us, for_us_rule, addressed_rule, judge_rule, map_judge_rule};

use amplitude::{MapMessage, Sender};
use messages::{BROADCAST, CarAddress, Message, Receiver, Refusal, RunId};
use records::requests::RunMessage;
use rules::{Configuration, LEAST_OUTPUT};

// What concerns a record that the car has: START, SOUND or RSP of a run, PROFILE with its group count, whose values stand in the frame, or the second VALIDATE.REQ with its timer.
#[derive(Clone, Copy)]
pub enum OwnMessage {
    Run { run: RunId, message: RunMessage },
    Profile(usize),
    ValidateSecond(u8),
}

// What a car's frame asks for: PARM.REQ, a message at its own record, the first VALIDATE.REQ, whose answer looks at all records, or MATCH.REQ, whose identifiers stand in the frame.
#[derive(Clone, Copy)]
pub enum Request {
    Parm(RunId),
    Own(OwnMessage),
    ValidateFirst,
    Match(RunId),
}

// A request, and the car that asks.
#[derive(Clone, Copy)]
pub struct Asking {
    pub car: CarAddress,
    pub request: Request,
}

// AMP_MAP.REQ of a car, with its number of carriers.
#[derive(Clone, Copy)]
pub struct MapAsking {
    pub car: CarAddress,
    pub carriers: usize,
}

// Whether a car is neither us nor our modem. The three addresses are of three types, so here and below their numbers are compared.
fn is_not_us(config: Configuration, car: CarAddress) -> bool
    ensures { result ≡ not_us config car }
{
    car.0 != config.address.0 && car.0 != config.modem.0
}

// 7, where a frame does not go to us, or its car is us or our modem.
#[tactic(auto, unfolding(crate::specs::Judge::for_us))]
fn for_us(
    config: Configuration,
    ours: bool,
    car: CarAddress,
    request: Request,
) -> Result<Asking, Refusal>
    ensures { result ≡ for_us (ours && not_us config car) car request }
{
    if ours && is_not_us(config, car) {
        Ok(Asking { car, request })
    } else {
        Err(Refusal::NotForUs)
    }
}

// START, SOUND or RSP of a run.
fn of_run(run: RunId, message: RunMessage) -> Request
    ensures { result ≡ Request.Own (OwnMessage.Run run message) }
{
    Request::Own(OwnMessage::Run { run, message })
}

// VALIDATE.REQ by its destination: the second goes to all, the first to one station.
fn validate_req(
    config: Configuration,
    car: CarAddress,
    receiver: Receiver,
    timer: u8,
) -> Result<Asking, Refusal>
    ensures { (b : Beside) → judged_of result b ≡ addressed_rule config (message_of config.edition (Message.ValidateReq car timer receiver) b) }
{
    if receiver.0 == BROADCAST {
        for_us(
            config,
            true,
            car,
            Request::Own(OwnMessage::ValidateSecond(timer)),
        )
    } else {
        for_us(
            config,
            receiver.0 == config.address.0,
            car,
            Request::ValidateFirst,
        )
    }
}

// By the message: 17 where only a car receives it, then 7.
fn addressed(config: Configuration, message: Message) -> Result<Asking, Refusal>
    ensures { (b : Beside) → judged_of result b ≡ addressed_rule config (message_of config.edition message b) }
{
    let us = config.address;
    match message {
        Message::SlacParmReq { car, run } => for_us(config, true, car, Request::Parm(run)),
        Message::StartAttenCharInd { car, attempt, run } => {
            for_us(config, true, car, of_run(run, RunMessage::Start(attempt)))
        }
        Message::MnbcSoundInd {
            car,
            count,
            run,
            ..
        } => for_us(config, true, car, of_run(run, RunMessage::Sound(count))),
        Message::AttenCharRsp { car, station, run } => {
            for_us(config, station.0 == us.0, car, of_run(run, RunMessage::Rsp))
        }
        Message::ValidateReq {
            car,
            receiver,
            timer,
        } => validate_req(config, car, receiver, timer),
        Message::SlacMatchReq { car, station, run } => {
            for_us(config, station.0 == us.0, car, Request::Match(run))
        }
        Message::AttenProfileInd {
            modem,
            station,
            car,
            count,
        } => {
            let ours = (station.0 == us.0) & (modem == config.modem);
            for_us(config, ours, car, Request::Own(OwnMessage::Profile(count)))
        }
        _ => Err(Refusal::OnlyForCars),
    }
}

// Whether a refusal is that of a type which is in no row of the eleven messages' table.
pub fn is_unknown(refusal: Refusal) -> bool
    ensures { result ≡ eqb (number_of refusal) 3 }
{
    refusal == Refusal::UnknownType
}

// All that needs neither the state nor a record, in its order; a type that is none of the eleven messages' is refused with 3.
pub fn judge(config: Configuration, octets: &[u8], room: usize) -> Result<Asking, Refusal>
    ensures { judged_of result (beside_of (read_rules config.edition octets.now)) ≡ judge_rule config room octets.now }
{
    if !config.good {
        return Err(Refusal::BadConfiguration);
    }
    if room < LEAST_OUTPUT {
        return Err(Refusal::OutputTooShort);
    }
    let message = messages::read(config.edition, octets)?;
    addressed(config, message)
}

// AMP_MAP.REQ to a station: 7, where that is another one, or the car is us or our modem.
fn map_req(
    config: Configuration,
    receiver: Receiver,
    sender: Sender,
    carriers: usize,
) -> Result<MapAsking, Refusal>
    ensures { map_judged_of result ≡ for_us_rule config (map_as (requested receiver.0 sender.0 carriers)) }
{
    let car = CarAddress(sender.0);
    if !(receiver.0 == config.address.0 && is_not_us(config, car)) {
        return Err(Refusal::NotForUs);
    }
    Ok(MapAsking { car, carriers })
}

// A frame whose type is none of the eleven messages': it may be one of amplitude maps; 17 for AMP_MAP.CNF, which we never ask for.
pub fn judge_map(config: Configuration, octets: &[u8]) -> Result<MapAsking, Refusal>
    ensures { map_judged_of result ≡ map_judge_rule config octets.now }
{
    let message = amplitude::read(octets)?;
    match message {
        MapMessage::AmpMapReq {
            receiver,
            sender,
            carriers,
        } => map_req(config, receiver, sender, carriers),
        MapMessage::AmpMapCnf { .. } => Err(Refusal::OnlyForCars),
    }
}
