// What is decided of a frame before the state is looked at: 16, 15, reading, 19, 7.
ghost use Rattle.std.specs.Prelude.{◌≡◌, List, ℕ};
ghost use Rattle.messages.specs.Answers.{message_of};
ghost use Rattle.messages.specs.Reading.{Beside};
ghost use Rattle.amplitude.specs.Reading as amplitude;
ghost use Rattle.amplitude.specs.Reading.{summary_of};
ghost use Rattle.car_rules.specs.Received.{map_in};
ghost use Rattle.car.specs.Judge.{groups_in, judged_of, for_us_rule, addressed_rule, judge_rule, for_us};

use amplitude::MapMessage;
use car_rules::{Configuration, LEAST_OUTPUT};
use messages::{CarAddress, Edition, Message, Nid, Nmk, Refusal, RunId, StationAddress};

// A station's message: PARM.CNF, a report with its sounds used, whose group values stand in the frame, MATCH.CNF, or one that no state takes.
#[derive(Clone, Copy)]
pub(crate) enum StationMessage {
    ParmCnf,
    Report(u8),
    MatchCnf { nid: Nid, nmk: Nmk },
    Untaken,
}

// The run of a message that has none, as the rules give it (`Received.received_as`).
const NO_RUN: RunId = RunId(0);

// A station's message to us, with its run: 0 where it has none.
#[derive(Clone, Copy)]
pub(crate) struct Received {
    pub station: StationAddress,
    pub run: RunId,
    pub message: StationMessage,
}

// A station's message in a frame to a car; 7, where it does not go to us, or comes from us.
fn for_us(
    config: Configuration,
    car: CarAddress,
    station: StationAddress,
    run: RunId,
    message: StationMessage,
) -> Result<Received, Refusal>
    ensures { result ≡ for_us config car (record { station = station; run = run; message = message }) }
{
    // A station's and a car's address are two types: their numbers are compared.
    if car != config.address || station.0 == config.address.0 {
        return Err(Refusal::NotForUs);
    }
    Ok(Received {
        station,
        run,
        message,
    })
}

// By the message: 19 where only a station receives it, then 7.
fn addressed(config: Configuration, message: Message) -> Result<Received, Refusal>
    ensures { (b : Beside) → judged_of result b.groups ≡ addressed_rule config (message_of Edition.Iso message b) }
{
    match message {
        Message::SlacParmCnf {
            station,
            car,
            run,
            ..
        } => for_us(config, car, station, run, StationMessage::ParmCnf),
        Message::AttenCharInd {
            station,
            car,
            run,
            sounds,
            ..
        } => for_us(config, car, station, run, StationMessage::Report(sounds)),
        Message::ValidateCnf { station, car, .. } => {
            for_us(config, car, station, NO_RUN, StationMessage::Untaken)
        }
        Message::SlacMatchCnf {
            station,
            car,
            run,
            nid,
            nmk,
        } => for_us(
            config,
            car,
            station,
            run,
            StationMessage::MatchCnf { nid, nmk },
        ),
        _ => Err(Refusal::OnlyForStations),
    }
}

// A message of amplitude maps, which no state takes: 7, or reading's refusal.
fn map_addressed(config: Configuration, octets: &[u8]) -> Result<Received, Refusal>
    ensures { (g : List ℕ) → judged_of result g ≡ for_us_rule config (map_in (summary_of (amplitude.read_rules octets.now))) }
{
    match amplitude::read(octets)? {
        MapMessage::AmpMapReq {
            receiver,
            sender,
            ..
        }
        | MapMessage::AmpMapCnf {
            receiver,
            sender,
            ..
        } => {
            let car = CarAddress(receiver.0);
            let station = StationAddress(sender.0);
            for_us(config, car, station, NO_RUN, StationMessage::Untaken)
        }
    }
}

// All that needs no state, in its order.
#[tactic(auto, unfolding(crate::specs::Judge::judge_rule, car_rules::specs::Received::received))]
pub(crate) fn judge(config: Configuration, octets: &[u8], room: usize) -> Result<Received, Refusal>
    ensures { judged_of result (groups_in octets.now) ≡ judge_rule config room octets.now }
{
    if !config.good {
        return Err(Refusal::BadConfiguration);
    }
    if room < LEAST_OUTPUT {
        return Err(Refusal::OutputTooShort);
    }
    match messages::read(Edition::Iso, octets) {
        Ok(message) => addressed(config, message),
        Err(Refusal::UnknownType) => map_addressed(config, octets),
        Err(refusal) => Err(refusal),
    }
}
