// What so many milliseconds come to in each state.
#![tactic(auto, unfolding(car_rules::specs::Ticks::tick_done, octets::specs::Octets::splice, ends::specs::Lists::joins))]

ghost use Rattle.std.specs.Prelude.{ℕ, ◌<◌, ◌≡◌, true, List};
ghost use Rattle.messages.specs.Table.{is_unicast};
ghost use Rattle.car_rules.specs.Cars.{in_state};
ghost use Rattle.car_rules.specs.Constants.{frame_count};
ghost use Rattle.car_rules.specs.Invariant.{InState};
ghost use Rattle.car_rules.specs.Ticks as rule;
ghost use Rattle.car_rules.specs.Ticks.{next_frame, tick_done};
ghost use Rattle.car.specs.Steps.{silent_as, Gives, Ready};
ghost use Rattle.car.specs.Reports.{ReportsGood};

use crate::{cars, choice, sending};
use car_rules::{Car, GATHER_TIME, Key, SOUNDING_FRAMES, SPACING, State, Stepped};
use ends::{Indication, RESPONSE_TIME};
use messages::StationAddress;

// The car in a state, with nothing sent.
fn wait(car: Car, state: State) -> Stepped
    ensures { result ≡ silent_as (in_state state car) Indication.Nothing }
{
    cars::silent(Car { state, ..car }, Indication::Nothing)
}

// Asking: PARM.REQ again, or no link.
fn asking(car: Car, time: u32, retries: u8, elapsed: u32, out: &mut [u8]) -> Stepped
    requires { Ready car out.old }
    ensures { Gives (tick_done elapsed car (State.Asking time retries)) out.old out.new result }
{
    let left = ends::left_after(time, elapsed);
    if left != 0 {
        return wait(car, State::Asking { left, retries });
    }
    if retries == 0 {
        return choice::fall(car, Indication::NoLink);
    }
    let state = State::Asking {
        left: RESPONSE_TIME,
        retries: retries - 1,
    };
    sending::parm_req(Car { state, ..car }, out)
}

// Frame k of Sounding, with so much left to gather.
fn sound(car: Car, k: u8, gathering: u32, out: &mut [u8]) -> Stepped
    requires { Ready car out.old × (k < frame_count) }
    ensures { Gives (rule.sounds car k gathering) out.old out.new result }
{
    let state = State::Sounding {
        sent: k + 1,
        next: SPACING,
        left: gathering,
    };
    sending::sounding_frame(Car { state, ..car }, k, out)
}

// Confirmed: the first frame of Sounding.
fn confirmed(car: Car, time: u32, elapsed: u32, out: &mut [u8]) -> Stepped
    requires { Ready car out.old }
    ensures { Gives (tick_done elapsed car (State.Confirmed time)) out.old out.new result }
{
    let left = ends::left_after(time, elapsed);
    if left != 0 {
        return wait(car, State::Confirmed(left));
    }
    sound(car, 0, GATHER_TIME, out)
}

// The next frame of Sounding, while there is one: its time fires or runs down.
fn next_frame(car: Car, sent: u8, next: u32, left: u32, elapsed: u32, out: &mut [u8]) -> Stepped
    requires { Ready car out.old }
    ensures { Gives (next_frame elapsed car sent next left) out.old out.new result }
{
    if sent >= SOUNDING_FRAMES {
        return wait(car, State::Sounding { sent, next, left });
    }
    let next = ends::left_after(next, elapsed);
    if next != 0 {
        return wait(car, State::Sounding { sent, next, left });
    }
    sound(car, sent, left, out)
}

// Sounding: the choice where the gathering ends, else the next frame.
fn sounding(car: Car, sent: u8, next: u32, time: u32, elapsed: u32, out: &mut [u8]) -> Stepped
    requires { Ready car out.old × ReportsGood car }
    ensures { Gives (tick_done elapsed car (State.Sounding sent next time)) out.old out.new result }
{
    let gathering = ends::left_after(time, elapsed);
    if gathering == 0 {
        choice::choose(car, out)
    } else {
        next_frame(car, sent, next, gathering, elapsed, out)
    }
}

// Requesting: MATCH.REQ again, or no link.
fn requesting(
    car: Car,
    time: u32,
    retries: u8,
    station: StationAddress,
    elapsed: u32,
    out: &mut [u8],
) -> Stepped
    requires { Ready car out.old × (is_unicast station.0 ≡ true) }
    ensures { Gives (tick_done elapsed car (State.Requesting time retries station)) out.old out.new result }
{
    let left = ends::left_after(time, elapsed);
    if left != 0 {
        return wait(
            car,
            State::Requesting {
                left,
                retries,
                station,
            },
        );
    }
    if retries == 0 {
        return choice::fall(car, Indication::NoLink);
    }
    let state = State::Requesting {
        left: RESPONSE_TIME,
        retries: retries - 1,
        station,
    };
    sending::match_req(Car { state, ..car }, station, Indication::Nothing, out)
}

// Joining: no link where its time fires.
fn joining(car: Car, time: u32, key: Key, elapsed: u32) -> Stepped
    ensures { (out : List ℕ) → Gives (tick_done elapsed car (State.Joining time key)) out out result }
{
    let left = ends::left_after(time, elapsed);
    if left == 0 {
        choice::fall(car, Indication::NoLink)
    } else {
        wait(car, State::Joining { left, key })
    }
}

// What so many milliseconds come to in the car's state.
pub(crate) fn run(car: Car, elapsed: u32, out: &mut [u8]) -> Stepped
    requires { Ready car out.old × ReportsGood car × InState car.state }
    ensures { Gives (tick_done elapsed car car.state) out.old out.new result }
{
    match car.state {
        State::Idle | State::Matched(_) => cars::silent(car, Indication::Nothing),
        State::Asking { left, retries } => asking(car, left, retries, elapsed, out),
        State::Confirmed(left) => confirmed(car, left, elapsed, out),
        State::Sounding { sent, next, left } => sounding(car, sent, next, left, elapsed, out),
        State::Requesting {
            left,
            retries,
            station,
        } => requesting(car, left, retries, station, elapsed, out),
        State::Joining { left, key } => joining(car, left, key, elapsed),
    }
}
