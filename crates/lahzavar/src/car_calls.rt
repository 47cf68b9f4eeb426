// A car for C and Rust to link: lent as words, answered in plain numbers. Each call is a function of its own name: the C interface.
ghost use Rattle.std.specs.Prelude.{◌≡◌, [], length};
ghost use Rattle.messages.specs.Answers.{checked_of};
ghost use Rattle.car_rules.specs.Calls as calls;
ghost use Rattle.car_rules.specs.Constants.{least_output};
ghost use Rattle.car_rules.specs.Invariant.{Invariant};
ghost use Rattle.car_rules.specs.Rules.{key_query};
ghost use Rattle.car_words.specs.Wiped.{Wiped};
ghost use Rattle.car_words.specs.Words.{word_count, state_of, car_of};
ghost use Rattle.car_words.specs.Written.{state_number};
ghost use Rattle.lahzavar.specs.Car.{Lent, Configures, Settles, key_as};

use crate::{Answered, answers};
use car_rules::{Key, Stepped};
use car_words::CarWords;
use messages::{CarAddress, Random, Refusal, RunId};

// The key query's answer: the refusal's number or 0, the station's address, its NID, and the first and last eight octets of its NMK.
#[repr(C)]
#[derive(Clone, Copy)]
pub struct KeyAnswered {
    pub refusal: u32,
    pub station: u64,
    pub nid: u64,
    pub first: u64,
    pub last: u64,
}

// Stores the car of an accepted call; of a refused one, nothing.
fn settle(words: &mut CarWords, stepped: Stepped) -> Answered
    requires { Invariant stepped.car }
    ensures { Settles stepped words.old words.new result }
{
    let said = answers::answered(stepped.answer);
    // By the number that C is told: `Settles` says by it what is stored.
    if said.refusal != 0 {
        return said;
    }
    car_words::pack(stepped.car, words);
    said
}

// Configures a car; a bad configuration is refused, and its car answers 16 to everything.
#[unsafe(no_mangle)]
pub extern "C" fn lahzavar_configure_car(
    words: &mut CarWords,
    address: u64,
    reference: u32,
) -> Answered
    ensures { Configures (record { 0 = address }) reference words.new result }
{
    let made = car_rules::configure(CarAddress(address), reference);
    car_words::pack(made.car, words);
    answers::answered(made.answer)
}

// A matching starts, with a run and a random value, at a clock reading: PARM.REQ stands from the output's first octet.
#[unsafe(no_mangle)]
pub extern "C" fn lahzavar_start_car(
    words: &mut CarWords,
    run: u64,
    first: u64,
    last: u64,
    reading: u32,
    out: &mut [u8],
) -> Answered
    ensures { Lent (calls.start (record { 0 = run }) (record { 0 = first; 1 = last }) reading (length out.old)) words.old out.old out.new words.new result }
{
    let car = car_words::unpack(words);
    let random = Random(first, last);
    let stepped = car::start(car, RunId(run), random, reading, out);
    settle(words, stepped)
}

// A frame was received: its reply stands from the output's first octet.
#[unsafe(no_mangle)]
pub extern "C" fn lahzavar_frame_car(
    words: &mut CarWords,
    octets: &[u8],
    out: &mut [u8],
) -> Answered
    ensures { Lent (calls.frame octets.now (length out.old)) words.old out.old out.new words.new result }
{
    let car = car_words::unpack(words);
    let stepped = car::frame(car, octets, out);
    settle(words, stepped)
}

// A tick: the clock reads so much. What is sent stands from the output's first octet.
#[unsafe(no_mangle)]
pub extern "C" fn lahzavar_tick_car(words: &mut CarWords, reading: u32, out: &mut [u8]) -> Answered
    ensures { Lent (calls.tick reading (length out.old)) words.old out.old out.new words.new result }
{
    let car = car_words::unpack(words);
    let stepped = car::tick(car, reading, out);
    settle(words, stepped)
}

// The link to the station that the car joins is up.
#[unsafe(no_mangle)]
pub extern "C" fn lahzavar_link_up_car(words: &mut CarWords) -> Answered
    ensures { Lent calls.link_up words.old [] [] words.new result }
{
    let car = car_words::unpack(words);
    let stepped = car::link_up(car);
    settle(words, stepped)
}

// The matching is terminated.
#[unsafe(no_mangle)]
pub extern "C" fn lahzavar_terminate_car(words: &mut CarWords) -> Answered
    ensures { Lent calls.terminate words.old [] [] words.new result }
{
    let car = car_words::unpack(words);
    let stepped = car::terminate(car);
    settle(words, stepped)
}

// An answer of the key query as plain numbers.
fn key_answered(answer: Result<Key, Refusal>) -> KeyAnswered
    ensures { result ≡ key_as (checked_of answer) }
{
    match answer {
        Err(refusal) => KeyAnswered {
            refusal: u32::from(refusal),
            station: 0,
            nid: 0,
            first: 0,
            last: 0,
        },
        Ok(key) => KeyAnswered {
            refusal: 0,
            station: key.station.0,
            nid: key.nid.0,
            first: key.nmk.0,
            last: key.nmk.1,
        },
    }
}

// The key query: the station that the car joins or has joined, with its NID and NMK.
#[unsafe(no_mangle)]
pub extern "C" fn lahzavar_key_of_car(words: &CarWords) -> KeyAnswered
    ensures { result ≡ key_as (key_query (car_of words.now)) }
{
    let car = car_words::unpack(words);
    key_answered(car_rules::key_query(car))
}

// The state: 0 Idle, 1 Asking, 2 Confirmed, 3 Sounding, 4 Requesting, 5 Joining, 6 Matched.
#[unsafe(no_mangle)]
pub extern "C" fn lahzavar_state_of_car(words: &CarWords) -> u32
    ensures { result ≡ state_number (state_of words.now) }
{
    car_words::state_number(car_words::state_of(words))
}

// Wipes a car, its key too: it answers 16 to everything.
#[unsafe(no_mangle)]
pub extern "C" fn lahzavar_wipe_car(words: &mut CarWords)
    ensures { Wiped words.new }
{
    car_words::wipe(words);
}

// How many words a car has.
#[unsafe(no_mangle)]
pub extern "C" fn lahzavar_words_of_car() -> u32
    ensures { result ≡ word_count }
{
    car_words::WORDS as u32
}

// The least output that a start, a frame or a tick of a car asks for.
#[unsafe(no_mangle)]
pub extern "C" fn lahzavar_least_output_of_car() -> u32
    ensures { result ≡ least_output }
{
    car_rules::LEAST_OUTPUT as u32
}
