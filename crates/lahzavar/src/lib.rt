// A station for C and Rust to link: lent as words and sums, answered in plain numbers.
#![tactic(auto)]

mod answers;
pub mod car_calls;
mod events;
mod frames;
pub mod map_calls;
mod maps;
mod matching;
mod storing;
mod ticks;
mod validating;

ghost use Rattle.std.specs.Prelude.{◌≡◌, not, List, [], eqb, ℕ, length};
ghost use Rattle.rules.specs.Calls as calls;
ghost use Rattle.rules.specs.Constants.{least_output};
ghost use Rattle.rules.specs.Numbers.{edition_of};
ghost use Rattle.rules.specs.Rules.{query, inspection};
ghost use Rattle.words.specs.Words.{config_of, state_of, records_of, held_count, station_of, word_count, sum_count, spread_count};
ghost use Rattle.words.specs.Wiped.{Wiped};
ghost use Rattle.lahzavar.specs.Answers.{version, Tells, inspected_as};
ghost use Rattle.lahzavar.specs.Lent.{Lent, PilotLent, own_address, Configures};

use messages::{CarAddress, GroupValues, ModemAddress, Nid, Nmk, StationAddress};
use rules::Pilot;
use words::{SPREAD, SUMS, StationSpread, StationSums, StationWords, WORDS};

// The version 0.8.0: 65536 times the major number, 256 times the minor, and the patch.
const VERSION: u32 = 65536 * 0 + 256 * 8 + 0;

// A call's answer: the refusal's number or 0; an indication (0 none, 1 no link, 2 link established); how many frames of how many octets in all.
#[repr(C)]
#[derive(Clone, Copy)]
pub struct Answered {
    pub refusal: u32,
    pub indication: u32,
    pub frames: u32,
    pub octets: u32,
}

// The service query's answer: the refusal's number or 0, and the sounds heard.
#[repr(C)]
#[derive(Clone, Copy)]
pub struct Heard {
    pub refusal: u32,
    pub sounds: u32,
}

// The inspection's answer: the refusal's number or 0, the state's number, and the car in Joining and Matched, else 0.
#[repr(C)]
#[derive(Clone, Copy)]
pub struct Inspected {
    pub refusal: u32,
    pub state: u32,
    pub car: u64,
}

// Our address, or none where the number names no edition, so that such a configuration is refused.
fn own_address(edition: u32, address: u64) -> u64
    ensures { result ≡ own_address edition address }
{
    if edition <= 1 { address } else { 0 }
}

// Configures a station; validation is required where exempt is 0, the edition is 0 for ISO and 1 for SAE, and our modem has so many carriers. A bad configuration is refused, and its station answers 16 to everything.
#[unsafe(no_mangle)]
pub extern "C" fn lahzavar_configure(
    words: &mut StationWords,
    sums: &mut StationSums,
    spread: &mut StationSpread,
    address: u64,
    modem: u64,
    nid: u64,
    first: u64,
    last: u64,
    exempt: u32,
    edition: u32,
    carriers: u32,
) -> Answered
    ensures { Configures (record { 0 = own_address edition address }) (record { 0 = modem }) (record { 0 = nid }) (record { 0 = first; 1 = last }) (not (eqb exempt 0)) (edition_of edition) carriers words.new sums.new spread.new result }
{
    storing::configure(
        words,
        sums,
        spread,
        StationAddress(own_address(edition, address)),
        ModemAddress(modem),
        Nid(nid),
        Nmk(first, last),
        exempt != 0,
        rules::edition_of(u64::from(edition)),
        carriers,
    )
}

// A frame was received: its reply stands from the output's first octet.
#[unsafe(no_mangle)]
pub extern "C" fn lahzavar_frame(
    words: &mut StationWords,
    sums: &mut StationSums,
    spread: &mut StationSpread,
    octets: &[u8],
    out: &mut [u8],
) -> Answered
    ensures { Lent (calls.frame octets.now (length out.old)) words.old sums.old spread.old out.old out.new words.new sums.new spread.new result }
{
    frames::receive(words, sums, spread, octets, out)
}

// A tick: the clock reads so much. The reports stand back to back from the first octet of the output.
#[unsafe(no_mangle)]
pub extern "C" fn lahzavar_tick(
    words: &mut StationWords,
    sums: &mut StationSums,
    spread: &mut StationSpread,
    reading: u32,
    out: &mut [u8],
) -> Answered
    ensures { Lent (calls.tick reading (length out.old)) words.old sums.old spread.old out.old out.new words.new sums.new spread.new result }
{
    ticks::tick(words, sums, spread, reading, out)
}

// The control pilot is at a state, 0 to 5 for A to F, at a clock reading. No `TryFrom`: words need the total `From`, and C is told 8 here.
#[unsafe(no_mangle)]
pub extern "C" fn lahzavar_pilot(
    words: &mut StationWords,
    sums: &mut StationSums,
    spread: &mut StationSpread,
    pilot: u32,
    reading: u32,
) -> Answered
    ensures { PilotLent pilot reading words.old sums.old spread.old [] [] words.new sums.new spread.new result }
{
    if 5 < pilot {
        return answers::no_pilot(words::config_of(words));
    }
    let at = Pilot::from(u64::from(pilot));
    events::pilot(words, sums, spread, at, reading)
}

// Matching is terminated.
#[unsafe(no_mangle)]
pub extern "C" fn lahzavar_terminate(
    words: &mut StationWords,
    sums: &mut StationSums,
    spread: &mut StationSpread,
) -> Answered
    ensures { Lent calls.terminate words.old sums.old spread.old [] [] words.new sums.new spread.new result }
{
    events::terminate(words)
}

// The link to the car that joins is up.
#[unsafe(no_mangle)]
pub extern "C" fn lahzavar_link_up(
    words: &mut StationWords,
    sums: &mut StationSums,
    spread: &mut StationSpread,
) -> Answered
    ensures { Lent calls.link_up words.old sums.old spread.old [] [] words.new sums.new spread.new result }
{
    events::link_up(words)
}

// Wipes a station, its key too: it answers 16 to everything.
#[unsafe(no_mangle)]
pub extern "C" fn lahzavar_wipe(
    words: &mut StationWords,
    sums: &mut StationSums,
    spread: &mut StationSpread,
)
    ensures { Wiped words.new sums.new spread.new }
{
    words::wipe(words, sums, spread);
}

// The service query: how many sounds a car's run has heard, and the least and greatest value of each group, which fill the lent arrays; a refusal leaves them.
#[unsafe(no_mangle)]
pub extern "C" fn lahzavar_query(
    words: &StationWords,
    sums: &StationSums,
    spread: &StationSpread,
    car: u64,
    least: &mut GroupValues,
    greatest: &mut GroupValues,
) -> Heard
    ensures { Tells (query (station_of words.now sums.now spread.now) (record { 0 = car })) least.old greatest.old least.new greatest.new result }
{
    let station = words::unpack(words, sums, spread);
    answers::told(rules::query(station, CarAddress(car)), least, greatest)
}

// The inspection: the state, 0 Unmatched, 1 Matching, 2 Joining, 3 Matched, and the car in the last two.
#[unsafe(no_mangle)]
pub extern "C" fn lahzavar_inspect(words: &StationWords) -> Inspected
    ensures { result ≡ inspected_as (inspection (config_of words.now) (state_of words.now)) }
{
    answers::inspected(rules::inspect(words::config_of(words), words::state_of(words)))
}

// How many records are held.
#[unsafe(no_mangle)]
pub extern "C" fn lahzavar_records_held(words: &StationWords) -> u32
    ensures { (sums spread : List ℕ) → result ≡ held_count (records_of words.now sums spread) }
{
    words::held_count(words)
}

// The version.
#[unsafe(no_mangle)]
pub extern "C" fn lahzavar_version() -> u32
    ensures { result ≡ version }
{
    VERSION
}

// How many words a station has.
#[unsafe(no_mangle)]
pub extern "C" fn lahzavar_words() -> u32
    ensures { result ≡ word_count }
{
    WORDS as u32
}

// How many sums a station has.
#[unsafe(no_mangle)]
pub extern "C" fn lahzavar_sums() -> u32
    ensures { result ≡ sum_count }
{
    SUMS as u32
}

// How many octets the spread of a station has.
#[unsafe(no_mangle)]
pub extern "C" fn lahzavar_spread() -> u32
    ensures { result ≡ spread_count }
{
    SPREAD as u32
}

// The least output that a frame or a tick asks for.
#[unsafe(no_mangle)]
pub extern "C" fn lahzavar_least_output() -> u32
    ensures { result ≡ least_output }
{
    rules::LEAST_OUTPUT as u32
}
