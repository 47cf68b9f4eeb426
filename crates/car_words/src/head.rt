// The head: the configuration, the state, the clock, the run and the random value.
ghost use Rattle.std.specs.Prelude.{◌^◌, ◌<◌, ◌≡◌};
ghost use Rattle.std.proofs.lemmas.List.Edits.{sets};
ghost use Rattle.car_words.specs.Words.{config_of, state_of};
ghost use Rattle.car_words.specs.Written.{head_of};

use crate::{CarWords, HEAD, fields};
use car_rules::{Car, Configuration, Key, State};
use messages::{CarAddress, Nid, Nmk, StationAddress};

// The configuration.
pub(crate) fn config(words: &CarWords) -> Configuration
    ensures { result ≡ config_of words.now }
{
    let address = CarAddress(words[1]);
    let reference = ends::fields::low(words[2]);
    Configuration {
        good: words[0] == 1 && car_rules::is_good(address, reference),
        address,
        reference,
    }
}

// The state.
pub fn state_of(words: &CarWords) -> State
    ensures { result ≡ state_of words.now }
{
    let key = Key {
        station: StationAddress(words[7]),
        nid: Nid(words[8]),
        nmk: Nmk(words[9], words[10]),
    };
    fields::state(words[3], words[4], words[5], words[6], key)
}

// The words of the head.
fn head_words(car: Car) -> [u64; HEAD]
    ensures { (result ≡ head_of car) × ((car.config.reference < 2 ^ 32) × (car.clock < 2 ^ 32)) }
{
    let state = car.state;
    let key = fields::state_key(state);
    [
        u64::from(car.config.good),
        car.config.address.0,
        u64::from(car.config.reference),
        u64::from(crate::state_number(state)),
        u64::from(fields::state_time(state)),
        u64::from(fields::state_count(state)),
        u64::from(fields::state_next(state)),
        key.station.0,
        key.nid.0,
        key.nmk.0,
        key.nmk.1,
        u64::from(car.clock),
        car.run.0,
        car.random.0,
        car.random.1,
        car.count as u64,
    ]
}

// Stores the head.
pub(crate) fn put(words: &mut CarWords, car: Car)
    ensures { (words.new ≡ sets words.old 0 (head_of car)) × ((car.config.reference < 2 ^ 32) × (car.clock < 2 ^ 32)) }
{
    ends::runs::put_words(&head_words(car), words, 0);
}
