// A charging station's calls in place: each is lent the station and stores the one that the call by value returned.
// Five calls of three lines each: a closure for the call in the middle would carry the whole promise of each, which is no plainer.
// `Invariant` is asked for, as by `station`, which says why.
#![tactic(auto)]

ghost use Rattle.std.specs.Prelude.{◌≡◌, [], length};
ghost use Rattle.rules.specs.Calls as calls;
ghost use Rattle.rules.specs.Invariant.{Invariant};
ghost use Rattle.rules.specs.Rules as rules;
ghost use Rattle.rules.specs.Answers.{heard_of};
ghost use Rattle.driver.specs.InPlace.{InPlace};

use ends::Answer;
use messages::{CarAddress, Refusal};
use rules::{Heard, Pilot, Station};

// A frame was received: its reply stands from the output's first octet.
pub fn frame(s: &mut Station, octets: &[u8], out: &mut [u8]) -> Answer
    requires { Invariant s.old }
    ensures { InPlace s.old (calls.frame octets.now (length out.old)) out.old out.new s.new result }
{
    let r = station::frame(*s, octets, out);
    *s = r.station;
    r.answer
}

// A tick: the clock reads so much. The reports stand back to back from the first octet of the output.
pub fn tick(s: &mut Station, reading: u32, out: &mut [u8]) -> Answer
    requires { Invariant s.old }
    ensures { InPlace s.old (calls.tick reading (length out.old)) out.old out.new s.new result }
{
    let r = station::tick(*s, reading, out);
    *s = r.station;
    r.answer
}

// The control pilot is at a state, at a clock reading.
pub fn pilot(s: &mut Station, pilot: Pilot, reading: u32) -> Answer
    requires { Invariant s.old }
    ensures { InPlace s.old (calls.pilot pilot reading) [] [] s.new result }
{
    let r = station::pilot(*s, pilot, reading);
    *s = r.station;
    r.answer
}

// Matching is terminated.
pub fn terminate(s: &mut Station) -> Answer
    requires { Invariant s.old }
    ensures { InPlace s.old calls.terminate [] [] s.new result }
{
    let r = station::terminate(*s);
    *s = r.station;
    r.answer
}

// The link to the car that joins is up.
pub fn link_up(s: &mut Station) -> Answer
    requires { Invariant s.old }
    ensures { InPlace s.old calls.link_up [] [] s.new result }
{
    let r = station::link_up(*s);
    *s = r.station;
    r.answer
}

// The service query: how many sounds a car's run has heard, and the least and greatest value of each group.
pub fn query(s: &Station, car: CarAddress) -> Result<Heard, Refusal>
    ensures { heard_of result ≡ rules.query s.now car }
{
    rules::query(*s, car)
}
