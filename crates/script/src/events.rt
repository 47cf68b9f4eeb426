// An event's first octets, of the station's script and of the car's.
ghost use Rattle.std.specs.Prelude.{◌≡◌};
ghost use Rattle.octets.specs.Octets.{low_value};
ghost use Rattle.script.specs.Private.{Heads};

use crate::{EVENT_OCTETS, MOST_OCTETS};

// An event's kind, its clock reading and its room.
#[derive(Clone, Copy)]
pub(crate) struct EventHead {
    pub(crate) kind: u64,
    pub(crate) reading: u32,
    pub(crate) room: usize,
}

// A number: four octets, low octet first.
#[tactic(auto, using(octets::proofs::OctetLaws::low_lt))]
pub(crate) fn number_at(octets: &[u8], at: usize) -> u32
    ensures { result ≡ low_value octets.now at 4 }
{
    octets::low_number_at(octets, at, 4) as u32
}

// What an event's first octets tell, where it has as many octets as it tells, and neither they nor its room are too many.
pub(crate) fn head_of(event: &[u8]) -> Option<EventHead>
    ensures { Heads event.now result }
{
    let room = number_at(event, 8) as usize;
    let length = number_at(event, 12) as usize;
    let is_sized = room <= MOST_OCTETS
        && length <= MOST_OCTETS
        && event.len() == EVENT_OCTETS + length;
    is_sized.then_some(EventHead {
        kind: u64::from(number_at(event, 0)),
        reading: number_at(event, 4),
        room,
    })
}
