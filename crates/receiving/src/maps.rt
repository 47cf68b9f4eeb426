// AMP_MAP.REQ in Matched, and AMP_MAP.CNF.
ghost use Rattle.std.specs.Prelude.{length};
ghost use Rattle.receiving.specs.Maps.{confirms, map_answer};
ghost use Rattle.ends.specs.Sending.{Says};

use amplitude::Sender;
use ends::{Answer, Indication};
use messages::{CarAddress, Receiver, Refusal};
use rules::Configuration;

// AMP_MAP.CNF for success to a car, from the output's first octet; or what writing refuses.
fn confirm(config: Configuration, car: CarAddress, out: &mut [u8]) -> Answer
    ensures { Says (confirms config car (length out.old)) out.old out.new result }
{
    let written = amplitude::write_cnf(Receiver(car.0), Sender(config.address.0), true, out);
    ends::told(written, Indication::Nothing)
}

// AMP_MAP.REQ of a car with its number of carriers, where the owner is matched: 11, 24, or AMP_MAP.CNF.
#[tactic(auto, unfolding(rules::specs::Records::same_car, ends::specs::Lists::joins, octets::specs::Octets::splice))]
pub fn answer(
    config: Configuration,
    owner: CarAddress,
    car: CarAddress,
    carriers: usize,
    out: &mut [u8],
) -> Answer
    ensures { Says (map_answer config owner car carriers (length out.old)) out.old out.new result }
{
    if car != owner {
        return Err(Refusal::NoRecord);
    }
    if carriers != config.carriers as usize {
        return Err(Refusal::OtherCarrierCount);
    }
    confirm(config, car, out)
}
