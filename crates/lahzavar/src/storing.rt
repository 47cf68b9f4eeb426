// Storing what a call by value came to.
ghost use Rattle.rules.specs.Invariant.{Invariant};
ghost use Rattle.lahzavar.specs.Lent.{Configures};
ghost use Rattle.lahzavar.specs.Storing.{Settles};

use crate::{Answered, answers};
use messages::{Edition, ModemAddress, Nid, Nmk, StationAddress};
use rules::Stepped;
use words::{StationSpread, StationSums, StationWords};

// Stores the station of an accepted call; of a refused one, nothing.
pub(crate) fn settle(
    words: &mut StationWords,
    sums: &mut StationSums,
    spread: &mut StationSpread,
    stepped: Stepped,
) -> Answered
    requires { Invariant stepped.station }
    ensures { Settles stepped words.old sums.old spread.old words.new sums.new spread.new result }
{
    let said = answers::answered(stepped.answer);
    // By the number that C is told: `Settles` says by it what is stored.
    if said.refusal != 0 {
        return said;
    }
    words::pack(stepped.station, words, sums, spread);
    said
}

// Stores the station that configuring gives.
pub(crate) fn configure(
    words: &mut StationWords,
    sums: &mut StationSums,
    spread: &mut StationSpread,
    address: StationAddress,
    modem: ModemAddress,
    nid: Nid,
    nmk: Nmk,
    exempt: bool,
    edition: Edition,
    carriers: u32,
) -> Answered
    ensures { Configures address modem nid nmk exempt edition carriers words.new sums.new spread.new result }
{
    let made = rules::configure(address, modem, nid, nmk, exempt, edition, carriers);
    words::pack(made.station, words, sums, spread);
    answers::answered(made.answer)
}
