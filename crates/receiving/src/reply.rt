// The messages of the replies to a car: PARM.CNF, the report ATTEN_CHAR.IND, VALIDATE.CNF, MATCH.CNF.
ghost use Rattle.std.specs.Prelude.{◌≡◌, map};
ghost use Rattle.messages.specs.Answers.{message_of};
ghost use Rattle.messages.specs.Reading.{Beside, no_id};
ghost use Rattle.rules.specs.Replies.{mean, parm_cnf, match_cnf, confirmation, report_of, message_to};

use messages::{Attempt, CarAddress, Message, RunId};
use rules::{Configuration, Record, tries};

// PARM.CNF of a run, in a first or a later try.
pub fn parm_cnf(config: Configuration, car: CarAddress, later: bool, run: RunId) -> Message
    ensures { (b : Beside) → message_of config.edition result b ≡ message_to config car (parm_cnf later run) }
{
    Message::SlacParmCnf {
        station: config.address,
        car,
        attempt: Attempt(tries::pair(config.edition, later)),
        run,
    }
}

// The report of a record, to which its group values belong, and no identifiers.
pub fn report(config: Configuration, car: CarAddress, r: Record) -> Message
    ensures { message_of config.edition result (record { groups = map (mean r.profiles) r.sums; first = no_id; second = no_id }) ≡ message_to config car (report_of r) }
{
    Message::AttenCharInd {
        station: config.address,
        car,
        run: r.run,
        sounds: r.profiles,
        count: tries::groups_in(config.edition, r.groups),
    }
}

// VALIDATE.CNF with toggles and a result.
pub fn validate_cnf(config: Configuration, car: CarAddress, toggles: u8, res: u8) -> Message
    ensures { (b : Beside) → message_of config.edition result b ≡ message_to config car (confirmation toggles res) }
{
    Message::ValidateCnf {
        station: config.address,
        car,
        toggles,
        result: res,
    }
}

// MATCH.CNF of a run, to which two identifiers belong.
pub fn match_cnf(config: Configuration, car: CarAddress, run: RunId) -> Message
    ensures { (b : Beside) → message_of config.edition result b ≡ message_to config car (match_cnf run b.first b.second) }
{
    Message::SlacMatchCnf {
        station: config.address,
        car,
        run,
        nid: config.nid,
        nmk: config.nmk,
    }
}
