// What queries tell, in octets behind a reply's first ones.
ghost use Rattle.std.specs.Prelude.{◌≡◌, ◌≤◌, ◌+◌, ◌*◌, ℕ, List, length};
ghost use Rattle.std.proofs.lemmas.List.Edits.{sets};
ghost use Rattle.messages.specs.Table.{group_count};
ghost use Rattle.script.specs.Events.{most_octets};
ghost use Rattle.script.specs.Replies.{reply_octets, key_octets};
ghost use Rattle.script.specs.Private.{heard_octets, state_octets};

use crate::REPLY_OCTETS;
use car_rules::Key;
use messages::GROUPS;
use rules::{Heard, Inspected};

// What a query tells.
pub(crate) trait Told: Copy {
    ghost SIZE: { ℕ };

    ghost octets: { Self → List ℕ };

    // How many octets it takes.
    const SIZE: usize;

    // Writes them.
    fn put(self, out: &mut [u8])
        ensures put { out.new ≡ sets out.old reply_octets (octets self) }
        ensures size { (length (octets self) ≡ SIZE) × (SIZE ≤ most_octets) };
}

// The key query tells the station's address, NID and NMK.
impl Told for Key {
    ghost SIZE = { 29 };

    ghost octets = { key_octets };

    const SIZE: usize = 29;

    #[tactic(auto, using(crate::proofs::ReplyLaws::key_put, crate::proofs::ReplyLaws::key_length))]
    fn put(self, out: &mut [u8]) {
        octets::put_number(out, REPLY_OCTETS, 6, self.station.0);
        octets::put_low_number(out, REPLY_OCTETS + 6, 7, self.nid.0);
        octets::put_number(out, REPLY_OCTETS + 13, 8, self.nmk.0);
        octets::put_number(out, REPLY_OCTETS + 21, 8, self.nmk.1);
    }
}

// The service query tells the sounds heard, the least and the greatest values.
impl Told for Heard {
    ghost SIZE = { 4 + 2 * group_count };

    ghost octets = { heard_octets };

    const SIZE: usize = 4 + 2 * GROUPS;

    #[tactic(auto, using(crate::proofs::ReplyLaws::told_put, crate::proofs::ReplyLaws::told_length))]
    fn put(self, out: &mut [u8]) {
        octets::put_low_number(out, REPLY_OCTETS, 4, u64::from(self.sounds));
        octets::copy(&self.spread.least, 0, GROUPS, out, REPLY_OCTETS + 4);
        octets::copy(
            &self.spread.greatest,
            0,
            GROUPS,
            out,
            REPLY_OCTETS + 4 + GROUPS,
        );
    }
}

// The inspection tells the state and the car.
impl Told for Inspected {
    ghost SIZE = { 10 };

    ghost octets = { state_octets };

    const SIZE: usize = 10;

    #[tactic(auto, using(crate::proofs::ReplyLaws::inspected_put, crate::proofs::ReplyLaws::inspected_length))]
    fn put(self, out: &mut [u8]) {
        octets::put_low_number(out, REPLY_OCTETS, 4, u64::from(self.state));
        octets::put_number(out, REPLY_OCTETS + 4, 6, self.car.0);
    }
}
