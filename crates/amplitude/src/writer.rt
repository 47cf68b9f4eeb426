// Writing the frame of each message.
ghost use Rattle.std.specs.Prelude.{◌≡◌, true, ◌≤◌, length};
ghost use Rattle.std.proofs.lemmas.List.Edits.{sets};
ghost use Rattle.messages.specs.Answers.{checked_of};
ghost use Rattle.amplitude.specs.Halves.{are_halves};
ghost use Rattle.amplitude.specs.Maps.{amp_map_req, amp_map_cnf};
ghost use Rattle.amplitude.specs.Writing.{frame, length_in};
ghost use Rattle.amplitude.specs.Answers.{result_of};
ghost use Rattle.amplitude.specs.Private.{judged};

use crate::halves::{octets_for, pack};
use crate::reader::{Addresses, CNF, MAP, REQ};
use messages::Refusal;
use messages::heads::{HEAD, LEAST, put_head};
use octets::{put_low_number, put_number};

// What writing answers, by its tests, the length of the frame and that of the output.
pub(crate) fn judge(
    addressed: bool,
    limited: bool,
    whole: usize,
    room: usize,
) -> Result<usize, Refusal>
    ensures { checked_of result ≡ judged addressed limited whole room }
{
    if !addressed {
        return Err(Refusal::BadAddress);
    }
    if !limited {
        return Err(Refusal::BadOctet);
    }
    if room < whole {
        return Err(Refusal::OutputTooShort);
    }
    Ok(whole)
}

// Puts the frame of CM_AMP_MAP.REQ, of so many octets, into an output.
#[tactic(auto, using(crate::proofs::WriteLaws::req_stored))]
pub(crate) fn put_req(addresses: Addresses, values: &[u8], whole: usize, out: &mut [u8])
    requires values_value { are_halves values.now ≡ true }
    requires whole_value { (whole ≡ length_in (amp_map_req addresses.receiver.0 addresses.sender.0 values.now)) × (whole ≤ length out.old) }
    ensures { out.new ≡ sets out.old 0 (frame (amp_map_req addresses.receiver.0 addresses.sender.0 values.now)) }
{
    let n = values.len();
    let end = MAP + octets_for(n);
    put_head(out, addresses.receiver.0, addresses.sender.0, REQ);
    put_low_number(out, HEAD, 2, n as u64);
    pack(values, out, MAP);
    put_number(out, end, whole - end, 0);
}

// Puts the frame of CM_AMP_MAP.CNF into an output.
pub(crate) fn put_cnf(addresses: Addresses, success: bool, out: &mut [u8])
    ensures { out.new ≡ sets out.old 0 (frame (amp_map_cnf addresses.receiver.0 addresses.sender.0 (result_of success))) }
{
    let end = HEAD + 1;
    put_head(out, addresses.receiver.0, addresses.sender.0, CNF);
    put_number(out, HEAD, 1, u64::from(!success));
    put_number(out, end, LEAST - end, 0);
}
