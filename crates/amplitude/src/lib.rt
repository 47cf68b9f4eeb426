// Amplitude maps (ISO 15118-3 A.9.6 over HomePlug Green PHY): reading and writing their two messages, and the reductions that a map asks for.
#![tactic(auto)]

mod halves;
mod levels;
mod reader;
mod writer;

ghost use Rattle.std.specs.Prelude.{◌≡◌, length};
ghost use Rattle.octets.specs.Octets.{splice};
ghost use Rattle.messages.specs.Writing.{length_of, octets_of};
ghost use Rattle.messages.specs.Answers.{checked_of};
ghost use Rattle.amplitude.specs.Maps.{amp_map_req, amp_map_cnf, is_carriers};
ghost use Rattle.amplitude.specs.Reading.{read_rules, summary_of, values_rules};
ghost use Rattle.amplitude.specs.Writing.{write_rules};
ghost use Rattle.amplitude.specs.Reductions.{reduce_rules};
ghost use Rattle.amplitude.specs.Answers.{result_of, answer_of};

use messages::heads::{LEAST, padded_size, type_in};
use messages::{Receiver, Refusal};
use reader::Addresses;

// Who sends a frame: its source as a number, first octet most significant.
#[derive(Clone, Copy, PartialEq, Eq)]
pub struct Sender(pub u64);

// CM_AMP_MAP.REQ without its values, or CM_AMP_MAP.CNF.
#[derive(Clone, Copy)]
pub enum MapMessage {
    AmpMapReq {
        receiver: Receiver,
        sender: Sender,
        carriers: usize,
    },
    AmpMapCnf {
        receiver: Receiver,
        sender: Sender,
        success: bool,
    },
}

// The most carriers.
pub const CARRIER_LIMIT: usize = 1155;

// Whether there can be n carriers: AMLEN.
pub fn is_carriers(n: usize) -> bool
    ensures { result ≡ is_carriers n }
{
    1 <= n && n <= CARRIER_LIMIT
}

// Reads a frame: any octets, of any length.
#[tactic(auto, using(crate::proofs::ReadLaws::reads_typed, crate::proofs::ReadLaws::reads_refused))]
pub fn read(frame: &[u8]) -> Result<MapMessage, Refusal>
    ensures { answer_of result ≡ summary_of (read_rules frame.now) }
{
    reader::by_type(frame, type_in(frame)?)
}

// Puts the values of a request, one for each carrier, into a slice from its first place, and gives how many; a refusal changes nothing.
pub fn values(frame: &[u8], out: &mut [u8]) -> Result<usize, Refusal>
    ensures result_value { checked_of result ≡ length_of (values_rules frame.now (length out.old)) }
    ensures out_after { out.new ≡ splice 0 (octets_of (values_rules frame.now (length out.old))) out.old }
{
    let MapMessage::AmpMapReq { carriers, .. } = read(frame)? else {
        return Err(Refusal::UnknownType);
    };
    if out.len() < carriers {
        return Err(Refusal::OutputTooShort);
    }
    let end = reader::MAP + halves::octets_for(carriers);
    halves::unpack(&frame[reader::MAP..end], carriers, out);
    Ok(carriers)
}

// Writes the frame of CM_AMP_MAP.REQ, with a value for each carrier, from the first octet of an output, and gives its length; a refusal changes nothing.
pub fn write_req(
    receiver: Receiver,
    sender: Sender,
    values: &[u8],
    out: &mut [u8],
) -> Result<usize, Refusal>
    ensures result_value { checked_of result ≡ length_of (write_rules (amp_map_req receiver.0 sender.0 values.now) (length out.old)) }
    ensures out_after { out.new ≡ splice 0 (octets_of (write_rules (amp_map_req receiver.0 sender.0 values.now) (length out.old))) out.old }
{
    let addresses = Addresses { receiver, sender };
    let addressed = addresses.are_unicast();
    let limited = halves::is_map(values);
    let whole = padded_size(reader::MAP + halves::octets_for(values.len()));
    let octets = writer::judge(addressed, limited, whole, out.len())?;
    writer::put_req(addresses, values, whole, out);
    Ok(octets)
}

// Writes the frame of CM_AMP_MAP.CNF, and gives its length; a refusal changes nothing.
pub fn write_cnf(
    receiver: Receiver,
    sender: Sender,
    success: bool,
    out: &mut [u8],
) -> Result<usize, Refusal>
    ensures result_value { checked_of result ≡ length_of (write_rules (amp_map_cnf receiver.0 sender.0 (result_of success)) (length out.old)) }
    ensures out_after { out.new ≡ splice 0 (octets_of (write_rules (amp_map_cnf receiver.0 sender.0 (result_of success)) (length out.old))) out.old }
{
    let addresses = Addresses { receiver, sender };
    let addressed = addresses.are_unicast();
    let octets = writer::judge(addressed, true, LEAST, out.len())?;
    writer::put_cnf(addresses, success, out);
    Ok(octets)
}

// Puts the reduction of each carrier, for a request's values and our levels in dBm/Hz, into a slice from its first place, and gives how many; a refusal changes nothing.
pub fn reduce(values: &[u8], levels: &[i16], out: &mut [u8]) -> Result<usize, Refusal>
    ensures result_value { checked_of result ≡ length_of (reduce_rules values.now levels.now (length out.old)) }
    ensures out_after { out.new ≡ splice 0 (octets_of (reduce_rules values.now levels.now (length out.old))) out.old }
{
    let n = values.len();
    if !halves::is_map(values) {
        return Err(Refusal::BadOctet);
    }
    if n != levels.len() {
        return Err(Refusal::OtherCarrierCount);
    }
    if !levels::are_levels(levels) {
        return Err(Refusal::BadConfiguration);
    }
    if out.len() < n {
        return Err(Refusal::OutputTooShort);
    }
    levels::put_reductions(values, levels, out);
    Ok(n)
}
